//! The theory of items with a support.
#![tactic(auto)]

ghost use Rattle.supports.specs.Levels.{Shrinks, OneLargest};

/// What stays at a threshold is one set, and it shrinks as the threshold grows.
pub fn stands()
    ensures one { OneLargest }
    ensures shrinks { Shrinks }
{}
