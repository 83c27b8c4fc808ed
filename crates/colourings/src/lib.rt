//! The theory of colourings.
#![tactic(auto)]

ghost use Rattle.colourings.specs.Theorems.{UsesAll};

/// Where one colour fewer does not suffice, every colour is used.
pub fn stands()
    ensures { UsesAll }
{}
