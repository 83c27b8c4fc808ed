//! The theory of the removal order, degeneracy and greedy colouring.
#![tactic(auto)]

ghost use Rattle.degeneracy.specs.Theorems.{SomeOrder};

/// Every graph has a removal order.
pub fn stands()
    ensures { SomeOrder }
{}
