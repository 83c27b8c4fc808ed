//! The theory of colouring a small graph place after place.
#![tactic(auto)]

ghost use Rattle.placings.specs.Theorems.{OneNewEnough};

/// At each place one colour that is not in use yet stands for all such.
pub fn placings_stand()
    ensures { OneNewEnough }
{}
