//! The theory of taking vertices out and putting them back.
#![tactic(auto)]

ghost use Rattle.peels.specs.Theorems.{KernelTells, LeastColours, UsedSuffice, OneWayBack, BackColoured, PictureTells};

/// What is left after peeling at the size of a clique decides from there on.
pub fn kernels_stand()
    ensures { KernelTells }
{}

/// The first number of colours that suffices is used in full, and is the least.
pub fn drives_stand()
    ensures least { LeastColours }
    ensures enough { UsedSuffice }
{}

/// There is one way to put back, and it colours the whole graph.
pub fn backs_stand()
    ensures one { OneWayBack }
    ensures coloured { BackColoured }
{}

/// The places of a picture have the colourings of the set that they show.
pub fn pictures_stand()
    ensures { PictureTells }
{}
