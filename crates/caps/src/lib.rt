//! What cores, communities and the bound say of cliques and colourings.
#![tactic(auto)]

ghost use Rattle.caps.specs.Theorems.{CoresShrink, CommunitiesShrink, OneNumber, OneCap, CliqueCommunity, CapBounds, CoreRule};

/// Cores and communities shrink as the threshold grows, and a graph has one community number.
pub fn levels_stand()
    ensures cores { CoresShrink }
    ensures communities { CommunitiesShrink }
    ensures one { OneNumber }
{}

/// The edges of a clique of k vertices are tight at k - 2, and no clique has more vertices than the bound.
pub fn cliques_stand()
    ensures community { CliqueCommunity }
    ensures bound { CapBounds }
    ensures one { OneCap }
{}

/// A graph can be coloured with k colours exactly when its t-core can, for t up to k.
pub fn core_rule_stands()
    ensures { CoreRule }
{}
