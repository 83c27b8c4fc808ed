//! The theory of rows that are laid out edge by edge.
#![tactic(auto)]

ghost use Rattle.listing.specs.Listing.{AllLaid, StartsTold};

/// The rows of all edges are the list form of their graph, and every list form begins its rows where these begin.
pub fn listing_stands()
    ensures all { AllLaid }
    ensures starts { StartsTold }
{}
