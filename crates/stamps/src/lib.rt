// A table of the neighbours of a vertex, which turns from one vertex to the next without being cleared.
#![tactic(auto)]

mod table;
mod writing;

pub use table::Stamps;
