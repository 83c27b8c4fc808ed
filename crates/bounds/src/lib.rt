// Bounds on the size of the cliques of a picture.
#![tactic(auto)]

mod bound;
mod by_class;
mod by_size;

pub use bound::Bound;
pub use by_class::{ClassBound, Partition, classes};
pub use by_size::SizeBound;
