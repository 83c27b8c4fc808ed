//! Kernel pictures: graphs of at most 256 places, as rows of bits.
#![tactic(auto)]

mod shape;

pub use shape::Kernel;
