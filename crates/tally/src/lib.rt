//! Clashes are counted first, and then laid into rows: the two states of filling a list form.
#![tactic(auto)]

mod laying;
mod state;

pub use laying::Laying;
pub use state::{Tally, Totals};
