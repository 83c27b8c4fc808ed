//! The planner: finds how many drives a stock needs, call by call.
#![tactic(auto)]

mod planner;

pub use planner::{Planner, Slip};
