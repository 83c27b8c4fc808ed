//! Strings of calls, from the opening of a planner on.
#![tactic(auto)]

mod nothing;
mod spare;
mod strings;

pub use strings::run;
