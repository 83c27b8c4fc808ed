//! Sheets read into list forms, and written again.
#![tactic(auto)]

mod laying_out;
mod loading;
mod rounds;

pub use loading::{load, read};
pub use rounds::{reread, rewrite};
