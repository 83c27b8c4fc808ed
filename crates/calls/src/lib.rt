//! What a planner can be asked, what it answers, and what each answer has to be.
#![tactic(auto)]

pub mod call;
pub mod row;
pub mod standing;
