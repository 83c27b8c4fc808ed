//! How far a planner is: its order, block, plan and kernel, over the graph that it holds.
#![tactic(auto)]

pub mod state;

pub use state::Progress;
