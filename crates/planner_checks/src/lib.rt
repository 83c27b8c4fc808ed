//! The planner's calls on small stocks, with the answers that they are due.
#![tactic(auto)]

#[cfg(test)]
mod buffers;
#[cfg(test)]
mod refusals;
#[cfg(test)]
mod reports;
#[cfg(test)]
mod stocks;
#[cfg(test)]
mod table;
