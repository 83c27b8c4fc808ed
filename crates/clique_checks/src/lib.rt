//! The clique search beside a search of all sets.
#![tactic(auto)]

#[cfg(test)]
mod exhaustive;
#[cfg(test)]
mod generated;
#[cfg(test)]
mod worked;
