//! Stocks and sheets with the answers that they are due.
#![tactic(auto)]

#[cfg(test)]
mod faulty;
#[cfg(test)]
mod good;
#[cfg(test)]
mod laid;
#[cfg(test)]
mod layered;
#[cfg(test)]
mod lists;
#[cfg(test)]
mod pictured;
#[cfg(test)]
mod plans;
#[cfg(test)]
mod program;
