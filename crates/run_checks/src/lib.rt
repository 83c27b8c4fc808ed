//! Strings of calls on small stocks, with the replies that they are due.
#![tactic(auto)]

#[cfg(test)]
mod limits;
#[cfg(test)]
mod played;
#[cfg(test)]
mod rings;
