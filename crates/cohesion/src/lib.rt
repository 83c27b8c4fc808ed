//! The theory of cores and communities.

#![tactic(auto)]
