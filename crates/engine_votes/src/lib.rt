//! Counted votes of members: which are stored, and the certificates that a quorum of them makes.
#![tactic(auto)]

pub mod batcher;
pub mod votes;
