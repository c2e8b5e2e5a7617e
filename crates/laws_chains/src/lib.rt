//! The parents and the chain below a finalized proposal.
#![tactic(auto)]

pub mod chains;
