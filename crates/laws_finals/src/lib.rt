//! The parents and the chains of what the hosts of a network have reported as final.
#![tactic(auto)]

pub mod finals;
pub mod instances;
