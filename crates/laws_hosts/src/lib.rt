//! The hosts of a network that run engines: what they have reported as final agrees, over all their processes.
#![tactic(auto)]

pub mod agreement;
pub mod calls;
pub mod instances;
