//! Members whose contracts carry the laws: a whole run, and a member for a host.
#![tactic(auto)]

pub mod lawful;
