//! The meaning of the definitions that an engine's contracts cite: their laws, and cases that are computed from them.
#![tactic(auto)]

pub mod laws;
pub mod polls;
