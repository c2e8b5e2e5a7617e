//! The laws of the definitions that the voter's contracts cite, and worked scripts that are computed from them.
#![tactic(auto)]

pub mod laws;
