//! The laws of members over all their lifetimes, and of a network of them.
#![tactic(auto)]

pub mod laws;
