//! The engine of a member, without network, clock or disk: it takes inputs, and returns all outputs in order.
#![tactic(auto)]

pub mod engine;
pub mod input;
