//! A member: its state, and the record from which the state can be rebuilt.
#![tactic(auto)]

pub mod member;
