//! The knowledge of a state as a function of the events of its lifetime alone.
#![tactic(auto)]

pub mod histories;
