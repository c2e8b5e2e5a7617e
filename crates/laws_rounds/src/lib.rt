//! The hosts of a network in rounds, in each of which what honest hosts have sent is delivered.
#![tactic(auto)]

pub mod calls;
pub mod rounds;
