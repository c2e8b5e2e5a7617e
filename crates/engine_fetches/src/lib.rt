//! The outstanding fetches of certificates, each asked again of the next peer until it is closed, and the resolver that
//! decides them.
#![tactic(auto)]

pub mod fetches;
pub mod repair;
