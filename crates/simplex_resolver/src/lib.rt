//! The resolver: which certificates it stores and serves, which views it fetches, and how it starts from a
//! record.
#![tactic(auto)]

pub mod replay;
pub mod resolver;
