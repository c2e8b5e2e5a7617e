//! The voter of one member over all its views: which certificates and proposals it accepts, what to build, verify and
//! certify, which votes it signs, and when a view times out.
//!
//! Call a `State` through a member, which stores the record of what it signed.
#![tactic(auto)]

pub mod voter;
