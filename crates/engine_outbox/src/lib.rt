//! The outputs that a member's host must carry out, in order; each vote comes after what stores it.
#![tactic(auto)]

pub mod journaled;
pub mod outbox;
pub mod output;
