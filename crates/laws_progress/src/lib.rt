//! The networks whose honest members can finalize a new view on their own.
#![tactic(auto)]

pub mod progress;
