//! The planner of an engine: calls of the member, what follows from each reply, and the work that results.
#![tactic(auto)]

pub mod plan;
pub mod task;
