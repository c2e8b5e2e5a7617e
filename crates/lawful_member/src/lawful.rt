//! Runs and members by the code's own steps and replies, with the laws of votes over everything they did so far.

mod evidence;
mod journaled;
mod member;

pub use evidence::is_evidence;
pub use member::{LawfulMember, run_lawfully};
