//! A member's record, a list of artifacts with the oldest first: what it may hold, how it is cut or pruned, and the
//! state that it leads to.
//!
//! A member stores its record by these rules; a tool that tests journals calls them without a member.
#![tactic(auto)]

pub mod record;
