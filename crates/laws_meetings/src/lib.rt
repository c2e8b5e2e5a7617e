//! The views of honest hosts meet: at rest what an engine tracks is sent, and a round later the others follow.
#![tactic(auto)]

pub mod calls;
pub mod instances;
pub mod meetings;
