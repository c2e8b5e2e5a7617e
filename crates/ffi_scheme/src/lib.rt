//! The parts of a member whose host is written in another language: certificates that only the host reads, votes that
//! it is ordered to sign, and leaders by a table or drawn from certificates.
#![tactic(auto)]

pub mod assembly;
pub mod elector;
pub mod scheme;
