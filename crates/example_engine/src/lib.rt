//! The parts that a user of the engine must provide, in small: digests, signatures, certificates that are made of
//! votes, and all of them as bytes. Copy it to begin.
#![tactic(auto)]

pub mod assembly;
pub mod checksum;
pub mod decode;
pub mod digest;
pub mod parts;
pub mod scheme;
pub mod start;
