//! Certificates and artifacts as bytes: written, read back, and framed one after another with a checksum.
//!
//! A value that is read has exactly the bytes that were given; bytes of nothing are refused, with the cause.
#![tactic(auto)]

pub mod artifact;
pub mod certificate;
pub mod digest;
pub mod error;
mod fields;
pub mod frame;
pub mod hooks;
mod kinds;
mod parts;
pub mod plain;
