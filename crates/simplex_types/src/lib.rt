//! The types of the protocol: views, terms, proposals, votes, certificates and artifacts, with their bytes.
//!
//! It also has the traits that a host implements (`Digest`, `CertificateScheme`, `Scheme` and `Elector`) and a member's
//! settings, whose rules it tests.
#![tactic(auto)]

pub mod config;
pub mod reasons;
pub mod types;
