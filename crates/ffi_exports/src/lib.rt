//! The functions that C calls, each over a function of `ffi_member` or `ffi_engine`.
#![tactic(auto)]

pub mod engines;
pub mod exports;
pub mod handles;
mod raw_box;
pub mod resolvers;
