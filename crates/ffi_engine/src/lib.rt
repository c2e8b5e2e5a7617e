//! An engine behind a handle: its inputs and outputs are plain structs of numbers and bytes, for hosts in other
//! languages.
#![tactic(auto)]

pub mod begin;
pub mod flat;
pub mod held;
pub mod input;
pub mod input_kind;
pub mod null_handle;
pub mod output;
pub mod output_kind;
pub mod send;
pub mod views;
