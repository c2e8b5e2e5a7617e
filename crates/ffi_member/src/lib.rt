//! The calls of a member as plain structs of numbers and bytes, for hosts in other languages.
#![tactic(auto)]

pub mod call_kind;
pub mod effect_kind;
pub mod flat;
pub mod flat_calls;
pub mod flat_replies;
pub mod held;
pub mod journal;
pub mod kinds;
pub mod list_kind;
pub mod null_handle;
pub mod numbers;
pub mod prune;
pub mod reply_kind;
pub mod resolver_calls;
pub mod resolver_types;
pub mod resumption;
pub mod send;
pub mod settings;
pub mod statuses;
pub mod view_types;
pub mod views;
pub mod withheld;
