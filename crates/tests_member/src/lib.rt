//! Tests of members, run on their code: journals, floors, retentions, timeouts, and records that are refused.
#![tactic(auto)]

#[cfg(test)]
mod member;
