//! The laws of the program's transcripts.
#![tactic(auto)]

mod resolvers;
mod voters;

pub use resolvers::resolver_transcripts_keep_fetches;
pub use voters::voter_transcripts_are_lawful;
