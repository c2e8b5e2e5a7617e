//! Starting a resolver from a member's record: it receives the certificates and the verdicts, in order, and
//! then the end of its replay. `LawfulResolver` continues from there, and stores its open fetches.

mod calls;
mod check;
mod error;
mod lawful;
mod places;
mod start;

pub use error::ReplayError;
pub use lawful::LawfulResolver;
pub use start::replay_record;
