//! A member's record: what it holds, and how a restart reads and changes it.

mod broadcasts;
mod calls;
mod journal;
mod life;
mod outstanding_work;
mod pending;
mod prune;
mod recorded_calls;
mod refusal;
mod restart;
mod resume;
mod runs;
mod votes;

pub use calls::{Call, Reply};
pub use journal::Stored;
pub use life::Member;
pub use refusal::Refusal;
pub use restart::Restart;
pub use resume::{NotResumed, ResumeError};
pub use runs::{Step, run};
pub use simplex_record::record::{
    RecoverError, Start, StartError, check_record, drop_last, prune_record, recover,
};
