//! A member's record, oldest entry first: its rules, the cuts of a restart, and how a state starts or is rebuilt from
//! it.

mod check;
mod cuts;
mod error;
mod recovery;
mod seen;
mod settings;
mod start;

pub use check::check_record;
pub use cuts::{drop_last, keep_from, lowest_retained, prune_record};
pub use error::RecoverError;
pub use recovery::{recover, remake};
pub use settings::StartError;
pub use start::{Start, begin, retention_of};
