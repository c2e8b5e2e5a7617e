//! Resuming a member from its journal, after its process has ended.

ghost use Rattle.std.specs.Prelude.{◌≡◌, ◌&&◌, IfOk, IfErr, length, nat_lt};
ghost use Rattle.simplex_member.specs.declared.member.resume.ResumeError.TheVariants.{Recover};

use super::journal::Stored;
use super::life::Member;
use super::outstanding_work::OutstandingWork;
use super::restart::{lesser, renew};
use simplex_record::record::{RecoverError, Start, retention_of};
use simplex_types::types::{Artifact, CertificateScheme, Digest, Elector, ViewDelta};
use std::alloc::Global;
use std::error::Error;
use std::fmt;

/// Why a member cannot resume from its journal.
#[derive(Clone, Copy, PartialEq, Eq, Debug)]
pub enum ResumeError {
    /// There are fewer entries than were closed: some are lost, and votes may be among them.
    EntriesLost,
    /// A restart would be refused for this reason.
    Recover(RecoverError),
}

impl fmt::Display for ResumeError {
    ghost use Rattle.std.specs.Prelude.{Some};
    ghost use Rattle.simplex_member.specs.Errors.{resume_error_name};

    ghost output = { λ error. Some (resume_error_name error) };

    fn fmt<W: fmt::Write>(&self, f: &mut fmt::Formatter<W>) -> fmt::Result {
        match self {
            ResumeError::EntriesLost => write!(f, "EntriesLost"),
            ResumeError::Recover(error) => write!(f, "{error}"),
        }
    }
}

impl Error for ResumeError {}

/// A refused `resume`: the reason, and the entries that were passed in.
#[derive(Drop)]
pub struct NotResumed<S: CertificateScheme, D> {
    pub error: ResumeError,
    pub entries: Vec<Artifact<S, D>>,
}

impl<S: CertificateScheme, D: Digest> fmt::Display for NotResumed<S, D> {
    ghost use Rattle.std.specs.Prelude.{Some};
    ghost use Rattle.simplex_member.specs.Errors.{resume_error_name};

    ghost output = { λ it. Some (resume_error_name it.error) };

    fn fmt<W: fmt::Write>(&self, f: &mut fmt::Formatter<W>) -> fmt::Result {
        write!(f, "{}", self.error)
    }
}

/// Without the entries, of which there are as many as a lifetime has left.
impl<S: CertificateScheme, D: Digest> fmt::Debug for NotResumed<S, D> {
    fn fmt<W: fmt::Write>(&self, f: &mut fmt::Formatter<W>) -> fmt::Result {
        f.debug_struct("NotResumed")
            .field("error", &self.error)
            .field("entries", &self.entries.len())
            .finish()
    }
}

impl<S: CertificateScheme, D: Digest> Error for NotResumed<S, D> {}

impl Stored {
    ghost use Rattle.simplex_record.specs.Entries.{entries_of};
    ghost use Rattle.simplex_member.specs.Journal.{has_lost};

    /// Returns whether there are fewer entries than were closed.
    fn has_lost<S: CertificateScheme, D: Digest>(&self, entries: &[Artifact<S, D>]) -> bool
        ensures { result ≡ has_lost self.now (entries_of S.certificate_bytes entries.now) }
    {
        entries.len() < self.closed
    }

    /// Returns whether more views are to be retained than in an earlier lifetime, of a record that was pruned.
    fn retention_grows(&self, retention: ViewDelta) -> bool
        ensures { result ≡ (self.now.is_pruned && nat_lt self.now.least_retention retention) }
    {
        self.is_pruned && self.least_retention < retention
    }
}

impl<S: CertificateScheme, L: Elector<S>, D: Digest> Member<S, L, D> {
    ghost use Rattle.simplex_record.specs.Entries.{entries_of};
    ghost use Rattle.simplex_record.specs.Votes.{votes_of};
    ghost use Rattle.simplex_member.specs.Journal.{IsResumed, IsNotResumed};
    ghost use Rattle.simplex_record.specs.Start.{start_facts};

    /// Resumes a member from its journal: `entries` is the record as it was last stored, and `stored` what was stored
    /// beside it. It begins a new lifetime exactly as a `restart` that drops and prunes nothing.
    ///
    /// The elector's members must be the scheme's participants. The host must ensure that these values were stored
    /// last, and what `Start` says of later lifetimes.
    ///
    /// Returns `EntriesLost` if there are fewer entries than `stored.closed`, `RetentionGrown` if the record was pruned
    /// and the settings retain more views than an earlier lifetime; then the errors of `recover`, and `OutOfMemory`.
    /// Each error returns the entries as they were passed in.
    pub fn resume(
        alloc: Global,
        start: Start<S, L, D>,
        stored: Stored,
        entries: Vec<Artifact<S, D>>,
    ) -> Result<Member<S, L, D>, NotResumed<S, D>>
        requires { L.members start.settings.elector ≡ length (S.participants start.settings.scheme) }
        ensures resumed { IfOk result (λ member. IsResumed D.eq L.elect stored
            (entries_of S.certificate_bytes entries.items)
            (start_facts S.me S.participants L.terms L.elects_early S.certificate_bytes start) member.facts) }
        ensures votes { IfOk result (λ member. member.votes ≡ votes_of entries.items) }
        ensures refused { IfErr result (λ refusal. IsNotResumed D.eq L.elect stored
            (entries_of S.certificate_bytes entries.items)
            (start_facts S.me S.participants L.terms L.elects_early S.certificate_bytes start) refusal.error) }
        ensures handed_back { IfErr result (λ refusal. refusal.entries.items ≡ entries.items) }
    {
        if stored.has_lost(&entries) {
            return Err(NotResumed {
                error: ResumeError::EntriesLost,
                entries,
            });
        }
        let retention = retention_of(&start.settings);
        if stored.retention_grows(retention) {
            return Err(not_recovered(RecoverError::RetentionGrown, entries));
        }
        let mut artifacts = entries;
        match renew(alloc, start, &mut artifacts) {
            Ok(state) => Ok(Member {
                alloc,
                state,
                outstanding_work: OutstandingWork::new(alloc),
                artifacts,
                closed: stored.closed,
                is_pruned: stored.is_pruned,
                retention,
                least_retention: lesser(stored.least_retention, retention),
                failed: false,
            }),
            Err(error) => Err(not_recovered(error, artifacts)),
        }
    }
}

/// The refusal when no state was made, with the entries.
fn not_recovered<S: CertificateScheme, D: Digest>(
    error: RecoverError,
    entries: Vec<Artifact<S, D>>,
) -> NotResumed<S, D>
    ensures error { result.error ≡ Recover error }
    ensures entries { result.entries ≡ entries }
{
    NotResumed {
        error: ResumeError::Recover(error),
        entries,
    }
}
