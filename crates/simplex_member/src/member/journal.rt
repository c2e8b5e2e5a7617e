//! The journal of a member: its entries, and a few values beside them.

ghost use Rattle.std.specs.Prelude.{◌≡◌, drop};

use super::life::Member;
use simplex_types::types::{Artifact, CertificateScheme, Digest, Elector, ViewDelta};

/// The values that a journal stores beside a member's entries, so that the member can resume after its process has
/// ended.
#[derive(Clone, Copy, PartialEq, Eq, Debug)]
pub struct Stored {
    /// A drop never removes one of the first `closed` entries.
    pub closed: usize,
    /// True if the record was ever pruned.
    pub is_pruned: bool,
    /// How many views below the last finalized one the last lifetime retained.
    pub retention: ViewDelta,
    /// The smallest retention of all lifetimes.
    pub least_retention: ViewDelta,
}

impl<S: CertificateScheme, L: Elector<S>, D: Digest> Member<S, L, D> {
    ghost use Rattle.simplex_record.specs.Entries.{entries_of};
    ghost use Rattle.simplex_record.specs.Votes.{votes_of};
    ghost use Rattle.simplex_member.specs.Journal.{stored_of, votes_since};

    /// Returns what a journal stores beside the record; also of a member that has failed.
    pub fn stored(&self) -> Stored
        ensures { result ≡ stored_of self.now.facts }
    {
        Stored {
            closed: self.closed,
            is_pruned: self.is_pruned,
            retention: self.retention,
            least_retention: self.least_retention,
        }
    }

    /// Returns the entries recorded after the first `count`: none, if there are no more.
    pub fn record_since(&self, count: usize) -> &[Artifact<S, D>]
        ensures entries { entries_of S.certificate_bytes result.now ≡ drop count self.now.facts.entries }
        ensures votes { votes_of result.now ≡ votes_since count self.now }
    {
        let first = count.min(self.artifacts.len());
        &self.artifacts[first..]
    }
}
