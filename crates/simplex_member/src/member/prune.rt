//! Shortening a record within a lifetime.

ghost use Rattle.std.specs.Prelude.{◌≡◌, ◌||◌, nat_le, filter};
ghost use Rattle.simplex_voter.specs.Facts.{is_tracked};
ghost use Rattle.simplex_record.specs.Entries.{entries_of, entry_view};
ghost use Rattle.simplex_record.specs.Votes.{votes_of};
ghost use Rattle.simplex_member.specs.MemberFacts.{living};
ghost use Rattle.simplex_member.specs.PrunedRecord.{tracks};

use super::life::Member;
use simplex_record::record::{keep_from, lowest_retained};
use simplex_types::types::{Artifact, CertificateScheme, Digest, Elector, View, Viewable};
use simplex_voter::voter::State;

impl<S: CertificateScheme, L: Elector<S>, D: Digest> Member<S, L, D> {
    ghost use Rattle.simplex_member.specs.PrunedRecord.{pruned_member, votes_within};

    /// Prunes the record within the lifetime: removes each entry that a restart would prune, more than this lifetime's
    /// retention below the highest finalized view of the record, unless the state still tracks the view of the entry;
    /// so call `prune` first. The remaining entries are closed to later drops.
    ///
    /// It takes no memory. The state and all open requests stay as they are; a member that has failed tracks no view.
    /// It counts as a pruning: from then on a restart whose settings retain more views than an earlier lifetime is
    /// refused with `RetentionGrown`. A journal must store the shorter record and what `stored` returns in one step, in
    /// place of all that it held.
    pub fn prune_record(&mut self)
        ensures pruned { self.new.facts ≡ pruned_member self.old.facts }
        ensures votes { self.new.votes ≡ votes_within self.old.facts self.old.votes }
    {
        let lowest = lowest_retained(&self.artifacts, self.retention);
        keep_within(&mut self.artifacts, &self.state, self.failed, lowest);
        self.closed = self.artifacts.len();
        self.is_pruned = true;
    }
}

/// Drops the entries below a view, except those of views that a state tracks which has not failed.
fn keep_within<S: CertificateScheme, L: Elector<S>, D: Digest>(
    entries: &mut Vec<Artifact<S, D>>,
    state: &State<S, L, D>,
    failed: bool,
    lowest: View,
)
    ensures left { entries_of S.certificate_bytes entries.new.items ≡ filter
        (λ e. tracks (living failed state.now) (entry_view e) || nat_le lowest (entry_view e))
        (entries_of S.certificate_bytes entries.old.items) }
    ensures votes { votes_of entries.new.items ≡ filter
        (λ v. tracks (living failed state.now) (entry_view v.vote) || nat_le lowest (entry_view v.vote))
        (votes_of entries.old.items) }
{
    if failed {
        keep_from(entries, lowest);
    } else {
        keep_tracked(entries, state, lowest);
    }
}

/// Drops the entries below a view, except those of views that the state tracks: what it records of such a view depends
/// on them.
fn keep_tracked<S: CertificateScheme, L: Elector<S>, D: Digest>(
    entries: &mut Vec<Artifact<S, D>>,
    state: &State<S, L, D>,
    lowest: View,
)
    ensures left { entries_of S.certificate_bytes entries.new.items ≡ filter
        (λ e. is_tracked state.now (entry_view e) || nat_le lowest (entry_view e))
        (entries_of S.certificate_bytes entries.old.items) }
    ensures votes { votes_of entries.new.items ≡ filter
        (λ v. is_tracked state.now (entry_view v.vote) || nat_le lowest (entry_view v.vote))
        (votes_of entries.old.items) }
{
    entries.retain(|artifact| {
        let view = artifact.view();
        state.is_tracked(view) || view >= lowest
    });
}
