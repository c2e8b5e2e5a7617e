//! The cuts that a restart makes in a record.

ghost use Rattle.std.specs.Prelude.{◌≡◌, ◌-◌, ◌<◌, Bool, true, length, nat_le, filter};
ghost use Rattle.simplex_types.specs.Certificates.{artifact_facts};
ghost use Rattle.simplex_record.specs.Entries.{entries_of, entry_view};
ghost use Rattle.simplex_record.specs.Cuts.{is_vote, finalized_by, may_drop, without_last, finalized_in, pruned_entries};
ghost use Rattle.simplex_record.specs.Votes.{votes_of, pruned_votes};

use simplex_types::types::{Artifact, CertificateScheme, Digest, View, ViewDelta, Viewable};

/// Drops at most `count` last entries, never a vote nor anything before one, and none of the first `closed`.
///
/// A journal that lost its end still holds each vote that was sent, so what is dropped may be passed in again.
pub fn drop_last<S: CertificateScheme, D: Digest>(
    entries: &mut Vec<Artifact<S, D>>,
    closed: usize,
    count: u64,
)
    ensures left { entries_of S.certificate_bytes entries.new.items ≡ without_last closed count
        (entries_of S.certificate_bytes entries.old.items) }
    ensures votes { votes_of entries.new.items ≡ votes_of entries.old.items }
{
    let mut left = count;
    while left > 0 && may_drop(entries, closed) {
        entries.truncate(entries.len() - 1);
        left -= 1;
    }
}

/// Drops every entry whose view is below the highest finalized one of the record by more than `retention` views.
#[tactic(auto, unfolding(crate::specs::Cuts::pruned_entries))]
pub fn prune_record<S: CertificateScheme, D: Digest>(
    entries: &mut Vec<Artifact<S, D>>,
    retention: ViewDelta,
)
    ensures left { entries_of S.certificate_bytes entries.new.items ≡ pruned_entries retention
        (entries_of S.certificate_bytes entries.old.items) }
    ensures votes { votes_of entries.new.items
        ≡ pruned_votes retention (entries_of S.certificate_bytes entries.old.items) (votes_of entries.old.items) }
{
    let lowest = lowest_retained(entries, retention);
    keep_from(entries, lowest);
}

/// The lowest view that a record retains: `retention` views below the highest finalized one, and 0 if there are fewer.
pub fn lowest_retained<S: CertificateScheme, D: Digest>(
    entries: &[Artifact<S, D>],
    retention: ViewDelta,
) -> View
    ensures { result ≡ finalized_in (entries_of S.certificate_bytes entries.now) - retention }
{
    let finalized = last_finalized(entries);
    View::new(finalized.get().saturating_sub(retention.get()))
}

/// Drops the entries below a view.
pub fn keep_from<S: CertificateScheme, D: Digest>(entries: &mut Vec<Artifact<S, D>>, view: View)
    ensures left { entries_of S.certificate_bytes entries.new.items
        ≡ filter (λ e. nat_le view (entry_view e)) (entries_of S.certificate_bytes entries.old.items) }
    ensures votes { votes_of entries.new.items ≡ filter (λ v. nat_le view (entry_view v.vote))
        (votes_of entries.old.items) }
{
    entries.retain(|artifact| artifact.view() >= view);
}

/// The highest view that is finalized in a record; 0 without a finalization.
fn last_finalized<S: CertificateScheme, D: Digest>(entries: &[Artifact<S, D>]) -> View
    ensures { result ≡ finalized_in (entries_of S.certificate_bytes entries.now) }
{
    let mut highest = View::zero();
    for artifact in entries {
        highest = highest.max(finalized_by(artifact));
    }
    highest
}

/// The view that a finalization finalizes; 0 for any other artifact.
fn finalized_by<S: CertificateScheme, D: Digest>(artifact: &Artifact<S, D>) -> View
    ensures { result ≡ finalized_by (artifact_facts S.certificate_bytes artifact.now) }
{
    match artifact {
        Artifact::Finalization(finalization) => finalization.view(),
        _ => View::zero(),
    }
}

/// Returns whether the last entry may be dropped: it is no vote, and not closed.
fn may_drop<S: CertificateScheme, D: Digest>(entries: &[Artifact<S, D>], closed: usize) -> bool
    ensures answer { result ≡ may_drop closed (entries_of S.certificate_bytes entries.now) }
    ensures something { result ≡ true → 0 < length entries.now }
{
    if entries.len() <= closed {
        return false;
    }
    match entries.last() {
        Some(last) => !is_vote(last),
        None => false,
    }
}

fn is_vote<S: CertificateScheme, D: Digest>(artifact: &Artifact<S, D>) -> bool
    ensures { result ≡ is_vote (artifact_facts S.certificate_bytes artifact.now) }
{
    matches!(
        artifact,
        Artifact::Notarize(_) | Artifact::Nullify(_) | Artifact::Finalize(_)
    )
}
