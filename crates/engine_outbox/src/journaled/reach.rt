//! How far back the record reaches.

ghost use Rattle.std.specs.Prelude.{◌≡◌, ◌-◌, min, IsFalse};
ghost use Rattle.simplex_voter.specs.Windows.{min_active};
ghost use Rattle.simplex_record.specs.Cuts.{finalized_in};
ghost use Rattle.simplex_record.specs.Entries.{entries_of};
ghost use Rattle.engine_outbox.specs.RecordLimit.{is_record_too_long};
ghost use Rattle.engine_outbox.specs.RecordReach.{lowest_of, is_far_below, ReachesTo, IsShort};

use super::Journaled;
use simplex_record::record::lowest_retained;
use simplex_types::types::{Artifact, CertificateScheme, Digest, Elector, Scheme, View, Viewable};
use simplex_voter::voter::State;

impl<S: Scheme<D>, L: Elector<S>, D: Digest> Journaled<S, L, D> {
    ghost use Rattle.engine_outbox.specs.Continuity.{IsWhole};

    /// Returns whether the record has more entries than this, and a pruning would drop more of its views than it
    /// retains. So a record is not written again while half of its views are retained.
    ///
    /// - `short`: if not, and all of the record is queued, the record is short.
    pub fn is_record_too_long(&self, long: usize) -> bool
        ensures overgrown { result ≡ is_record_too_long long self.now }
        ensures short { IsFalse result → ReachesTo self.now.reach self.now.stored self.now.member.facts.entries
            → IsWhole S.certificate_bytes self.now
            → IsShort long self.now.member.facts }
    {
        match self.member.state() {
            Some(state) => long < self.member.record().len() && self.reaches_far_below(state),
            None => false,
        }
    }

    /// Returns whether a pruning would drop more views of the record than it retains.
    fn reaches_far_below(&self, state: &State<S, L, D>) -> bool
        ensures { let facts = self.now.member.facts in result
            ≡ is_far_below self.now.reach (min (min_active state.now) (finalized_in facts.entries - facts.retention))
            state.now.current }
    {
        let active = state.min_active();
        let current = state.current_view();
        // The last finalized view of the record is computed only if it can matter.
        if !is_far_below(self.reach, active, current) {
            return false;
        }
        let kept = lowest_retained(self.member.record(), self.member.stored().retention);
        is_far_below(self.reach, earlier_of(active, kept), current)
    }
}

/// Returns whether a view lies further below the lowest one that is left than the current one lies above that.
fn is_far_below(reach: View, lowest: View, current: View) -> bool
    ensures { result ≡ is_far_below reach lowest current }
{
    current.get().saturating_sub(lowest.get()) < lowest.get().saturating_sub(reach.get())
}

/// Returns the lowest of a view and of those of entries.
pub(super) fn lowest_of<S: CertificateScheme, D: Digest>(
    view: View,
    entries: &[Artifact<S, D>],
) -> View
    ensures { result ≡ lowest_of view (entries_of S.certificate_bytes entries.now) }
{
    let mut lowest = view;
    for entry in entries {
        lowest = earlier_of(lowest, entry.view());
    }
    lowest
}

/// Returns the earlier of two views.
fn earlier_of(one: View, other: View) -> View
    ensures { result ≡ min one other }
{
    if other < one { other } else { one }
}
