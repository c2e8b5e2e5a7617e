//! Work that a state has due, independent of any input.

ghost use Rattle.std.specs.Prelude.{◌≡◌, ◌≤◌, false, true, option_map, IsNone};
ghost use Rattle.std.specs.List.{find};

use super::state::State;
use simplex_round::round::Round;
use simplex_types::types::{CertificateScheme, Digest, Elector, View};
use simplex_view_maps::entries::Entries;

impl<S: CertificateScheme, L: Elector<S>, D: Digest> State<S, L, D> {
    ghost use Rattle.simplex_voter.specs.Facts.{round_of};
    ghost use Rattle.simplex_voter.specs.Refusals.{is_started};
    ghost use Rattle.simplex_voter.specs.Rules.{may_notarize, may_finalize};
    ghost use Rattle.simplex_voter.specs.DueVotes.{is_due, first_due, AreRoundsOf};

    /// Returns the lowest tracked view, from one on, where something is due: a vote of this member that its rule
    /// allows, or a certificate that was not returned for broadcast.
    ///
    /// The state must have a floor. Input about one view may allow a vote on another: a finalization ends what a vote
    /// to nullify forbids in its term, and a verdict allows votes on what was built on it. A host that asks until
    /// nothing is due loses no vote.
    pub fn first_due(&self, from: View) -> Option<View>
        requires { is_started self.now ≡ true }
        ensures first { result ≡ first_due D.eq L.elect self.now from }
        ensures none { IsNone result → (v : _) → from ≤ v → is_due D.eq L.elect self.now v ≡ false }
    {
        self.first_due_of(self.rounds.at_or_above(from))
    }

    /// The first of some views where something is due.
    fn first_due_of(&self, mut entries: Entries<'_, Round<S, D>>) -> Option<View>
        requires started { is_started self.now ≡ true }
        requires rounds { AreRoundsOf self.now entries }
        ensures { result ≡ option_map (λ e. e.0) (find (λ e. is_due D.eq L.elect self.now e.0) entries.entry) }
    {
        while let Some(entry) = entries.pop_first() {
            if self.is_due(entry.0, entry.1) {
                return Some(entry.0);
            }
        }
        None
    }

    /// Returns whether something is due in a view with this round.
    fn is_due(&self, view: View, round: &Round<S, D>) -> bool
        requires started { is_started self.now ≡ true }
        requires round { round_of self.now view ≡ round.now }
        ensures { result ≡ is_due D.eq L.elect self.now view }
    {
        self.is_notarize_due(view, round)
            || self.is_finalize_due(view, round)
            || round.has_unsent_certificate()
    }

    /// Returns whether this member may vote to notarize the view. It tests the round first: the rule looks up other
    /// views too.
    #[tactic(auto, unfolding(crate::specs::Rules::may_notarize))]
    fn is_notarize_due(&self, view: View, round: &Round<S, D>) -> bool
        requires started { is_started self.now ≡ true }
        requires round { round_of self.now view ≡ round.now }
        ensures { result ≡ may_notarize D.eq L.elect self.now view }
    {
        round.can_construct_notarize() && self.may_notarize(view)
    }

    /// Returns whether this member may vote to finalize the view, as `is_notarize_due`.
    #[tactic(auto, unfolding(crate::specs::Rules::may_finalize))]
    fn is_finalize_due(&self, view: View, round: &Round<S, D>) -> bool
        requires { round_of self.now view ≡ round.now }
        ensures { result ≡ may_finalize L.elect self.now view }
    {
        round.can_construct_finalize() && self.may_finalize(view)
    }
}
