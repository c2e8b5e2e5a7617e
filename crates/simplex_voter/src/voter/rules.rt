//! The parts of the rules that say when this member votes. Each method tests one of them.

ghost use Rattle.std.specs.Prelude.{◌≡◌};
ghost use Rattle.std.specs.Option.{option_copied};

use super::leaders::before;
use super::state::State;
use simplex_types::types::{CertificateScheme, Digest, Elector, Proposal, View};

impl<S: CertificateScheme, L: Elector<S>, D: Digest> State<S, L, D> {
    ghost use Rattle.simplex_voter.specs.Facts.{round_of};
    ghost use Rattle.simplex_round.specs.Round.{can_finalize};
    ghost use Rattle.simplex_voter.specs.Windows.{is_term_start, is_admitted};
    ghost use Rattle.simplex_voter.specs.Payloads.{explicit_ancestry_payload, is_elected_early};
    ghost use Rattle.simplex_voter.specs.Rules.{has_conflicting_nullify, was_handed_over, required_certification_parent, explicit_parent_ready, has_required_parent, may_finalize};

    /// Returns whether this member may vote in the view. Certificates create rounds arbitrarily far ahead. A vote there
    /// would promise what this member can't check yet.
    #[tactic(auto, unfolding(crate::specs::Windows::is_admitted))]
    pub(super) fn is_admitted(&self, view: View) -> bool
        ensures { result ≡ is_admitted self.now view }
    {
        let lookahead = self.elector.terms().lookahead();
        lookahead.admits_outbound(self.current, view)
    }

    /// Returns whether the view starts a term.
    pub(super) fn is_term_start(&self, view: View) -> bool
        ensures { result ≡ is_term_start self.now view }
    {
        view.is_term_start(self.elector.terms().term_length)
    }

    /// Returns whether this member voted to nullify a view below in the term, above the last finalized view: its vote
    /// to finalize could help to finalize a view that the other vote helps to skip. A finalization at or above that
    /// view ends this: it proves that the nullification can never form.
    #[tactic(auto, unfolding(crate::specs::Rules::has_conflicting_nullify))]
    pub(super) fn has_conflicting_nullify(&self, view: View) -> bool
        ensures { result ≡ has_conflicting_nullify self.now view }
    {
        match self.nullify_votes.covering_below(view) {
            Some(highest) => highest.0 > self.finalized,
            None => false,
        }
    }

    /// Genesis' payload, or that of a finalized or certified view.
    #[tactic(auto, unfolding(crate::specs::Payloads::explicit_ancestry_payload))]
    pub(super) fn explicit_ancestry_payload(&self, view: View) -> Option<&D>
        ensures { option_copied result ≡ explicit_ancestry_payload self.now view }
    {
        if view.is_zero() {
            return self.genesis.as_ref();
        }
        self.round_at(view)?.certified_payload()
    }

    /// Returns whether this member is elected, before any certificate, for the term that the view starts.
    /// Others learn who leads from the certificate that unlocks the term.
    pub(super) fn is_elected_early(&self, view: View) -> bool
        ensures { result ≡ is_elected_early L.elect self.now view }
    {
        self.is_term_start(view)
            && self.elector.elects_early()
            && self.is_me(self.early_leader(view))
    }

    /// Returns whether this member was elected early for the term that the view starts, and voted for a proposal there.
    fn was_handed_over(&self, view: View) -> bool
        ensures { result ≡ was_handed_over L.elect self.now view }
    {
        self.is_elected_early(view) && self.has_voted_to_notarize(view)
    }

    /// Returns whether the vote to notarize was decided.
    pub(super) fn has_voted_to_notarize(&self, view: View) -> bool
        ensures { result ≡ (round_of self.now view).notarize_decided }
    {
        match self.round_at(view) {
            Some(round) => round.broadcast_notarize(),
            None => false,
        }
    }

    /// Returns the view that this member must certify before the proposal: the previous view, if the proposal was voted
    /// for while that view could still be refused.
    ///
    /// Inside a term each proposal is voted for that early; at a term's start only by a leader that was elected early
    /// and proposed it. This member's vote there shows which proposal that was, since it signs one as leader. The vote
    /// of another member may be for a second proposal of a faulty leader, and its parent may never arrive: it must not
    /// wait.
    #[tactic(auto, unfolding(crate::specs::Rules::required_certification_parent))]
    pub(super) fn required_certification_parent(
        &self,
        view: View,
        proposal: &Proposal<D>,
    ) -> Option<View>
        ensures { result ≡ required_certification_parent L.elect self.now view proposal.now }
    {
        if !self.is_term_start(view) {
            return Some(before(view));
        }
        if view.is_zero() || proposal.parent != before(view) {
            return None;
        }
        if self.was_handed_over(view) {
            Some(proposal.parent)
        } else {
            None
        }
    }

    /// Returns whether the view that must be certified before the proposal is certified.
    fn explicit_parent_ready(&self, view: View, proposal: &Proposal<D>) -> bool
        ensures { result ≡ explicit_parent_ready L.elect self.now view proposal.now }
    {
        match self.required_certification_parent(view, proposal) {
            Some(parent) => self.explicit_ancestry_payload(parent).is_some(),
            None => true,
        }
    }

    /// The proposal that the view holds.
    pub(super) fn held_proposal(&self, view: View) -> Option<&Proposal<D>>
        ensures { option_copied result ≡ (round_of self.now view).slot.held }
    {
        self.round_at(view)?.proposal()
    }

    /// Returns whether the view's held proposal, if there is one, has the parent that it requires.
    pub(super) fn has_required_parent(&self, view: View) -> bool
        ensures { result ≡ has_required_parent L.elect self.now view }
    {
        match self.held_proposal(view) {
            Some(proposal) => self.explicit_parent_ready(view, proposal),
            None => false,
        }
    }

    /// Returns whether the view's own facts let this member vote to finalize it.
    fn can_finalize(&self, view: View) -> bool
        ensures { result ≡ can_finalize (round_of self.now view) }
    {
        match self.round_at(view) {
            Some(round) => round.can_construct_finalize(),
            None => false,
        }
    }

    /// Returns whether this member may vote to finalize the view. Without the notarization another proposal may still
    /// win it.
    ///
    /// A finalized view needs no vote. That the parent is ready was tested before the certification, and is tested
    /// again, since a replayed record restores a certified view without it.
    #[tactic(auto, unfolding(crate::specs::Rules::may_finalize))]
    pub(super) fn may_finalize(&self, view: View) -> bool
        ensures { result ≡ may_finalize L.elect self.now view }
    {
        view > self.finalized
            && self.is_admitted(view)
            && !self.has_conflicting_nullify(view)
            && self.has_required_parent(view)
            && self.can_finalize(view)
    }
}
