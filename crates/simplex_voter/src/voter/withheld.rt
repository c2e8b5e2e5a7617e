//! Why this member withholds a vote: the first part of the vote's rule that is false.

ghost use Rattle.std.specs.Prelude.{◌≡◌, ◌↔◌, ◌&&◌, IsNone, IsSome, IsTrue, is_some};
ghost use Rattle.simplex_voter.specs.Withheld.{finalize_round_withheld, notarize_round_withheld};

use super::state::State;
use simplex_round::round::{Certification, Decision, Round};
use simplex_types::types::{CertificateScheme, Digest, Elector, View};

/// Why a vote of this member is withheld.
#[derive(Clone, Copy, PartialEq, Eq, Debug)]
pub enum Withheld {
    /// The member has no key, so no vote of it is ever returned.
    NoKey,
    /// The view is genesis, or too far ahead of the current view.
    NotAdmitted,
    /// This vote was cast before.
    AlreadyVoted,
    /// The member voted to nullify the view.
    VotedToNullify,
    /// The member voted to finalize the view.
    VotedToFinalize,
    /// No proposal of the view was received.
    NoProposal,
    /// The view's leader signed two proposals.
    Equivocated,
    /// The application has not found the proposal valid yet.
    NotVerified,
    /// The view builds on a parent that is not certified yet, and the view before offers no payload.
    AncestryNotReady,
    /// The proposal was verified on a parent, with its payload, that the view may no longer build on.
    BindingChanged,
    /// The view is not the current one.
    NotCurrent,
    /// The view, or one above it, is finalized.
    AlreadyFinalized,
    /// The member voted to nullify a view below in the term, and nothing from there on is finalized.
    ConflictingNullify,
    /// The proposal's parent must be certified first.
    ParentNotCertified,
    /// The view has no notarization.
    NotNotarized,
    /// The application refused to certify the proposal.
    CertificationFailed,
    /// The application has not certified the proposal yet.
    NotCertified,
}

/// Returns why what is known of a view alone withholds the vote to notarize it.
fn notarize_round_withheld<S: CertificateScheme, D: Digest>(round: &Round<S, D>) -> Option<Withheld>
    ensures { result ≡ notarize_round_withheld round.now }
{
    if round.broadcast_notarize() {
        return Some(Withheld::AlreadyVoted);
    }
    if matches!(round.decision(), Decision::Nullify { .. }) {
        return Some(Withheld::VotedToNullify);
    }
    if round.proposal().is_none() {
        return Some(Withheld::NoProposal);
    }
    if !round.has_unequivocated_proposal() {
        return Some(Withheld::Equivocated);
    }
    if !round.is_verified() {
        return Some(Withheld::NotVerified);
    }
    None
}

/// Returns why what is known of a view alone withholds the vote to finalize it.
fn finalize_round_withheld<S: CertificateScheme, D: Digest>(round: &Round<S, D>) -> Option<Withheld>
    ensures { result ≡ finalize_round_withheld round.now }
{
    match round.decision() {
        Decision::Pending { .. } => {}
        Decision::Nullify { .. } => return Some(Withheld::VotedToNullify),
        Decision::Finalize => return Some(Withheld::AlreadyVoted),
    }
    if !round.has_unequivocated_proposal() {
        return Some(Withheld::Equivocated);
    }
    if round.notarization().is_none() {
        return Some(Withheld::NotNotarized);
    }
    match round.certification() {
        Certification::Judged(true) => None,
        Certification::Judged(false) => Some(Withheld::CertificationFailed),
        Certification::Ready | Certification::Outstanding(_) | Certification::Aborted => {
            Some(Withheld::NotCertified)
        }
    }
}

impl<S: CertificateScheme, L: Elector<S>, D: Digest> State<S, L, D> {
    ghost use Rattle.simplex_voter.specs.Rules.{may_notarize, may_nullify, may_finalize};
    ghost use Rattle.simplex_voter.specs.Votes.{notarize_answer, nullify_answer, finalize_answer};
    ghost use Rattle.simplex_voter.specs.Withheld.{notarize_withheld, nullify_withheld, finalize_withheld};

    /// Returns why `construct_notarize` would return no vote for the view; `None` exactly if it would return one.
    ///
    /// That is the first part of the rule that is false. A failed state returns no vote whatever this says.
    #[tactic(auto, unfolding(crate::specs::Rules::may_notarize))]
    pub fn notarize_withheld(&self, view: View) -> Option<Withheld>
        ensures first { result ≡ notarize_withheld D.eq L.elect self.now view }
        ensures allowed { IsNone result ↔ IsTrue (is_some self.now.me && may_notarize D.eq L.elect self.now view) }
        ensures cast { IsNone result ↔ IsSome (notarize_answer D.eq L.elect self.now view) }
    {
        if !self.has_key() {
            return Some(Withheld::NoKey);
        }
        if !self.is_admitted(view) {
            return Some(Withheld::NotAdmitted);
        }
        let Some(round) = self.round_at(view) else {
            return Some(Withheld::NoProposal);
        };
        let withheld = notarize_round_withheld(round);
        if withheld.is_some() {
            return withheld;
        }
        if !self.has_ancestry(view) {
            return Some(Withheld::AncestryNotReady);
        }
        if !self.verification_matches(view) {
            return Some(Withheld::BindingChanged);
        }
        None
    }

    /// Returns why `construct_nullify` would return no vote for the view; as `notarize_withheld`. A repeated vote is
    /// not withheld.
    #[tactic(auto, unfolding(crate::specs::Rules::may_nullify))]
    pub fn nullify_withheld(&self, view: View) -> Option<Withheld>
        ensures first { result ≡ nullify_withheld self.now view }
        ensures allowed { IsNone result ↔ IsTrue (is_some self.now.me && may_nullify self.now view) }
        ensures cast { IsNone result ↔ IsSome (nullify_answer self.now view) }
    {
        if !self.has_key() {
            return Some(Withheld::NoKey);
        }
        if view != self.current {
            return Some(Withheld::NotCurrent);
        }
        match self.round_at(view)?.decision() {
            Decision::Pending { .. } | Decision::Nullify { .. } => None,
            Decision::Finalize => Some(Withheld::VotedToFinalize),
        }
    }

    /// Returns why `construct_finalize` would return no vote for the view; as `notarize_withheld`.
    #[tactic(auto, unfolding(crate::specs::Rules::may_finalize))]
    pub fn finalize_withheld(&self, view: View) -> Option<Withheld>
        ensures first { result ≡ finalize_withheld L.elect self.now view }
        ensures allowed { IsNone result ↔ IsTrue (is_some self.now.me && may_finalize L.elect self.now view) }
        ensures cast { IsNone result ↔ IsSome (finalize_answer L.elect self.now view) }
    {
        if !self.has_key() {
            return Some(Withheld::NoKey);
        }
        if view <= self.finalized {
            return Some(Withheld::AlreadyFinalized);
        }
        if !self.is_admitted(view) {
            return Some(Withheld::NotAdmitted);
        }
        if self.has_conflicting_nullify(view) {
            return Some(Withheld::ConflictingNullify);
        }
        let Some(round) = self.round_at(view) else {
            return Some(Withheld::NoProposal);
        };
        if round.proposal().is_none() {
            return Some(Withheld::NoProposal);
        }
        if !self.has_required_parent(view) {
            return Some(Withheld::ParentNotCertified);
        }
        finalize_round_withheld(round)
    }

    /// Returns whether the scheme signs as a member.
    fn has_key(&self) -> bool
        ensures { result ≡ is_some self.now.me }
    {
        self.rounds.scheme().me().is_some()
    }
}
