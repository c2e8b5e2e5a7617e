//! The payload that a view offers to the views that build on it, down the chain of votes below it.

ghost use Rattle.std.specs.Prelude.{◌≡◌, ◌≤◌, ◌+◌, OnSome, true, option_map};
ghost use Rattle.std.specs.Option.{option_map_or};
ghost use Rattle.simplex_voter.specs.Chains.{payload_of};

use super::state::State;
use simplex_round::round::Round;
use simplex_types::types::{CertificateScheme, Digest, Elector, Proposal, View};
use std::alloc::AllocError;

/// The ground of a view's payload.
pub enum Basis<D> {
    /// Genesis or a certificate.
    Certain(D),
    /// This member's vote for the proposal, with the payload that the parent had when it was bound to one.
    Vote(Proposal<D>, Option<D>),
}

impl<D: Copy> Copy for Basis<D> {}

impl<D: Copy> Clone for Basis<D> {
    ghost use Rattle.std.specs.Prelude.{◌≡◌, ⊤};

    ghost is_clone = { λ it copy. copy ≡ it };

    ghost is_infallible = { λ _. ⊤ };

    fn clone(&self) -> Result<Basis<D>, AllocError> {
        Ok(*self)
    }
}

impl<D: Digest> Basis<D> {
    /// The payload that is offered, where all that it rests on holds.
    fn payload(&self) -> D
        ensures { result ≡ payload_of self.now }
    {
        match self {
            Basis::Certain(payload) => *payload,
            Basis::Vote(proposal, _) => proposal.payload,
        }
    }
}

/// Returns whether a vote still holds for this payload: it was bound to this one, or to none.
fn holds<D: Digest>(bound: Option<D>, payload: D) -> bool
    ensures { result ≡ option_map_or (λ d. D.eq payload d) bound true }
{
    match bound {
        Some(other) => payload == other,
        None => true,
    }
}

/// The payload that the round's parent had when the round was bound to one.
fn bound_payload<S: CertificateScheme, D: Digest>(round: &Round<S, D>) -> Option<D>
    ensures { result ≡ option_map (λ bound. bound.1) round.now.binding }
{
    let bound = round.verifying()?;
    Some(bound.1)
}

impl<S: CertificateScheme, L: Elector<S>, D: Digest> State<S, L, D> {
    ghost use Rattle.simplex_voter.specs.Payloads.{has_failed_optimistic_ancestry, is_voted_ancestor, can_chain_on, optimistic_ancestry_payload};
    ghost use Rattle.simplex_voter.specs.Rounds.{largest_tracked};
    ghost use Rattle.simplex_voter.specs.Chains.{unrefused_payload, served_proposal, basis_of, basis_at};

    /// The payload that the view offers before it is certified. That is its certificate's payload, unless its term has
    /// a rejection up to it; else that of a verified proposal that this member voted for, if the parent still offers
    /// what the vote was bound to.
    ///
    /// So a chain without certificates rests on votes of this member alone, down to a certificate.
    pub(super) fn optimistic_ancestry_payload(&self, view: View) -> Option<D>
        ensures payload { result ≡ optimistic_ancestry_payload D.eq L.elect self.now view }
        ensures in_range { OnSome result (view ≤ largest_tracked) }
    {
        let top = self.basis_at(view)?;
        let mut basis = top;
        while let Basis::Vote(proposal, bound) = basis {
            let below = self.basis_at(proposal.parent)?;
            if !holds(bound, below.payload()) {
                return None;
            }
            basis = below;
        }
        Some(top.payload())
    }

    /// The ground of the view's payload, if it may offer one.
    fn basis_at(&self, view: View) -> Option<Basis<D>>
        ensures basis { result ≡ basis_at L.elect self.now view }
        ensures in_range { OnSome result (view ≤ largest_tracked) }
    {
        if view.is_zero() {
            return self.genesis.map(Basis::Certain);
        }
        let round = self.round_at(view)?;
        self.basis_of(view, view.next(), round)
    }

    /// The ground of the payload of a view with this round; `next` is the next view.
    fn basis_of(&self, view: View, next: View, round: &Round<S, D>) -> Option<Basis<D>>
        requires { next ≡ view + 1 }
        ensures { result ≡ basis_of L.elect self.now view round.now }
    {
        // from the certificate itself, whatever proposal the view holds: the certificate supports that payload
        if round.is_directly_notarized() {
            return self.unrefused_payload(view, round).map(Basis::Certain);
        }
        let proposal = self.served_proposal(view, next, round)?;
        Some(Basis::Vote(proposal, bound_payload(round)))
    }

    /// The payload of the view's certificate, unless its term has a rejection up to it.
    fn unrefused_payload(&self, view: View, round: &Round<S, D>) -> Option<D>
        ensures { result ≡ unrefused_payload self.now view round.now }
    {
        if self.has_failed_optimistic_ancestry(view) {
            return None;
        }
        round.certificate_ancestry_payload().copied()
    }

    /// Returns whether the view, or one below it in its term, was certified false, and no finalization overrides that.
    /// Inside a term each view builds on the one before, so a refused view refuses all above it.
    fn has_failed_optimistic_ancestry(&self, view: View) -> bool
        ensures { result ≡ has_failed_optimistic_ancestry self.now view }
    {
        let start = view.term_start(self.elector.terms().term_length);
        self.rounds.has_refused_between(self.finalized, start, view)
    }

    /// The proposal that this member voted for, if it may serve and builds on its parent; `next` is the next view.
    fn served_proposal(&self, view: View, next: View, round: &Round<S, D>) -> Option<Proposal<D>>
        requires { next ≡ view + 1 }
        ensures { result ≡ served_proposal L.elect self.now view round.now }
    {
        if !self.is_voted_ancestor(view, next, round) {
            return None;
        }
        let proposal = *round.proposal()?;
        if !self.can_chain_on(view, proposal.parent) {
            return None;
        }
        Some(proposal)
    }

    /// Returns whether this member voted for the held proposal, and it may serve before any certificate; `next` is the
    /// next view.
    #[tactic(auto, unfolding(crate::specs::Payloads::is_voted_ancestor))]
    fn is_voted_ancestor(&self, view: View, next: View, round: &Round<S, D>) -> bool
        requires { next ≡ view + 1 }
        ensures { result ≡ is_voted_ancestor L.elect self.now view round.now }
    {
        (self.in_issuance_window(next) || self.is_handoff_parent(view, next))
            && round.is_verified()
            && round.broadcast_notarize()
    }

    /// Returns whether a view that was voted for may build on this parent.
    #[tactic(auto, unfolding(crate::specs::Payloads::can_chain_on))]
    fn can_chain_on(&self, view: View, parent: View) -> bool
        ensures { result ≡ can_chain_on self.now view parent }
    {
        parent >= self.finalized && parent < view && self.is_gapless(parent, view)
    }
}
