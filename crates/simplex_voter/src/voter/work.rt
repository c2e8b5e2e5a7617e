//! Changes of a view's round by the work on its proposal. None takes memory.

ghost use Rattle.std.specs.Prelude.{◌≡◌, ◌&&◌, not, true, false, is_some, if◌then◌else◌};
ghost use Rattle.std.specs.Option.{option_map_or};
ghost use Rattle.simplex_types.specs.Proposal.{same_proposal};
ghost use Rattle.simplex_voter.specs.ProposalRequests.{proposal_of};
ghost use Rattle.simplex_round.specs.Slot.{holds_or_empty, is_unverified};
ghost use Rattle.simplex_round.specs.Round.{is_nullify, should_propose, pending_proposal, can_notarize};

use super::rounds::Rounds;
use simplex_types::types::{CertificateScheme, Context, Digest, Proposal, View};

/// The proposal built for a context.
fn proposal_of<D: Digest, P: Copy>(context: &Context<D, P>, payload: D) -> Proposal<D>
    ensures { result ≡ proposal_of context.now payload }
{
    Proposal {
        round: context.round,
        parent: context.parent.0,
        payload,
    }
}

impl<S: CertificateScheme, D: Digest> Rounds<S, D> {
    ghost use Rattle.simplex_voter.specs.Rounds.{find_round, round_in, with_change, with_change_in_place, HasSameOrigin};
    ghost use Rattle.simplex_voter.specs.ProposalRequests.{build_requested, proposed_round};
    ghost use Rattle.simplex_voter.specs.Verification.{with_request, verifying_round, with_mark, with_nothing_bound};

    /// Sets the request to build a proposal in a view that is ready for it.
    pub(super) fn ask_to_build(&mut self, view: View)
        requires { should_propose (round_in self.old view) ≡ true }
        ensures asked { self.new ≡ with_change_in_place self.old view
            (λ r. record r { slot = build_requested true r.slot }) }
        ensures origin { HasSameOrigin self.old self.new }
    {
        let Some(round) = self.by_view.get_mut(view) else {
            return;
        };
        round.try_propose();
    }

    /// Records that the verification of a view's proposal asks for a certificate of another view.
    pub(super) fn note_request(&mut self, view: View, wanted: View)
        ensures noted { self.new ≡ with_change_in_place self.old view (λ r. with_request r wanted) }
        ensures origin { HasSameOrigin self.old self.new }
    {
        let Some(round) = self.by_view.get_mut(view) else {
            return;
        };
        round.request(wanted);
    }

    /// Marks the proposal of a view as returned for verification, bound to its parent's payload.
    pub(super) fn give_out(&mut self, view: View, payload: D)
        requires { is_some (pending_proposal (round_in self.old view)) ≡ true }
        ensures given { self.new ≡ with_change_in_place self.old view (λ r. verifying_round r payload) }
        ensures origin { HasSameOrigin self.old self.new }
    {
        let Some(round) = self.by_view.get_mut(view) else {
            return;
        };
        let Some((_, proposal)) = round.pending_verification() else {
            return;
        };
        round.request_verify();
        round.set_verifying(proposal, payload);
    }

    /// Marks the held proposal of a view as verified, and returns whether it did.
    pub(super) fn mark(&mut self, view: View) -> bool
        ensures first { result ≡ option_map_or (λ r. not (is_nullify r.decision) && is_unverified r.slot)
            (find_round self.old view) false }
        ensures marked { self.new ≡ with_change_in_place self.old view with_mark }
        ensures origin { HasSameOrigin self.old self.new }
    {
        let Some(round) = self.by_view.get_mut(view) else {
            return false;
        };
        round.verified()
    }

    /// Removes the binding of a view.
    pub(super) fn clear_verifying(&mut self, view: View)
        ensures unbound { self.new ≡ with_change_in_place self.old view with_nothing_bound }
        ensures origin { HasSameOrigin self.old self.new }
    {
        let Some(round) = self.by_view.get_mut(view) else {
            return;
        };
        round.clear_verifying();
    }

    /// Records what was built in a tracked view, bound to its parent's payload, unless nullify was decided or another
    /// proposal is held.
    pub(super) fn record_proposed(
        &mut self,
        context: &Context<D, S::PublicKey>,
        payload: D,
        now: u64,
    ) -> bool
        ensures recorded { result ≡ option_map_or
            (λ r. not (is_nullify r.decision)
            && holds_or_empty (same_proposal D.eq) r.slot (proposal_of context.now payload))
            (find_round self.old context.now.round.view) false }
        ensures after { self.new ≡ (if result
            then with_change self.old context.now.round.view (λ r. proposed_round D.eq r context.now payload now)
            else self.old) }
        ensures origin { HasSameOrigin self.old self.new }
    {
        let Some(round) = self.by_view.get_mut(context.round.view) else {
            return false;
        };
        let proposal = proposal_of(context, payload);
        if !round.proposed(now, proposal) {
            return false;
        }
        round.set_verifying(proposal, context.parent.1);
        true
    }

    /// Decides the vote to notarize a view whose round allows it, and returns the proposal voted for.
    pub(super) fn decide_notarize(&mut self, view: View) -> Option<Proposal<D>>
        requires { can_notarize (round_in self.old view) ≡ true }
        ensures vote { result ≡ (round_in self.old view).slot.held }
        ensures decided { self.new ≡ with_change self.old view (λ r. record r { notarize_decided = true }) }
        ensures origin { HasSameOrigin self.old self.new }
    {
        let Some(round) = self.by_view.get_mut(view) else {
            unreachable!()
        };
        round.construct_notarize()
    }
}
