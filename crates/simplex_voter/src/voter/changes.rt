//! Changes of one view's round: storing certificates and proposals, returning each certificate once, and other marks.
//! Only what is stored takes memory. If a view isn't tracked, all other changes do nothing.

ghost use Rattle.std.specs.Prelude.{◌≡◌, ◌≤◌, ◌<◌, ◌^◌, IfOk, IfErr, OnOk, ◌||◌, OnErr, true, is_some, option_map, option_and_then, ◌&&◌, ◌+◌, false, is_err, not};
ghost use Rattle.simplex_types.specs.Certificates.{notarization_facts, nullification_facts, finalization_facts};
ghost use Rattle.simplex_types.specs.Proposal.{same_proposal};
ghost use Rattle.simplex_types.specs.declared.types.fault.Fault.TheVariants.{OutOfMemory, TimeOverflow};
ghost use Rattle.simplex_round.specs.Round.{with_notarization, with_nullification, with_finalization, awaits_latch, awaits_retry, can_finalize, certified_round, is_judged, round_timeout, with_latch, with_retry};
ghost use Rattle.std.specs.Option.{option_map_or};
ghost use Rattle.simplex_round.specs.declared.round.Certification.TheVariants.{Outstanding};
ghost use Rattle.simplex_round.specs.declared.round.Decision.TheVariants.{Finalize};

use super::rounds::Rounds;
use simplex_types::reasons::TimeoutReason;
use simplex_types::types::{
    CertificateScheme, Digest, Fault, Finalization, Notarization, Nullification, Proposal, View,
};

impl<S: CertificateScheme, D: Digest> Rounds<S, D> {
    ghost use Rattle.simplex_voter.specs.Rounds.{round_in, with_change, largest_tracked, HasSameOrigin, find_round, with_change_in_place, has_round};
    ghost use Rattle.simplex_voter.specs.Acceptance.{added_answer};
    ghost use Rattle.simplex_voter.specs.Verification.{is_new_proposal, with_proposal};
    ghost use Rattle.simplex_round.specs.Round.{once};
    ghost use Rattle.simplex_voter.specs.Refusals.{is_past_u64};
    ghost use Rattle.simplex_voter.specs.ProposalRequests.{build_requested};

    /// Stores the first notarization of a view. Returns whether it is the first, and the key of a leader found to
    /// equivocate.
    pub(super) fn store_notarization(
        &mut self,
        view: View,
        notarization: Notarization<S, D>,
    ) -> Result<(bool, Option<S::PublicKey>), Fault>
        requires { view < 2 ^ 63 }
        ensures added { IfOk result (λ added.
            added ≡ added_answer D.eq (round_in self.old view).notarization (round_in self.old view)
            notarization.proposal) }
        ensures kept { OnOk result (self.new ≡ with_change self.old view (λ r.
            with_notarization (same_proposal D.eq) r (notarization_facts S.certificate_bytes notarization))) }
        ensures refused { IfErr result (λ fault. fault ≡ OutOfMemory) }
        ensures origin { HasSameOrigin self.old self.new }
    {
        self.track(view)?;
        let Some(round) = self.by_view.get_mut(view) else {
            unreachable!()
        };
        Ok(round.add_notarization(notarization))
    }

    /// Stores the first nullification of a view.
    pub(super) fn store_nullification(
        &mut self,
        view: View,
        nullification: Nullification<S>,
    ) -> Result<(), Fault>
        requires { view ≤ largest_tracked }
        ensures kept { OnOk result
            (self.new ≡ with_change self.old view
            (λ r. with_nullification r (nullification_facts S.certificate_bytes nullification))) }
        ensures refused { IfErr result (λ fault. fault ≡ OutOfMemory) }
        ensures origin { HasSameOrigin self.old self.new }
    {
        self.track(view)?;
        let Some(round) = self.by_view.get_mut(view) else {
            unreachable!()
        };
        let _first = round.add_nullification(nullification);
        Ok(())
    }

    /// Stores the first finalization of a view. Returns whether it is the first, and the key of a leader found to
    /// equivocate.
    pub(super) fn store_finalization(
        &mut self,
        view: View,
        finalization: Finalization<S, D>,
    ) -> Result<(bool, Option<S::PublicKey>), Fault>
        requires { view ≤ largest_tracked }
        ensures added { IfOk result (λ added.
            added ≡ added_answer D.eq (round_in self.old view).finalization (round_in self.old view)
            finalization.proposal) }
        ensures kept { OnOk result (self.new ≡ with_change self.old view (λ r.
            with_finalization (same_proposal D.eq) r (finalization_facts S.certificate_bytes finalization))) }
        ensures refused { IfErr result (λ fault. fault ≡ OutOfMemory) }
        ensures origin { HasSameOrigin self.old self.new }
    {
        self.track(view)?;
        self.bounds.raise_finalized_bound(view);
        let Some(round) = self.by_view.get_mut(view) else {
            unreachable!()
        };
        Ok(round.add_finalization(finalization))
    }

    /// Gives the round of a view a proposal, tracks the view, and returns whether the proposal is to be verified.
    pub(super) fn take_proposal(
        &mut self,
        view: View,
        proposal: &Proposal<D>,
    ) -> Result<bool, Fault>
        requires { view ≤ largest_tracked }
        ensures first { IfOk result (λ first. first ≡ is_new_proposal (round_in self.old view)) }
        ensures taken { OnOk result (self.new ≡ with_change self.old view (λ r. with_proposal D.eq r proposal.now)) }
        ensures refused { IfErr result (λ fault. fault ≡ OutOfMemory) }
        ensures origin { HasSameOrigin self.old self.new }
    {
        self.track(view)?;
        let Some(round) = self.by_view.get_mut(view) else {
            unreachable!()
        };
        Ok(round.set_proposal(proposal))
    }

    /// Returns the notarization of a view, once.
    pub(super) fn return_notarization(
        &mut self,
        view: View,
    ) -> Result<Option<Notarization<S, D>>, Fault>
        ensures answer { IfOk result (λ c.
            option_map (notarization_facts S.certificate_bytes) c
            ≡ option_and_then (λ r. once r.notarization_broadcast r.notarization) (find_round self.old view)) }
        ensures handed_out { OnOk result (self.new ≡ with_change_in_place self.old view (λ r.
            record r { notarization_broadcast = r.notarization_broadcast || is_some r.notarization })) }
        ensures refused { IfErr result (λ fault. fault ≡ OutOfMemory) }
        ensures refused_only_a_copy { OnErr result (is_some
            (option_and_then (λ r. once r.notarization_broadcast r.notarization) (find_round self.old view)) ≡ true) }
        ensures origin { HasSameOrigin self.old self.new }
    {
        let Some(round) = self.by_view.get_mut(view) else {
            return Ok(None);
        };
        round.broadcast_notarization(self.alloc)
    }

    /// Returns the nullification of a view, once.
    pub(super) fn return_nullification(
        &mut self,
        view: View,
    ) -> Result<Option<Nullification<S>>, Fault>
        ensures answer { IfOk result (λ c.
            option_map (nullification_facts S.certificate_bytes) c
            ≡ option_and_then (λ r. once r.nullification_broadcast r.nullification) (find_round self.old view)) }
        ensures handed_out { OnOk result (self.new ≡ with_change_in_place self.old view (λ r.
            record r { nullification_broadcast = r.nullification_broadcast || is_some r.nullification })) }
        ensures refused { IfErr result (λ fault. fault ≡ OutOfMemory) }
        ensures refused_only_a_copy { OnErr result (is_some
            (option_and_then (λ r. once r.nullification_broadcast r.nullification) (find_round self.old view)) ≡ true) }
        ensures origin { HasSameOrigin self.old self.new }
    {
        let Some(round) = self.by_view.get_mut(view) else {
            return Ok(None);
        };
        round.broadcast_nullification(self.alloc)
    }

    /// Returns the finalization of a view, once.
    pub(super) fn return_finalization(
        &mut self,
        view: View,
    ) -> Result<Option<Finalization<S, D>>, Fault>
        ensures answer { IfOk result (λ c.
            option_map (finalization_facts S.certificate_bytes) c
            ≡ option_and_then (λ r. once r.finalization_broadcast r.finalization) (find_round self.old view)) }
        ensures handed_out { OnOk result (self.new ≡ with_change_in_place self.old view (λ r.
            record r { finalization_broadcast = r.finalization_broadcast || is_some r.finalization })) }
        ensures refused { IfErr result (λ fault. fault ≡ OutOfMemory) }
        ensures refused_only_a_copy { OnErr result (is_some
            (option_and_then (λ r. once r.finalization_broadcast r.finalization) (find_round self.old view)) ≡ true) }
        ensures origin { HasSameOrigin self.old self.new }
    {
        let Some(round) = self.by_view.get_mut(view) else {
            return Ok(None);
        };
        round.broadcast_finalization(self.alloc)
    }

    /// Decides the vote to finalize a view whose round allows it, and returns the proposal voted for.
    pub(super) fn decide_finalize(&mut self, view: View) -> Option<Proposal<D>>
        requires { can_finalize (round_in self.old view) ≡ true }
        ensures vote { result ≡ (round_in self.old view).slot.held }
        ensures decided { self.new ≡ with_change self.old view (λ r. record r { decision = Finalize }) }
        ensures origin { HasSameOrigin self.old self.new }
    {
        let Some(round) = self.by_view.get_mut(view) else {
            unreachable!()
        };
        round.construct_finalize()
    }

    /// Records the verdict of a view's certification; no other verdict may contradict it.
    pub(super) fn judge(&mut self, view: View, success: bool) -> Result<(), Fault>
        requires { option_map_or (λ r. is_judged (not success) r.certification)
            (find_round self.old view) false ≡ false }
        ensures judged { OnOk result (self.new ≡ with_change_in_place self.old view (λ r. certified_round r success)) }
        ensures refused { IfErr result (λ fault. fault ≡ OutOfMemory) }
        ensures origin { HasSameOrigin self.old self.new }
    {
        self.bounds.allow_verdict(view, success)?;
        let Some(round) = self.by_view.get_mut(view) else {
            return Ok(());
        };
        round.certified(success);
        Ok(())
    }

    /// Latches an explicit timeout of a view, and returns whether it did: the first one stays.
    pub(super) fn latch(&mut self, view: View, now: u64, reason: TimeoutReason) -> bool
        ensures answer { result ≡ (has_round self.old view && awaits_latch (round_in self.old view)) }
        ensures latched { self.new ≡ with_change_in_place self.old view (λ r. with_latch r now reason) }
        ensures origin { HasSameOrigin self.old self.new }
    {
        let Some(round) = self.by_view.get_mut(view) else {
            return false;
        };
        round.latch_timeout(now, reason)
    }

    /// Returns the next timeout of a view, if it has one. The first poll after a vote to nullify sets the moment of its
    /// repeat; if that passes 2^64 - 1, nothing changes and `TimeOverflow` is returned.
    pub(super) fn poll(
        &mut self,
        view: View,
        now: u64,
        retry: u64,
        allow_latched: bool,
    ) -> Result<Option<(u64, TimeoutReason)>, Fault>
        ensures late { is_err result ≡ (awaits_retry (round_in self.old view) && is_past_u64 (now + retry)) }
        ensures refused { IfErr result (λ fault. (fault ≡ TimeOverflow) × (self.new ≡ self.old)) }
        ensures polled { OnOk result (self.new ≡ with_change_in_place self.old view (λ r. with_retry r now retry)) }
        ensures answer { IfOk result (λ timeout.
            timeout ≡ option_and_then (λ r. round_timeout (with_retry r now retry) allow_latched)
            (find_round self.old view)) }
        ensures origin { HasSameOrigin self.old self.new }
    {
        let Some(round) = self.by_view.get_mut(view) else {
            return Ok(None);
        };
        round.next_timeout(now, retry, allow_latched)
    }

    /// Stores the token of a view's certification, in place of any before.
    pub(super) fn set_certify_handle(&mut self, view: View, token: u64)
        ensures set { self.new ≡ with_change_in_place self.old view
            (λ r. record r { certification = Outstanding token }) }
        ensures origin { HasSameOrigin self.old self.new }
    {
        let Some(round) = self.by_view.get_mut(view) else {
            return;
        };
        round.set_certify_handle(token);
        self.bounds.allow_certification(view);
    }

    /// Clears the request to build a proposal in a view.
    pub(super) fn release(&mut self, view: View)
        ensures released { self.new ≡ with_change_in_place self.old view
            (λ r. record r { slot = build_requested false r.slot }) }
        ensures origin { HasSameOrigin self.old self.new }
    {
        let Some(round) = self.by_view.get_mut(view) else {
            return;
        };
        round.clear_proposal_request();
    }
}
