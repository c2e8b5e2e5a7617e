//! The proposals of other leaders: how each stands, which one to verify next or which certificate is missing, and the
//! results of verifications.

ghost use Rattle.std.specs.Prelude.{◌≡◌, ◌||◌, ◌≤◌, ◌+◌, ◌<◌, ◌^◌, IfSome, IfOk, OnOk, Err, None, true, is_some, option_map, slice_get, if◌then◌else◌, ◌-◌, ◌&&◌, min, nat_lt};
ghost use Rattle.simplex_voter.specs.Verification.{fetch_once, with_request, verifying_round};
ghost use Rattle.std.specs.Result.{IsOk};
ghost use Rattle.simplex_round.specs.Round.{pending_proposal};

use super::state::State;
use simplex_round::round::{Leader, Round};
use simplex_types::reasons::{Kind, TimeoutReason};
use simplex_types::types::{CertificateScheme, Context, Digest, Elector, Fault, Proposal, View};
use std::alloc::AllocError;

/// The next step in verifying the proposals of other leaders.
#[derive(PartialEq, Eq)]
pub enum Verify<D, P: Copy> {
    /// The proposal is to be verified, in this context.
    Ready(Context<D, P>, Proposal<D>),
    /// A proposal can't be verified before a certificate arrives.
    Resolve {
        /// The proposal's view.
        proposal: View,
        /// The view whose certificate is missing, and which kind of certificate.
        view: View,
        kind: Kind,
        /// The proposal's leader, who can be asked for it.
        target: P,
    },
    /// No proposal can be verified now, and nothing is to be fetched.
    Wait,
}

impl<D: Copy, P: Copy> Copy for Verify<D, P> {}

impl<D: Copy, P: Copy> Clone for Verify<D, P> {
    ghost use Rattle.std.specs.Prelude.{◌≡◌, ⊤};

    ghost is_clone = { λ it copy. copy ≡ it };

    ghost is_infallible = { λ _. ⊤ };

    fn clone(&self) -> Result<Verify<D, P>, AllocError> {
        Ok(*self)
    }
}

/// The state of a view's proposal.
pub enum Standing<D> {
    /// Nothing is to be done now.
    NothingToDo,
    /// Its parent is invalid for good.
    Invalid,
    /// A certificate of this view and kind must be fetched first.
    Lacks(View, Kind),
    /// It can be verified, on a parent with this payload.
    Ready(D),
}

impl<D: Copy> Copy for Standing<D> {}

impl<D: Copy> Clone for Standing<D> {
    ghost use Rattle.std.specs.Prelude.{◌≡◌, ⊤};

    ghost is_clone = { λ it copy. copy ≡ it };

    ghost is_infallible = { λ _. ⊤ };

    fn clone(&self) -> Result<Standing<D>, AllocError> {
        Ok(*self)
    }
}

/// Fetch a certificate of a view, unless its view was the last one asked for.
fn fetch_once<S: CertificateScheme, D: Digest>(
    round: &Round<S, D>,
    view: View,
    kind: Kind,
) -> Standing<D>
    ensures { result ≡ fetch_once round.now view kind }
{
    if round.is_last_request(view) {
        Standing::NothingToDo
    } else {
        Standing::Lacks(view, kind)
    }
}

/// The next view to scan: past the near views and before the last one nothing is admitted, so the scan skips to the
/// last one.
fn next_scanned(next: View, near: View, last: View) -> View
    ensures { result ≡ (if nat_lt near next && nat_lt next last then last else next) }
{
    if next > near && next < last {
        last
    } else {
        next
    }
}

impl<S: CertificateScheme, L: Elector<S>, D: Digest> State<S, L, D> {
    ghost use Rattle.simplex_voter.specs.Verification.{payload_standing, parent_standing, standing, answer_in, left_at, verify_answer, after_try_verify, without_binding, verified_answer, after_verified, after_verification_failed};
    ghost use Rattle.std.specs.Ordering.{nat_cmp};
    ghost use Rattle.std.specs.FinMap.Entries.{is_sorted};
    ghost use Rattle.simplex_types.specs.Terms.{next_term_start};
    ghost use Rattle.simplex_voter.specs.Facts.{round_of, with_tracked, is_tracked};
    ghost use Rattle.simplex_voter.specs.Refusals.{plain_refusal, is_started};
    ghost use Rattle.simplex_voter.specs.ProposalRequests.{views_within};

    /// The standing of a view's proposal: there is something to do if another member leads the view, this member may
    /// work there, and the proposal was not returned for verification before.
    #[tactic(auto, unfolding(crate::specs::Verification::standing))]
    pub(super) fn standing(&self, view: View, round: &Round<S, D>) -> Standing<D>
        ensures { result ≡ standing D.eq L.elect self.now (view, round.now) }
    {
        if !self.is_admitted(view) {
            return Standing::NothingToDo;
        }
        match round.pending_verification() {
            Some((_, proposal)) => self.parent_standing(view, round, proposal.parent),
            None => Standing::NothingToDo,
        }
    }

    /// The standing of a proposal by its parent: the first gap must be closed first. Its place below is tested before
    /// the request is claimed: a wrong place is wrong for good, and a missing certificate will come.
    fn parent_standing(&self, view: View, round: &Round<S, D>, parent: View) -> Standing<D>
        ensures { result ≡ parent_standing D.eq L.elect self.now view round.now parent }
    {
        if !self.has_valid_parent_span(view, parent) {
            return Standing::Invalid;
        }
        match self.first_unnullified_view(parent, view) {
            Some(gap) => fetch_once(round, gap, Kind::Nullification),
            None => self.payload_standing(view, round, parent),
        }
    }

    /// With no gap above it, the parent's payload is ready; or still forming, inside the window; or its notarization is
    /// missing.
    fn payload_standing(&self, view: View, round: &Round<S, D>, parent: View) -> Standing<D>
        ensures { result ≡ payload_standing D.eq L.elect self.now view round.now parent }
    {
        if let Some(payload) = self.ancestry_payload_for_child(view, parent) {
            return Standing::Ready(payload);
        }
        // inside its window a proposal is recent, and the parent's certificate is expected without a fetch
        if self.in_issuance_window(view) {
            return Standing::NothingToDo;
        }
        fetch_once(round, parent, Kind::Notarization)
    }

    /// Returns the next step in verifying the proposals of other leaders.
    ///
    /// It visits the tracked views from the current one to the next term's start, up to the first with a step. A
    /// proposal whose parent is invalid for good times its view out, at the last moment that a call carried. If
    /// nullifications leave a gap above the parent, the nullification of the first uncovered view is fetched; outside
    /// its window an uncertified parent is fetched; each unless it was the last one asked for in that view. Else the
    /// proposal is returned, once, and bound to its parent's payload.
    ///
    /// The state must have a floor.
    pub fn try_verify(&mut self) -> Result<Verify<D, S::PublicKey>, Fault>
        requires { (self.old.failed || is_started self.old) ≡ true }
        ensures refused { IfSome (plain_refusal self.old) (λ fault. (result ≡ Err fault) × (self.new ≡ self.old)) }
        ensures answer { IfOk result (λ answer. answer ≡ verify_answer D.eq L.elect self.old) }
        ensures after { OnOk result (self.new ≡ after_try_verify D.eq L.elect self.old) }
        ensures taken { plain_refusal self.old ≡ None → IsOk result }
    {
        if self.is_failed() {
            return Err(Fault::Failed);
        }
        Ok(self.scan())
    }

    /// Visits the tracked views ahead, up to the first that has a step.
    fn scan(&mut self) -> Verify<D, S::PublicKey>
        requires { 1 ≤ self.old.current }
        ensures answer { result ≡ verify_answer D.eq L.elect self.old }
        ensures after { self.new ≡ after_try_verify D.eq L.elect self.old }
    {
        let near = self.last_near();
        let last = self.last_ahead();
        // proof only: exposes that the rounds are sorted by view
        let _ahead = self.views_within(self.current, last);
        let mut from = self.current;
        while let Some(view) = self.first_within(from, last) {
            if let Some(answer) = self.visit(view) {
                return answer;
            }
            from = next_scanned(view.next(), near, last);
        }
        Verify::Wait
    }

    /// The last view so near to the current one that this member may work there inside the term.
    pub(super) fn last_near(&self) -> View
        ensures { result ≡ min (self.now.current + self.now.terms.optimistic_views) (2 ^ 64 - 1) }
    {
        let terms = self.elector.terms();
        View::new(self.current.get().saturating_add(terms.optimistic_views))
    }

    /// The lowest tracked view from one view to another.
    fn first_within(&self, low: View, high: View) -> Option<View>
        requires { (low ≤ high + 1) × (high + 1 < 2 ^ 64) }
        ensures found { result ≡ option_map (λ e. e.0) (slice_get (views_within self.now low high) 0) }
        ensures ordered { is_sorted nat_cmp self.now.rounds ≡ true }
    {
        match self.views_within(low, high).pop_first() {
            Some(entry) => Some(entry.0),
            None => None,
        }
    }

    /// Handles a tracked view by the standing of its proposal, and returns its step, if it has one.
    fn visit(&mut self, view: View) -> Option<Verify<D, S::PublicKey>>
        requires { is_tracked self.old view ≡ true }
        ensures answer { result ≡ answer_in D.eq L.elect self.old (view, round_of self.old view) }
        ensures left { self.new ≡ left_at self.old (view, round_of self.old view)
            (standing D.eq L.elect self.old (view, round_of self.old view)) }
    {
        let round = self.round_at(view)?;
        let (leader, proposal) = round.pending_verification()?;
        match self.standing(view, round) {
            Standing::NothingToDo => None,
            Standing::Invalid => {
                self.latch(view, TimeoutReason::InvalidProposal, self.last_moment);
                None
            }
            Standing::Lacks(wanted, kind) => {
                self.note_request(view, wanted);
                Some(Verify::Resolve {
                    proposal: view,
                    view: wanted,
                    kind,
                    target: leader.key,
                })
            }
            Standing::Ready(payload) => {
                self.give_out(view, payload);
                let context = Context {
                    round: proposal.round,
                    leader: leader.key,
                    parent: (proposal.parent, payload),
                };
                Some(Verify::Ready(context, proposal))
            }
        }
    }

    fn note_request(&mut self, view: View, wanted: View)
        ensures { self.new ≡ with_tracked self.old view (with_request (round_of self.old view) wanted) }
    {
        self.rounds.note_request(view, wanted);
    }

    /// Marks the proposal of a view as returned for verification, bound to its parent's payload.
    fn give_out(&mut self, view: View, payload: D)
        requires { is_some (pending_proposal (round_of self.old view)) ≡ true }
        ensures { self.new ≡ with_tracked self.old view (verifying_round (round_of self.old view) payload) }
    {
        self.rounds.give_out(view, payload);
    }

    /// Records that the application verified the proposal returned for a view. Marks the held proposal, unless nullify
    /// was decided there, and returns whether it did; it did not if the proposal was marked before or another proposal
    /// was seen. If the view's binding no longer holds, it is removed and nothing is marked.
    ///
    /// The state must have a floor.
    pub fn verified(&mut self, view: View) -> Result<bool, Fault>
        requires { (self.old.failed || is_started self.old) ≡ true }
        ensures refused { IfSome (plain_refusal self.old) (λ fault. (result ≡ Err fault) × (self.new ≡ self.old)) }
        ensures answer { IfOk result (λ marked. marked ≡ verified_answer D.eq L.elect self.old view) }
        ensures after { OnOk result (self.new ≡ after_verified D.eq L.elect self.old view) }
        ensures taken { plain_refusal self.old ≡ None → IsOk result }
    {
        if self.is_failed() {
            return Err(Fault::Failed);
        }
        // the answer is about a proposal, or on a parent, that was replaced since, and says nothing about what is held
        // now. The replaced one can't be verified on another parent: it commits to its own
        if !self.verification_matches(view) {
            self.clear_verifying(view);
            return Ok(false);
        }
        Ok(self.rounds.mark(view))
    }

    /// Records that the application refused the proposal returned for a view, or could not verify it. The view times
    /// out at its next poll, for this reason and at this moment in milliseconds, as in `trigger_timeout`. If the view's
    /// binding no longer holds, it is removed instead. The moment is recorded always.
    ///
    /// The state must have a floor.
    pub fn verification_failed(
        &mut self,
        view: View,
        reason: TimeoutReason,
        now: u64,
    ) -> Result<(), Fault>
        requires { (self.old.failed || is_started self.old) ≡ true }
        ensures refused { IfSome (plain_refusal self.old) (λ fault. (result ≡ Err fault) × (self.new ≡ self.old)) }
        ensures after { OnOk result (self.new ≡ after_verification_failed D.eq L.elect self.old view reason now) }
        ensures taken { plain_refusal self.old ≡ None → IsOk result }
    {
        if self.is_failed() {
            return Err(Fault::Failed);
        }
        // a refusal of what was replaced must not abandon the view: the certificate that replaced it is handled by
        // itself
        let holds = self.verification_matches(view);
        self.note_moment(now);
        if holds {
            self.trigger(view, reason, now);
        } else {
            self.clear_verifying(view);
        }
        Ok(())
    }

    fn clear_verifying(&mut self, view: View)
        ensures { self.new ≡ without_binding self.old view }
    {
        self.rounds.clear_verifying(view);
    }
}
