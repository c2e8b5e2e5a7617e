//! When this member builds a proposal, and on which parent; the requests to build.

ghost use Rattle.std.specs.Prelude.{◌≡◌, ◌||◌, IfSome, OnOk, Err, None, true, IsOk, ◌≤◌, ◌<◌, ◌+◌, ◌^◌, IfOk, slice_get, if◌then◌else◌};
ghost use Rattle.simplex_voter.specs.ProposalRequests.{is_handoff, request_context};
ghost use Rattle.std.specs.List.{filter_map};
ghost use Rattle.std.specs.Result.{IsOk};
ghost use Rattle.simplex_round.specs.Round.{should_propose};

use super::state::State;
use simplex_round::round::{Leader, Round};
use simplex_types::types::{CertificateScheme, Context, Digest, Elector, Fault, View, Viewable};
use simplex_view_maps::entries::Entries;
use std::alloc::AllocError;

/// A request to this member to build a proposal.
#[derive(PartialEq, Eq)]
pub enum ProposalRequest<D, P: Copy> {
    /// A handoff: the first proposal of a term, on a parent that is not certified yet. It may have to be abandoned.
    Prepare(Context<D, P>),
    /// A proposal on a certified parent, or on one that its window allows.
    Propose(Context<D, P>),
}

impl<D: Copy, P: Copy> Copy for ProposalRequest<D, P> {}

impl<D: Copy, P: Copy> Clone for ProposalRequest<D, P> {
    ghost use Rattle.std.specs.Prelude.{◌≡◌, ⊤};

    ghost is_clone = { λ it copy. copy ≡ it };

    ghost is_infallible = { λ _. ⊤ };

    fn clone(&self) -> Result<ProposalRequest<D, P>, AllocError> {
        Ok(*self)
    }
}

impl<D: Digest, P: Copy> ProposalRequest<D, P> {
    /// Returns whether this is a handoff, whose parent may still fail to be certified.
    pub fn is_handoff(&self) -> bool
        ensures { result ≡ is_handoff self.now }
    {
        matches!(self, ProposalRequest::Prepare(_))
    }

    /// The view, its leader and the parent to build on.
    pub fn context(&self) -> &Context<D, P>
        ensures { result.now ≡ request_context self.now }
    {
        match self {
            ProposalRequest::Prepare(context) => context,
            ProposalRequest::Propose(context) => context,
        }
    }

    /// Returns the context by value.
    pub fn into_context(self) -> Context<D, P>
        ensures { result ≡ request_context self }
    {
        match self {
            ProposalRequest::Prepare(context) => context,
            ProposalRequest::Propose(context) => context,
        }
    }
}

impl<D: Digest, P: Copy> Viewable for ProposalRequest<D, P> {
    ghost view_of = { λ request. (request_context request).round.view };

    fn view(&self) -> View {
        self.context().round.view
    }
}

impl<S: CertificateScheme, L: Elector<S>, D: Digest> State<S, L, D> {
    ghost use Rattle.simplex_voter.specs.Refusals.{plain_refusal, is_started};
    ghost use Rattle.simplex_voter.specs.ProposalRequests.{after_release, parent_certified, voted_nullify, context_on, request_on, request_in, propose_answer, after_try_propose, request_context, views_within};
    ghost use Rattle.std.specs.Ordering.{nat_cmp};
    ghost use Rattle.std.specs.FinMap.Entries.{is_sorted};
    ghost use Rattle.simplex_types.specs.Terms.{next_term_start};
    ghost use Rattle.simplex_voter.specs.Facts.{round_of};

    /// Clears the request to build a proposal in a view, so that it can be made again while no proposal is held there.
    /// If the view isn't tracked, nothing changes.
    ///
    /// The state must have a floor.
    pub fn release_proposal_request(&mut self, view: View) -> Result<(), Fault>
        requires { (self.old.failed || is_started self.old) ≡ true }
        ensures refused { IfSome (plain_refusal self.old) (λ fault. (result ≡ Err fault) × (self.new ≡ self.old)) }
        ensures after { OnOk result (self.new ≡ after_release self.old view) }
        ensures answers { plain_refusal self.old ≡ None → IsOk result }
    {
        if self.is_failed() {
            return Err(Fault::Failed);
        }
        self.release(view);
        Ok(())
    }

    /// Clears the request to build a proposal in a tracked view.
    pub(super) fn release(&mut self, view: View)
        ensures { self.new ≡ after_release self.old view }
    {
        self.rounds.release(view);
    }

    /// Returns whether this member has cast its vote to nullify the view.
    pub fn voted_nullify(&self, view: View) -> bool
        ensures { result ≡ voted_nullify self.now view }
    {
        self.nullify_votes.get(view).is_some()
    }

    /// Returns whether the view is certified or finalized with exactly this payload; genesis has its own.
    pub fn parent_certified(&self, parent: (View, D)) -> bool
        ensures { result ≡ parent_certified D.eq self.now parent }
    {
        match self.explicit_ancestry_payload(parent.0) {
            Some(payload) => *payload == parent.1,
            None => false,
        }
    }

    /// Returns what this member must build next. The view is the lowest one, from the current one to the next term's
    /// start, where this member
    /// - leads and may work,
    /// - has not voted to nullify,
    /// - neither holds a proposal nor is building one,
    /// - has a parent to build on.
    ///
    /// A term's first proposal on an uncertified parent is only prepared, and not after this member's vote to nullify
    /// the current view. The request remains until it is cleared.
    ///
    /// The state must have a floor.
    pub fn try_propose(&mut self) -> Result<Option<ProposalRequest<D, S::PublicKey>>, Fault>
        requires { (self.old.failed || is_started self.old) ≡ true }
        ensures refused { IfSome (plain_refusal self.old) (λ fault. (result ≡ Err fault) × (self.new ≡ self.old)) }
        ensures answer { IfOk result (λ request. request ≡ propose_answer D.eq L.elect self.old) }
        ensures after { OnOk result (self.new ≡ after_try_propose D.eq L.elect self.old) }
        ensures taken { plain_refusal self.old ≡ None → IsOk result }
    {
        if self.is_failed() {
            return Err(Fault::Failed);
        }
        let Some(request) = self.next_request() else {
            return Ok(None);
        };
        self.rounds.ask_to_build(request.view());
        Ok(Some(request))
    }

    /// The request of the lowest view, from the current one on, that has one.
    fn next_request(&self) -> Option<ProposalRequest<D, S::PublicKey>>
        requires { 1 ≤ self.now.current }
        ensures answer { result ≡ propose_answer D.eq L.elect self.now }
        ensures ready { IfSome result
            (λ request. should_propose (round_of self.now (request_context request).round.view) ≡ true) }
    {
        let near = self.last_near();
        let last = self.last_ahead();
        if near < last {
            return match self.first_request(self.views_within(self.current, near)) {
                Some(request) => Some(request),
                None => self.first_request(self.views_within(last, last)),
            };
        }
        self.first_request(self.views_within(self.current, last))
    }

    /// The tracked views from one view to another, by rising view.
    pub(super) fn views_within(&self, low: View, high: View) -> Entries<'_, Round<S, D>>
        requires { (low ≤ high + 1) × (high + 1 < 2 ^ 64) }
        ensures within { result ≡ views_within self.now low high }
        ensures ordered { is_sorted nat_cmp self.now.rounds ≡ true }
    {
        self.rounds.within(low, high)
    }

    /// The last view that a search for work visits: the next term's start.
    pub(super) fn last_ahead(&self) -> View
        requires { 1 ≤ self.now.current }
        ensures last { result ≡ next_term_start self.now.terms.term_length self.now.current }
        ensures room { (self.now.current ≤ result) × (result + 1 < 2 ^ 64) }
    {
        let length = self.elector.terms().term_length;
        // proof only: exposes that the term length is positive
        let _views = length.get();
        self.current.next_term_start(length)
    }

    /// The request of the first of some views that has one.
    fn first_request(
        &self,
        mut entries: Entries<'_, Round<S, D>>,
    ) -> Option<ProposalRequest<D, S::PublicKey>>
        ensures { result ≡ slice_get (filter_map (request_in D.eq L.elect self.now) entries.entry) 0 }
    {
        while let Some(entry) = entries.pop_first() {
            let request = self.request_in(entry.0, entry.1);
            if request.is_some() {
                return request;
            }
        }
        None
    }

    /// The request to build in a view, if there is one.
    fn request_in(
        &self,
        view: View,
        round: &Round<S, D>,
    ) -> Option<ProposalRequest<D, S::PublicKey>>
        ensures { result ≡ request_in D.eq L.elect self.now (view, round.now) }
    {
        if !self.is_admitted(view) {
            return None;
        }
        if !round.should_propose() {
            return None;
        }
        // tested before the request is claimed: a request is made once, and without a parent the view stays open for a
        // later try
        let parent = self.find_parent(view)?;
        self.request_on(view, round, parent)
    }

    /// The request to build in a view that this member leads, on this parent.
    fn request_on(
        &self,
        view: View,
        round: &Round<S, D>,
        parent: (View, D),
    ) -> Option<ProposalRequest<D, S::PublicKey>>
        ensures { result ≡ request_on D.eq self.now view round.now parent }
    {
        let context = self.context_on(view, parent, round.leader()?);
        if !self.is_term_start(view) || self.parent_certified(parent) {
            return Some(ProposalRequest::Propose(context));
        }
        // not even claimed after a vote to nullify the view in which it waits: an application that is ready at once
        // could take it before the host asks whether to continue. If the parent is certified after all, this is an
        // ordinary request
        if self.voted_nullify(self.current) {
            return None;
        }
        Some(ProposalRequest::Prepare(context))
    }

    fn context_on(
        &self,
        view: View,
        parent: (View, D),
        leader: &Leader<S::PublicKey>,
    ) -> Context<D, S::PublicKey>
        ensures { result ≡ context_on self.now view parent leader.now }
    {
        Context {
            round: self.round_number(view),
            leader: leader.key,
            parent,
        }
    }
}
