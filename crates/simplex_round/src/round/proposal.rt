//! The proposal of a view: whether to build or to verify one, and the result.

ghost use Rattle.std.specs.Prelude.{◌≡◌, ◌&&◌, Some, None, true, false, not, is_some, if◌then◌else◌};
ghost use Rattle.std.specs.Option.{option_copied};
ghost use Rattle.simplex_types.specs.Proposal.{same_proposal};
ghost use Rattle.simplex_round.specs.Round.{is_last_request, is_nullify, is_verified_slot, pending_proposal, should_propose, should_verify};
ghost use Rattle.simplex_round.specs.Slot.{is_unequivocated, is_unverified, holds_or_empty, after_own, after_mark, after_vote};

use super::{Leader, Round};
use crate::slot::{Change, Status};
use simplex_types::types::{CertificateScheme, Digest, Proposal, View};

impl<S: CertificateScheme, D: Digest> Round<S, D> {
    /// The proposal that the view's slot holds.
    pub fn proposal(&self) -> Option<&Proposal<D>>
        ensures { option_copied result ≡ self.now.slot.held }
    {
        self.slot.proposal()
    }

    /// Returns whether a proposal is held, and no other was seen.
    pub fn has_unequivocated_proposal(&self) -> bool
        ensures { result ≡ is_unequivocated self.now.slot }
    {
        self.slot.has_unequivocated_proposal()
    }

    /// Returns whether the held proposal was verified or is this member's own, and no other was seen.
    pub fn is_verified(&self) -> bool
        ensures { result ≡ is_verified_slot self.now.slot }
    {
        self.slot.status() == Status::Verified
    }

    /// Returns whether this member must build a proposal: it leads the view, has not voted to
    /// nullify it, and neither holds a proposal nor is building one.
    pub fn should_propose(&self) -> bool
        ensures { result ≡ should_propose self.now }
    {
        match &self.leader {
            None => false,
            Some(leader) => {
                self.is_signer(leader.idx) && !self.is_nullified() && self.slot.should_build()
            }
        }
    }

    /// Requests that a proposal be built, if one must be: returns the leader, and the request
    /// remains until it is cleared.
    pub fn try_propose(&mut self) -> Option<Leader<S::PublicKey>>
        ensures leader { result ≡ (if should_propose self.old then self.old.leader else None) }
        ensures facts { self.new ≡ (if should_propose self.old then record self.old {
          slot = record
              (self.old.slot) { build_requested = true };
        } else self.old) }
    {
        if !self.should_propose() {
            return None;
        }
        self.slot.set_building();
        self.leader
    }

    /// Clears the request to build. Another may follow only while no proposal is held.
    pub fn clear_proposal_request(&mut self)
        ensures { self.new ≡ record self.old { slot = record (self.old.slot) { build_requested = false } } }
    {
        self.slot.clear_request();
    }

    /// Records this member's own proposal, built at `now`, as verified.
    ///
    /// Returns false, and changes nothing, if nullify was decided or another proposal is held, for
    /// example when a certificate came first.
    pub fn proposed(&mut self, now: u64, proposal: Proposal<D>) -> bool
        ensures recorded { result ≡
            (not (is_nullify self.old.decision) && holds_or_empty (same_proposal D.eq) self.old.slot proposal) }
        ensures facts { self.new ≡ (if result then record self.old {
          slot = after_own
              (same_proposal D.eq) self.old.slot proposal;
          proposed_at = Some now;
        } else self.old) }
    {
        if self.is_nullified() {
            return false;
        }
        if !self.slot.record_verified(proposal) {
            return false;
        }
        self.proposed_at = Some(now);
        true
    }

    /// Takes a proposal from the leader's vote, and returns whether it is to be verified: it is the
    /// first one, and nullify was not decided. A proposal that differs from the held one is not
    /// stored, and the view counts as equivocated from then on.
    pub fn set_proposal(&mut self, proposal: &Proposal<D>) -> bool
        ensures first { result ≡ (not (is_nullify self.old.decision) && not (is_some self.old.slot.held)) }
        ensures facts { self.new ≡ (if is_nullify self.old.decision then self.old else record self.old {
          slot = after_vote
              (same_proposal D.eq) self.old.slot proposal.now;
        }) }
    {
        if self.is_nullified() {
            return false;
        }
        matches!(self.slot.update_vote(proposal), Some(Change::New))
    }

    fn is_verify_ready(&self) -> bool
        ensures { result ≡ should_verify self.now }
    {
        match &self.leader {
            None => false,
            Some(leader) => {
                !self.is_signer(leader.idx) && !self.is_nullified() && self.slot.should_verify()
            }
        }
    }

    /// The leader and the held proposal, if it is to be verified: another member leads the view,
    /// nullify was not decided, and verification was not requested. Records no request.
    pub fn pending_verification(&self) -> Option<(Leader<S::PublicKey>, Proposal<D>)>
        ensures { result ≡ pending_proposal self.now }
    {
        if self.is_verify_ready()
            && let Some(leader) = self.leader
            && let Some(proposal) = self.slot.proposal()
        {
            Some((leader, *proposal))
        } else {
            None
        }
    }

    /// Records that verification is requested. Returns false, and changes nothing, if it was
    /// requested before, this member leads the view, no leader is known or nullify was decided.
    pub fn request_verify(&mut self) -> bool
        ensures first { result ≡ should_verify self.old }
        ensures facts { self.new ≡ (if should_verify self.old then record self.old {
          slot = record
              (self.old.slot) { verify_requested = true };
        } else self.old) }
    {
        self.is_verify_ready() && self.slot.request_verify()
    }

    /// Marks the held proposal as verified. Returns false if nothing was marked: nullify was
    /// decided, no proposal is held, it was verified before, or two were seen.
    pub fn verified(&mut self) -> bool
        ensures marked { result ≡ (not (is_nullify self.old.decision) && is_unverified self.old.slot) }
        ensures facts { self.new ≡
            (if is_nullify self.old.decision then self.old else record self.old { slot = after_mark self.old.slot }) }
    {
        !self.is_nullified() && self.slot.mark_verified()
    }

    /// Returns whether `view` was the last one that peers were asked for, to verify this view's proposal.
    pub fn is_last_request(&self, view: View) -> bool
        ensures { result ≡ is_last_request self.now view }
    {
        self.last_request == Some(view)
    }

    /// Records that the verification of this view's proposal asks peers for a certificate of
    /// `view`. Returns false if that view was the last one asked for.
    pub fn request(&mut self, view: View) -> bool
        ensures first { result ≡ not (is_last_request self.old view) }
        ensures facts { self.new ≡ record self.old { last_request = Some view } }
    {
        let first = !self.is_last_request(view);
        self.last_request = Some(view);
        first
    }

    /// Binds the view to a proposal and its parent's payload, as they were when the proposal was
    /// passed to the application, built or voted for. A certificate may replace either later.
    pub fn set_verifying(&mut self, proposal: Proposal<D>, parent_payload: D)
        ensures { self.new ≡ record self.old { binding = Some (proposal, parent_payload) } }
    {
        self.binding = Some((proposal, parent_payload));
    }

    /// The bound proposal and its parent's payload.
    pub fn verifying(&self) -> Option<&(Proposal<D>, D)>
        ensures { option_copied result ≡ self.now.binding }
    {
        self.binding.as_ref()
    }

    /// Forgets the binding.
    pub fn clear_verifying(&mut self)
        ensures { self.new ≡ record self.old { binding = None } }
    {
        self.binding = None;
    }
}
