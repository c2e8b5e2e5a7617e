//! The certification of a view: the application's verdict on the notarized proposal.

ghost use Rattle.std.specs.Prelude.{◌≡◌, Some, None, true, false, not, option_map, if◌then◌else◌};
ghost use Rattle.std.specs.Option.{option_copied};
ghost use Rattle.simplex_types.specs.Proposal.{same_proposal};
ghost use Rattle.simplex_round.specs.Round.{after_abort, certifiable_proposal, certified_held, certified_round, is_aborted, is_certified, is_judged, token_of};
ghost use Rattle.simplex_round.specs.declared.round.Certification.TheVariants.{Outstanding};

use super::{Certification, Round};
use simplex_types::types::{CertificateScheme, Digest, Proposal};

impl<S: CertificateScheme, D: Digest> Round<S, D> {
    /// Returns how far the certification of this view has come.
    pub fn certification(&self) -> Certification
        ensures { result ≡ self.now.certification }
    {
        self.certification
    }

    /// The held proposal, if it is the notarized one and its certification was neither requested,
    /// nor answered, nor abandoned. Records no request.
    pub fn pending_certification(&self) -> Option<Proposal<D>>
        ensures { result ≡ certifiable_proposal (same_proposal D.eq) self.now }
    {
        if matches!(self.certification, Certification::Ready)
            && let Some(notarization) = &self.notarization
            && let Some(held) = self.slot.proposal()
            && *held == notarization.proposal
        {
            Some(*held)
        } else {
            None
        }
    }

    /// Records that certification was requested, under this token, in place of any before. A host
    /// that has a verdict must not call it: the verdict would be lost.
    pub fn set_certify_handle(&mut self, token: u64)
        ensures { self.new ≡ record self.old { certification = Outstanding token } }
    {
        self.certification = Certification::Outstanding(token);
    }

    /// The token of an outstanding certification.
    pub fn certify_token(&self) -> Option<u64>
        ensures { result ≡ token_of self.now.certification }
    {
        match self.certification {
            Certification::Outstanding(token) => Some(token),
            Certification::Ready | Certification::Judged(_) | Certification::Aborted => None,
        }
    }

    /// Abandons the certification, unless there is a verdict.
    pub fn abort_certify(&mut self)
        ensures { self.new ≡ record self.old { certification = after_abort self.old.certification } }
    {
        if !matches!(self.certification, Certification::Judged(_)) {
            self.certification = Certification::Aborted;
        }
    }

    /// Returns whether the certification was abandoned, and no verdict came after that.
    pub fn is_certify_aborted(&self) -> bool
        ensures { result ≡ is_aborted self.now.certification }
    {
        matches!(self.certification, Certification::Aborted)
    }

    /// Records the verdict, also if certification was abandoned or not requested. There must be no
    /// contradicting verdict, which `certification` shows.
    pub fn certified(&mut self, success: bool)
        requires { is_judged (not success) self.old.certification ≡ false }
        ensures { self.new ≡ certified_round self.old success }
    {
        self.certification = Certification::Judged(success);
    }

    /// Returns whether the application certified the proposal.
    pub fn is_certified(&self) -> bool
        ensures { result ≡ is_certified self.now.certification }
    {
        matches!(self.certification, Certification::Judged(true))
    }

    /// The held proposal, if the view is finalized or certified.
    pub fn certified_proposal(&self) -> Option<&Proposal<D>>
        ensures { option_copied result ≡ certified_held self.now }
    {
        if self.finalization.is_none() && !self.is_certified() {
            return None;
        }
        self.slot.proposal()
    }

    /// The held proposal's payload, if the view is finalized or certified.
    pub fn certified_payload(&self) -> Option<&D>
        ensures { option_copied result ≡ option_map (λ p. p.payload) (certified_held self.now) }
    {
        match self.certified_proposal() {
            Some(proposal) => Some(&proposal.payload),
            None => None,
        }
    }
}
