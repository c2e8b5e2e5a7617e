//! This member's votes in a view, and their replay from its record.

ghost use Rattle.std.specs.Prelude.{◌≡◌, ◌||◌, Some, None, true, false, if◌then◌else◌};
ghost use Rattle.simplex_types.specs.Proposal.{same_proposal};
ghost use Rattle.simplex_round.specs.Round.{after_nullify, after_replay, can_finalize, can_notarize, is_finalize, is_nullify, TakesArtifact};
ghost use Rattle.simplex_round.specs.declared.round.Decision.TheVariants.{Finalize};

use super::{Decision, Round};
use simplex_types::types::{Artifact, CertificateScheme, Digest, Proposal};

impl<S: CertificateScheme, D: Digest> Round<S, D> {
    /// Returns whether the vote to notarize was decided.
    pub fn broadcast_notarize(&self) -> bool
        ensures { result ≡ self.now.notarize_decided }
    {
        self.notarize_decided
    }

    /// Returns whether `construct_notarize` would return a proposal: neither notarize nor nullify
    /// was decided, and the held proposal is verified and was not contradicted.
    pub fn can_construct_notarize(&self) -> bool
        ensures { result ≡ can_notarize self.now }
    {
        !self.notarize_decided && !self.is_nullified() && self.is_verified()
    }

    /// Decides the vote to notarize and returns its proposal, once, if `can_construct_notarize`.
    pub fn construct_notarize(&mut self) -> Option<Proposal<D>>
        ensures vote { result ≡ (if can_notarize self.old then self.old.slot.held else None) }
        ensures facts { self.new ≡ record
            self.old { notarize_decided = self.old.notarize_decided || can_notarize self.old } }
    {
        if !self.can_construct_notarize() {
            return None;
        }
        self.notarize_decided = true;
        self.slot.proposal().copied()
    }

    /// Decides the vote to nullify, and returns whether it was decided before, as it is for a
    /// repetition. Returns `None`, and changes nothing, after the vote to finalize. The moment of
    /// the next repetition is unset until the next poll.
    pub fn construct_nullify(&mut self) -> Option<bool>
        ensures retry { result ≡ (if is_finalize self.old.decision then None else Some (is_nullify self.old.decision)) }
        ensures facts { self.new ≡ after_nullify self.old }
    {
        let retry = match self.decision {
            Decision::Finalize => return None,
            Decision::Nullify { .. } => true,
            Decision::Pending { .. } => false,
        };
        self.decision = Decision::Nullify { retry: None };
        Some(retry)
    }

    /// Returns whether `construct_finalize` would return a proposal: neither nullify nor finalize
    /// was decided, a proposal is held and was not contradicted, and the view is notarized and
    /// certified. This member need not have verified it.
    pub fn can_construct_finalize(&self) -> bool
        ensures { result ≡ can_finalize self.now }
    {
        matches!(self.decision, Decision::Pending { .. })
            && self.slot.has_unequivocated_proposal()
            && self.notarization.is_some()
            && self.is_certified()
    }

    /// Decides the vote to finalize and returns its proposal, once, if `can_construct_finalize`.
    /// Otherwise nothing changes.
    pub fn construct_finalize(&mut self) -> Option<Proposal<D>>
        ensures vote { result ≡ (if can_finalize self.old then self.old.slot.held else None) }
        ensures facts { self.new ≡
            (if can_finalize self.old then record self.old { decision = Finalize } else self.old) }
    {
        if !self.can_construct_finalize() {
            return None;
        }
        self.decision = Decision::Finalize;
        self.slot.proposal().copied()
    }

    /// Replays an entry of this member's record after a restart: a vote is decided again, and its
    /// notarized proposal counts as verified; a certificate counts as already broadcast, and is not
    /// added; a verdict is restored.
    ///
    /// A vote must be this member's own, nullify and finalize must not meet, and no verdict may
    /// contradict another.
    pub fn replay(&mut self, artifact: &Artifact<S, D>)
        requires { TakesArtifact self.old artifact.now }
        ensures { self.new ≡ after_replay (same_proposal D.eq) self.old artifact.now }
    {
        match artifact {
            Artifact::Notarize(notarize) => {
                let _held = self.slot.record_verified(notarize.proposal);
                self.notarize_decided = true;
            }
            Artifact::Nullify(_) => self.decision = Decision::Nullify { retry: None },
            Artifact::Finalize(_) => self.decision = Decision::Finalize,
            Artifact::Notarization(_) => self.notarization_broadcast = true,
            Artifact::Nullification(_) => self.nullification_broadcast = true,
            Artifact::Finalization(_) => self.finalization_broadcast = true,
            Artifact::Certification(_, success) => self.certified(*success),
        }
    }
}
