//! Tests that a host may make before a call that requires them, and which views a message may name. They change nothing
//! and take no memory.

ghost use Rattle.std.specs.Prelude.{◌≡◌, ◌↔◌, IsTrue};
ghost use Rattle.simplex_voter.specs.Refusals.{names_too_large};
ghost use Rattle.simplex_types.specs.MessageViews.{artifact_view};
ghost use Rattle.simplex_round.specs.Round.{is_judged, TakesArtifact};
ghost use Rattle.simplex_voter.specs.Replay.{artifact_round};

use super::state::State;
use simplex_round::round::{Certification, Decision, Round};
use simplex_types::types;
use simplex_types::types::{
    Artifact, CertificateScheme, Digest, Elector, LARGEST_VIEW, Proposal, View, Viewable,
};

/// Returns whether a proposal's view or its parent's is above 2^63 - 1.
pub(super) fn names_too_large<D: Digest>(proposal: &Proposal<D>) -> bool
    ensures { result ≡ names_too_large proposal.now }
{
    proposal.round.view.get() > LARGEST_VIEW || proposal.parent.get() > LARGEST_VIEW
}

/// Returns whether the round's certification has this verdict.
fn is_judged<S: CertificateScheme, D: Digest>(round: &Round<S, D>, verdict: bool) -> bool
    ensures { result ≡ is_judged verdict round.now.certification }
{
    match round.certification() {
        Certification::Judged(standing) => standing == verdict,
        Certification::Ready | Certification::Outstanding(_) | Certification::Aborted => false,
    }
}

/// Returns whether a round accepts an entry of the record: a vote is this member's own and doesn't meet its opposite,
/// and there is no other verdict.
fn takes_artifact<S: CertificateScheme, D: Digest>(
    round: &Round<S, D>,
    artifact: &Artifact<S, D>,
) -> bool
    ensures { IsTrue result ↔ TakesArtifact round.now artifact.now }
{
    match artifact {
        Artifact::Notarize(vote) => round.is_signer(vote.signer),
        Artifact::Nullify(vote) => {
            round.is_signer(vote.signer) && !matches!(round.decision(), Decision::Finalize)
        }
        Artifact::Finalize(vote) => {
            round.is_signer(vote.signer) && !matches!(round.decision(), Decision::Nullify { .. })
        }
        Artifact::Certification(_, success) => !is_judged(round, !*success),
        Artifact::Notarization(_) | Artifact::Nullification(_) | Artifact::Finalization(_) => true,
    }
}

/// The round of an entry of the record.
fn round_of_artifact<S: CertificateScheme, D: Digest>(artifact: &Artifact<S, D>) -> types::Round
    ensures { result ≡ artifact_round artifact.now }
{
    match artifact {
        Artifact::Notarize(vote) => vote.proposal.round,
        Artifact::Notarization(notarization) => notarization.proposal.round,
        Artifact::Certification(round, _) => *round,
        Artifact::Nullify(vote) => vote.round,
        Artifact::Nullification(nullification) => nullification.round,
        Artifact::Finalize(vote) => vote.proposal.round,
        Artifact::Finalization(finalization) => finalization.proposal.round,
    }
}

impl<S: CertificateScheme, L: Elector<S>, D: Digest> State<S, L, D> {
    ghost use Rattle.simplex_voter.specs.Facts.{round_of};
    ghost use Rattle.simplex_round.specs.Round.{new_round};
    ghost use Rattle.simplex_voter.specs.Replay.{TakesReplay};
    ghost use Rattle.simplex_voter.specs.Refusals.{is_started, takes_round};
    ghost use Rattle.simplex_voter.specs.Certification.{takes_verdict, is_first_verdict};

    /// Returns whether a floor was set.
    pub fn is_started(&self) -> bool
        ensures { result ≡ is_started self.now }
    {
        self.current > View::zero()
    }

    /// Returns whether a certificate, proposal or artifact of the round is accepted: a floor was set, and the round is
    /// of this epoch and of a retained view.
    pub fn takes_round(&self, round: &types::Round) -> bool
        ensures { result ≡ takes_round self.now round.now }
    {
        self.is_started() && round.epoch == self.epoch() && self.admits_certificate(round.view)
    }

    /// Returns whether the verdict of a view's certification is accepted: a floor was set, and a tracked view has its
    /// notarization and no other verdict.
    pub fn takes_verdict(&self, view: View, success: bool) -> bool
        ensures { result ≡ takes_verdict self.now view success }
    {
        if !self.is_started() {
            return false;
        }
        match self.round_at(view) {
            Some(round) => round.notarization().is_some() && !is_judged(round, !success),
            None => true,
        }
    }

    /// Returns whether a verdict would be the first of its view, which is tracked.
    pub fn is_first_verdict(&self, view: View) -> bool
        ensures { result ≡ is_first_verdict self.now view }
    {
        match self.round_at(view) {
            Some(round) => !is_judged(round, true) && !is_judged(round, false),
            None => false,
        }
    }

    /// Returns whether an entry of the record is accepted: its round is, a vote is this member's own and doesn't meet
    /// its opposite, and there is no other verdict.
    pub fn takes_replay(&self, artifact: &Artifact<S, D>) -> bool
        ensures { IsTrue result ↔ TakesReplay self.now artifact.now }
    {
        self.takes_round(&round_of_artifact(artifact)) && self.takes_artifact(artifact)
    }

    /// Returns whether the view's round accepts an entry of the record.
    fn takes_artifact(&self, artifact: &Artifact<S, D>) -> bool
        ensures { IsTrue result ↔ TakesArtifact (round_of self.now (artifact_view artifact.now)) artifact.now }
    {
        match self.round_at(artifact.view()) {
            Some(round) => takes_artifact(round, artifact),
            None => self.takes_first_artifact(artifact),
        }
    }

    /// Returns whether an empty round accepts an entry of the record: a vote is this member's own.
    fn takes_first_artifact(&self, artifact: &Artifact<S, D>) -> bool
        ensures { IsTrue result ↔ TakesArtifact
            (new_round self.now.me self.now.members (artifact_round artifact.now)) artifact.now }
    {
        match artifact {
            Artifact::Notarize(vote) => self.is_me(vote.signer),
            Artifact::Nullify(vote) => self.is_me(vote.signer),
            Artifact::Finalize(vote) => self.is_me(vote.signer),
            Artifact::Notarization(_)
            | Artifact::Certification(_, _)
            | Artifact::Nullification(_)
            | Artifact::Finalization(_) => true,
        }
    }
}
