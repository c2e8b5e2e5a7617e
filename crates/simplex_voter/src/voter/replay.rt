//! Restoring the entries of this member's record after a restart.

ghost use Rattle.std.specs.Prelude.{◌≡◌, ◌≤◌, IfErr, OnOk, IfSome, Err, None, option_and_then, false};
ghost use Rattle.simplex_types.specs.Proposal.{same_proposal};
ghost use Rattle.simplex_types.specs.declared.types.fault.Fault.TheVariants.{OutOfMemory};
ghost use Rattle.simplex_round.specs.Round.{TakesArtifact, after_replay};
ghost use Rattle.simplex_voter.specs.Replay.{bound_again, artifact_too_large, voted_proposal};
ghost use Rattle.simplex_voter.specs.Rounds.{IsWider, MayBeRecalled};
ghost use Rattle.simplex_types.specs.Terms.{IsVotable};
ghost use Rattle.simplex_types.specs.MessageViews.{artifact_view};

use super::conditions::names_too_large;
use super::rounds::{Bounds, Rounds};
use super::state::State;
use simplex_round::round::Round;
use simplex_types::types::{
    Artifact, CertificateScheme, Digest, Elector, Fault, LARGEST_VIEW, Proposal, View, Viewable,
};

/// Widens the bounds by the verdict in an entry of the record, if it is one.
fn allow_recalled<S: CertificateScheme, D: Digest>(
    bounds: &mut Bounds,
    view: View,
    artifact: &Artifact<S, D>,
) -> Result<(), Fault>
    ensures wider { IsWider bounds.old bounds.new }
    ensures recalled { OnOk result (MayBeRecalled bounds.new view artifact.now) }
    ensures refused { IfErr result (λ fault. fault ≡ OutOfMemory) }
{
    match artifact {
        Artifact::Certification(_, success) => bounds.allow_verdict(view, *success),
        _ => Ok(()),
    }
}

/// Restores an entry of the record in a round: a vote is decided again, a certificate counts as already broadcast, and
/// a verdict is set. It is bound again if there is a binding.
fn recall_round<S: CertificateScheme, D: Digest>(
    round: &mut Round<S, D>,
    artifact: &Artifact<S, D>,
    binding: Option<(Proposal<D>, D)>,
)
    requires { TakesArtifact round.old artifact.now }
    ensures { round.new ≡ bound_again (after_replay (same_proposal D.eq) round.old artifact.now) binding }
{
    round.replay(artifact);
    if let Some(bound) = binding {
        round.set_verifying(bound.0, bound.1);
    }
}

/// Returns whether the artifact's view or its proposal's parent is above 2^63 - 1.
fn is_too_large<S: CertificateScheme, D: Digest>(artifact: &Artifact<S, D>) -> bool
    ensures { result ≡ artifact_too_large artifact.now }
{
    if artifact.view().get() > LARGEST_VIEW {
        return true;
    }
    match artifact {
        Artifact::Notarize(vote) => names_too_large(&vote.proposal),
        Artifact::Notarization(notarization) => names_too_large(&notarization.proposal),
        Artifact::Finalize(vote) => names_too_large(&vote.proposal),
        Artifact::Finalization(finalization) => names_too_large(&finalization.proposal),
        Artifact::Certification(_, _) | Artifact::Nullify(_) | Artifact::Nullification(_) => false,
    }
}

impl<S: CertificateScheme, D: Digest> Rounds<S, D> {
    ghost use Rattle.simplex_voter.specs.Rounds.{round_in, with_change, largest_tracked, HasSameOrigin};

    /// Restores an entry of the record in the round of a view, with a binding if there is one, and tracks the view.
    pub(super) fn recall(
        &mut self,
        view: View,
        artifact: &Artifact<S, D>,
        binding: Option<(Proposal<D>, D)>,
    ) -> Result<(), Fault>
        requires in_range { view ≤ largest_tracked }
        requires taken { TakesArtifact (round_in self.old view) artifact.now }
        ensures recalled { OnOk result
            (self.new ≡ with_change self.old view
            (λ r. bound_again (after_replay (same_proposal D.eq) r artifact.now) binding)) }
        ensures refused { IfErr result (λ fault. fault ≡ OutOfMemory) }
        ensures origin { HasSameOrigin self.old self.new }
    {
        self.track(view)?;
        allow_recalled(&mut self.bounds, view, artifact)?;
        let Some(round) = self.by_view.get_mut(view) else {
            unreachable!()
        };
        recall_round(round, artifact, binding);
        Ok(())
    }
}

impl<S: CertificateScheme, L: Elector<S>, D: Digest> State<S, L, D> {
    ghost use Rattle.simplex_voter.specs.Setup.{HasSameSetup};
    ghost use Rattle.simplex_voter.specs.Rounds.{largest_tracked};
    ghost use Rattle.simplex_voter.specs.Facts.{round_of, with_round};
    ghost use Rattle.simplex_voter.specs.Refusals.{HasFailed};
    ghost use Rattle.simplex_voter.specs.Replay.{TakesReplay, replay_refusal, restored_binding, replayed_sets, replayed_round, after_replayed};

    /// Restores an entry of the record in the round of a view, with a binding if there is one.
    pub(super) fn recall(
        &mut self,
        view: View,
        artifact: &Artifact<S, D>,
        binding: Option<(Proposal<D>, D)>,
    ) -> Result<(), Fault>
        requires in_range { view ≤ largest_tracked }
        requires taken { TakesArtifact (round_of self.old view) artifact.now }
        ensures recalled { OnOk result (self.new ≡ with_round self.old view
            (bound_again (after_replay (same_proposal D.eq) (round_of self.old view) artifact.now) binding)) }
        ensures refused { IfErr result (λ fault. fault ≡ OutOfMemory) }
        ensures setup { HasSameSetup self.old self.new }
    {
        self.rounds.recall(view, artifact, binding)
    }

    /// Restores an entry of this member's record: a vote is decided again, a certificate counts as already broadcast
    /// and is not added, a verdict is set. The current view stays.
    ///
    /// The state must have a floor. The artifact must be of this epoch and of a retained view, a vote must be this
    /// member's own and not meet its opposite, and no verdict may contradict another. Returns `ViewTooLarge` if its
    /// view or its proposal's parent is above 2^63 - 1.
    pub fn replay(&mut self, artifact: &Artifact<S, D>) -> Result<(), Fault>
        requires { self.old.failed ≡ false → TakesReplay self.old artifact.now }
        ensures refused { IfSome (replay_refusal self.old artifact.now)
            (λ fault. (result ≡ Err fault) × (self.new ≡ self.old)) }
        ensures after { OnOk result (self.new ≡ after_replayed D.eq L.elect self.old artifact.now) }
        ensures out_of_memory { replay_refusal self.old artifact.now ≡ None
            → IfErr result (λ fault. (fault ≡ OutOfMemory) × HasFailed self.old self.new) }
    {
        if self.is_failed() {
            return Err(Fault::Failed);
        }
        if is_too_large(artifact) {
            return Err(Fault::ViewTooLarge);
        }
        match self.take_artifact(artifact) {
            Ok(()) => Ok(()),
            Err(fault) => {
                self.fail();
                Err(fault)
            }
        }
    }

    fn take_artifact(&mut self, artifact: &Artifact<S, D>) -> Result<(), Fault>
        requires taken { TakesArtifact (round_of self.old (artifact_view artifact.now)) artifact.now }
        requires votable { IsVotable (artifact_view artifact.now) }
        ensures replayed { OnOk result (self.new ≡ after_replayed D.eq L.elect self.old artifact.now) }
        ensures refused { IfErr result (λ fault. fault ≡ OutOfMemory) }
        ensures setup { HasSameSetup self.old self.new }
    {
        self.restore_round(artifact)?;
        self.restore_sets(artifact)?;
        match artifact {
            Artifact::Notarize(vote) => self.prepare_optimistic_successor(vote.view()),
            _ => Ok(()),
        }
    }

    /// Restores the artifact in its view's round.
    fn restore_round(&mut self, artifact: &Artifact<S, D>) -> Result<(), Fault>
        requires taken { TakesArtifact (round_of self.old (artifact_view artifact.now)) artifact.now }
        requires votable { IsVotable (artifact_view artifact.now) }
        ensures restored { OnOk result
            (self.new ≡ with_round self.old (artifact_view artifact.now) (replayed_round D.eq self.old artifact.now)) }
        ensures refused { IfErr result (λ fault. fault ≡ OutOfMemory) }
        ensures setup { HasSameSetup self.old self.new }
    {
        let binding = self.binding_of(artifact);
        self.recall(artifact.view(), artifact, binding)
    }

    /// Restores the sets of views that the rules look up.
    fn restore_sets(&mut self, artifact: &Artifact<S, D>) -> Result<(), Fault>
        requires { 1 ≤ artifact_view artifact.now }
        ensures restored { OnOk result (self.new ≡ replayed_sets self.old artifact.now) }
        ensures refused { IfErr result (λ fault. fault ≡ OutOfMemory) }
        ensures setup { HasSameSetup self.old self.new }
    {
        match artifact {
            Artifact::Nullify(vote) => self.note_nullify_vote(vote.view()),
            Artifact::Nullification(nullification) => self.nullify_view(nullification.view()),
            _ => Ok(()),
        }
    }

    /// The binding of a replayed notarize vote: its proposal, on the payload that the parent holds.
    fn binding_of(&self, artifact: &Artifact<S, D>) -> Option<(Proposal<D>, D)>
        ensures { result ≡ option_and_then (restored_binding self.now) (voted_proposal artifact.now) }
    {
        match artifact {
            Artifact::Notarize(vote) => self.restored_binding(&vote.proposal),
            _ => None,
        }
    }

    /// The proposal with its parent's held payload, unless a certificate decides that payload.
    ///
    /// Parents are replayed before their children. A parent with a certificate holds the certified payload alone, which
    /// need not be the one that the vote was cast on, so nothing is bound there.
    fn restored_binding(&self, proposal: &Proposal<D>) -> Option<(Proposal<D>, D)>
        ensures { result ≡ restored_binding self.now proposal.now }
    {
        let parent = self.round_at(proposal.parent)?;
        if parent.is_directly_notarized() {
            return None;
        }
        let held = parent.proposal()?;
        Some((*proposal, held.payload))
    }
}
