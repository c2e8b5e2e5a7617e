//! The test of a record before a state is made from it.

ghost use Rattle.std.specs.Prelude.{◌≡◌, [], Some, None, MatchOption, IfErr, OnOk, Ok, Err};
ghost use Rattle.simplex_types.specs.Certificates.{artifact_facts};
ghost use Rattle.simplex_types.specs.Config.{floor_facts};
ghost use Rattle.simplex_round.specs.Round.{signs_as};
ghost use Rattle.simplex_voter.specs.Refusals.{is_too_large};
ghost use Rattle.simplex_record.specs.Entries.{entries_of, entry_view};
ghost use Rattle.simplex_record.specs.Check.{first_error, round_rules, vote_rules, own_rules, recovery_floor_rules, first_broken_after, first_recover_error};
ghost use Rattle.simplex_record.specs.CheckState.{turned_to, seen_with, next_rules};

use super::error::{RecoverError, refuse_if};
use super::seen::Seen;
use simplex_types::config::Floor;
use simplex_types::types::{
    Artifact, CertificateScheme, Digest, Epoch, Participant, Proposal, Round, View, Viewable,
};

/// Tests whether a state can be made from a floor and a record in an epoch, by the scheme's member. Returns the first
/// rule that is broken: the floor's finalization comes first, then the record's entries in order, each by the rules of
/// `RecoverError` from `OutOfOrder` to `FinalizeWithoutVerdict` in that order.
///
/// An entry is compared only with those before it; the floor's view plays no part. The test reads the record once and
/// takes no memory.
#[tactic(auto, unfolding(crate::specs::Check::first_recover_error))]
pub fn check_record<S: CertificateScheme, D: Digest>(
    scheme: &S,
    epoch: Epoch,
    floor: &Floor<S, D>,
    entries: &[Artifact<S, D>],
) -> Result<(), RecoverError>
    ensures { MatchOption (first_recover_error D.eq epoch (S.me scheme.now) (floor_facts S.certificate_bytes floor.now)
        (entries_of S.certificate_bytes entries.now)) (result ≡ Ok tt) (λ broken. result ≡ Err broken) }
{
    check_floor(epoch, floor)?;
    check_entries(scheme, epoch, entries)
}

/// Tests the floor's finalization.
pub(super) fn check_floor<S: CertificateScheme, D: Digest>(
    epoch: Epoch,
    floor: &Floor<S, D>,
) -> Result<(), RecoverError>
    ensures broken { IfErr result
        (λ error. first_error (recovery_floor_rules epoch (floor_facts S.certificate_bytes floor.now)) ≡ Some error) }
    ensures kept { OnOk result
        (first_error (recovery_floor_rules epoch (floor_facts S.certificate_bytes floor.now)) ≡ None) }
{
    match floor {
        Floor::Genesis(_) => Ok(()),
        Floor::Finalized(finalization) => check_round(
            epoch,
            finalization.proposal.round,
            Some(finalization.proposal.parent),
        ),
    }
}

/// Tests the entries one after another.
fn check_entries<S: CertificateScheme, D: Digest>(
    scheme: &S,
    epoch: Epoch,
    entries: &[Artifact<S, D>],
) -> Result<(), RecoverError>
    ensures broken { IfErr result
        (λ error. first_broken_after D.eq epoch (S.me scheme.now) []
        (entries_of S.certificate_bytes entries.now) ≡ Some error) }
    ensures kept { OnOk result
        (first_broken_after D.eq epoch (S.me scheme.now) [] (entries_of S.certificate_bytes entries.now) ≡ None) }
{
    let mut seen = Seen::new(View::zero());
    for artifact in entries {
        check_next(scheme, epoch, &mut seen, artifact)?;
    }
    Ok(())
}

/// Tests the next artifact, and notes its effect on its view.
#[tactic(auto, using(crate::proofs::CheckState::first_errors))]
fn check_next<S: CertificateScheme, D: Digest>(
    scheme: &S,
    epoch: Epoch,
    seen: &mut Seen<D>,
    artifact: &Artifact<S, D>,
) -> Result<(), RecoverError>
    ensures broken { IfErr result (λ error. first_error
        (next_rules D.eq epoch (S.me scheme.now) seen.old (artifact_facts S.certificate_bytes artifact.now)) ≡ Some
        error) }
    ensures kept { OnOk result
        (first_error (next_rules D.eq epoch (S.me scheme.now) seen.old
        (artifact_facts S.certificate_bytes artifact.now)) ≡ None) }
    ensures seen { OnOk result (seen.new ≡ seen_with
        (turned_to seen.old (entry_view (artifact_facts S.certificate_bytes artifact.now)))
        (artifact_facts S.certificate_bytes artifact.now)) }
{
    let view = artifact.view();
    if view < seen.view {
        return Err(RecoverError::OutOfOrder);
    }
    check_alone(epoch, scheme.me(), artifact)?;
    seen.turn_to(view);
    seen.allows(artifact)?;
    seen.add(artifact);
    Ok(())
}

/// Tests an artifact by itself.
fn check_alone<S: CertificateScheme, D: Digest>(
    epoch: Epoch,
    me: Option<Participant>,
    artifact: &Artifact<S, D>,
) -> Result<(), RecoverError>
    ensures broken { IfErr result
        (λ error. first_error (own_rules epoch me (artifact_facts S.certificate_bytes artifact.now)) ≡ Some error) }
    ensures kept { OnOk result
        (first_error (own_rules epoch me (artifact_facts S.certificate_bytes artifact.now)) ≡ None) }
{
    match artifact {
        Artifact::Notarize(vote) => check_vote(epoch, me, vote.signer, &vote.proposal),
        Artifact::Finalize(vote) => check_vote(epoch, me, vote.signer, &vote.proposal),
        Artifact::Nullify(vote) => {
            check_round(epoch, vote.round, None)?;
            refuse_if(!signs_as(me, vote.signer), RecoverError::ForeignSigner)
        }
        Artifact::Certification(round, _) => check_round(epoch, *round, None),
        Artifact::Nullification(nullification) => check_round(epoch, nullification.round, None),
        Artifact::Notarization(notarization) => check_round(
            epoch,
            notarization.proposal.round,
            Some(notarization.proposal.parent),
        ),
        Artifact::Finalization(finalization) => check_round(
            epoch,
            finalization.proposal.round,
            Some(finalization.proposal.parent),
        ),
    }
}

/// Tests a vote for a proposal by itself.
fn check_vote<D: Digest>(
    epoch: Epoch,
    me: Option<Participant>,
    signer: Participant,
    proposal: &Proposal<D>,
) -> Result<(), RecoverError>
    ensures broken { IfErr result (λ error. first_error (vote_rules epoch me signer proposal.now) ≡ Some error) }
    ensures kept { OnOk result (first_error (vote_rules epoch me signer proposal.now) ≡ None) }
{
    check_round(epoch, proposal.round, Some(proposal.parent))?;
    refuse_if(!signs_as(me, signer), RecoverError::ForeignSigner)?;
    refuse_if(
        proposal.parent >= proposal.round.view,
        RecoverError::ParentNotBelow,
    )
}

/// Tests a round, and the parent that comes with it.
fn check_round(epoch: Epoch, round: Round, parent: Option<View>) -> Result<(), RecoverError>
    ensures broken { IfErr result (λ error. first_error (round_rules epoch round parent) ≡ Some error) }
    ensures kept { OnOk result (first_error (round_rules epoch round parent) ≡ None) }
{
    refuse_if(round.epoch != epoch, RecoverError::OtherEpoch)?;
    refuse_if(round.view.is_zero(), RecoverError::ZeroView)?;
    refuse_if(
        is_too_large(round.view) || parent.is_some_and(is_too_large),
        RecoverError::ViewTooLarge,
    )
}

/// Returns whether this member cast the vote.
fn signs_as(me: Option<Participant>, signer: Participant) -> bool
    ensures { result ≡ signs_as me signer }
{
    match me {
        Some(me) => me == signer,
        None => false,
    }
}

fn is_too_large(view: View) -> bool
    ensures { result ≡ is_too_large view }
{
    view.get() >= 1 << 63
}
