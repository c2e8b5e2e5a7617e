//! Recording of what is passed in, and the calls of a member on certifications, each over its state and its record.

ghost use Rattle.std.specs.Prelude.{◌≡◌, ◌<◌, ◌++◌, ◌∷◌, [], None, Ok, true, false, IfOk, IfErr, OnOk, OnErr, IsOkUnless, vec_len, vec_capacity, option_map};
ghost use Rattle.simplex_types.specs.Certificates.{notarization_facts, artifact_facts, Verdict};
ghost use Rattle.simplex_types.specs.declared.types.fault.Fault.TheVariants.{OutOfMemory};
ghost use Rattle.simplex_record.specs.Entries.{entries_of};
ghost use Rattle.simplex_record.specs.Votes.{signed_vote, votes_of};
ghost use Rattle.simplex_voter.specs.Certification.{takes_verdict, is_first_verdict, certified_refusal, certified_answer, after_certified, candidates_answer, after_candidates};
ghost use Rattle.simplex_voter.specs.Facts.{round_number};
ghost use Rattle.simplex_voter.specs.Refusals.{is_started, plain_refusal};
ghost use Rattle.simplex_member.specs.CallSemantics.{if_new};
ghost use Rattle.simplex_member.specs.PartialFailures.{Ends, UnchangedUnlessLost, is_new};
ghost use Rattle.simplex_member.specs.OutstandingWork.{without_offer, with_offers};

use super::outstanding_work::OutstandingWork;
use simplex_types::types::{
    Artifact, CertificateScheme, Digest, Elector, Fault, Notarization, Proposal, Round, View,
};
use simplex_voter::voter::{CertificateFetch, State};

/// Records an artifact for which there is room.
pub(super) fn keep<S: CertificateScheme, D: Digest>(
    artifacts: &mut Vec<Artifact<S, D>>,
    artifact: Artifact<S, D>,
)
    requires { vec_len artifacts.old < vec_capacity artifacts.old }
    ensures kept { entries_of S.certificate_bytes artifacts.new.items
        ≡ entries_of S.certificate_bytes artifacts.old.items ++ artifact_facts S.certificate_bytes artifact ∷ [] }
    ensures votes { votes_of artifacts.new.items ≡ votes_of artifacts.old.items ++ signed_vote artifact }
{
    match artifacts.push(artifact) {
        Ok(()) => {}
        Err(_) => unreachable!(),
    }
}

/// Records an artifact for which there is room, if it is new. It is no vote.
pub(super) fn store_new<S: CertificateScheme, D: Digest>(
    artifacts: &mut Vec<Artifact<S, D>>,
    is_new: bool,
    artifact: Artifact<S, D>,
)
    requires { vec_len artifacts.old < vec_capacity artifacts.old }
    ensures kept { entries_of S.certificate_bytes artifacts.new.items
        ≡ entries_of S.certificate_bytes artifacts.old.items
        ++ if_new is_new (artifact_facts S.certificate_bytes artifact) }
    ensures same_votes { signed_vote artifact ≡ [] → votes_of artifacts.new.items ≡ votes_of artifacts.old.items }
{
    if is_new {
        keep(artifacts, artifact);
    }
}

/// A copy of what is passed in, with room for it in the record. If there is no memory for either, the record is
/// unchanged.
pub(super) fn with_room<S: CertificateScheme, D: Digest, C: Drop>(
    artifacts: &mut Vec<Artifact<S, D>>,
    copy: Result<C, Fault>,
) -> Result<C, Fault>
    requires { IsOkUnless copy OutOfMemory }
    ensures same { artifacts.new.items ≡ artifacts.old.items }
    ensures room { OnOk result (vec_len artifacts.new < vec_capacity artifacts.new) }
    ensures copy { IfOk result (λ c. copy ≡ Ok c) }
    ensures refused { IfErr result (λ fault. fault ≡ OutOfMemory) }
{
    match artifacts.reserve(1) {
        Ok(()) => copy,
        Err(_) => Err(Fault::OutOfMemory),
    }
}

/// Returns whether the state added a notarization or a finalization.
pub(super) fn is_added<K>(made: &Result<(bool, Option<K>), Fault>) -> bool
    ensures { result ≡ is_new (λ added. added.0) made.now }
{
    matches!(made, Ok((true, _)))
}

/// Returns whether the state added a nullification.
pub(super) fn is_nullification_added(made: &Result<bool, Fault>) -> bool
    ensures { result ≡ is_new (λ added. added) made.now }
{
    matches!(made, Ok(true))
}

/// Records a verdict, in the record too if it is the first of a tracked view. After `OutOfMemory` the state is lost;
/// any other fault changes nothing.
pub(super) fn certified<S: CertificateScheme, L: Elector<S>, D: Digest>(
    state: &mut State<S, L, D>,
    outstanding_work: &mut OutstandingWork<D, S::PublicKey>,
    artifacts: &mut Vec<Artifact<S, D>>,
    view: View,
    success: bool,
    now: u64,
) -> Result<Option<Notarization<S, D>>, Fault>
    requires resumption { state.old.failed ≡ false }
    requires allowed { takes_verdict state.old view success ≡ true }
    requires room { vec_len artifacts.old < vec_capacity artifacts.old }
    ensures due { OnOk result (certified_refusal state.old view success now ≡ None) }
    ensures answer { IfOk result
        (λ answer. option_map (notarization_facts S.certificate_bytes) answer ≡ certified_answer state.old view) }
    ensures after { OnOk result (state.new ≡ after_certified L.elect state.old view success now) }
    ensures recorded { OnOk result
        (entries_of S.certificate_bytes artifacts.new.items ≡ entries_of S.certificate_bytes artifacts.old.items
        ++ if_new (is_first_verdict state.old view) (Verdict (round_number state.old view) success)) }
    ensures closed { OnOk result (outstanding_work.new.open_now ≡ without_offer outstanding_work.old.open_now view) }
    ensures refused { IfErr result (Ends true (certified_refusal state.old view success now) state.old state.new) }
    ensures kept_open { IfErr result (UnchangedUnlessLost outstanding_work.old.open_now outstanding_work.new.open_now) }
    ensures same_record { OnErr result
        (entries_of S.certificate_bytes artifacts.new.items ≡ entries_of S.certificate_bytes artifacts.old.items) }
    ensures same_votes { votes_of artifacts.new.items ≡ votes_of artifacts.old.items }
{
    let is_first = state.is_first_verdict(view);
    let round = Round {
        epoch: state.epoch(),
        view,
    };
    match state.certified(view, success, now) {
        Ok(answer) => {
            store_new(artifacts, is_first, Artifact::Certification(round, success));
            outstanding_work.close_offer(view);
            Ok(answer)
        }
        Err(fault) => Err(fault),
    }
}

/// Offers the proposals to certify next. If there is no memory for them, the state is lost.
pub(super) fn certify_candidates<S: CertificateScheme, L: Elector<S>, D: Digest>(
    state: &mut State<S, L, D>,
    outstanding_work: &mut OutstandingWork<D, S::PublicKey>,
) -> Result<(Vec<Proposal<D>>, Vec<CertificateFetch>), Fault>
    requires resumption { state.old.failed ≡ false }
    requires begun { is_started state.old ≡ true }
    ensures answer { IfOk result
        (λ answer. (answer.0.items, answer.1.items) ≡ candidates_answer D.eq L.elect state.old) }
    ensures after { OnOk result (state.new ≡ after_candidates state.old) }
    ensures opened { OnOk result
        (outstanding_work.new.open_now ≡ with_offers outstanding_work.old.open_now
        (candidates_answer D.eq L.elect state.old).0) }
    ensures refused { IfErr result (Ends true (plain_refusal state.old) state.old state.new) }
    ensures kept_open { IfErr result (UnchangedUnlessLost outstanding_work.old.open_now outstanding_work.new.open_now) }
{
    match state.certify_candidates() {
        Ok(answer) => match outstanding_work.open_offers(&answer.0) {
            Ok(()) => Ok(answer),
            Err(_) => Err(Fault::OutOfMemory),
        },
        Err(_) => Err(Fault::OutOfMemory),
    }
}
