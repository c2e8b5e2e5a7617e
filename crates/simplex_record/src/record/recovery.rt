//! Rebuilding a state from a floor and a whole record, whose entries are replayed one after another.

ghost use Rattle.std.specs.Prelude.{◌≡◌, true, false, None, IfOk, IfErr, OnOk, length, option_map};
ghost use Rattle.simplex_types.specs.Certificates.{artifact_facts, finalization_facts};
ghost use Rattle.simplex_types.specs.Config.{floor_facts};
ghost use Rattle.simplex_types.specs.declared.types.fault.Fault.TheVariants.{OutOfMemory};
ghost use Rattle.simplex_voter.specs.Acceptance.{floor_answer};
ghost use Rattle.simplex_voter.specs.Refusals.{is_started, takes_round, has_late_deadline};
ghost use Rattle.simplex_voter.specs.Replay.{TakesReplay, artifact_round, artifact_too_large};
ghost use Rattle.simplex_record.specs.Entries.{entries_of};
ghost use Rattle.simplex_record.specs.Recovery.{after_adding, after_replaying, after_verdict_of, after_entry, after_kept_entry, after_entries, recovered_state, recover_error, GivesVerdict, TakesEntry, TakesNext, TakesEntries};
ghost use Rattle.simplex_record.specs.Start.{set_up, IsErrorDue};

use super::check::check_record;
use super::error::RecoverError;
use super::start::{Start, begin};
use simplex_types::types::{
    Artifact, CertificateScheme, Digest, Elector, Fault, Finalization, Viewable,
};
use simplex_voter::voter::State;
use std::alloc::Global;

/// Adds a copy of a certificate.
fn add<S: CertificateScheme, L: Elector<S>, D: Digest>(
    alloc: Global,
    state: &mut State<S, L, D>,
    artifact: &Artifact<S, D>,
    now: u64,
) -> Result<(), Fault>
    requires resumption { state.old.failed ≡ false }
    requires in_time { has_late_deadline state.old now ≡ false }
    requires kept { takes_round state.old (artifact_round artifact.now) ≡ true }
    requires small { artifact_too_large artifact.now ≡ false }
    ensures after { OnOk result
        (state.new ≡ after_adding D.eq L.elect state.old now (artifact_facts S.certificate_bytes artifact.now)) }
    ensures refused { IfErr result (λ fault. fault ≡ OutOfMemory) }
{
    match artifact {
        Artifact::Notarization(notarization) => {
            let Ok(copy) = notarization.clone(alloc) else {
                return Err(Fault::OutOfMemory);
            };
            match state.add_notarization(copy) {
                Ok(_) => Ok(()),
                Err(fault) => Err(fault),
            }
        }
        Artifact::Nullification(nullification) => {
            let Ok(copy) = nullification.clone(alloc) else {
                return Err(Fault::OutOfMemory);
            };
            match state.add_nullification(copy, now) {
                Ok(_) => Ok(()),
                Err(fault) => Err(fault),
            }
        }
        Artifact::Finalization(finalization) => {
            let Ok(copy) = finalization.clone(alloc) else {
                return Err(Fault::OutOfMemory);
            };
            match state.add_finalization(copy, now) {
                Ok(_) => Ok(()),
                Err(fault) => Err(fault),
            }
        }
        Artifact::Notarize(_)
        | Artifact::Nullify(_)
        | Artifact::Finalize(_)
        | Artifact::Certification(_, _) => Ok(()),
    }
}

/// Replays an entry.
fn replay<S: CertificateScheme, L: Elector<S>, D: Digest>(
    state: &mut State<S, L, D>,
    artifact: &Artifact<S, D>,
) -> Result<(), Fault>
    requires resumption { state.old.failed ≡ false }
    requires small { artifact_too_large artifact.now ≡ false }
    requires taken { TakesReplay state.old artifact.now }
    ensures after { OnOk result
        (state.new ≡ after_replaying D.eq L.elect state.old (artifact_facts S.certificate_bytes artifact.now)) }
    ensures refused { IfErr result (λ fault. fault ≡ OutOfMemory) }
{
    state.replay(artifact)
}

/// Passes on a verdict that was replayed.
fn give<S: CertificateScheme, L: Elector<S>, D: Digest>(
    state: &mut State<S, L, D>,
    artifact: &Artifact<S, D>,
    now: u64,
) -> Result<(), Fault>
    requires resumption { state.old.failed ≡ false }
    requires in_time { has_late_deadline state.old now ≡ false }
    requires allowed { GivesVerdict state.old (artifact_facts S.certificate_bytes artifact.now) }
    ensures after { OnOk result
        (state.new ≡ after_verdict_of L.elect state.old now (artifact_facts S.certificate_bytes artifact.now)) }
    ensures refused { IfErr result (λ fault. fault ≡ OutOfMemory) }
{
    if let Artifact::Certification(round, success) = artifact {
        let _notarization = state.certified(round.view, *success, now)?;
    }
    Ok(())
}

/// Takes an entry of a retained view: adds a certificate, replays each entry, and passes on a verdict.
fn take<S: CertificateScheme, L: Elector<S>, D: Digest>(
    alloc: Global,
    state: &mut State<S, L, D>,
    artifact: &Artifact<S, D>,
    now: u64,
) -> Result<(), Fault>
    requires resumption { state.old.failed ≡ false }
    requires in_time { has_late_deadline state.old now ≡ false }
    requires small { artifact_too_large artifact.now ≡ false }
    requires taken { TakesEntry S.certificate_bytes D.eq L.elect state.old now artifact.now }
    ensures after { OnOk result
        (state.new ≡ after_entry D.eq L.elect state.old now (artifact_facts S.certificate_bytes artifact.now)) }
    ensures refused { IfErr result (λ fault. fault ≡ OutOfMemory) }
{
    add(alloc, state, artifact, now)?;
    replay(state, artifact)?;
    give(state, artifact, now)
}

/// Takes an entry, or skips it if its view is below those that are retained.
#[tactic(auto, unfolding(crate::specs::Recovery::after_kept_entry))]
fn take_kept<S: CertificateScheme, L: Elector<S>, D: Digest>(
    alloc: Global,
    state: &mut State<S, L, D>,
    artifact: &Artifact<S, D>,
    now: u64,
) -> Result<(), Fault>
    requires resumption { state.old.failed ≡ false }
    requires in_time { has_late_deadline state.old now ≡ false }
    requires next { TakesNext S.certificate_bytes D.eq L.elect state.old now artifact.now }
    ensures after { OnOk result
        (state.new ≡ after_kept_entry D.eq L.elect state.old now (artifact_facts S.certificate_bytes artifact.now)) }
    ensures refused { IfErr result (λ fault. fault ≡ OutOfMemory) }
{
    if artifact.view() < state.min_active() {
        return Ok(());
    }
    take(alloc, state, artifact, now)
}

/// Takes the entries in order.
fn take_all<S: CertificateScheme, L: Elector<S>, D: Digest>(
    alloc: Global,
    state: &mut State<S, L, D>,
    entries: &[Artifact<S, D>],
    now: u64,
) -> Result<(), Fault>
    requires resumption { state.old.failed ≡ false }
    requires in_time { has_late_deadline state.old now ≡ false }
    requires each { TakesEntries S.certificate_bytes D.eq L.elect state.old now entries.now }
    ensures after { OnOk result
        (state.new ≡ after_entries D.eq L.elect state.old now (entries_of S.certificate_bytes entries.now)) }
    ensures refused { IfErr result (λ fault. fault ≡ OutOfMemory) }
{
    for artifact in entries {
        take_kept(alloc, state, artifact, now)?;
    }
    Ok(())
}

/// Returns what `recover` makes, on the heap, with the floor's finalization. Its errors are those of `recover`.
pub fn remake<S: CertificateScheme, L: Elector<S>, D: Digest>(
    alloc: Global,
    start: Start<S, L, D>,
    entries: &[Artifact<S, D>],
) -> Result<(Box<State<S, L, D>>, Option<Finalization<S, D>>), RecoverError>
    requires { L.members start.settings.elector ≡ length (S.participants start.settings.scheme) }
    ensures recovered { IfOk result
        (λ made. made.0.value ≡ recovered_state D.eq L.elect
        (set_up S.me S.participants L.terms L.elects_early start.settings)
        (floor_facts S.certificate_bytes start.floor) start.now (entries_of S.certificate_bytes entries.now)) }
    ensures resumption { IfOk result (λ made. (made.0.value.failed ≡ false) × (is_started made.0.value ≡ true)) }
    ensures floor { IfOk result (λ made. option_map (finalization_facts S.certificate_bytes) made.1
        ≡ floor_answer (floor_facts S.certificate_bytes start.floor)) }
    ensures accepted { OnOk result
        (recover_error D.eq (set_up S.me S.participants L.terms L.elects_early start.settings)
        (floor_facts S.certificate_bytes start.floor) start.now (entries_of S.certificate_bytes entries.now) ≡ None) }
    ensures refused { IfErr result
        (IsErrorDue (recover_error D.eq (set_up S.me S.participants L.terms L.elects_early start.settings)
        (floor_facts S.certificate_bytes start.floor) start.now (entries_of S.certificate_bytes entries.now))) }
{
    let Start {
        settings,
        floor,
        now,
    } = start;
    check_record(&settings.scheme, settings.epoch, &floor, entries)?;
    let (mut state, finalization) = begin(alloc, settings, floor, now)?;
    match take_all(alloc, &mut state, entries, now) {
        Ok(()) => Ok((state, finalization)),
        Err(_) => Err(RecoverError::OutOfMemory),
    }
}

/// Makes a state from a floor and a whole record, oldest entry first: sets the floor, and takes the entries in order. A
/// certificate is added again, a vote and a verdict are restored, and a verdict has its effects. An entry whose view is
/// no longer retained when it is reached is skipped. Certificates count as already broadcast as far as the record says
/// so.
///
/// The elector's members must be the scheme's participants. Returns the first error that applies, in the order of
/// `RecoverError`: the first rule that the floor breaks, or else the record, as in `check_record`; then `TimeOverflow`,
/// if a deadline passes 2^64 - 1 milliseconds. Returns `OutOfMemory` only if none of these applies. After an error
/// there is no state, and the record is unchanged.
pub fn recover<S: CertificateScheme, L: Elector<S>, D: Digest>(
    alloc: Global,
    start: Start<S, L, D>,
    entries: &[Artifact<S, D>],
) -> Result<State<S, L, D>, RecoverError>
    requires { L.members start.settings.elector ≡ length (S.participants start.settings.scheme) }
    ensures recovered { IfOk result
        (λ state. state ≡ recovered_state D.eq L.elect
        (set_up S.me S.participants L.terms L.elects_early start.settings)
        (floor_facts S.certificate_bytes start.floor) start.now (entries_of S.certificate_bytes entries.now)) }
    ensures accepted { OnOk result
        (recover_error D.eq (set_up S.me S.participants L.terms L.elects_early start.settings)
        (floor_facts S.certificate_bytes start.floor) start.now (entries_of S.certificate_bytes entries.now) ≡ None) }
    ensures refused { IfErr result
        (IsErrorDue (recover_error D.eq (set_up S.me S.participants L.terms L.elects_early start.settings)
        (floor_facts S.certificate_bytes start.floor) start.now (entries_of S.certificate_bytes entries.now))) }
{
    let (state, _finalization) = remake(alloc, start, entries)?;
    Ok(Box::into_inner(state))
}
