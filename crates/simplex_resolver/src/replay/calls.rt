//! Passing the entries of a tested record to a resolver, one after another.

ghost use Rattle.std.specs.Prelude.{◌≡◌, false, None, ◌∷◌, IfErr, OnOk};
ghost use Rattle.simplex_types.specs.Certificates.{artifact_facts, certificate_facts};
ghost use Rattle.simplex_types.specs.declared.types.fault.Fault.TheVariants.{OutOfMemory};
ghost use Rattle.simplex_resolver.specs.Steps.{update, after};
ghost use Rattle.simplex_resolver.specs.RecordCalls.{newest_first, newest_notarization, verdict_on, entry_calls, record_calls, all_after};
ghost use Rattle.simplex_resolver.specs.RecordRules.{certificate_error, record_error};
ghost use Rattle.simplex_resolver.specs.RecordPositions.{AreNoted};

use super::places::Places;
use crate::resolver::State;
use simplex_types::types::{Artifact, Certificate, CertificateScheme, Digest, Fault, View};
use std::alloc::Global;

/// Passes the entries in, in order.
pub(super) fn pass_every<S: CertificateScheme, D: Digest>(
    alloc: Global,
    state: &mut State,
    entries: &[Artifact<S, D>],
) -> Result<(), Fault>
    requires resumption { state.old.is_failed ≡ false }
    requires sound { record_error (newest_first S.certificate_bytes entries.now) ≡ None }
    ensures after { OnOk result
        (state.new ≡ all_after state.old (record_calls D.bytes S.certificate_bytes entries.now)) }
    ensures refused { IfErr result (λ fault. fault ≡ OutOfMemory) }
{
    let mut places = Places::new(alloc);
    for (place, artifact) in entries.iter().enumerate() {
        let before = &entries[..place];
        hand(alloc, state, &places, before, artifact)?;
        places.note(before, artifact);
    }
    Ok(())
}

/// Passes an entry in, after those before it, whose notarizations are at these places. A vote changes nothing
/// in a resolver.
fn hand<S: CertificateScheme, D: Digest>(
    alloc: Global,
    state: &mut State,
    places: &Places,
    before: &[Artifact<S, D>],
    artifact: &Artifact<S, D>,
) -> Result<(), Fault>
    requires resumption { state.old.is_failed ≡ false }
    requires noted { AreNoted S.certificate_bytes places.now before.now }
    requires sound { record_error
        (artifact_facts S.certificate_bytes artifact.now ∷ newest_first S.certificate_bytes before.now) ≡ None }
    ensures after { OnOk result (state.new ≡ all_after state.old
        (entry_calls D.bytes (newest_first S.certificate_bytes before.now)
        (artifact_facts S.certificate_bytes artifact.now))) }
    ensures refused { IfErr result (λ fault. fault ≡ OutOfMemory) }
{
    match artifact {
        Artifact::Notarization(notarization) => {
            let copy = notarization.clone(alloc)?;
            pass_certificate(state, Certificate::Notarization(copy))
        }
        Artifact::Nullification(nullification) => {
            let copy = nullification.clone(alloc)?;
            pass_certificate::<S, D>(state, Certificate::Nullification(copy))
        }
        Artifact::Finalization(finalization) => {
            let copy = finalization.clone(alloc)?;
            pass_certificate(state, Certificate::Finalization(copy))
        }
        Artifact::Certification(round, success) => {
            pass_verdict(alloc, state, places, before, round.view, *success)
        }
        Artifact::Notarize(_) | Artifact::Nullify(_) | Artifact::Finalize(_) => Ok(()),
    }
}

fn pass_certificate<S: CertificateScheme, D: Digest>(
    state: &mut State,
    certificate: Certificate<S, D>,
) -> Result<(), Fault>
    requires resumption { state.old.is_failed ≡ false }
    requires sound { certificate_error (certificate_facts S.certificate_bytes certificate) ≡ None }
    ensures after { OnOk result
        (state.new ≡ after state.old (update D.bytes (certificate_facts S.certificate_bytes certificate))) }
    ensures refused { IfErr result (λ fault. fault ≡ OutOfMemory) }
{
    let _effects = state.updated(&certificate)?;
    Ok(())
}

/// Passes a verdict in, with the last notarization of its view.
fn pass_verdict<S: CertificateScheme, D: Digest>(
    alloc: Global,
    state: &mut State,
    places: &Places,
    before: &[Artifact<S, D>],
    view: View,
    success: bool,
) -> Result<(), Fault>
    requires resumption { state.old.is_failed ≡ false }
    requires noted { AreNoted S.certificate_bytes places.now before.now }
    requires sound { record_error (newest_first S.certificate_bytes before.now) ≡ None }
    ensures after { OnOk result (state.new ≡ all_after state.old
        (verdict_on D.bytes (newest_notarization view (newest_first S.certificate_bytes before.now)) success)) }
    ensures refused { IfErr result (λ fault. fault ≡ OutOfMemory) }
{
    if let Some(notarization) = places.last_notarization(before, view) {
        let copy = notarization.clone(alloc)?;
        let _effects = state.certified(copy, success)?;
    }
    Ok(())
}
