//! The calls of a member that return certificates for broadcast, each over its state.

ghost use Rattle.std.specs.Prelude.{◌≡◌, true, false, IfOk, IfErr, OnOk, is_some, option_map};
ghost use Rattle.simplex_types.specs.Certificates.{certificate_facts, Notarized, Nullified, Finalized};
ghost use Rattle.simplex_voter.specs.Refusals.{plain_refusal, is_started};
ghost use Rattle.simplex_voter.specs.StateAnswers.{broadcast_notarization_answer, after_broadcast_notarization, broadcast_nullification_answer, after_broadcast_nullification, broadcast_finalization_answer, after_broadcast_finalization};
ghost use Rattle.simplex_member.specs.PartialFailures.{Ends};

use simplex_types::types::{Certificate, CertificateScheme, Digest, Elector, Fault, View};
use simplex_voter::voter::State;

/// Returns a view's notarization, once. If there is no memory for a copy, the state is lost.
pub(super) fn broadcast_notarization<S: CertificateScheme, L: Elector<S>, D: Digest>(
    state: &mut State<S, L, D>,
    view: View,
) -> Result<Option<Certificate<S, D>>, Fault>
    requires resumption { state.old.failed ≡ false }
    requires begun { is_started state.old ≡ true }
    ensures answer { IfOk result (λ c. option_map (certificate_facts S.certificate_bytes) c
        ≡ option_map Notarized (broadcast_notarization_answer state.old view)) }
    ensures after { OnOk result (state.new ≡ after_broadcast_notarization state.old view) }
    ensures refused { IfErr result
        (Ends (is_some (broadcast_notarization_answer state.old view)) (plain_refusal state.old) state.old state.new) }
{
    match state.broadcast_notarization(view) {
        Ok(Some(notarization)) => Ok(Some(Certificate::Notarization(notarization))),
        Ok(None) => Ok(None),
        Err(fault) => Err(fault),
    }
}

/// Returns a view's nullification, once. If there is no memory for a copy, the state is lost.
pub(super) fn broadcast_nullification<S: CertificateScheme, L: Elector<S>, D: Digest>(
    state: &mut State<S, L, D>,
    view: View,
) -> Result<Option<Certificate<S, D>>, Fault>
    requires resumption { state.old.failed ≡ false }
    requires begun { is_started state.old ≡ true }
    ensures answer { IfOk result (λ c. option_map (certificate_facts S.certificate_bytes) c
        ≡ option_map Nullified (broadcast_nullification_answer state.old view)) }
    ensures after { OnOk result (state.new ≡ after_broadcast_nullification state.old view) }
    ensures refused { IfErr result
        (Ends (is_some (broadcast_nullification_answer state.old view)) (plain_refusal state.old) state.old state.new) }
{
    match state.broadcast_nullification(view) {
        Ok(Some(nullification)) => Ok(Some(Certificate::Nullification(nullification))),
        Ok(None) => Ok(None),
        Err(fault) => Err(fault),
    }
}

/// Returns a view's finalization, once. If there is no memory for a copy, the state is lost.
pub(super) fn broadcast_finalization<S: CertificateScheme, L: Elector<S>, D: Digest>(
    state: &mut State<S, L, D>,
    view: View,
) -> Result<Option<Certificate<S, D>>, Fault>
    requires resumption { state.old.failed ≡ false }
    requires begun { is_started state.old ≡ true }
    ensures answer { IfOk result (λ c. option_map (certificate_facts S.certificate_bytes) c
        ≡ option_map Finalized (broadcast_finalization_answer state.old view)) }
    ensures after { OnOk result (state.new ≡ after_broadcast_finalization state.old view) }
    ensures refused { IfErr result
        (Ends (is_some (broadcast_finalization_answer state.old view)) (plain_refusal state.old) state.old state.new) }
{
    match state.broadcast_finalization(view) {
        Ok(Some(finalization)) => Ok(Some(Certificate::Finalization(finalization))),
        Ok(None) => Ok(None),
        Err(fault) => Err(fault),
    }
}
