//! The test of a record before a resolver receives any of it.

ghost use Rattle.std.specs.Prelude.{◌≡◌, Some, None, ◌∷◌, IfErr, OnOk};
ghost use Rattle.simplex_types.specs.Certificates.{artifact_facts};
ghost use Rattle.simplex_resolver.specs.RecordCalls.{newest_first};
ghost use Rattle.simplex_resolver.specs.RecordPositions.{AreNoted};
ghost use Rattle.simplex_resolver.specs.RecordRules.{view_error, proposal_error, entry_error, record_error};

use super::error::ReplayError;
use super::places::Places;
use simplex_types::types::{Artifact, CertificateScheme, Digest, LARGEST_VIEW, Proposal, View};
use std::alloc::Global;

/// Tests the entries one after another.
pub(super) fn check_entries<S: CertificateScheme, D: Digest>(
    alloc: Global,
    entries: &[Artifact<S, D>],
) -> Result<(), ReplayError>
    ensures broken { IfErr result (λ error. record_error (newest_first S.certificate_bytes entries.now) ≡ Some error) }
    ensures kept { OnOk result (record_error (newest_first S.certificate_bytes entries.now) ≡ None) }
{
    let mut places = Places::new(alloc);
    for (place, artifact) in entries.iter().enumerate() {
        let before = &entries[..place];
        check_entry(&places, before, artifact)?;
        places.note(before, artifact);
    }
    Ok(())
}

/// Tests an artifact against those before it, whose notarizations are at these places.
fn check_entry<S: CertificateScheme, D: Digest>(
    places: &Places,
    before: &[Artifact<S, D>],
    artifact: &Artifact<S, D>,
) -> Result<(), ReplayError>
    requires { AreNoted S.certificate_bytes places.now before.now }
    ensures broken { IfErr result (λ error. entry_error (newest_first S.certificate_bytes before.now)
        (artifact_facts S.certificate_bytes artifact.now) ≡ Some error) }
    ensures kept { OnOk result (entry_error (newest_first S.certificate_bytes before.now)
        (artifact_facts S.certificate_bytes artifact.now) ≡ None) }
{
    match artifact {
        Artifact::Notarization(notarization) => check_proposal(&notarization.proposal),
        Artifact::Finalization(finalization) => check_proposal(&finalization.proposal),
        Artifact::Nullification(nullification) => {
            check_views(nullification.round.view, nullification.round.view)
        }
        Artifact::Certification(round, _) => match places.last_notarization(before, round.view) {
            Some(_) => Ok(()),
            None => Err(ReplayError::VerdictWithoutNotarization),
        },
        Artifact::Notarize(_) | Artifact::Nullify(_) | Artifact::Finalize(_) => Ok(()),
    }
}

fn check_proposal<D: Digest>(proposal: &Proposal<D>) -> Result<(), ReplayError>
    ensures broken { IfErr result (λ error. proposal_error proposal.now ≡ Some error) }
    ensures kept { OnOk result (proposal_error proposal.now ≡ None) }
{
    let view = proposal.round.view;
    check_views(view, view.max(proposal.parent))
}

/// Tests the view of a certificate, and the highest view that it names.
fn check_views(view: View, highest: View) -> Result<(), ReplayError>
    ensures broken { IfErr result (λ error. view_error view highest ≡ Some error) }
    ensures kept { OnOk result (view_error view highest ≡ None) }
{
    if view.is_zero() {
        return Err(ReplayError::ZeroView);
    }
    if highest.get() > LARGEST_VIEW {
        return Err(ReplayError::ViewTooLarge);
    }
    Ok(())
}
