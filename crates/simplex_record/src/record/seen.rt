//! The facts of a record about the view of its last entry, to test the next.

ghost use Rattle.std.specs.Prelude.{◌≡◌, Some, None, IfErr, OnOk};
ghost use Rattle.simplex_types.specs.Certificates.{artifact_facts};
ghost use Rattle.simplex_record.specs.Check.{first_error};
ghost use Rattle.simplex_record.specs.CheckState.{nothing_seen, turned_to, seen_with, seen_rules, finalize_rules, verdict_rules, is_given, is_other};

use super::error::{RecoverError, refuse_if};
use simplex_types::types::{Artifact, CertificateScheme, Digest, Proposal, View};

/// The votes, the verdict and the notarization that were seen of one view.
///
/// A record is in the order of its views, so nothing of an earlier view must be stored.
#[derive(Drop)]
pub(super) struct Seen<D> {
    pub(super) view: View,
    notarized: bool,
    verdict: Option<bool>,
    nullified: bool,
    notarize: Option<Proposal<D>>,
    finalize: Option<Proposal<D>>,
}

impl<D: Digest> Seen<D> {
    /// Nothing was seen of the view.
    pub(super) fn new(view: View) -> Seen<D>
        ensures { result ≡ nothing_seen view }
    {
        Seen {
            view,
            notarized: false,
            verdict: None,
            nullified: false,
            notarize: None,
            finalize: None,
        }
    }

    /// Forgets the last view, if this one is above it.
    pub(super) fn turn_to(&mut self, view: View)
        ensures { self.new ≡ turned_to self.old view }
    {
        if self.view < view {
            *self = Seen::new(view);
        }
    }

    /// Tests an artifact of the view against what was seen of it.
    pub(super) fn allows<S: CertificateScheme>(
        &self,
        artifact: &Artifact<S, D>,
    ) -> Result<(), RecoverError>
        ensures broken { IfErr result
            (λ error. first_error (seen_rules D.eq self.now (artifact_facts S.certificate_bytes artifact.now)) ≡ Some
            error) }
        ensures kept { OnOk result
            (first_error (seen_rules D.eq self.now (artifact_facts S.certificate_bytes artifact.now)) ≡ None) }
    {
        match artifact {
            Artifact::Notarize(vote) => refuse_if(
                is_other(&self.notarize, &vote.proposal),
                RecoverError::ContradictingVotes,
            ),
            Artifact::Nullify(_) => refuse_if(
                self.finalize.is_some(),
                RecoverError::NullifyBesideFinalize,
            ),
            Artifact::Finalize(vote) => self.allows_finalize(&vote.proposal),
            Artifact::Certification(_, success) => self.allows_verdict(*success),
            Artifact::Notarization(_) | Artifact::Nullification(_) | Artifact::Finalization(_) => {
                Ok(())
            }
        }
    }

    fn allows_finalize(&self, proposal: &Proposal<D>) -> Result<(), RecoverError>
        ensures broken { IfErr result (λ error. first_error (finalize_rules D.eq self.now proposal.now) ≡ Some error) }
        ensures kept { OnOk result (first_error (finalize_rules D.eq self.now proposal.now) ≡ None) }
    {
        refuse_if(self.nullified, RecoverError::NullifyBesideFinalize)?;
        refuse_if(
            is_other(&self.finalize, proposal),
            RecoverError::ContradictingVotes,
        )?;
        refuse_if(!self.is_given(true), RecoverError::FinalizeWithoutVerdict)
    }

    fn allows_verdict(&self, success: bool) -> Result<(), RecoverError>
        ensures broken { IfErr result (λ error. first_error (verdict_rules self.now success) ≡ Some error) }
        ensures kept { OnOk result (first_error (verdict_rules self.now success) ≡ None) }
    {
        refuse_if(!self.notarized, RecoverError::VerdictWithoutNotarization)?;
        refuse_if(self.is_given(!success), RecoverError::ContradictingVerdicts)
    }

    /// Returns whether this verdict was given.
    fn is_given(&self, success: bool) -> bool
        ensures { result ≡ is_given success self.now.verdict }
    {
        match self.verdict {
            Some(given) => given == success,
            None => false,
        }
    }

    /// Notes an artifact of the view.
    pub(super) fn add<S: CertificateScheme>(&mut self, artifact: &Artifact<S, D>)
        ensures { self.new ≡ seen_with self.old (artifact_facts S.certificate_bytes artifact.now) }
    {
        match artifact {
            Artifact::Notarize(vote) => self.notarize = Some(vote.proposal),
            Artifact::Nullify(_) => self.nullified = true,
            Artifact::Finalize(vote) => self.finalize = Some(vote.proposal),
            Artifact::Certification(_, success) => self.verdict = Some(*success),
            Artifact::Notarization(_) => self.notarized = true,
            Artifact::Nullification(_) | Artifact::Finalization(_) => {}
        }
    }
}

/// Returns whether another proposal was voted for.
fn is_other<D: Digest>(seen: &Option<Proposal<D>>, proposal: &Proposal<D>) -> bool
    ensures { result ≡ is_other D.eq seen.now proposal.now }
{
    match seen {
        Some(seen) => seen != proposal,
        None => false,
    }
}
