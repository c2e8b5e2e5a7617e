//! Notarizations of proposals.

ghost use Rattle.std.specs.Prelude.{◌≡◌, ◌||◌, IfSome, IfOk, IfErr, OnOk, Err, None, true};
ghost use Rattle.simplex_types.specs.Terms.{IsVotable};
ghost use Rattle.simplex_types.specs.Certificates.{notarization_facts};
ghost use Rattle.simplex_types.specs.declared.types.fault.Fault.TheVariants.{OutOfMemory};

use super::conditions::names_too_large;
use super::state::State;
use simplex_types::types::{CertificateScheme, Digest, Elector, Fault, Notarization, Viewable};

impl<S: CertificateScheme, L: Elector<S>, D: Digest> State<S, L, D> {
    ghost use Rattle.simplex_voter.specs.Setup.{HasSameSetup};
    ghost use Rattle.simplex_voter.specs.Refusals.{HasFailed};
    ghost use Rattle.simplex_voter.specs.Acceptance.{takes_proposal_certificate, notarization_refusal, notarization_added, after_add_notarization, with_notarization_at};

    /// Accepts a notarization: the next view is led by the elector's choice after this certificate. The first of its
    /// view is stored, its view waits for certification, and the views whose window it opens take the leader of the
    /// view before them. Returns whether it is the first of its view, and the key of a leader found to equivocate.
    ///
    /// It must be of this epoch and of a retained view. Returns `ViewTooLarge` if its view or its parent's is
    /// above 2^63 - 1.
    pub fn add_notarization(
        &mut self,
        notarization: Notarization<S, D>,
    ) -> Result<(bool, Option<S::PublicKey>), Fault>
        requires { (self.old.failed
            || takes_proposal_certificate self.old (notarization_facts S.certificate_bytes notarization)) ≡ true }
        ensures refused { IfSome (notarization_refusal self.old (notarization_facts S.certificate_bytes notarization))
            (λ fault. (result ≡ Err fault) × (self.new ≡ self.old)) }
        ensures added { IfOk result
            (λ added. added ≡ notarization_added D.eq L.elect self.old
            (notarization_facts S.certificate_bytes notarization)) }
        ensures after { OnOk result
            (self.new ≡ after_add_notarization D.eq L.elect self.old
            (notarization_facts S.certificate_bytes notarization)) }
        ensures out_of_memory { notarization_refusal self.old
            (notarization_facts S.certificate_bytes notarization) ≡ None
            → IfErr result (λ fault. (fault ≡ OutOfMemory) × HasFailed self.old self.new) }
    {
        if self.is_failed() {
            return Err(Fault::Failed);
        }
        if names_too_large(&notarization.proposal) {
            return Err(Fault::ViewTooLarge);
        }
        match self.accept_notarization(notarization) {
            Ok(added) => Ok(added),
            Err(fault) => {
                self.fail();
                Err(fault)
            }
        }
    }

    fn accept_notarization(
        &mut self,
        notarization: Notarization<S, D>,
    ) -> Result<(bool, Option<S::PublicKey>), Fault>
        requires { IsVotable notarization.proposal.round.view }
        ensures added { IfOk result
            (λ added. added ≡ notarization_added D.eq L.elect self.old
            (notarization_facts S.certificate_bytes notarization)) }
        ensures accepted { OnOk result
            (self.new ≡ after_add_notarization D.eq L.elect self.old
            (notarization_facts S.certificate_bytes notarization)) }
        ensures refused { IfErr result (λ fault. fault ≡ OutOfMemory) }
        ensures setup { HasSameSetup self.old self.new }
    {
        let view = notarization.view();
        self.elect(view.next(), Some(&notarization.certificate))?;
        let added = self.store_notarization(notarization)?;
        if !added.0 {
            return Ok(added);
        }
        // the next view is not entered here: the certification comes first
        self.name_for_certification(view)?;
        self.slide_optimistic_frontier(view)?;
        Ok(added)
    }

    fn store_notarization(
        &mut self,
        notarization: Notarization<S, D>,
    ) -> Result<(bool, Option<S::PublicKey>), Fault>
        requires { IsVotable notarization.proposal.round.view }
        ensures added { IfOk result
            (λ added. added ≡ notarization_added D.eq L.elect self.old
            (notarization_facts S.certificate_bytes notarization)) }
        ensures kept { OnOk result
            (self.new ≡ with_notarization_at D.eq L.elect self.old
            (notarization_facts S.certificate_bytes notarization)) }
        ensures refused { IfErr result (λ fault. fault ≡ OutOfMemory) }
        ensures setup { HasSameSetup self.old self.new }
    {
        let view = notarization.view();
        self.rounds.store_notarization(view, notarization)
    }
}
