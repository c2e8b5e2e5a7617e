//! Finalizations of proposals, and the work that each ends at its view and below.

ghost use Rattle.std.specs.Prelude.{◌≡◌, ◌||◌, ◌<◌, ◌^◌, ◌+◌, IfSome, IfOk, IfErr, OnOk, Err, Some, None, true, nat_lt};
ghost use Rattle.simplex_types.specs.Terms.{IsVotable};
ghost use Rattle.simplex_types.specs.Certificates.{finalization_facts};
ghost use Rattle.simplex_types.specs.declared.types.fault.Fault.TheVariants.{OutOfMemory};

use super::conditions::names_too_large;
use super::rounds::Deadlines;
use super::state::State;
use simplex_types::types::{
    CertificateScheme, Digest, Elector, Fault, Finalization, View, Viewable,
};

impl<S: CertificateScheme, L: Elector<S>, D: Digest> State<S, L, D> {
    ghost use Rattle.simplex_voter.specs.Certification.{with_finalized_view};
    ghost use Rattle.simplex_voter.specs.Setup.{HasSameSetup, deadlines_at};
    ghost use Rattle.simplex_voter.specs.Refusals.{HasFailed};
    ghost use Rattle.simplex_voter.specs.Acceptance.{takes_proposal_certificate, finalization_refusal, finalization_added, after_add_finalization, with_finalization_at};

    /// Makes this view the last finalized one if it is above the one before: nothing at or below it waits for
    /// certification any more, and no certification is under way there.
    pub(super) fn raise(&mut self, view: View)
        requires { view < 2 ^ 63 }
        ensures { self.new ≡ with_finalized_view self.old view }
    {
        if view <= self.finalized {
            return;
        }
        self.finalized = view;
        // a finalization is definite: no verdict below it matters any more
        self.candidates.drop_below(view.next());
        self.rounds.end_certifications(view);
    }

    /// Accepts a finalization. Its view becomes the last finalized one if it is above the one before; then nothing at
    /// or below it waits for certification. The next view is entered if it is ahead, led by the elector's choice after
    /// this certificate. The first finalization of a view is stored, the view that waited for it is a certification
    /// candidate again, and the views whose window it opens take the leader of the view before them. Returns whether it
    /// is the first of its view, and the key of a leader found to equivocate.
    ///
    /// It must be of this epoch and of a retained view. Returns `ViewTooLarge` if its view or its parent's is
    /// above 2^63 - 1, `TimeOverflow` if a deadline of the view to be entered passes 2^64 - 1 milliseconds.
    pub fn add_finalization(
        &mut self,
        finalization: Finalization<S, D>,
        now: u64,
    ) -> Result<(bool, Option<S::PublicKey>), Fault>
        requires { (self.old.failed
            || takes_proposal_certificate self.old (finalization_facts S.certificate_bytes finalization)) ≡ true }
        ensures refused { IfSome (finalization_refusal self.old finalization.proposal now)
            (λ fault. (result ≡ Err fault) × (self.new ≡ self.old)) }
        ensures added { IfOk result
            (λ added. added ≡ finalization_added D.eq L.elect self.old
            (finalization_facts S.certificate_bytes finalization)) }
        ensures after { OnOk result
            (self.new ≡ after_add_finalization D.eq L.elect self.old
            (finalization_facts S.certificate_bytes finalization) now) }
        ensures out_of_memory { finalization_refusal self.old finalization.proposal now ≡ None
            → IfErr result (λ fault. (fault ≡ OutOfMemory) × HasFailed self.old self.new) }
    {
        let deadlines = self.deadlines_above(&finalization, now)?;
        match self.accept_finalization(finalization, now, &deadlines) {
            Ok(added) => Ok(added),
            Err(fault) => {
                self.fail();
                Err(fault)
            }
        }
    }

    /// The deadlines of the view above a finalization, or the reason to refuse it.
    pub(super) fn deadlines_above(
        &self,
        finalization: &Finalization<S, D>,
        now: u64,
    ) -> Result<Deadlines, Fault>
        ensures refused { IfErr result
            (λ fault. finalization_refusal self.now finalization.now.proposal now ≡ Some fault) }
        ensures taken { OnOk result ((finalization_refusal self.now finalization.now.proposal now ≡ None)
            × (finalization.now.proposal.round.view < 2 ^ 63)) }
        ensures moments { IfOk result (λ deadlines.
            nat_lt self.now.current (finalization.now.proposal.round.view + 1) ≡ true
            → deadlines ≡ deadlines_at self.now now) }
    {
        if self.is_failed() {
            return Err(Fault::Failed);
        }
        if names_too_large(&finalization.proposal) {
            return Err(Fault::ViewTooLarge);
        }
        match self.deadlines_to(finalization.view().next(), now) {
            Some(deadlines) => Ok(deadlines),
            None => Err(Fault::TimeOverflow),
        }
    }

    /// Stores a finalization that is not refused, with all its effects.
    pub(super) fn accept_finalization(
        &mut self,
        finalization: Finalization<S, D>,
        now: u64,
        deadlines: &Deadlines,
    ) -> Result<(bool, Option<S::PublicKey>), Fault>
        requires votable { IsVotable finalization.proposal.round.view }
        requires deadlines { nat_lt self.old.current (finalization.proposal.round.view + 1) ≡ true
            → deadlines.now ≡ deadlines_at self.old now }
        ensures added { IfOk result
            (λ added. added ≡ finalization_added D.eq L.elect self.old
            (finalization_facts S.certificate_bytes finalization)) }
        ensures accepted { OnOk result
            (self.new ≡ after_add_finalization D.eq L.elect self.old
            (finalization_facts S.certificate_bytes finalization) now) }
        ensures refused { IfErr result (λ fault. fault ≡ OutOfMemory) }
        ensures setup { HasSameSetup self.old self.new }
    {
        let view = finalization.view();
        self.pass(view, now, deadlines, &finalization.certificate)?;
        let added = self.store_finalization(finalization)?;
        if !added.0 {
            return Ok(added);
        }
        self.wake_certification_child(view)?;
        self.slide_optimistic_frontier(view)?;
        Ok(added)
    }

    fn store_finalization(
        &mut self,
        finalization: Finalization<S, D>,
    ) -> Result<(bool, Option<S::PublicKey>), Fault>
        requires { IsVotable finalization.proposal.round.view }
        ensures added { IfOk result
            (λ added. added ≡ finalization_added D.eq L.elect self.old
            (finalization_facts S.certificate_bytes finalization)) }
        ensures kept { OnOk result
            (self.new ≡ with_finalization_at D.eq L.elect self.old
            (finalization_facts S.certificate_bytes finalization)) }
        ensures refused { IfErr result (λ fault. fault ≡ OutOfMemory) }
        ensures setup { HasSameSetup self.old self.new }
    {
        let view = finalization.view();
        self.rounds.store_finalization(view, finalization)
    }
}
