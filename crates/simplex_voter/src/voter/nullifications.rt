//! Nullifications of views.

ghost use Rattle.std.specs.Prelude.{◌≡◌, ◌||◌, ◌≤◌, IfSome, IfOk, IfErr, OnOk, Err, None, true, nat_lt};
ghost use Rattle.simplex_types.specs.Terms.{IsVotable, next_term_start};
ghost use Rattle.simplex_types.specs.Certificates.{nullification_facts};
ghost use Rattle.simplex_types.specs.declared.types.fault.Fault.TheVariants.{OutOfMemory};

use super::candidates::insert_view;
use super::rounds::Deadlines;
use super::state::State;
use simplex_types::types::{
    CertificateScheme, Digest, Elector, Fault, LARGEST_VIEW, Nullification, View, Viewable,
};

impl<S: CertificateScheme, L: Elector<S>, D: Digest> State<S, L, D> {
    ghost use Rattle.simplex_voter.specs.Setup.{HasSameSetup, deadlines_at};
    ghost use Rattle.simplex_voter.specs.StateView.{largest_current};
    ghost use Rattle.simplex_voter.specs.Refusals.{HasFailed};
    ghost use Rattle.simplex_voter.specs.Acceptance.{takes_nullification, nullification_refusal, nullification_added, after_add_nullification, nullified_also, with_nullification_at};

    /// Accepts a nullification: the rest of its term is skipped, and the next term's start is entered if it is ahead,
    /// led by the elector's choice after this certificate. Returns whether it is the first of its view. A certification
    /// that is under way continues, since the next leader may build on a notarized view that this member has not judged
    /// yet: members that stopped there could disagree on valid parents for good.
    ///
    /// It must be of this epoch and of a retained view. Returns `ViewTooLarge` if its view is above 2^63 - 1,
    /// `TimeOverflow` if a deadline of the view to be entered passes 2^64 - 1 milliseconds.
    pub fn add_nullification(
        &mut self,
        nullification: Nullification<S>,
        now: u64,
    ) -> Result<bool, Fault>
        requires { (self.old.failed
            || takes_nullification self.old (nullification_facts S.certificate_bytes nullification)) ≡ true }
        ensures refused { IfSome
            (nullification_refusal self.old (nullification_facts S.certificate_bytes nullification) now)
            (λ fault. (result ≡ Err fault) × (self.new ≡ self.old)) }
        ensures added { IfOk result
            (λ added. added ≡ nullification_added self.old (nullification_facts S.certificate_bytes nullification)) }
        ensures after { OnOk result
            (self.new ≡ after_add_nullification L.elect self.old
            (nullification_facts S.certificate_bytes nullification) now) }
        ensures out_of_memory { nullification_refusal self.old
            (nullification_facts S.certificate_bytes nullification) now ≡ None
            → IfErr result (λ fault. (fault ≡ OutOfMemory) × HasFailed self.old self.new) }
    {
        if self.is_failed() {
            return Err(Fault::Failed);
        }
        let view = nullification.view();
        if view.get() > LARGEST_VIEW {
            return Err(Fault::ViewTooLarge);
        }
        let next = self.next_term(view);
        let Some(deadlines) = self.deadlines_to(next, now) else {
            return Err(Fault::TimeOverflow);
        };
        let added = self.nullification(view).is_none();
        match self.accept_nullification(nullification, next, now, &deadlines) {
            Ok(()) => Ok(added),
            Err(fault) => {
                self.fail();
                Err(fault)
            }
        }
    }

    /// The first view of the term after a view's.
    fn next_term(&self, view: View) -> View
        requires { IsVotable view }
        ensures start { result ≡ next_term_start self.now.terms.term_length view }
        ensures in_range { result ≤ largest_current }
    {
        let length = self.elector.terms().term_length;
        // proof only: exposes that the term length is positive
        let _views = length.get();
        view.next_term_start(length)
    }

    fn accept_nullification(
        &mut self,
        nullification: Nullification<S>,
        next: View,
        now: u64,
        deadlines: &Deadlines,
    ) -> Result<(), Fault>
        requires votable { IsVotable nullification.round.view }
        requires next { next ≡ next_term_start self.old.terms.term_length nullification.round.view }
        requires in_range { next ≤ largest_current }
        requires deadlines { nat_lt self.old.current next ≡ true → deadlines.now ≡ deadlines_at self.old now }
        ensures accepted { OnOk result
            (self.new ≡ after_add_nullification L.elect self.old
            (nullification_facts S.certificate_bytes nullification) now) }
        ensures refused { IfErr result (λ fault. fault ≡ OutOfMemory) }
        ensures setup { HasSameSetup self.old self.new }
    {
        let view = nullification.view();
        self.note_moment(now);
        // no test of what is finalized is needed: only a view above the current one is entered
        self.enter_led(next, now, deadlines, &nullification.certificate)?;
        self.store_nullification(nullification)?;
        self.nullify_view(view)
    }

    /// Marks the nullification's view and the later ones of its term as nullified.
    pub(super) fn nullify_view(&mut self, view: View) -> Result<(), Fault>
        requires { 1 ≤ view }
        ensures noted { OnOk result (self.new ≡ nullified_also self.old view) }
        ensures refused { IfErr result (λ fault. fault ≡ OutOfMemory) }
        ensures setup { HasSameSetup self.old self.new }
    {
        insert_view(&mut self.nullified, view)
    }

    fn store_nullification(&mut self, nullification: Nullification<S>) -> Result<(), Fault>
        requires { IsVotable nullification.round.view }
        ensures kept { OnOk result
            (self.new ≡ with_nullification_at self.old (nullification_facts S.certificate_bytes nullification)) }
        ensures refused { IfErr result (λ fault. fault ≡ OutOfMemory) }
        ensures setup { HasSameSetup self.old self.new }
    {
        let view = nullification.view();
        self.rounds.store_nullification(view, nullification)
    }
}
