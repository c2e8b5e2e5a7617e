//! Verdicts of certifications, and the views that wait for them.

ghost use Rattle.std.specs.Prelude.{◌≡◌, ◌||◌, ◌↔◌, ◌+◌, ◌<◌, ◌^◌, ◌&&◌, IsTrue, IsNone, IfSome, IfOk, IfErr, OnOk, Err, None, true, false, is_some, nat_lt, option_map};
ghost use Rattle.std.specs.Option.{option_map_or};
ghost use Rattle.simplex_types.specs.Certificates.{notarization_facts};
ghost use Rattle.simplex_types.specs.declared.types.fault.Fault.TheVariants.{OutOfMemory};

use super::rounds::Deadlines;
use super::state::State;
use simplex_types::reasons::TimeoutReason;
use simplex_types::types::{CertificateScheme, Digest, Elector, Fault, Notarization, View};

impl<S: CertificateScheme, L: Elector<S>, D: Digest> State<S, L, D> {
    ghost use Rattle.simplex_voter.specs.Setup.{HasSameSetup, deadlines_at};
    ghost use Rattle.simplex_voter.specs.Facts.{round_at, is_tracked};
    ghost use Rattle.simplex_voter.specs.Refusals.{HasFailed, enters_late};
    ghost use Rattle.simplex_voter.specs.ViewEntry.{at_moment};
    ghost use Rattle.simplex_voter.specs.Certification.{waits_for, with_waiting_candidate, takes_verdict, certified_refusal, certified_answer, with_verdict, verdict_taken, after_certified};

    /// Records the verdict of a view's certification. A true verdict enters the next view if that is ahead, and makes
    /// the view above a candidate again if it waited for this one. A false verdict times the view out. Returns the
    /// view's notarization; if the view isn't tracked, returns `None` and records only the moment.
    ///
    /// The state must have a floor, and a tracked view must have its notarization and no other verdict. Returns
    /// `TimeOverflow` if a deadline of the view to be entered passes 2^64 - 1 milliseconds.
    pub fn certified(
        &mut self,
        view: View,
        success: bool,
        now: u64,
    ) -> Result<Option<Notarization<S, D>>, Fault>
        requires { (self.old.failed || takes_verdict self.old view success) ≡ true }
        ensures refused { IfSome (certified_refusal self.old view success now)
            (λ fault. (result ≡ Err fault) × (self.new ≡ self.old)) }
        ensures answer { IfOk result
            (λ answer. option_map (notarization_facts S.certificate_bytes) answer ≡ certified_answer self.old view) }
        ensures after { OnOk result (self.new ≡ after_certified L.elect self.old view success now) }
        ensures out_of_memory { certified_refusal self.old view success now ≡ None
            → IfErr result (λ fault. (fault ≡ OutOfMemory) × HasFailed self.old self.new) }
    {
        if self.is_failed() {
            return Err(Fault::Failed);
        }
        if !self.is_tracked(view) {
            self.note_moment(now);
            return Ok(None);
        }
        let Some(deadlines) = self.verdict_deadlines(view, success, now) else {
            return Err(Fault::TimeOverflow);
        };
        match self.take_verdict(view, success, now, &deadlines) {
            Ok(notarization) => Ok(notarization),
            Err(fault) => {
                self.fail();
                Err(fault)
            }
        }
    }

    fn take_verdict(
        &mut self,
        view: View,
        success: bool,
        now: u64,
        deadlines: &Deadlines,
    ) -> Result<Option<Notarization<S, D>>, Fault>
        requires taken { takes_verdict self.old view success ≡ true }
        requires tracked { is_tracked self.old view ≡ true }
        requires deadlines { success ≡ true → nat_lt self.old.current (view + 1) ≡ true
            → deadlines.now ≡ deadlines_at self.old now }
        ensures answer { IfOk result
            (λ answer. option_map (notarization_facts S.certificate_bytes) answer ≡ certified_answer self.old view) }
        ensures taken { OnOk result (self.new ≡ verdict_taken L.elect (at_moment self.old now) view success now) }
        ensures refused { IfErr result (λ fault. fault ≡ OutOfMemory) }
        ensures setup { HasSameSetup self.old self.new }
    {
        let notarization = self.copy_notarization(view)?;
        self.follow_verdict(view, success, now, deadlines)?;
        Ok(notarization)
    }

    /// Records the verdict of a notarized view, and times that view out or enters the next one.
    fn follow_verdict(
        &mut self,
        view: View,
        success: bool,
        now: u64,
        deadlines: &Deadlines,
    ) -> Result<(), Fault>
        requires taken { takes_verdict self.old view success ≡ true }
        requires tracked { is_tracked self.old view ≡ true }
        requires deadlines { success ≡ true → nat_lt self.old.current (view + 1) ≡ true
            → deadlines.now ≡ deadlines_at self.old now }
        ensures taken { OnOk result (self.new ≡ verdict_taken L.elect (at_moment self.old now) view success now) }
        ensures refused { IfErr result (λ fault. fault ≡ OutOfMemory) }
        ensures setup { HasSameSetup self.old self.new }
    {
        let next = self.rounds.after_notarized(view);
        self.note_moment(now);
        self.judge(view, success)?;
        if !success {
            self.trigger(view, TimeoutReason::FailedCertification, now);
            return Ok(());
        }
        self.enter_view(next, now, deadlines)?;
        self.wake_certification_child(view)
    }

    /// The deadlines of the view after a notarized one, which a true verdict may enter; `None` if one is too late.
    fn verdict_deadlines(&self, view: View, success: bool, now: u64) -> Option<Deadlines>
        requires { is_some (certified_answer self.now view) ≡ true }
        ensures late { IsNone result ↔ IsTrue (success && enters_late self.now (view + 1) now) }
        ensures moments { IfSome result (λ deadlines.
            success ≡ true → nat_lt self.now.current (view + 1) ≡ true → deadlines ≡ deadlines_at self.now now) }
    {
        if !success {
            return Some(Deadlines::none());
        }
        self.deadlines_to(self.rounds.after_notarized(view), now)
    }

    /// Returns a copy of the view's notarization, if there is one.
    fn copy_notarization(&self, view: View) -> Result<Option<Notarization<S, D>>, Fault>
        ensures copy { IfOk result
            (λ answer. option_map (notarization_facts S.certificate_bytes) answer ≡ certified_answer self.now view) }
        ensures refused { IfErr result (λ fault. fault ≡ OutOfMemory) }
    {
        match self.notarization(view) {
            Some(notarization) => Ok(Some(notarization.clone(self.alloc)?)),
            None => Ok(None),
        }
    }

    /// Records the verdict of a tracked view.
    #[tactic(auto, using(crate::proofs::Verdicts::not_contradicted))]
    fn judge(&mut self, view: View, success: bool) -> Result<(), Fault>
        requires taken { takes_verdict self.old view success ≡ true }
        requires tracked { is_tracked self.old view ≡ true }
        ensures judged { OnOk result (self.new ≡ with_verdict self.old view success) }
        ensures refused { IfErr result (λ fault. fault ≡ OutOfMemory) }
        ensures setup { HasSameSetup self.old self.new }
    {
        self.rounds.judge(view, success)
    }

    /// Once a view is certified or finalized, makes the view above it a candidate again if that waited for it. Nothing
    /// else wakes a waiting view: each becomes a candidate once.
    pub(super) fn wake_certification_child(&mut self, view: View) -> Result<(), Fault>
        requires { view + 1 < 2 ^ 64 }
        ensures woken { OnOk result (self.new ≡ with_waiting_candidate L.elect self.old view) }
        ensures refused { IfErr result (λ fault. fault ≡ OutOfMemory) }
        ensures setup { HasSameSetup self.old self.new }
    {
        if !self.is_awaited(view) {
            return Ok(());
        }
        self.name_for_certification(view.next())
    }

    /// Returns whether the view above is notarized and its proposal needs this one certified.
    fn is_awaited(&self, view: View) -> bool
        requires { view + 1 < 2 ^ 64 }
        ensures { result ≡ option_map_or (waits_for L.elect self.now view) (round_at self.now (view + 1)) false }
    {
        let next = view.next();
        let Some(round) = self.round_at(next) else {
            return false;
        };
        if round.notarization().is_none() {
            return false;
        }
        match round.proposal() {
            Some(proposal) => self.required_certification_parent(next, proposal) == Some(view),
            None => false,
        }
    }
}
