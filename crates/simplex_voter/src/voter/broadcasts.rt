//! Certificates to broadcast: each is returned once; and the one that helps others into the current view.

ghost use Rattle.std.specs.Prelude.{◌≡◌, ◌||◌, IfSome, IfOk, IfErr, Err, None, true, option_map, OnOk, OnErr, is_some};
ghost use Rattle.std.specs.Option.{option_copied};
ghost use Rattle.simplex_types.specs.Certificates.{certificate_facts, nullification_facts, notarization_facts, finalization_facts};
ghost use Rattle.simplex_types.specs.declared.types.fault.Fault.TheVariants.{OutOfMemory};

use super::leaders::before;
use super::state::State;
use simplex_types::types::{
    Certificate, CertificateScheme, Digest, Elector, Fault, Finalization, Notarization,
    Nullification, View,
};

impl<S: CertificateScheme, L: Elector<S>, D: Digest> State<S, L, D> {
    ghost use Rattle.simplex_voter.specs.Refusals.{plain_refusal, is_started, HasFailed};
    ghost use Rattle.simplex_voter.specs.StateAnswers.{best_certificate, entry_certificate, entry_nullification, highest_nullification_in_term, broadcast_notarization_answer, after_broadcast_notarization, broadcast_nullification_answer, after_broadcast_nullification, broadcast_finalization_answer, after_broadcast_finalization};

    /// Returns a copy of the certificate that helps others into the current view. That is the previous view's
    /// finalization; else, at a term's start, the last term's highest nullification if it is stored there; else the
    /// previous view's notarization. `None` in view 1.
    ///
    /// The state must have a floor. Only the copy takes memory. Nothing changes, so a call that runs out of memory can
    /// be repeated.
    pub fn get_best_certificate(&self) -> Result<Option<Certificate<S, D>>, Fault>
        requires { (self.now.failed || is_started self.now) ≡ true }
        ensures refused { IfSome (plain_refusal self.now) (λ fault. result ≡ Err fault) }
        ensures answer { IfOk result
            (λ answer. option_map (certificate_facts S.certificate_bytes) answer ≡ best_certificate self.now) }
        ensures out_of_memory { plain_refusal self.now ≡ None → IfErr result (λ fault. fault ≡ OutOfMemory) }
        ensures refused_only_a_copy { plain_refusal self.now ≡ None
            → OnErr result (is_some (best_certificate self.now) ≡ true) }
    {
        if self.is_failed() {
            return Err(Fault::Failed);
        }
        if self.current == View::new(1) {
            return Ok(None);
        }
        self.entry_certificate(before(self.current))
    }

    /// Returns a copy of the certificate of a view that helps others past it.
    fn entry_certificate(&self, view: View) -> Result<Option<Certificate<S, D>>, Fault>
        ensures answer { IfOk result
            (λ answer. option_map (certificate_facts S.certificate_bytes) answer ≡ entry_certificate self.now view) }
        ensures refused { IfErr result (λ fault. fault ≡ OutOfMemory) }
        ensures refused_only_a_copy { OnErr result (is_some (entry_certificate self.now view) ≡ true) }
    {
        if let Some(finalization) = self.finalization(view) {
            let copy = finalization.clone(self.alloc)?;
            return Ok(Some(Certificate::Finalization(copy)));
        }
        // it proves that the views between were abandoned, which is what peers need to take the same way into the new
        // term
        if let Some(nullification) = self.entry_nullification(view) {
            let copy = nullification.clone(self.alloc)?;
            return Ok(Some(Certificate::Nullification(copy)));
        }
        match self.notarization(view) {
            Some(notarization) => {
                let copy = notarization.clone(self.alloc)?;
                Ok(Some(Certificate::Notarization(copy)))
            }
            None => Ok(None),
        }
    }

    /// The nullification that covers a view and is stored at the highest nullified view, if the current view starts a
    /// term.
    fn entry_nullification(&self, view: View) -> Option<&Nullification<S>>
        ensures { option_map (nullification_facts S.certificate_bytes) (option_copied result) ≡
            entry_nullification self.now view }
    {
        if !self.is_term_start(self.current) {
            return None;
        }
        self.nullification(self.highest_nullification_in_term(view)?)
    }

    /// The highest nullified view that covers a view.
    fn highest_nullification_in_term(&self, view: View) -> Option<View>
        ensures { result ≡ highest_nullification_in_term self.now view }
    {
        match self.nullified.covering(view) {
            Some(entry) => Some(entry.0),
            None => None,
        }
    }

    /// Returns the notarization of a tracked view for broadcast, unless it is missing or was returned or replayed
    /// before.
    ///
    /// The state must have a floor. Only the copy takes memory: a call with nothing to return cannot run out of it.
    pub fn broadcast_notarization(
        &mut self,
        view: View,
    ) -> Result<Option<Notarization<S, D>>, Fault>
        requires { (self.old.failed || is_started self.old) ≡ true }
        ensures refused { IfSome (plain_refusal self.old) (λ fault. (result ≡ Err fault) × (self.new ≡ self.old)) }
        ensures answer { IfOk result
            (λ c. option_map (notarization_facts S.certificate_bytes) c ≡ broadcast_notarization_answer self.old view) }
        ensures after { OnOk result (self.new ≡ after_broadcast_notarization self.old view) }
        ensures out_of_memory { plain_refusal self.old ≡ None
            → IfErr result (λ fault. (fault ≡ OutOfMemory) × HasFailed self.old self.new) }
        ensures refused_only_a_copy { plain_refusal self.old ≡ None
            → OnErr result (is_some (broadcast_notarization_answer self.old view) ≡ true) }
    {
        if self.is_failed() {
            return Err(Fault::Failed);
        }
        match self.rounds.return_notarization(view) {
            Ok(certificate) => Ok(certificate),
            Err(fault) => {
                self.fail();
                Err(fault)
            }
        }
    }

    /// Returns the nullification of a tracked view for broadcast, unless it is missing or was returned or replayed
    /// before.
    ///
    /// The state must have a floor. Only the copy takes memory: a call with nothing to return cannot run out of it.
    pub fn broadcast_nullification(&mut self, view: View) -> Result<Option<Nullification<S>>, Fault>
        requires { (self.old.failed || is_started self.old) ≡ true }
        ensures refused { IfSome (plain_refusal self.old) (λ fault. (result ≡ Err fault) × (self.new ≡ self.old)) }
        ensures answer { IfOk result
            (λ c. option_map (nullification_facts S.certificate_bytes) c ≡
            broadcast_nullification_answer self.old view) }
        ensures after { OnOk result (self.new ≡ after_broadcast_nullification self.old view) }
        ensures out_of_memory { plain_refusal self.old ≡ None
            → IfErr result (λ fault. (fault ≡ OutOfMemory) × HasFailed self.old self.new) }
        ensures refused_only_a_copy { plain_refusal self.old ≡ None
            → OnErr result (is_some (broadcast_nullification_answer self.old view) ≡ true) }
    {
        if self.is_failed() {
            return Err(Fault::Failed);
        }
        match self.rounds.return_nullification(view) {
            Ok(certificate) => Ok(certificate),
            Err(fault) => {
                self.fail();
                Err(fault)
            }
        }
    }

    /// Returns the finalization of a tracked view for broadcast, unless it is missing or was returned or replayed
    /// before.
    ///
    /// The state must have a floor. Only the copy takes memory: a call with nothing to return cannot run out of it.
    pub fn broadcast_finalization(
        &mut self,
        view: View,
    ) -> Result<Option<Finalization<S, D>>, Fault>
        requires { (self.old.failed || is_started self.old) ≡ true }
        ensures refused { IfSome (plain_refusal self.old) (λ fault. (result ≡ Err fault) × (self.new ≡ self.old)) }
        ensures answer { IfOk result
            (λ c. option_map (finalization_facts S.certificate_bytes) c ≡ broadcast_finalization_answer self.old view) }
        ensures after { OnOk result (self.new ≡ after_broadcast_finalization self.old view) }
        ensures out_of_memory { plain_refusal self.old ≡ None
            → IfErr result (λ fault. (fault ≡ OutOfMemory) × HasFailed self.old self.new) }
        ensures refused_only_a_copy { plain_refusal self.old ≡ None
            → OnErr result (is_some (broadcast_finalization_answer self.old view) ≡ true) }
    {
        if self.is_failed() {
            return Err(Fault::Failed);
        }
        match self.rounds.return_finalization(view) {
            Ok(certificate) => Ok(certificate),
            Err(fault) => {
                self.fail();
                Err(fault)
            }
        }
    }
}
