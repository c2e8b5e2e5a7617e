//! The effects of a verdict, and the end of the replay.

ghost use Rattle.std.specs.Prelude.{◌≡◌, ◌^◌, ◌<◌, ◌++◌, IfOk, OnOk, true, false, filter, [], ◌∷◌};
ghost use Rattle.std.specs.FinMap as map;
ghost use Rattle.simplex_types.specs.Terms.{IsVotable};
ghost use Rattle.simplex_types.specs.Certificates.{notarization_facts, Notarized};
ghost use Rattle.simplex_types.specs.Encoding.{encoding};
ghost use Rattle.simplex_types.specs.declared.reasons.Kind.TheVariants.{Notarization as OfNotarization};
ghost use Rattle.simplex_resolver.specs.declared.resolver.effect.Effect.TheVariants.{Settled};
ghost use Rattle.simplex_resolver.specs.Facts.{term_length, last_finalized};
ghost use Rattle.simplex_resolver.specs.Steps.{verdict, Replayed, after, effects, with_certified, after_failure, failure_fetches, failing, needs_nullification};

use crate::resolver::effect::Effect;
use crate::resolver::scan;
use crate::resolver::state::State;
use bytes::Bytes;
use simplex_types::reasons::{FetchReason, Kind};
use simplex_types::types::{
    Certificate, CertificateScheme, Digest, Fault, Notarization, View, Viewable,
};

impl State {
    /// Stores the encoding of a certified notarization above the last finalized view.
    fn store_encoding(&mut self, view: View, encoding: Bytes) -> Result<(), Fault>
        requires { last_finalized self.old < view }
        ensures after { OnOk result (self.new ≡ with_certified self.old view encoding) }
        ensures same_terms { term_length self.new ≡ term_length self.old }
    {
        self.notarizations.certify(view, encoding)
    }

    fn store_certified<S: CertificateScheme, D: Digest>(
        &mut self,
        notarization: Notarization<S, D>,
    ) -> Result<(), Fault>
        ensures after { OnOk result (self.new ≡ with_certified self.old notarization.proposal.round.view
            (encoding D.bytes (Notarized (notarization_facts S.certificate_bytes notarization)))) }
        ensures same_terms { term_length self.new ≡ term_length self.old }
    {
        let view = notarization.view();
        if view <= self.last_finalized() {
            return Ok(());
        }
        let encoding = Certificate::Notarization(notarization).encode(self.alloc)?;
        self.store_encoding(view, encoding)
    }

    fn record_success<S: CertificateScheme, D: Digest>(
        &mut self,
        notarization: Notarization<S, D>,
    ) -> Result<Vec<Effect>, Fault>
        requires { IsVotable notarization.proposal.round.view }
        ensures after { OnOk result
            (self.new ≡ after self.old (verdict D.bytes (notarization_facts S.certificate_bytes notarization) true)) }
        ensures effects { IfOk result
            (λ es. es.items ≡ effects self.old
            (verdict D.bytes (notarization_facts S.certificate_bytes notarization) true)) }
        ensures same_terms { term_length self.new ≡ term_length self.old }
    {
        let view = notarization.view();
        let mut effects = Vec::new(self.alloc);
        effects.push(Effect::Settled {
            kind: Kind::Notarization,
            start: view,
            end: view,
        })?;
        self.store_certified(notarization)?;
        self.raise(view, &mut effects)?;
        self.fetch_missing(view, &mut effects)?;
        Ok(effects)
    }

    fn store_failure(&mut self, view: View) -> Result<(), Fault>
        ensures after { OnOk result (self.new ≡ after_failure self.old view) }
        ensures same_terms { term_length self.new ≡ term_length self.old }
    {
        if view <= self.last_finalized() {
            return Ok(());
        }
        self.notarizations.refuse(view)
    }

    fn needs_nullification(&self, view: View) -> bool
        ensures { result ≡ needs_nullification self.now view }
    {
        scan::needs_nullification(&self.nullifications, self.floor, view)
    }

    fn record_failure(&mut self, view: View) -> Result<Vec<Effect>, Fault>
        ensures after { OnOk result (self.new ≡ after_failure self.old view) }
        ensures effects { IfOk result
            (λ es. es.items ≡ (Settled OfNotarization view view ∷ []) ++ failure_fetches (failing self.old view)) }
        ensures same_terms { term_length self.new ≡ term_length self.old }
    {
        let mut effects = Vec::new(self.alloc);
        effects.push(Effect::Settled {
            kind: Kind::Notarization,
            start: view,
            end: view,
        })?;
        let needed = !self.replaying && self.needs_nullification(view);
        self.store_failure(view)?;
        if needed {
            effects.push(Effect::Fetch {
                view,
                cause: view,
                reason: FetchReason::CertificationFailed,
            })?;
        }
        Ok(effects)
    }

    pub(super) fn judge<S: CertificateScheme, D: Digest>(
        &mut self,
        notarization: Notarization<S, D>,
        success: bool,
    ) -> Result<Vec<Effect>, Fault>
        requires { IsVotable notarization.proposal.round.view }
        ensures after { OnOk result
            (self.new ≡ after self.old
            (verdict D.bytes (notarization_facts S.certificate_bytes notarization) success)) }
        ensures effects { IfOk result
            (λ es. es.items ≡ effects self.old
            (verdict D.bytes (notarization_facts S.certificate_bytes notarization) success)) }
        ensures same_terms { term_length self.new ≡ term_length self.old }
    {
        if success {
            self.record_success(notarization)
        } else {
            self.record_failure(notarization.view())
        }
    }

    fn fetch_failures(&self, effects: &mut Vec<Effect>) -> Result<(), Fault>
        ensures { OnOk result (effects.new.items ≡ effects.old.items
            ++ failure_fetches (filter (needs_nullification self.now) (map.keys self.now.uncertifiable))) }
    {
        scan::fetch_failures(
            self.notarizations.failed(),
            &self.nullifications,
            self.floor,
            effects,
        )?;
        Ok(())
    }

    pub(super) fn end_replay(&mut self) -> Result<Vec<Effect>, Fault>
        ensures after { OnOk result (self.new ≡ after self.old Replayed) }
        ensures effects { IfOk result (λ es. es.items ≡ effects self.old Replayed) }
        ensures same_terms { term_length self.new ≡ term_length self.old }
    {
        let mut effects = Vec::new(self.alloc);
        let cause = self.current_view;
        self.replaying = false;
        self.fetch_missing(cause, &mut effects)?;
        self.fetch_failures(&mut effects)?;
        Ok(effects)
    }
}
