//! The effects of a certificate, and the scan after it.

ghost use Rattle.std.specs.Prelude.{◌≡◌, ◌^◌, ◌<◌, ◌≤◌, ◌++◌, IfOk, OnOk, OnErr};
ghost use Rattle.simplex_types.specs.Terms.{IsVotable};
ghost use Rattle.simplex_types.specs.Certificates.{certificate_facts};
ghost use Rattle.simplex_types.specs.Encoding.{encoding};
ghost use Rattle.simplex_types.specs.MessageViews.{certificate_view};
ghost use Rattle.simplex_resolver.specs.Facts.{term_length};
ghost use Rattle.simplex_resolver.specs.Steps.{update, after, effects, after_scan, scan_fetches, after_raise, raise_effects, after_nullification, nullification_effects, after_notarization, notarization_effects, with_stored_finalization, without_finalized, after_finalization, finalization_effects};

use crate::resolver::effect::Effect;
use crate::resolver::state::State;
use crate::resolver::{scan, served};
use simplex_types::reasons::Kind;
use simplex_types::types::{Certificate, CertificateScheme, Digest, Fault, View, Viewable};

impl State {
    /// Continues the scan from where the last one ended, unless the replay is not over.
    pub(super) fn fetch_missing(
        &mut self,
        cause: View,
        effects: &mut Vec<Effect>,
    ) -> Result<(), Fault>
        ensures after { OnOk result (self.new ≡ after_scan self.old) }
        ensures fetched { OnOk result (effects.new.items ≡ effects.old.items ++ scan_fetches self.old cause) }
        ensures refused { OnErr result (self.new ≡ self.old) }
    {
        if self.replaying {
            return Ok(());
        }
        let first = self.scanned.max(self.floor.next());
        self.scanned = scan::scan(
            &self.nullifications,
            self.term_length,
            first,
            self.current_view,
            cause,
            effects,
        )?;
        Ok(())
    }

    /// Raises the floor to the view, if that is higher.
    pub(super) fn raise(&mut self, floor: View, effects: &mut Vec<Effect>) -> Result<(), Fault>
        requires { floor < 2 ^ 63 }
        ensures after { OnOk result (self.new ≡ after_raise self.old floor) }
        ensures raised { OnOk result (effects.new.items ≡ effects.old.items ++ raise_effects self.old floor) }
        ensures refused { OnErr result (self.new ≡ self.old) }
    {
        if floor <= self.floor {
            return Ok(());
        }
        effects.push(Effect::Raised(floor))?;
        self.floor = floor;
        let next = floor.next();
        if !next.is_term_start(self.term_length) {
            self.scanned = self.scanned.min(next);
        }
        Ok(())
    }

    fn record_nullification<S: CertificateScheme, D: Digest>(
        &mut self,
        view: View,
        certificate: &Certificate<S, D>,
        effects: &mut Vec<Effect>,
    ) -> Result<(), Fault>
        requires { IsVotable view }
        ensures after { OnOk result
            (self.new ≡ after_nullification self.old view
            (encoding D.bytes (certificate_facts S.certificate_bytes certificate.now))) }
        ensures settled { OnOk result (effects.new.items ≡ effects.old.items ++ nullification_effects self.old view) }
        ensures same_terms { term_length self.new ≡ term_length self.old }
    {
        let end = view.term_end(self.term_length);
        let finalized = self.last_finalized();
        self.current_view = self.current_view.max(view);
        if end <= finalized {
            return Ok(());
        }
        served::store_nullification(self.alloc, &mut self.nullifications, view, certificate)?;
        effects.push(Effect::Settled {
            kind: Kind::Nullification,
            start: view,
            end,
        })?;
        Ok(())
    }

    fn record_notarization(&mut self, view: View, effects: &mut Vec<Effect>) -> Result<(), Fault>
        requires { IsVotable view }
        ensures after { OnOk result (self.new ≡ after_notarization self.old view) }
        ensures settled { OnOk result (effects.new.items ≡ effects.old.items ++ notarization_effects self.old view) }
        ensures same_terms { term_length self.new ≡ term_length self.old }
    {
        let finalized = self.last_finalized();
        self.current_view = self.current_view.max(view);
        if view <= finalized {
            return Ok(());
        }
        self.notarizations.note(view)?;
        if !self.notarizations.has_failed(view) {
            effects.push(Effect::Settled {
                kind: Kind::Notarization,
                start: view,
                end: view,
            })?;
        }
        Ok(())
    }

    /// Updates the current view and the highest finalization by the certificate.
    fn store_finalization<S: CertificateScheme, D: Digest>(
        &mut self,
        view: View,
        certificate: &Certificate<S, D>,
    ) -> Result<(), Fault>
        requires { view < 2 ^ 63 }
        ensures after { OnOk result (self.new
            ≡ with_stored_finalization self.old view
            (encoding D.bytes (certificate_facts S.certificate_bytes certificate.now))) }
        ensures same_terms { term_length self.new ≡ term_length self.old }
    {
        served::store_finalization(self.alloc, &mut self.finalization, view, certificate)?;
        self.current_view = self.current_view.max(view);
        Ok(())
    }

    /// Drops what ends at or below the finalized view.
    fn drop_finalized(&mut self, finalized: View)
        requires { finalized < 2 ^ 63 }
        ensures { self.new ≡ without_finalized self.old finalized }
    {
        self.nullifications.drop_ended(finalized);
        self.notarizations.drop_below(finalized.next());
    }

    fn record_finalization<S: CertificateScheme, D: Digest>(
        &mut self,
        view: View,
        certificate: &Certificate<S, D>,
        effects: &mut Vec<Effect>,
    ) -> Result<(), Fault>
        requires { IsVotable view }
        ensures after { OnOk result
            (self.new ≡ after_finalization self.old view
            (encoding D.bytes (certificate_facts S.certificate_bytes certificate.now))) }
        ensures settled { OnOk result (effects.new.items ≡ effects.old.items ++ finalization_effects self.old view) }
        ensures same_terms { term_length self.new ≡ term_length self.old }
    {
        let finalized = self.last_finalized().max(view);
        self.store_finalization(view, certificate)?;
        self.drop_finalized(finalized);
        effects.push(Effect::Finalized(finalized))?;
        self.raise(view, effects)
    }

    pub(super) fn record<S: CertificateScheme, D: Digest>(
        &mut self,
        certificate: &Certificate<S, D>,
    ) -> Result<Vec<Effect>, Fault>
        requires { IsVotable (certificate_view certificate.now) }
        ensures after { OnOk result
            (self.new ≡ after self.old (update D.bytes (certificate_facts S.certificate_bytes certificate.now))) }
        ensures effects { IfOk result
            (λ es. es.items ≡ effects self.old
            (update D.bytes (certificate_facts S.certificate_bytes certificate.now))) }
        ensures same_terms { term_length self.new ≡ term_length self.old }
    {
        let mut effects = Vec::new(self.alloc);
        let view = certificate.view();
        match certificate {
            Certificate::Nullification(_) => {
                self.record_nullification(view, certificate, &mut effects)?;
            }
            Certificate::Notarization(_) => self.record_notarization(view, &mut effects)?,
            Certificate::Finalization(_) => {
                self.record_finalization(view, certificate, &mut effects)?;
            }
        }
        self.fetch_missing(view, &mut effects)?;
        Ok(effects)
    }
}
