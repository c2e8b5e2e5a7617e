//! The steps that follow a certificate that the member accepted.

ghost use Rattle.std.specs.Prelude.{◌≡◌, ◌≤◌, ◌==◌, ◌+◌, ◌-◌, ◌^◌, min, OnOk, IfErr, IsFalse};
ghost use Rattle.simplex_resolver.specs.Steps.{highest_view};
ghost use Rattle.engine_fetches.specs.Repairs.{IsUnrepaired};
ghost use Rattle.engine_planner.specs.PlanStates.{HasPlanned};
ghost use Rattle.simplex_types.specs.MessageViews.{certificate_view};
ghost use Rattle.engine_planner.specs.Consequences.{showing, IsResolverNotified, IsTakenInAbove, IsNewFollowed, IsAddedFollowed, IsCertificateFollowed};

use super::Plan;
use engine_outbox::output::Work;
use simplex_member::member::Reply;
use simplex_types::types::{Certificate, CertificateScheme, Digest, Fault, View, Viewable};
use std::alloc::AllocError;

impl<S: CertificateScheme, D: Digest> Plan<S, D> {
    /// Follows the reply to a certificate that was passed to the member.
    ///
    /// # Errors
    ///
    /// Those of `Repair::updated`, and `OutOfMemory` if that is the reply.
    pub fn follow_certificate(
        &mut self,
        certificate: &Certificate<S, D>,
        reply: &Reply<S, D>,
        now: u64,
    ) -> Result<(), Fault>
        ensures followed { OnOk result
            (IsCertificateFollowed D.bytes S.certificate_bytes now certificate.now reply.now self.old self.new) }
        ensures refused { IfErr result
            (λ fault. IsUnrepaired (highest_view certificate.now) fault self.old.repair self.new.repair) }
    {
        match reply {
            Reply::Added(is_new, equivocator) => {
                self.follow_added(certificate, *is_new, *equivocator, now)
            }
            Reply::AddedNullification(is_new) => self.follow_new(certificate, *is_new, now),
            Reply::Fault(Fault::OutOfMemory) => Err(Fault::OutOfMemory),
            _ => Ok(()),
        }
    }

    /// Follows the acceptance of a notarization or a finalization.
    fn follow_added(
        &mut self,
        certificate: &Certificate<S, D>,
        is_new: bool,
        equivocator: Option<S::PublicKey>,
        now: u64,
    ) -> Result<(), Fault>
        ensures followed { OnOk result
            (IsAddedFollowed D.bytes S.certificate_bytes now certificate.now is_new equivocator self.old self.new) }
        ensures refused { IfErr result
            (λ fault. IsUnrepaired (highest_view certificate.now) fault self.old.repair self.new.repair) }
    {
        self.report_equivocation(certificate.view(), equivocator)?;
        self.follow_new(certificate, is_new, now)
    }

    /// Follows a passed certificate, if it is new.
    fn follow_new(
        &mut self,
        certificate: &Certificate<S, D>,
        is_new: bool,
        now: u64,
    ) -> Result<(), Fault>
        ensures followed { OnOk result
            (IsNewFollowed D.bytes S.certificate_bytes now is_new certificate.now self.old self.new) }
        ensures refused { IfErr result
            (λ fault. IsUnrepaired (highest_view certificate.now) fault self.old.repair self.new.repair) }
    {
        if is_new {
            return self.accept(certificate, now);
        }
        Ok(())
    }

    /// Reports that a leader signed two proposals, if one did.
    fn report_equivocation(
        &mut self,
        view: View,
        equivocator: Option<S::PublicKey>,
    ) -> Result<(), AllocError>
        ensures { OnOk result (HasPlanned (showing view equivocator) self.old self.new) }
    {
        match equivocator {
            Some(leader) => self.push(Work::ProposedTwice(view, leader)),
            None => Ok(()),
        }
    }

    /// Follows a new certificate: the resolver receives it.
    fn accept(&mut self, certificate: &Certificate<S, D>, now: u64) -> Result<(), Fault>
        ensures followed { OnOk result
            (IsTakenInAbove D.bytes S.certificate_bytes now (certificate_view certificate.now == 0) certificate.now
            self.old self.new) }
        ensures refused { IfErr result
            (λ fault. IsUnrepaired (highest_view certificate.now) fault self.old.repair self.new.repair) }
    {
        let view = certificate.view();
        if is_genesis(view) {
            return Ok(());
        }
        self.report_certificate(certificate, now)?;
        self.touch(view)?;
        Ok(())
    }

    /// Passes a certificate to the resolver. A notarization that arrived is no longer asked for.
    fn report_certificate(&mut self, certificate: &Certificate<S, D>, now: u64) -> Result<(), Fault>
        requires { 1 ≤ certificate_view certificate.now }
        ensures same { self.new ≡ record self.old { repair = self.new.repair } }
        ensures notified { OnOk result
            (IsResolverNotified D.bytes S.certificate_bytes now certificate.now self.old self.new.repair) }
        ensures refused { IfErr result
            (λ fault. IsUnrepaired (highest_view certificate.now) fault self.old.repair self.new.repair) }
    {
        let moment = self.later(now);
        self.repair.updated(certificate, moment)?;
        if let Certificate::Notarization(notarization) = certificate {
            self.repair.close_notarization(notarization.view());
        }
        Ok(())
    }

    /// Returns the moment from which on a missing certificate is asked for: until then it may be on its way.
    pub(super) fn later(&self, now: u64) -> u64
        ensures { result ≡ min (now + self.now.options.on_its_way) (2 ^ 64 - 1) }
    {
        now.saturating_add(self.options.on_its_way)
    }
}

/// Returns whether the view is genesis.
pub(super) fn is_genesis(view: View) -> bool
    ensures is { result ≡ (view == 0) }
    ensures above { IsFalse result → 1 ≤ view }
{
    view.is_zero()
}
