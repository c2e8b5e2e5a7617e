//! The requests to peers: the resolver, which decides of which views nullifications are outstanding, and the open
//! fetches.
//!
//! It guarantees that no outstanding view above the last finalized one is left out.

ghost use Rattle.std.specs.Prelude.{◌≡◌, ◌↔◌, ℕ, ◌≤◌, false, filter, max, None, OnOk, OnErr, IfOk, IfErr, IsFalse, IsOk};
ghost use Rattle.simplex_types.specs.declared.types.fault.Fault.TheVariants.{Failed};
ghost use Rattle.simplex_types.specs.Certificates.{certificate_facts, notarization_facts};
ghost use Rattle.simplex_types.specs.MessageViews.{certificate_view};
ghost use Rattle.simplex_resolver.specs.Steps.{highest_named, highest_view, update, verdict};
ghost use Rattle.engine_fetches.specs.Requests.{IsAsking};
ghost use Rattle.engine_fetches.specs.Fetches.{due_at, opened, closed, passed, place_of};
ghost use Rattle.engine_fetches.specs.OutstandingFetches.{fetching, wanting, is_missing, FetchesTheOutstanding, FetchesTheMissing, OpensNoOther};

use crate::fetches::{Ask, FetchKind, Fetches};
use simplex_resolver::replay::LawfulResolver;
use simplex_types::types::{
    Certificate, CertificateScheme, Digest, Elector, Fault, Notarization, Participant, View,
};
use simplex_voter::voter::{CertificateFetch, State};
use std::alloc::AllocError;

/// The resolver and the open fetches.
#[derive(Drop)]
pub struct Repair {
    resolver: LawfulResolver,
    fetches: Fetches,
    /// The last finalized view that this received: nothing is asked for of the views up to it.
    passed: View,
    /// Memory ran out before the effects of a call were carried out.
    is_behind: bool,
    ghost complete: { is_behind ≡ false → FetchesTheOutstanding passed resolver.open_fetches fetches.wanted.items },
}

impl Repair {
    ghost use Rattle.engine_fetches.specs.Repairs.{HasFetches, HasPassed, IsRepaired, IsUnrepaired};

    /// Opens the fetches of all that the resolver has open, beside those that are open already. They are due at once.
    ///
    /// # Errors
    ///
    /// Out of memory.
    pub fn new(resolver: LawfulResolver, mut fetches: Fetches) -> Result<Repair, AllocError>
        ensures resolver { IfOk result (λ repair. repair.resolver ≡ resolver) }
        ensures fetches { IfOk result
            (λ repair. repair.fetches.wanted.items ≡ wanting resolver.open_fetches fetches.wanted.items) }
        ensures same { IfOk result
            (λ repair. (repair.fetches.peers ≡ fetches.peers) × (repair.fetches.retry ≡ fetches.retry)) }
        ensures begun { IfOk result (λ repair. (repair.passed ≡ 0) × (repair.is_behind ≡ false)) }
    {
        fetches.open_all(resolver.fetches())?;
        Ok(Repair {
            resolver,
            fetches,
            passed: View::zero(),
            is_behind: false,
        })
    }

    /// Returns the resolver.
    pub fn resolver(&self) -> &LawfulResolver
        ensures { result.now ≡ self.now.resolver }
    {
        &self.resolver
    }

    /// Returns the open fetches.
    pub fn fetches(&self) -> &Fetches
        ensures { result.now ≡ self.now.fetches }
    {
        &self.fetches
    }

    /// Passes a certificate to the resolver, and opens and closes fetches as it says. A missing certificate is asked
    /// for from this moment on.
    ///
    /// - `no_other`: so a fetch that the resolver does not want was open before, and was not wanted then either.
    ///
    /// # Errors
    ///
    /// Those of `LawfulResolver::updated`. After `OutOfMemory` fetches may be left out; after another error the
    /// resolver and the fetches are unchanged.
    pub fn updated<S: CertificateScheme, D: Digest>(
        &mut self,
        certificate: &Certificate<S, D>,
        moment: u64,
    ) -> Result<(), Fault>
        requires { 1 ≤ certificate_view certificate.now }
        ensures repaired { OnOk result
            (IsRepaired moment (update D.bytes (certificate_facts S.certificate_bytes certificate.now))
            self.old self.new) }
        ensures no_other { OnOk result (OpensNoOther self.old.resolver.open_fetches self.old.fetches.wanted.items
            self.new.resolver.open_fetches self.new.fetches.wanted.items) }
        ensures refused { IfErr result (λ fault. IsUnrepaired (highest_view certificate.now) fault self.old self.new) }
    {
        let is_behind = self.is_behind;
        self.is_behind = true;
        let effects = self.resolver.updated(certificate)?;
        self.fetches.apply(&effects, moment)?;
        self.is_behind = is_behind;
        Ok(())
    }

    /// Passes a verdict on a notarization to the resolver, as `updated` does with a certificate.
    ///
    /// # Errors
    ///
    /// As of `updated`.
    pub fn certified<S: CertificateScheme, D: Digest>(
        &mut self,
        notarization: Notarization<S, D>,
        is_success: bool,
        moment: u64,
    ) -> Result<(), Fault>
        requires { 1 ≤ notarization.proposal.round.view }
        ensures repaired { OnOk result (IsRepaired moment
            (verdict D.bytes (notarization_facts S.certificate_bytes notarization) is_success) self.old self.new) }
        ensures no_other { OnOk result (OpensNoOther self.old.resolver.open_fetches self.old.fetches.wanted.items
            self.new.resolver.open_fetches self.new.fetches.wanted.items) }
        ensures refused { IfErr result
            (λ fault. IsUnrepaired (highest_named notarization.proposal) fault self.old self.new) }
    {
        let is_behind = self.is_behind;
        self.is_behind = true;
        let effects = self.resolver.certified(notarization, is_success)?;
        self.fetches.apply(&effects, moment)?;
        self.is_behind = is_behind;
        Ok(())
    }

    /// Opens the fetch of a missing certificate, which is asked for from this moment on, of this member first.
    ///
    /// # Errors
    ///
    /// Out of memory: nothing has changed.
    pub fn open(
        &mut self,
        kind: FetchKind,
        view: View,
        of: Option<Participant>,
        moment: u64,
    ) -> Result<(), AllocError>
        ensures opened { let fetches = self.old.fetches in
            OnOk result (HasFetches (opened kind view (place_of fetches.peers of) moment fetches.wanted.items)
            self.old self.new) }
        ensures refused { OnErr result (HasFetches self.old.fetches.wanted.items self.old self.new) }
    {
        self.fetches.open(kind, view, of, moment)?;
        Ok(())
    }

    /// Opens the fetches of the notarizations that certifications wait for. They are due at once.
    ///
    /// # Errors
    ///
    /// Out of memory: some of them may be asked for.
    pub fn fetch_all(&mut self, lacking: &[CertificateFetch], now: u64) -> Result<(), AllocError>
        ensures { OnOk result (HasFetches (fetching now lacking.now self.old.fetches.wanted.items) self.old self.new) }
    {
        for fetch in lacking {
            self.open(FetchKind::Notarization, fetch.view, None, now)?;
        }
        Ok(())
    }

    /// Closes the fetch of the view's notarization, which arrived.
    pub fn close_notarization(&mut self, view: View)
        ensures { HasFetches (closed FetchKind.Notarization view self.old.fetches.wanted.items) self.old self.new }
    {
        self.fetches.close(FetchKind::Notarization, view);
    }

    /// Takes note that the view is final: nothing is asked for of the views up to it.
    pub fn pass(&mut self, finalized: View)
        ensures { HasPassed (max self.old.passed finalized) (passed finalized self.old.fetches.wanted.items)
            self.old self.new }
    {
        self.fetches.pass(finalized);
        self.passed = later_of(self.passed, finalized);
    }

    /// Returns the first fetch that is due.
    pub fn ask(&mut self, now: u64) -> Option<Ask>
        ensures asked { IsAsking now self.old.fetches result self.new.fetches }
        ensures resolver { self.new.resolver ≡ self.old.resolver }
        ensures same { (self.new.passed ≡ self.old.passed) × (self.new.is_behind ≡ self.old.is_behind) }
    {
        self.fetches.ask(now)
    }

    /// Returns whether a wanted view above this one may be left out: because memory ran out, or higher ones were
    /// passed.
    fn may_leave_out(&self, finalized: View) -> bool
        ensures { IsFalse result ↔ ((self.now.is_behind ≡ false) × (self.now.passed ≤ finalized)) }
    {
        self.is_behind || finalized < self.passed
    }

    /// Closes the fetches of certificates that the state is not missing, and no other. Since the last finalized view
    /// never decreases, no fetch is left out.
    ///
    /// # Errors
    ///
    /// `Failed` if an error came before, or if the state's last finalized view is below one that was passed.
    pub fn drop_served<S: CertificateScheme, L: Elector<S>, D: Digest>(
        &mut self,
        state: &State<S, L, D>,
    ) -> Result<(), Fault>
        ensures kept { OnOk result (HasPassed state.now.finalized
            (filter (is_missing self.old.resolver.open_fetches state.now) self.old.fetches.wanted.items)
            self.old self.new) }
        ensures answers { IsOk result ↔ ((self.old.is_behind ≡ false) × (self.old.passed ≤ state.now.finalized)) }
        ensures refused { IfErr result (λ fault. (fault ≡ Failed) × (self.new ≡ self.old)) }
        ensures lacking { OnOk result
            (FetchesTheMissing self.new.resolver.open_fetches state.now self.new.fetches.wanted.items) }
        ensures due { (now : ℕ) → due_at now self.old.fetches.wanted.items ≡ None
            → due_at now self.new.fetches.wanted.items ≡ None }
    {
        let finalized = state.last_finalized();
        if self.may_leave_out(finalized) {
            return Err(Fault::Failed);
        }
        self.fetches.retain_missing(self.resolver.fetches(), state);
        self.passed = finalized;
        Ok(())
    }
}

/// Returns the later of two views.
fn later_of(one: View, other: View) -> View
    ensures { result ≡ max one other }
{
    if one < other { other } else { one }
}
