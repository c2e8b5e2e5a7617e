//! A resolver with its open fetches, and with their law at each moment.

ghost use Rattle.std.specs.Prelude.{◌≡◌, ◌≤◌, ◌<◌, ◌^◌, [], true, false, None, IfOk, IfErr, OnOk, OnErr};
ghost use Rattle.simplex_types.specs.Certificates.{certificate_facts, notarization_facts};
ghost use Rattle.simplex_types.specs.MessageViews.{certificate_view};
ghost use Rattle.simplex_types.specs.declared.types.fault.Fault.TheVariants.{OutOfMemory};
ghost use Rattle.simplex_resolver.specs.Facts.{empty};
ghost use Rattle.simplex_resolver.specs.Repair.{IsApplied};
ghost use Rattle.simplex_resolver.specs.Steps.{Replayed, update, verdict, highest_named, highest_view};
ghost use Rattle.simplex_resolver.specs.RecordCalls.{newest_first, replay_calls};
ghost use Rattle.simplex_resolver.specs.ReplayErrors.{IsDue};
ghost use Rattle.simplex_resolver.specs.RecordRules.{record_error};

use super::error::ReplayError;
use super::start::replay_record;
use crate::resolver::{Effect, State, apply};
use simplex_types::types::{
    Artifact, Certificate, CertificateScheme, Digest, Fault, Notarization, TermLength, View,
};
use std::alloc::Global;
use std::collections::BTreeSet;
use std::marker::Model;

/// A resolver for a host, and the views whose fetch is open: the effects of each call are applied to them.
///
/// `HasReceivedCalls` lists the calls that it received so far: `new` and `start` begin the list, each method states
/// what it adds, and `keeps_the_laws` states what holds of the whole.
#[derive(Drop)]
pub struct LawfulResolver {
    state: State,
    fetches: BTreeSet<View>,
}

impl Model for LawfulResolver {
    ghost use Rattle.simplex_resolver.specs.CallHistory.{LawfulResolverFacts, resolver_facts_code};

    ghost Value = { LawfulResolverFacts };

    ghost coded = { resolver_facts_code };

    ghost view = { λ r. record { state = r.state; open_fetches = r.fetches.keys } };
}

impl LawfulResolver {
    ghost use Rattle.simplex_resolver.specs.CallHistory.{HasReceivedCalls, IsMade, ReceivesMore, IsBegun, IsLeftBy, OfEachCallHistory, OpensTheOutstanding, OpensNone, OpensNoneAgain, AnswersTheReceived};

    /// Returns a resolver that has received nothing. It opens no fetch before `replayed` is called.
    pub fn new(alloc: Global, term_length: TermLength) -> LawfulResolver
        ensures state { result.state ≡ empty term_length }
        ensures begins { HasReceivedCalls term_length [] result }
    {
        // proof only: exposes that the term length is positive
        let _positive = term_length.get();
        LawfulResolver {
            state: State::new(alloc, term_length),
            fetches: BTreeSet::new(alloc),
        }
    }

    /// Returns a resolver that starts from a member's record, oldest entry first, as `replay_record` does, with
    /// its first fetches open.
    ///
    /// # Errors
    ///
    /// Those of `replay_record`, and `OutOfMemory` also if there is none for the fetches. Then there is no
    /// resolver.
    pub fn start<S: CertificateScheme, D: Digest>(
        alloc: Global,
        term_length: TermLength,
        entries: &[Artifact<S, D>],
    ) -> Result<LawfulResolver, ReplayError>
        ensures begins { IfOk result
            (HasReceivedCalls term_length (replay_calls D.bytes S.certificate_bytes entries.now)) }
        ensures accepted { OnOk result (record_error (newest_first S.certificate_bytes entries.now) ≡ None) }
        ensures refused { IfErr result (IsDue (record_error (newest_first S.certificate_bytes entries.now))) }
    {
        // proof only: exposes that the term length is positive
        let _positive = term_length.get();
        let (state, effects) = replay_record(alloc, term_length, entries)?;
        let mut fetches = BTreeSet::new(alloc);
        match apply(&mut fetches, &effects) {
            Ok(()) => Ok(LawfulResolver { state, fetches }),
            Err(_) => Err(ReplayError::OutOfMemory),
        }
    }

    /// Passes a certificate that the member accepted, as `State::updated` does. Returns the effects, which are
    /// applied to the open fetches. A fetch among them may be of a view whose fetch is open already.
    ///
    /// # Errors
    ///
    /// `Failed` on a failed resolver, `ViewTooLarge` if the certificate's view or its parent's is above
    /// 2^63 - 1; both change nothing. After `OutOfMemory` the resolver has failed: a prefix of the effects is
    /// applied, and every later call is refused.
    pub fn updated<S: CertificateScheme, D: Digest>(
        &mut self,
        certificate: &Certificate<S, D>,
    ) -> Result<Vec<Effect>, Fault>
        requires { 1 ≤ certificate_view certificate.now }
        ensures made { IfOk result
            (λ es. IsMade (update D.bytes (certificate_facts S.certificate_bytes certificate.now)) self.old
            es.items self.new) }
        ensures received { OnOk result
            (ReceivesMore self.old (update D.bytes (certificate_facts S.certificate_bytes certificate.now)) self.new) }
        ensures accepted { OnOk result ((self.old.state.is_failed ≡ false) × (highest_view certificate.now < 2 ^ 63)) }
        ensures refused { IfErr result (λ fault. IsLeftBy self.old (highest_view certificate.now)
            (update D.bytes (certificate_facts S.certificate_bytes certificate.now)) fault self.new) }
    {
        match self.state.updated(certificate) {
            Ok(effects) => self.apply(effects),
            Err(fault) => Err(fault),
        }
    }

    /// Passes a verdict on a notarization, as `State::certified` does. Returns the effects, which are applied
    /// to the open fetches.
    ///
    /// # Errors
    ///
    /// As `updated`.
    pub fn certified<S: CertificateScheme, D: Digest>(
        &mut self,
        notarization: Notarization<S, D>,
        success: bool,
    ) -> Result<Vec<Effect>, Fault>
        requires { 1 ≤ notarization.proposal.round.view }
        ensures made { IfOk result
            (λ es. IsMade (verdict D.bytes (notarization_facts S.certificate_bytes notarization) success) self.old
            es.items self.new) }
        ensures received { OnOk result
            (ReceivesMore self.old (verdict D.bytes (notarization_facts S.certificate_bytes notarization) success)
            self.new) }
        ensures accepted { OnOk result
            ((self.old.state.is_failed ≡ false) × (highest_named notarization.proposal < 2 ^ 63)) }
        ensures refused { IfErr result (λ fault. IsLeftBy self.old (highest_named notarization.proposal)
            (verdict D.bytes (notarization_facts S.certificate_bytes notarization) success) fault self.new) }
    {
        match self.state.certified(notarization, success) {
            Ok(effects) => self.apply(effects),
            Err(fault) => Err(fault),
        }
    }

    /// Ends the replay, as `State::replayed` does. Returns the effects, which are applied to the open fetches.
    ///
    /// # Errors
    ///
    /// As `updated`, but no view is too large.
    pub fn replayed(&mut self) -> Result<Vec<Effect>, Fault>
        ensures made { IfOk result (λ es. IsMade Replayed self.old es.items self.new) }
        ensures received { OnOk result (ReceivesMore self.old Replayed self.new) }
        ensures accepted { OnOk result (self.old.state.is_failed ≡ false) }
        ensures refused { IfErr result (λ fault. IsLeftBy self.old 0 Replayed fault self.new) }
    {
        match self.state.replayed() {
            Ok(effects) => self.apply(effects),
            Err(fault) => Err(fault),
        }
    }

    /// Applies the effects of a call to the open fetches. Without memory for them the resolver fails.
    fn apply(&mut self, effects: Vec<Effect>) -> Result<Vec<Effect>, Fault>
        ensures state { OnOk result (self.new.state ≡ self.old.state) }
        ensures answered { IfOk result (λ es. es ≡ effects) }
        ensures applied { OnOk result (IsApplied self.old.open_fetches effects.items self.new.open_fetches) }
        ensures memory { IfErr result (λ fault. fault ≡ OutOfMemory) }
        ensures failed { OnErr result (self.new.state ≡ record self.old.state { is_failed = true }) }
        ensures begun { OnErr result (IsBegun self.old.open_fetches effects.items self.new.open_fetches) }
    {
        match apply(&mut self.fetches, &effects) {
            Ok(()) => Ok(effects),
            Err(fault) => {
                self.state.fail();
                Err(fault)
            }
        }
    }

    /// Returns the resolver's state: what is settled, what is served, and whether it has failed.
    pub fn state(&self) -> &State
        ensures { result.now ≡ self.now.state }
    {
        &self.state
    }

    /// Returns the views whose fetch is open, rising.
    pub fn fetches(&self) -> &BTreeSet<View>
        ensures { result.now.keys ≡ self.now.open_fetches }
    {
        &self.fetches
    }

    /// The laws of all calls that the resolver received so far. The function does nothing: its contract is the
    /// law.
    ///
    /// - `wanted`: once its replay has ended, its open fetches are exactly the views to fetch after these
    ///   calls, in whatever order they came.
    /// - `none`: before that no fetch is open.
    /// - `again`: a certificate of a kind and view that it received before opens no fetch.
    /// - `answers`: what its state returns follows from what it received.
    pub fn keeps_the_laws(&self)
        ensures wanted { OfEachCallHistory self.now (OpensTheOutstanding self.now) }
        ensures none { OfEachCallHistory self.now (OpensNone self.now) }
        ensures again { OfEachCallHistory self.now (OpensNoneAgain self.now) }
        ensures answers { OfEachCallHistory self.now (AnswersTheReceived self.now) }
    {}
}
