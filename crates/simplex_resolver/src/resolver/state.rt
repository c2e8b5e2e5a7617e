//! The state of a resolver, and its calls.

mod certificates;
mod served;
mod verdicts;

ghost use Rattle.std.specs.Prelude.{◌≡◌, ◌^◌, ◌<◌, ◌≤◌, IfOk, OnOk, IfErr, true, false};
ghost use Rattle.simplex_types.specs.Certificates.{certificate_facts, notarization_facts, Notarized};
ghost use Rattle.simplex_types.specs.Encoding.{encoding};
ghost use Rattle.simplex_types.specs.MessageViews.{certificate_view};
ghost use Rattle.simplex_resolver.specs.Facts.{empty, term_length, last_finalized};
ghost use Rattle.simplex_resolver.specs.Steps.{update, verdict, Replayed, Refused, after, effects, highest_named, highest_view};

use crate::resolver::effect::Effect;
use crate::resolver::notarizations::Notarizations;
use bytes::Bytes;
use simplex_types::types::{
    Certificate, CertificateScheme, Digest, Fault, LARGEST_VIEW, Notarization, Proposal,
    TermLength, View, Viewable,
};
use simplex_view_maps::by_term::ByTerm;
use std::alloc::Global;
use std::marker::Model;

/// The certificates that a resolver stores and serves, and the progress of their repair.
#[derive(Drop)]
pub struct State {
    alloc: Global,
    term_length: TermLength,
    /// The highest view of a certificate.
    current_view: View,
    /// The highest view of a finalization or a true verdict.
    floor: View,
    /// Scans have passed the anchors below this view. A floor that rises inside a term moves it back.
    scanned: View,
    /// The highest finalization's view and encoding.
    finalization: Option<(View, Bytes)>,
    /// Encoded nullifications whose term ends above the last finalized view.
    nullifications: ByTerm<Bytes>,
    /// The notarized or judged views above the last finalized one, each with its encoding if its last verdict
    /// was true, and which of them have a false verdict.
    notarizations: Notarizations,
    replaying: bool,
    failed: bool,
}

/// The higher of a proposal's view and its parent's.
fn highest_named<D: Digest>(proposal: &Proposal<D>) -> View
    ensures { result ≡ highest_named proposal.now }
{
    proposal.round.view.max(proposal.parent)
}

/// The highest view that a certificate names.
fn highest_view<S: CertificateScheme, D: Digest>(certificate: &Certificate<S, D>) -> View
    ensures highest { result ≡ highest_view certificate.now }
    ensures above { certificate_view certificate.now ≤ result }
{
    match certificate {
        Certificate::Notarization(notarization) => highest_named(&notarization.proposal),
        Certificate::Nullification(nullification) => nullification.round.view,
        Certificate::Finalization(finalization) => highest_named(&finalization.proposal),
    }
}

impl Model for State {
    ghost use Rattle.std.specs.Prelude.{◌≡◌, ℕ, ◌<◌, ◌^◌};
    ghost use Rattle.std.specs.Option.{option_map_or};
    ghost use Rattle.simplex_resolver.specs.Facts.{ResolverFacts, facts_code};

    ghost Value = { ResolverFacts };

    ghost coded = { facts_code };

    ghost view = { λ s. record {
      current = s.current_view;
      floor = s.floor;
      scanned = s.scanned;
      finalization = s.finalization;
      nullifications = s.nullifications;
      notarizations = s.notarizations.by_view;
      uncertifiable = s.notarizations.failed;
      replaying = s.replaying;
      is_failed = s.failed;
    } };

    ghost invariant = { λ s. record {
      same_terms : s.nullifications.term_length ≡ s.term_length;
      long : 0 < s.term_length;
      current : s.current_view < 2 ^ 63;
      floor : s.floor < 2 ^ 63;
      final : option_map_or (λ f. f.0) s.finalization 0 < 2 ^ 63;
    } };
}

impl State {
    /// Returns a resolver that has received nothing. It fetches nothing before `replayed` is called.
    pub fn new(alloc: Global, term_length: TermLength) -> Self
        ensures { result ≡ empty term_length }
    {
        // proof only: exposes that the term length is positive
        let _positive = term_length.get();
        State {
            alloc,
            term_length,
            current_view: View::zero(),
            floor: View::zero(),
            scanned: View::zero(),
            finalization: None,
            nullifications: ByTerm::new(alloc, term_length),
            notarizations: Notarizations::new(alloc),
            replaying: true,
            failed: false,
        }
    }

    /// How many views a term has.
    pub fn term_length(&self) -> TermLength
        ensures { result ≡ term_length self.now }
    {
        self.term_length
    }

    /// Returns whether a call has run out of memory, or `fail` was called: then every later call but the plain
    /// getters is refused.
    pub fn is_failed(&self) -> bool
        ensures { result ≡ self.now.is_failed }
    {
        self.failed
    }

    /// Fails the state, for a host that stores the open fetches itself and had no memory to apply the effects
    /// of a call.
    pub fn fail(&mut self)
        ensures { self.new ≡ record self.old { is_failed = true } }
    {
        self.failed = true;
    }

    fn last_finalized(&self) -> View
        ensures value { result ≡ last_finalized self.now }
        ensures in_range { result < 2 ^ 63 }
    {
        match &self.finalization {
            Some((view, _)) => *view,
            None => View::zero(),
        }
    }

    /// Records a certificate that the member accepted. Returns its effects, in order: what it settles, whether
    /// the floor rose, and the views whose nullification must be fetched.
    ///
    /// The current view rises to the certificate's. A nullification is stored if its term ends above the last
    /// finalized view. A finalization raises the floor and drops what it covers. A notarization is noted, and
    /// served once it is certified.
    ///
    /// # Errors
    ///
    /// `Failed` on a failed state, `ViewTooLarge` if its view or its parent's is above 2^63 - 1; both change
    /// nothing. After `OutOfMemory` the state is failed.
    pub fn updated<S: CertificateScheme, D: Digest>(
        &mut self,
        certificate: &Certificate<S, D>,
    ) -> Result<Vec<Effect>, Fault>
        requires { 1 ≤ certificate_view certificate.now }
        ensures after { OnOk result
            (self.new ≡ after self.old (update D.bytes (certificate_facts S.certificate_bytes certificate.now))) }
        ensures effects { IfOk result
            (λ es. es.items ≡ effects self.old
            (update D.bytes (certificate_facts S.certificate_bytes certificate.now))) }
        ensures accepted { OnOk result ((self.old.is_failed ≡ false) × (highest_view certificate.now < 2 ^ 63)) }
        ensures refused { IfErr result (λ fault. Refused self.old (highest_view certificate.now) fault self.new) }
    {
        if self.failed {
            return Err(Fault::Failed);
        }
        if highest_view(certificate).get() > LARGEST_VIEW {
            return Err(Fault::ViewTooLarge);
        }
        match self.record(certificate) {
            Ok(effects) => Ok(effects),
            Err(_) => {
                self.failed = true;
                Err(Fault::OutOfMemory)
            }
        }
    }

    /// Records whether a notarization was certified, and returns the effects. `updated` need not have been called
    /// with the notarization.
    ///
    /// A true verdict raises the floor to the notarization, which is served from then on. A false one is
    /// remembered until a finalization; its view is fetched if it is above the floor and uncovered. The current
    /// view stays.
    ///
    /// # Errors
    ///
    /// As `updated`.
    pub fn certified<S: CertificateScheme, D: Digest>(
        &mut self,
        notarization: Notarization<S, D>,
        success: bool,
    ) -> Result<Vec<Effect>, Fault>
        requires { 1 ≤ notarization.proposal.round.view }
        ensures after { OnOk result
            (self.new ≡ after self.old
            (verdict D.bytes (notarization_facts S.certificate_bytes notarization) success)) }
        ensures effects { IfOk result
            (λ es. es.items ≡ effects self.old
            (verdict D.bytes (notarization_facts S.certificate_bytes notarization) success)) }
        ensures accepted { OnOk result ((self.old.is_failed ≡ false) × (highest_named notarization.proposal < 2 ^ 63)) }
        ensures refused { IfErr result
            (λ fault. Refused self.old (highest_named notarization.proposal) fault self.new) }
    {
        if self.failed {
            return Err(Fault::Failed);
        }
        if highest_named(&notarization.proposal).get() > LARGEST_VIEW {
            return Err(Fault::ViewTooLarge);
        }
        match self.judge(notarization, success) {
            Ok(effects) => Ok(effects),
            Err(_) => {
                self.failed = true;
                Err(Fault::OutOfMemory)
            }
        }
    }

    /// Ends the replay of the journal. Returns the fetches that waited for it: the uncovered anchors below the
    /// current view, then the failed views that need a nullification.
    ///
    /// # Errors
    ///
    /// `Failed` on a failed state, which changes nothing. After `OutOfMemory` the state is failed.
    pub fn replayed(&mut self) -> Result<Vec<Effect>, Fault>
        ensures after { OnOk result (self.new ≡ after self.old Replayed) }
        ensures effects { IfOk result (λ es. es.items ≡ effects self.old Replayed) }
        ensures accepted { OnOk result (self.old.is_failed ≡ false) }
        ensures refused { IfErr result (λ fault. Refused self.old 0 fault self.new) }
    {
        if self.failed {
            return Err(Fault::Failed);
        }
        match self.end_replay() {
            Ok(effects) => Ok(effects),
            Err(_) => {
                self.failed = true;
                Err(Fault::OutOfMemory)
            }
        }
    }
}
