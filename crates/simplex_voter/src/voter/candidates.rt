//! Certification candidates: what each waits for, which are offered, which notarizations they need, and the
//! certifications under way, each known by the token of its request.

ghost use Rattle.std.specs.Prelude.{◌≡◌, ◌||◌, ◌≤◌, IfErr, OnOk, ◌&&◌, is_none, ◌++◌, [], IfSome, IfOk, Err, None, true, false, not};
ghost use Rattle.std.specs.FinMap as map;
ghost use Rattle.simplex_types.specs.declared.types.fault.Fault.TheVariants.{OutOfMemory};
ghost use Rattle.std.specs.List.{filter_map, cons_option};
ghost use Rattle.std.specs.Result.{IsOk};
ghost use Rattle.simplex_round.specs.Round.{is_judged};

use super::state::State;
use simplex_round::round::{Certification, Round};
use simplex_types::types::{CertificateScheme, Digest, Elector, Fault, Proposal, View};
use simplex_view_maps::by_term::ByTerm;
use simplex_view_maps::entries::Entries;
use simplex_view_maps::tracked::Tracked;

/// Adds a view to a set of views; adding it twice changes nothing.
#[tactic(auto, using(crate::proofs::RoundsKept::noted))]
pub(super) fn insert_view(views: &mut ByTerm<()>, view: View) -> Result<(), Fault>
    requires { 1 ≤ view }
    ensures same_terms { views.new.term_length ≡ views.old.term_length }
    ensures noted { OnOk result (views.new ≡ record views.old { by_view = map.insert views.old.by_view view tt }) }
    ensures refused { IfErr result (λ fault. fault ≡ OutOfMemory) }
{
    let _standing = views.insert(view, ())?;
    Ok(())
}

/// Adds a view to the candidates; adding it twice changes nothing.
#[tactic(auto, using(crate::proofs::RoundsKept::noted))]
pub(super) fn add_candidate(views: &mut Tracked<()>, view: View) -> Result<(), Fault>
    ensures named { OnOk result (views.new ≡ map.insert views.old view tt) }
    ensures refused { IfErr result (λ fault. fault ≡ OutOfMemory) }
{
    let _standing = views.insert(view, ())?;
    Ok(())
}

/// A notarization that the certification of a proposal waits for.
#[derive(Clone, Copy, PartialEq, Eq, Debug)]
pub struct CertificateFetch {
    /// The proposal's view.
    pub proposal: View,
    /// The view whose notarization is to be fetched.
    pub view: View,
}

/// Appends an item, if there is one.
fn append<T: Drop>(items: &mut Vec<T>, item: Option<T>) -> Result<(), Fault>
    ensures appended { OnOk result (items.new.items ≡ items.old.items ++ cons_option item []) }
    ensures refused { IfErr result (λ fault. fault ≡ OutOfMemory) }
{
    let Some(item) = item else {
        return Ok(());
    };
    match items.push(item) {
        Ok(()) => Ok(()),
        Err(_) => Err(Fault::OutOfMemory),
    }
}

/// Returns whether the round's certification has no verdict.
fn has_no_verdict<S: CertificateScheme, D: Digest>(round: &Round<S, D>) -> bool
    ensures { result ≡ not (is_judged true round.now.certification) && not (is_judged false round.now.certification) }
{
    match round.certification() {
        Certification::Judged(_) => false,
        Certification::Ready | Certification::Outstanding(_) | Certification::Aborted => true,
    }
}

impl<S: CertificateScheme, L: Elector<S>, D: Digest> State<S, L, D> {
    ghost use Rattle.simplex_voter.specs.Setup.{HasSameSetup};
    ghost use Rattle.simplex_voter.specs.Facts.{round_of};
    ghost use Rattle.simplex_voter.specs.Payloads.{explicit_ancestry_payload};
    ghost use Rattle.simplex_voter.specs.Parents.{has_valid_parent_span};
    ghost use Rattle.simplex_voter.specs.Certification.{named_also, certification_parent_ready, offered_of, certification_fetch, fetched_of, candidates_answer, after_candidates, takes_certify_handle, after_set_certify_handle};
    ghost use Rattle.simplex_voter.specs.Refusals.{HasFailed, plain_refusal, is_started};
    ghost use Rattle.simplex_voter.specs.StateAnswers.{certify_token_of, is_certify_aborted};

    /// Adds the view to the certification candidates, unless it is at or below the last finalized view.
    pub(super) fn name_for_certification(&mut self, view: View) -> Result<(), Fault>
        ensures named { OnOk result (self.new ≡ named_also self.old view) }
        ensures refused { IfErr result (λ fault. fault ≡ OutOfMemory) }
        ensures setup { HasSameSetup self.old self.new }
    {
        if view <= self.finalized {
            return Ok(());
        }
        add_candidate(&mut self.candidates, view)
    }

    /// The proposal of a view, if it can be offered for certification: its parent lies below, and what it requires is
    /// certified.
    pub(super) fn offer(&self, view: View) -> Option<Proposal<D>>
        ensures { result ≡ offered_of D.eq L.elect self.now view }
    {
        let proposal = self.round_at(view)?.pending_certification()?;
        if proposal.parent < view && self.certification_parent_ready(view, &proposal) {
            Some(proposal)
        } else {
            None
        }
    }

    /// Returns whether what the proposal requires is certified, and its parent may still be built on.
    fn certification_parent_ready(&self, view: View, proposal: &Proposal<D>) -> bool
        ensures { result ≡ certification_parent_ready L.elect self.now view proposal.now }
    {
        match self.required_certification_parent(view, proposal) {
            Some(parent) => {
                self.has_valid_parent_span(view, proposal.parent)
                    && self.explicit_ancestry_payload(parent).is_some()
            }
            None => true,
        }
    }

    /// The notarization to fetch for the proposal that a view holds.
    pub(super) fn fetch(&self, view: View) -> Option<CertificateFetch>
        ensures { result ≡ fetched_of L.elect self.now view }
    {
        let proposal = self.held_proposal(view)?;
        self.certification_fetch(view, proposal)
    }

    /// Returns the notarization to fetch before the proposal can be certified: that of its required parent, while the
    /// parent may be built on and is neither certified nor notarized here.
    ///
    /// A notarized parent awaits only its verdict. A missing one must be fetched: each member sends a notarization only
    /// once, and votes on a view end with the notarization of the next.
    fn certification_fetch(&self, view: View, proposal: &Proposal<D>) -> Option<CertificateFetch>
        ensures { result ≡ certification_fetch L.elect self.now view proposal.now }
    {
        let parent = self.required_certification_parent(view, proposal)?;
        if self.has_valid_parent_span(view, proposal.parent) && self.is_unknown(parent) {
            Some(CertificateFetch {
                proposal: proposal.round.view,
                view: parent,
            })
        } else {
            None
        }
    }

    /// Returns whether the view is neither certified nor notarized.
    fn is_unknown(&self, view: View) -> bool
        ensures { result ≡ (is_none (explicit_ancestry_payload self.now view)
            && is_none (round_of self.now view).notarization) }
    {
        self.explicit_ancestry_payload(view).is_none() && self.notarization(view).is_none()
    }

    /// Returns the proposals offered for certification among the waiting views, and the notarizations that these views
    /// must fetch, each by rising view. No view waits afterwards.
    ///
    /// A proposal is offered if its view holds it and is notarized, its certification was not requested, answered or
    /// abandoned, and what it requires is certified. A notarization is fetched if what a held proposal requires is
    /// neither certified nor notarized, and its parent may still be built on. The state must have a floor.
    pub fn certify_candidates(&mut self) -> Result<(Vec<Proposal<D>>, Vec<CertificateFetch>), Fault>
        requires { (self.old.failed || is_started self.old) ≡ true }
        ensures refused { IfSome (plain_refusal self.old) (λ fault. (result ≡ Err fault) × (self.new ≡ self.old)) }
        ensures answer { IfOk result
            (λ answer. (answer.0.items, answer.1.items) ≡ candidates_answer D.eq L.elect self.old) }
        ensures after { OnOk result (self.new ≡ after_candidates self.old) }
        ensures out_of_memory { plain_refusal self.old ≡ None
            → IfErr result (λ fault. (fault ≡ OutOfMemory) × HasFailed self.old self.new) }
    {
        if self.is_failed() {
            return Err(Fault::Failed);
        }
        match self.candidates_of(self.candidates.at_or_above(View::zero())) {
            Ok(candidates) => {
                self.candidates = Tracked::new(self.alloc);
                Ok(candidates)
            }
            Err(fault) => {
                self.fail();
                Err(fault)
            }
        }
    }

    /// Returns the proposals offered among these views, and the notarizations that they must fetch.
    fn candidates_of(
        &self,
        mut views: Entries<'_, ()>,
    ) -> Result<(Vec<Proposal<D>>, Vec<CertificateFetch>), Fault>
        ensures offers { IfOk result
            (λ answer. answer.0.items ≡ filter_map (λ e. offered_of D.eq L.elect self.now e.0) views.entry) }
        ensures fetches { IfOk result
            (λ answer. answer.1.items ≡ filter_map (λ e. fetched_of L.elect self.now e.0) views.entry) }
        ensures refused { IfErr result (λ fault. fault ≡ OutOfMemory) }
    {
        let mut offers = Vec::new(self.alloc);
        let mut fetches = Vec::new(self.alloc);
        while let Some(entry) = views.pop_first() {
            append(&mut offers, self.offer(entry.0))?;
            append(&mut fetches, self.fetch(entry.0))?;
        }
        Ok((offers, fetches))
    }

    /// Returns whether `set_certify_handle` is allowed: a floor was set, and the view has no verdict.
    pub fn takes_certify_handle(&self, view: View) -> bool
        ensures { result ≡ takes_certify_handle self.now view }
    {
        if !self.is_started() {
            return false;
        }
        match self.round_at(view) {
            Some(round) => has_no_verdict(round),
            None => true,
        }
    }

    /// Marks the certification of a tracked view as under way under this token, in place of what was known of it. If
    /// the view isn't tracked, nothing changes.
    ///
    /// The state must have a floor, and the view must have no verdict.
    pub fn set_certify_handle(&mut self, view: View, token: u64) -> Result<(), Fault>
        requires { (self.old.failed || takes_certify_handle self.old view) ≡ true }
        ensures refused { IfSome (plain_refusal self.old) (λ fault. (result ≡ Err fault) × (self.new ≡ self.old)) }
        ensures after { OnOk result (self.new ≡ after_set_certify_handle self.old view token) }
        ensures taken { plain_refusal self.old ≡ None → IsOk result }
    {
        if self.is_failed() {
            return Err(Fault::Failed);
        }
        self.rounds.set_certify_handle(view, token);
        Ok(())
    }

    /// Returns the token of a tracked view's certification, while that is under way.
    pub fn certify_token(&self, view: View) -> Option<u64>
        ensures { result ≡ certify_token_of self.now view }
    {
        self.round_at(view)?.certify_token()
    }

    /// Returns whether the certification of a tracked view was abandoned, and no verdict came after that.
    pub fn is_certify_aborted(&self, view: View) -> bool
        ensures { result ≡ is_certify_aborted self.now view }
    {
        match self.round_at(view) {
            Some(round) => round.is_certify_aborted(),
            None => false,
        }
    }
}
