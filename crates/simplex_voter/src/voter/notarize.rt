//! This member's votes to notarize.

ghost use Rattle.std.specs.Prelude.{◌≡◌, ◌||◌, ◌≤◌, ◌<◌, IfSome, IfOk, IfErr, OnOk, Err, None, true, option_map};
ghost use Rattle.simplex_types.specs.declared.types.fault.Fault.TheVariants.{OutOfMemory};
ghost use Rattle.simplex_round.specs.Round.{can_notarize};
ghost use Rattle.simplex_voter.specs.Rounds.{largest_tracked};

use super::leaders::before;
use super::state::State;
use simplex_types::types::{
    CertificateScheme, Digest, Elector, Fault, Notarize, Scheme, Subject, View,
};

impl<S: CertificateScheme, L: Elector<S>, D: Digest> State<S, L, D> {
    ghost use Rattle.simplex_voter.specs.Setup.{HasSameSetup};
    ghost use Rattle.simplex_voter.specs.Facts.{round_of};
    ghost use Rattle.simplex_voter.specs.Leaders.{with_next_view_ready};
    ghost use Rattle.simplex_voter.specs.Refusals.{HasFailed, plain_refusal, is_started};
    ghost use Rattle.simplex_voter.specs.Rules.{has_ancestry, may_notarize};
    ghost use Rattle.simplex_voter.specs.Votes.{notarize_answer, signed_proposal, notarize_cast, after_construct_notarize, IsSignedNotarize};

    /// Votes to notarize the held proposal of a view if the rule allows it. The vote is decided, also without a key,
    /// and the next view is prepared as after a proposal. Returns the vote if the scheme has a key. Otherwise nothing
    /// changes, so the vote is cast once.
    ///
    /// The state must have a floor.
    pub fn construct_notarize(&mut self, view: View) -> Result<Option<Notarize<S, D>>, Fault>
    where
        S: Scheme<D>,
        requires { (self.old.failed || is_started self.old) ≡ true }
        ensures refused { IfSome (plain_refusal self.old) (λ fault. (result ≡ Err fault) × (self.new ≡ self.old)) }
        ensures vote { IfOk result
            (λ vote. option_map (λ v. v.proposal) vote ≡ notarize_answer D.eq L.elect self.old view) }
        ensures signed { IfOk result (λ vote. IfSome vote (IsSignedNotarize S.IsSignature self.old)) }
        ensures after { OnOk result (self.new ≡ after_construct_notarize D.eq L.elect self.old view) }
        ensures out_of_memory { plain_refusal self.old ≡ None
            → IfErr result (λ fault. (fault ≡ OutOfMemory) × HasFailed self.old self.new) }
    {
        if self.is_failed() {
            return Err(Fault::Failed);
        }
        if !self.may_notarize(view) {
            return Ok(None);
        }
        match self.cast_notarize(view) {
            Ok(vote) => Ok(vote),
            Err(fault) => {
                self.fail();
                Err(fault)
            }
        }
    }

    /// Decides the vote to notarize a view, prepares the next view, and signs the vote if there is a key.
    fn cast_notarize(&mut self, view: View) -> Result<Option<Notarize<S, D>>, Fault>
    where
        S: Scheme<D>,
        requires may { can_notarize (round_of self.old view) ≡ true }
        requires view { view < largest_tracked }
        ensures cast { OnOk result (self.new ≡ with_next_view_ready L.elect (notarize_cast self.old view) view) }
        ensures vote { IfOk result (λ vote. option_map (λ v. v.proposal) vote ≡ signed_proposal self.old view) }
        ensures signed { IfOk result (λ vote. IfSome vote (IsSignedNotarize S.IsSignature self.old)) }
        ensures refused { IfErr result (λ fault. fault ≡ OutOfMemory) }
        ensures setup { HasSameSetup self.old self.new }
    {
        let held = self.rounds.decide_notarize(view);
        self.prepare_optimistic_successor(view)?;
        let Some(proposal) = held else {
            return Ok(None);
        };
        match self.sign(&Subject::Notarize(proposal)) {
            Ok(Some((signer, signature))) => Ok(Some(Notarize {
                proposal,
                signer,
                signature,
            })),
            Ok(None) => Ok(None),
            Err(fault) => Err(fault),
        }
    }

    /// Returns whether this member may vote to notarize the view: once, so that no other proposal is certified there
    /// too, and only what was verified, on the payload of the parent that it was verified on.
    ///
    /// The view's own facts come first, since its ancestry is looked up along the chain, at each event. The binding is
    /// tested again at the vote: the parent may have been replaced since the proposal was returned for verification.
    #[tactic(auto, unfolding(crate::specs::Rules::may_notarize))]
    pub(super) fn may_notarize(&self, view: View) -> bool
        requires { 1 ≤ self.now.current }
        ensures may { result ≡ may_notarize D.eq L.elect self.now view }
        ensures room { result ≡ true → view < largest_tracked }
    {
        if !self.is_admitted(view) {
            return false;
        }
        // proof only: exposes that the term length is positive
        let _length = self.elector.terms().term_length.get();
        self.can_notarize(view) && self.has_ancestry(view) && self.verification_matches(view)
    }

    /// Returns whether the view's own facts let this member vote to notarize it.
    fn can_notarize(&self, view: View) -> bool
        ensures { result ≡ can_notarize (round_of self.now view) }
    {
        match self.round_at(view) {
            Some(round) => round.can_construct_notarize(),
            None => false,
        }
    }

    /// Returns whether the view before offers a payload, if the view may build on one that is not certified yet: once a
    /// vote below is refused, nothing above it may be voted for.
    ///
    /// It is the rule by which this member builds. A stricter one could lose a vote that is cast once; a looser one
    /// could vote for what builds on a view that its own application refused.
    pub(super) fn has_ancestry(&self, view: View) -> bool
        ensures { result ≡ has_ancestry D.eq L.elect self.now view }
    {
        if !self.in_issuance_window(view) {
            return true;
        }
        self.optimistic_ancestry_payload(before(view)).is_some()
    }
}
