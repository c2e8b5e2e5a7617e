//! This member's votes, each signed exactly where its rule allows.

ghost use Rattle.std.specs.Prelude.{◌≡◌, ◌||◌, ◌≤◌, IfSome, IfOk, IfErr, OnOk, OnSome, Err, None, Some, true, is_some, option_map, if◌then◌else◌};
ghost use Rattle.simplex_types.specs.declared.types.fault.Fault.TheVariants.{OutOfMemory};

use super::candidates::insert_view;
use super::state::State;
use simplex_round::round::Decision;
use simplex_types::reasons::TimeoutReason;
use simplex_types::types::{
    CertificateScheme, Digest, Elector, Fault, Finalize, Nullify, Participant, Scheme, Subject,
    View,
};

impl<S: CertificateScheme, L: Elector<S>, D: Digest> State<S, L, D> {
    ghost use Rattle.simplex_voter.specs.Setup.{HasSameSetup};
    ghost use Rattle.simplex_voter.specs.Facts.{round_of, with_round};
    ghost use Rattle.simplex_voter.specs.Rounds.{largest_tracked};
    ghost use Rattle.simplex_voter.specs.Rules.{may_nullify};
    ghost use Rattle.simplex_voter.specs.Votes.{nullify_answer, nullify_cast, after_construct_nullify, IsSignedNullify};
    ghost use Rattle.simplex_voter.specs.Votes.{finalize_answer, signed_proposal, finalize_cast, after_construct_finalize, IsSignedFinalize};
    ghost use Rattle.simplex_voter.specs.Refusals.{HasFailed, plain_refusal, is_started};
    ghost use Rattle.simplex_types.specs.Signatures.{IsSignedAs};
    ghost use Rattle.std.specs.Ordering.{nat_cmp};
    ghost use Rattle.std.specs.BTreeSet.{insert_key};
    ghost use Rattle.simplex_round.specs.Round.{is_nullify, after_nullify, can_finalize};

    /// Votes to nullify the current view, unless this member voted to finalize it. The decision is set, also without a
    /// key. Returns the vote, and whether it is a repeat, if the scheme has a key. Otherwise nothing changes.
    ///
    /// The reason has no effect. The state must have a floor.
    pub fn construct_nullify(
        &mut self,
        view: View,
        _reason: TimeoutReason,
    ) -> Result<Option<(bool, Nullify<S>)>, Fault>
    where
        S: Scheme<D>,
        requires { (self.old.failed || is_started self.old) ≡ true }
        ensures refused { IfSome (plain_refusal self.old) (λ fault. (result ≡ Err fault) × (self.new ≡ self.old)) }
        ensures vote { IfOk result (λ vote. option_map (λ v. v.0) vote ≡ nullify_answer self.old view) }
        ensures signed { IfOk result (λ vote. IfSome vote (λ v. IsSignedNullify S.IsSignature self.old view v.1)) }
        ensures after { OnOk result (self.new ≡ after_construct_nullify self.old view) }
        ensures out_of_memory { plain_refusal self.old ≡ None
            → IfErr result (λ fault. (fault ≡ OutOfMemory) × HasFailed self.old self.new) }
    {
        if self.is_failed() {
            return Err(Fault::Failed);
        }
        let Some(retry) = self.nullify_retry(view) else {
            return Ok(None);
        };
        match self.cast_nullify(view) {
            Ok(Some(vote)) => Ok(Some((retry, vote))),
            Ok(None) => Ok(None),
            Err(fault) => {
                self.fail();
                Err(fault)
            }
        }
    }

    /// Decides the vote to nullify a view, and signs it if there is a key.
    fn cast_nullify(&mut self, view: View) -> Result<Option<Nullify<S>>, Fault>
    where
        S: Scheme<D>,
        requires first { 1 ≤ view }
        requires in_range { view ≤ largest_tracked }
        ensures cast { OnOk result
            (self.new ≡ nullify_cast (with_round self.old view (after_nullify (round_of self.old view))) view) }
        ensures keyed { IfOk result (λ vote. is_some vote ≡ is_some self.old.me) }
        ensures signed { IfOk result (λ vote. IfSome vote (IsSignedNullify S.IsSignature self.old view)) }
        ensures refused { IfErr result (λ fault. fault ≡ OutOfMemory) }
        ensures setup { HasSameSetup self.old self.new }
    {
        self.rounds.decide_nullify(view)?;
        let subject = Subject::Nullify(self.round_number(view));
        let Some((signer, signature)) = self.sign(&subject)? else {
            return Ok(None);
        };
        self.note_nullify_vote(view)?;
        Ok(Some(Nullify {
            round: self.round_number(view),
            signer,
            signature,
        }))
    }

    /// Signs a vote as this member, if there is a key.
    pub(super) fn sign(
        &self,
        subject: &Subject<D>,
    ) -> Result<Option<(Participant, S::Signature)>, Fault>
    where
        S: Scheme<D>,
        ensures keyed { IfOk result (λ signed. is_some signed ≡ is_some self.now.me) }
        ensures signer { IfOk result (λ signed. IfSome signed (λ s. self.now.me ≡ Some s.0)) }
        ensures signed { IfOk result
            (λ signed. IfSome signed (λ s. IsSignedAs S.IsSignature self.now.me self.now.members subject.now s.1)) }
        ensures refused { IfErr result (λ fault. fault ≡ OutOfMemory) }
    {
        let scheme = self.rounds.scheme();
        let Some(signer) = scheme.me() else {
            return Ok(None);
        };
        let Some(signature) = scheme.sign(self.alloc, subject)? else {
            unreachable!()
        };
        Ok(Some((signer, signature)))
    }

    /// Records that this member voted to nullify a view.
    pub(super) fn note_nullify_vote(&mut self, view: View) -> Result<(), Fault>
        requires { 1 ≤ view }
        ensures noted { OnOk result
            (self.new ≡ record self.old { nullify_votes = insert_key nat_cmp self.old.nullify_votes view }) }
        ensures refused { IfErr result (λ fault. fault ≡ OutOfMemory) }
        ensures setup { HasSameSetup self.old self.new }
    {
        insert_view(&mut self.nullify_votes, view)
    }

    /// Returns whether the vote to nullify the current view was decided before; `None` if it may not be cast. The vote
    /// covers the rest of the term, so it is never for a view below, which may be finalized.
    #[tactic(auto, unfolding(crate::specs::Rules::may_nullify))]
    fn nullify_retry(&self, view: View) -> Option<bool>
        ensures retry { result ≡
            (if may_nullify self.now view then Some (is_nullify (round_of self.now view).decision) else None) }
        ensures current { OnSome result ((view ≡ self.now.current) × (view ≤ largest_tracked)) }
    {
        if view != self.current {
            return None;
        }
        match self.round_at(view) {
            None => Some(false),
            Some(round) => match round.decision() {
                Decision::Pending { .. } => Some(false),
                Decision::Nullify { .. } => Some(true),
                Decision::Finalize => None,
            },
        }
    }

    /// Votes to finalize a view if the rule allows it. The decision is set, also without a key. Returns the vote if the
    /// scheme has a key. Otherwise nothing changes, so the vote is cast once.
    ///
    /// The state must have a floor.
    pub fn construct_finalize(&mut self, view: View) -> Result<Option<Finalize<S, D>>, Fault>
    where
        S: Scheme<D>,
        requires { (self.old.failed || is_started self.old) ≡ true }
        ensures refused { IfSome (plain_refusal self.old) (λ fault. (result ≡ Err fault) × (self.new ≡ self.old)) }
        ensures vote { IfOk result (λ vote. option_map (λ v. v.proposal) vote ≡ finalize_answer L.elect self.old view) }
        ensures signed { IfOk result (λ vote. IfSome vote (IsSignedFinalize S.IsSignature self.old)) }
        ensures after { OnOk result (self.new ≡ after_construct_finalize L.elect self.old view) }
        ensures out_of_memory { plain_refusal self.old ≡ None
            → IfErr result (λ fault. (fault ≡ OutOfMemory) × HasFailed self.old self.new) }
    {
        if self.is_failed() {
            return Err(Fault::Failed);
        }
        if !self.may_finalize(view) {
            return Ok(None);
        }
        match self.cast_finalize(view) {
            Ok(vote) => Ok(vote),
            Err(fault) => {
                self.fail();
                Err(fault)
            }
        }
    }

    /// Decides the vote to finalize a view, and signs it if there is a key.
    fn cast_finalize(&mut self, view: View) -> Result<Option<Finalize<S, D>>, Fault>
    where
        S: Scheme<D>,
        requires { can_finalize (round_of self.old view) ≡ true }
        ensures cast { OnOk result (self.new ≡ finalize_cast self.old view) }
        ensures vote { IfOk result (λ vote. option_map (λ v. v.proposal) vote ≡ signed_proposal self.old view) }
        ensures signed { IfOk result (λ vote. IfSome vote (IsSignedFinalize S.IsSignature self.old)) }
        ensures refused { IfErr result (λ fault. fault ≡ OutOfMemory) }
        ensures setup { HasSameSetup self.old self.new }
    {
        let Some(proposal) = self.rounds.decide_finalize(view) else {
            return Ok(None);
        };
        match self.sign(&Subject::Finalize(proposal)) {
            Ok(Some((signer, signature))) => Ok(Some(Finalize {
                proposal,
                signer,
                signature,
            })),
            Ok(None) => Ok(None),
            Err(fault) => Err(fault),
        }
    }
}
