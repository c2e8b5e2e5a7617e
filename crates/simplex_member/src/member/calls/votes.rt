//! The calls for votes, each as a method.

ghost use Rattle.std.specs.Prelude.{◌++◌, ◌≡◌, IsNone, IfOk, IfErr, IfSome, OnErr};
ghost use Rattle.simplex_member.specs.Calls.{ConstructNotarize, ConstructNullify, ConstructFinalize, reply_notarize, reply_nullify, reply_finalize};
ghost use Rattle.simplex_member.specs.Calls as calls;
ghost use Rattle.simplex_member.specs.MemberFacts.{IsCall};
ghost use Rattle.simplex_member.specs.CallSemantics.{unrepeated_vote, vote_entry};
ghost use Rattle.simplex_member.specs.ReplySignatures.{IsSignedReply, signed_notarize, signed_nullify, signed_finalize};
ghost use Rattle.simplex_member.specs.MethodContracts.{result_facts, UnchangedButLifetime, IsAnswered, HasNotarizeVote, HasNullifyVote, HasFinalizeVote};
ghost use Rattle.simplex_member.specs.declared.member.calls.Reply.TheVariants as reply;

use crate::member::life::Member;
use crate::member::refusal::{Refusal, is_lost};
use crate::member::votes::{store_finalize, store_notarize, store_nullify};
use simplex_types::reasons::TimeoutReason;
use simplex_types::types::{Digest, Elector, Fault, Finalize, Notarize, Nullify, Scheme, View};

impl<S: Scheme<D>, L: Elector<S>, D: Digest> Member<S, L, D> {
    /// Returns the vote to notarize the held proposal of a view, if the rule allows it. The vote is recorded before it
    /// is returned, and returned once.
    ///
    /// Returns `OutOfMemory`: no vote is returned that the record doesn't hold.
    #[tactic(auto, unfolding(crate::specs::MemberFacts::IsCall))]
    pub fn construct_notarize(&mut self, view: View) -> Result<Option<Notarize<S, D>>, Refusal>
        ensures made { IsCall D.eq L.elect self.old.facts (ConstructNotarize view)
            (result_facts (λ vote. calls.Notarize (reply_notarize vote)) result) self.new.facts }
        ensures answered { IfOk result (λ vote. IsAnswered D.eq L.elect self.old.facts (ConstructNotarize view)
            (calls.Notarize (reply_notarize vote)) self.new.facts) }
        ensures kept { IfErr result (λ refusal. UnchangedButLifetime self.old.facts refusal self.new.facts) }
        ensures signed { IfOk result
            (λ vote. IfSome self.old.facts.life (IsSignedReply S.IsSignature (reply.Notarize vote))) }
        ensures recorded { IfOk result
            (λ vote. self.new.facts.entries ≡ self.old.facts.entries ++ vote_entry (reply_notarize vote)) }
        ensures votes { IfOk result (λ vote. self.new.votes ≡ self.old.votes ++ signed_notarize vote) }
        ensures same_votes { OnErr result (self.new.votes ≡ self.old.votes) }
        ensures decided { IfOk result (λ vote. IfSome vote (λ _. HasNotarizeVote self.new.facts view)) }
        ensures once { HasNotarizeVote self.old.facts view → IfOk result (λ vote. IsNone vote) }
    {
        if self.failed {
            return Err(Refusal::Fault(Fault::Failed));
        }
        self.artifacts.reserve(1)?;
        let made = self.state.construct_notarize(view);
        let kept = store_notarize(self.alloc, &mut self.artifacts, made);
        self.failed = is_lost(&kept);
        kept.map_err(Refusal::Fault)
    }

    /// Returns the vote to nullify the current view, unless this member voted to finalize it, and whether it is a
    /// repeat. The vote is recorded before it is first returned. The reason has no effect.
    ///
    /// Returns `OutOfMemory`: no vote is returned that the record doesn't hold.
    #[tactic(auto, unfolding(crate::specs::MemberFacts::IsCall))]
    pub fn construct_nullify(
        &mut self,
        view: View,
        reason: TimeoutReason,
    ) -> Result<Option<(bool, Nullify<S>)>, Refusal>
        ensures made { IsCall D.eq L.elect self.old.facts (ConstructNullify view)
            (result_facts (λ vote. calls.Nullify (reply_nullify vote)) result) self.new.facts }
        ensures answered { IfOk result (λ vote. IsAnswered D.eq L.elect self.old.facts (ConstructNullify view)
            (calls.Nullify (reply_nullify vote)) self.new.facts) }
        ensures kept { IfErr result (λ refusal. UnchangedButLifetime self.old.facts refusal self.new.facts) }
        ensures signed { IfOk result
            (λ vote. IfSome self.old.facts.life (IsSignedReply S.IsSignature (reply.Nullify vote))) }
        ensures recorded { IfOk result
            (λ vote. self.new.facts.entries ≡ self.old.facts.entries ++ unrepeated_vote (reply_nullify vote)) }
        ensures votes { IfOk result (λ vote. self.new.votes ≡ self.old.votes ++ signed_nullify vote) }
        ensures same_votes { OnErr result (self.new.votes ≡ self.old.votes) }
        ensures decided { IfOk result (λ vote. IfSome vote (λ _. HasNullifyVote self.new.facts view)) }
        ensures barred { HasFinalizeVote self.old.facts view → IfOk result (λ vote. IsNone vote) }
    {
        if self.failed {
            return Err(Refusal::Fault(Fault::Failed));
        }
        self.artifacts.reserve(1)?;
        let made = self.state.construct_nullify(view, reason);
        let kept = store_nullify(self.alloc, &mut self.artifacts, made);
        self.failed = is_lost(&kept);
        kept.map_err(Refusal::Fault)
    }

    /// Returns the vote to finalize a certified view, if the rule allows it. The vote is recorded before it is
    /// returned, and returned once.
    ///
    /// Returns `OutOfMemory`: no vote is returned that the record doesn't hold.
    #[tactic(auto, unfolding(crate::specs::MemberFacts::IsCall))]
    pub fn construct_finalize(&mut self, view: View) -> Result<Option<Finalize<S, D>>, Refusal>
        ensures made { IsCall D.eq L.elect self.old.facts (ConstructFinalize view)
            (result_facts (λ vote. calls.Finalize (reply_finalize vote)) result) self.new.facts }
        ensures answered { IfOk result (λ vote. IsAnswered D.eq L.elect self.old.facts (ConstructFinalize view)
            (calls.Finalize (reply_finalize vote)) self.new.facts) }
        ensures kept { IfErr result (λ refusal. UnchangedButLifetime self.old.facts refusal self.new.facts) }
        ensures signed { IfOk result
            (λ vote. IfSome self.old.facts.life (IsSignedReply S.IsSignature (reply.Finalize vote))) }
        ensures recorded { IfOk result
            (λ vote. self.new.facts.entries ≡ self.old.facts.entries ++ vote_entry (reply_finalize vote)) }
        ensures votes { IfOk result (λ vote. self.new.votes ≡ self.old.votes ++ signed_finalize vote) }
        ensures same_votes { OnErr result (self.new.votes ≡ self.old.votes) }
        ensures decided { IfOk result (λ vote. IfSome vote (λ _. HasFinalizeVote self.new.facts view)) }
        ensures once { HasFinalizeVote self.old.facts view → IfOk result (λ vote. IsNone vote) }
        ensures barred { HasNullifyVote self.old.facts view → IfOk result (λ vote. IsNone vote) }
    {
        if self.failed {
            return Err(Refusal::Fault(Fault::Failed));
        }
        self.artifacts.reserve(1)?;
        let made = self.state.construct_finalize(view);
        let kept = store_finalize(self.alloc, &mut self.artifacts, made);
        self.failed = is_lost(&kept);
        kept.map_err(Refusal::Fault)
    }
}
