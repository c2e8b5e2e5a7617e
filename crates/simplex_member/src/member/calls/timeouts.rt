//! The calls on timeouts, each as a method.

ghost use Rattle.std.specs.Prelude.{◌≡◌, Some, IfOk, IfErr};
ghost use Rattle.simplex_member.specs.Calls.{TriggerTimeout, NextTimeout, TimesOut, Triggered};
ghost use Rattle.simplex_member.specs.MemberFacts.{IsCall};
ghost use Rattle.simplex_member.specs.MethodContracts.{result_facts, UnchangedButLifetime, IsAnswered};

use crate::member::life::Member;
use crate::member::refusal::Refusal;
use simplex_types::reasons::TimeoutReason;
use simplex_types::types::{Digest, Elector, Fault, Scheme, View};

impl<S: Scheme<D>, L: Elector<S>, D: Digest> Member<S, L, D> {
    /// Times a view out at its next poll, for a reason that the state doesn't see by itself and at a moment in
    /// milliseconds. Returns whether this timeout is the one that counts from now on. Only the last moment changes if
    /// the view is passed, isn't tracked, has such a timeout, or was voted on, or if a proposal without conflict
    /// contradicts `Inactivity`.
    #[tactic(auto, unfolding(crate::specs::MemberFacts::IsCall))]
    pub fn trigger_timeout(
        &mut self,
        view: View,
        reason: TimeoutReason,
        now: u64,
    ) -> Result<bool, Refusal>
        ensures made { IsCall D.eq L.elect self.old.facts (TriggerTimeout view reason now)
            (result_facts (λ latched. Triggered latched) result) self.new.facts }
        ensures answered { IfOk result
            (λ latched. IsAnswered D.eq L.elect self.old.facts (TriggerTimeout view reason now) (Triggered latched)
            self.new.facts) }
        ensures kept { IfErr result (λ refusal. UnchangedButLifetime self.old.facts refusal self.new.facts) }
        ensures votes { self.new.votes ≡ self.old.votes }
    {
        if self.failed {
            return Err(Refusal::Fault(Fault::Failed));
        }
        Ok(self.state.trigger_timeout(view, reason, now)?)
    }

    /// Returns the moment of the current view's next timeout, in milliseconds, and its reason.
    ///
    /// Returns `NotAllowed` if the current view has no timeout, `TimeOverflow` if the moment of a repeat passes 2^64 -
    /// 1.
    #[tactic(auto, unfolding(crate::specs::MemberFacts::IsCall))]
    pub fn next_timeout(&mut self, now: u64) -> Result<(u64, TimeoutReason), Refusal>
        ensures made { IsCall D.eq L.elect self.old.facts (NextTimeout now)
            (result_facts (λ timeout. TimesOut (Some timeout)) result) self.new.facts }
        ensures answered { IfOk result
            (λ timeout. IsAnswered D.eq L.elect self.old.facts (NextTimeout now) (TimesOut (Some timeout))
            self.new.facts) }
        ensures kept { IfErr result (λ refusal. UnchangedButLifetime self.old.facts refusal self.new.facts) }
        ensures votes { self.new.votes ≡ self.old.votes }
    {
        if self.failed {
            return Err(Refusal::Fault(Fault::Failed));
        }
        if !self.state.has_timeout() {
            return Err(Refusal::NotAllowed);
        }
        match self.state.next_timeout(now) {
            Ok(timeout) => Ok(timeout),
            Err(fault) => Err(Refusal::Fault(fault)),
        }
    }
}
