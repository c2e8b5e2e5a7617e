//! Members whose trace so far keeps the laws, by the code's own steps and replies: a whole run, and a member that
//! continues.

ghost use Rattle.std.specs.Prelude.{◌≡◌, ℕ, IfOk, IfErr, IfSome, length};
ghost use Rattle.simplex_member.specs.Runs.{AreSetUp, EndsRunFrom, steps_of};
ghost use Rattle.simplex_record.specs.Start.{start_facts};
ghost use Rattle.laws_safety.specs.ExactVotes.{SignsExactly};
ghost use Rattle.laws_safety.specs.MemberHistory.{execution_of};
ghost use Rattle.laws_safety.specs.Lawful.{IsLawful};
ghost use Rattle.laws_safety.specs.ObservedTraces.{shown_trace, AllStartAs};
ghost use Rattle.laws_safety.specs.Executions.{trace_of, IsExecution};

use simplex_member::member::{Call, Member, RecoverError, Reply, Restart, Start, Step, run};
use simplex_types::types::{CertificateScheme, Digest, Elector, Scheme};
use std::alloc::Global;
use std::marker::Model;

/// Starts a member and takes the steps in order, as `run` does: what it accepted and signed keeps the laws.
///
/// - `exact`: the reply to each request for a vote is exactly by its rule, and no other call returns a vote.
/// - `ran`: if each lifetime has terms of one length, not 0, and signs as member `i` or not at all, `AllStartAs`, this
///   is what member `i` of a network does, so `agreement` applies to it.
/// - `shows`: its trace is what the steps and the replies show. These are each certificate that a call passes in and
///   whose reply says whether it is new, the floor's finalization of the start and of each restart that succeeds, and
///   each vote in a reply.
/// - `lawful`: they keep the voting rules, over all its lifetimes.
/// - `ended`: it ends early as `run` does, with the error of a refused start or restart, or with `OutOfMemory`.
pub fn run_lawfully<S: Scheme<D>, L: Elector<S>, D: Digest>(
    alloc: Global,
    start: Start<S, L, D>,
    steps: Vec<Step<S, L, D>>,
) -> Result<Vec<Reply<S, D>>, RecoverError>
    requires started { L.members start.settings.elector ≡ length (S.participants start.settings.scheme) }
    requires restarted { AreSetUp S.participants L.members steps.items }
    ensures exact { IfOk result (λ replies.
        SignsExactly D.eq L.elect
        (execution_of S.me S.participants L.terms L.elects_early S.certificate_bytes start steps.items replies.items)) }
    ensures ran { IfOk result (λ replies. (term_length i : ℕ) → AllStartAs S.me L.terms term_length i start steps.items
        → IsExecution D.eq L.elect term_length i
        (execution_of S.me S.participants L.terms L.elects_early S.certificate_bytes start steps.items replies.items)) }
    ensures shows { IfOk result (λ replies.
        trace_of (execution_of S.me S.participants L.terms L.elects_early S.certificate_bytes start
        steps.items replies.items)
        ≡ shown_trace start steps.items replies.items) }
    ensures lawful { IfOk result
        (λ replies. (term_length i : ℕ) → AllStartAs S.me L.terms term_length i start steps.items
        → IsLawful term_length (shown_trace start steps.items replies.items)) }
    ensures ended { IfErr result (EndsRunFrom D.eq L.elect
        (start_facts S.me S.participants L.terms L.elects_early S.certificate_bytes start)
        (steps_of S.me S.participants L.terms L.elects_early S.certificate_bytes steps.items)) }
{
    run(alloc, start, steps)
}

/// A member for a host, with the law of its votes at each moment.
///
/// `HasHistory` says what its trace is so far, and as which member of a network. `start` begins the list, and `resume`
/// continues that of an ended member. Each method states what it adds, read off its arguments and its reply, and
/// `keeps_the_laws` states what holds of the whole.
#[derive(Drop)]
pub struct LawfulMember<S: CertificateScheme, L: Elector<S>, D: Digest> {
    pub(super) member: Member<S, L, D>,
}

impl<S: CertificateScheme, L: Elector<S>, D: Digest> Model for LawfulMember<S, L, D> {
    ghost use Rattle.simplex_member.specs.MemberFacts.{SignedMember};

    ghost Value = { SignedMember S.PublicKey L D S.Signature };

    ghost view = { λ m. m.member };
}

impl<S: Scheme<D>, L: Elector<S>, D: Digest> LawfulMember<S, L, D> {
    ghost use Rattle.std.specs.Prelude.{[], ◌++◌, true};
    ghost use Rattle.simplex_types.specs.Config.{floor_facts};
    ghost use Rattle.simplex_member.specs.Calls.{reply_facts, asked};
    ghost use Rattle.simplex_member.specs.Journal.{stored_of};
    ghost use Rattle.simplex_member.specs.MemberFacts.{IsCall, HasGrown};
    ghost use Rattle.simplex_member.specs.MethodContracts.{is_reply_to};
    ghost use Rattle.simplex_member.specs.Runs.{Calls};
    ghost use Rattle.simplex_member.specs.ReplySignatures.{IsSignedReply, signed_reply};
    ghost use Rattle.simplex_record.specs.Recovery.{recover_error};
    ghost use Rattle.simplex_member.specs.PrunedRecord.{pruned_member, votes_within};
    ghost use Rattle.simplex_member.specs.Restarts.{restart_facts, votes_left, IsRestart};
    ghost use Rattle.simplex_record.specs.Start.{set_up, IsErrorDue};
    ghost use Rattle.simplex_member.specs.Start.{started_member};
    ghost use Rattle.laws_safety.specs.ExactVotes.{ExactAt};
    ghost use Rattle.laws_safety.specs.MemberHistory.{ExtendsHistory, MayBeHistoryOf, OfEachHistory, HasStarted, HasRestarted};
    ghost use Rattle.laws_safety.specs.RecordsOnce.{HoldsEachEntryOnce};
    ghost use Rattle.laws_safety.specs.ObservedTraces.{votes_in, taken_by};

    /// Starts a member at a floor, as `Member::start` does, with the same errors.
    ///
    /// The elector's members must be the scheme's participants. Returns `OtherEpoch`, `ZeroView` or `ViewTooLarge` if
    /// the floor's finalization is of another epoch or of view 0, or names a view above 2^63 - 1; `TimeOverflow` if a
    /// deadline passes 2^64 - 1 milliseconds; `OutOfMemory`.
    /// - `begins`: it has accepted the floor's finalization, if there is one, and done nothing else.
    pub fn start(
        alloc: Global,
        start: Start<S, L, D>,
    ) -> Result<LawfulMember<S, L, D>, RecoverError>
        requires { L.members start.settings.elector ≡ length (S.participants start.settings.scheme) }
        ensures started { IfOk result (λ member. member.facts ≡ started_member D.eq L.elect
            (set_up S.me S.participants L.terms L.elects_early start.settings)
            (floor_facts S.certificate_bytes start.floor) start.now) }
        ensures votes { IfOk result (λ member. member.votes ≡ []) }
        ensures refused { IfErr result (IsErrorDue (recover_error D.eq
            (set_up S.me S.participants L.terms L.elects_early start.settings)
            (floor_facts S.certificate_bytes start.floor) start.now [])) }
        ensures begins { IfOk result (λ member. HasStarted D.eq L.elect S.me L.terms start member.facts) }
    {
        Ok(LawfulMember {
            member: Member::start(alloc, start)?,
        })
    }

    /// Makes a call of the state, as `Member::call` does.
    ///
    /// - `answered`: it returns the call's reply; or it is refused, or not allowed, and then nothing is changed except
    ///   that a member out of memory may have failed.
    /// - `signed`: a returned vote is signed on exactly its subject, under the member's key.
    /// - `votes`: the record holds each returned vote, with the very signature that is returned.
    /// - `grown`: the record is as it was, with more after it.
    /// - `stored`: what a journal stores beside the record stays.
    /// - `exact`: the reply to a request for a vote is exactly by its rule, and no other call returns a vote.
    /// - `continues`: what the member has done grows by the accepted certificate and the returned vote.
    pub fn call(&mut self, call: Call<S, D>) -> Reply<S, D>
        ensures of_its_kind { is_reply_to (reply_facts S.certificate_bytes result)
            (asked S.certificate_bytes call) ≡ true }
        ensures answered { IsCall D.eq L.elect self.old.facts (asked S.certificate_bytes call)
            (reply_facts S.certificate_bytes result) self.new.facts }
        ensures signed { IfSome self.old.facts.life (IsSignedReply S.IsSignature result) }
        ensures votes { self.new.votes ≡ self.old.votes ++ signed_reply result }
        ensures grown { HasGrown self.old.facts self.new.facts }
        ensures stored { stored_of self.new.facts ≡ stored_of self.old.facts }
        ensures exact { ExactAt D.eq L.elect self.old.facts.life (Calls (asked S.certificate_bytes call))
            (reply_facts S.certificate_bytes result) }
        ensures continues { ExtendsHistory D.eq L.elect self.old.facts
            (taken_by call result ++ votes_in result) self.new.facts }
    {
        self.member.call(call)
    }

    /// Prunes the record within the lifetime, as `Member::prune_record` does.
    ///
    /// - `continues`: what the member has done stays, also what is removed from its record.
    pub fn prune_record(&mut self)
        ensures pruned { self.new.facts ≡ pruned_member self.old.facts }
        ensures votes { self.new.votes ≡ votes_within self.old.facts self.old.votes }
        ensures continues { ExtendsHistory D.eq L.elect self.old.facts [] self.new.facts }
    {
        self.member.prune_record()
    }

    /// Begins another lifetime from what is left of the record, as `Member::restart` does, or is refused with its
    /// errors.
    ///
    /// The elector's members must be the scheme's participants.
    /// - `continues`: in terms of the same length and with the key of the same member or none, what the member has done
    ///   stays, also what is dropped from its record or pruned; if the restart succeeds the floor's finalization is
    ///   accepted too.
    pub fn restart(&mut self, restart: Restart<S, L, D>) -> Result<(), RecoverError>
        requires { L.members restart.start.settings.elector ≡ length (S.participants restart.start.settings.scheme) }
        ensures restarted { IsRestart D.eq L.elect self.old.facts
            (restart_facts S.me S.participants L.terms L.elects_early S.certificate_bytes restart)
            result self.new.facts }
        ensures votes { self.new.votes
            ≡ votes_left self.old.facts
            (restart_facts S.me S.participants L.terms L.elects_early S.certificate_bytes restart) self.old.votes }
        ensures continues { HasRestarted D.eq L.elect S.me L.terms self.old.facts restart.start result self.new.facts }
    {
        self.member.restart(restart)
    }

    /// The laws of all that the member has done so far. The function does nothing: its contract is the law.
    ///
    /// - `lawful`: its trace keeps the voting rules, over all its lifetimes.
    /// - `ran`: a network of `agreement` may have it as member `i`.
    /// - `once`: its record holds each entry once, and of each view at most seven.
    pub fn keeps_the_laws(&self)
        ensures lawful { OfEachHistory D.eq L.elect self.now.facts (λ term_length i all. IsLawful term_length all) }
        ensures ran { OfEachHistory D.eq L.elect self.now.facts (MayBeHistoryOf S.PublicKey D.eq L.elect) }
        ensures once { OfEachHistory D.eq L.elect self.now.facts
            (λ term_length i all. HoldsEachEntryOnce self.now.facts) }
    {}
}
