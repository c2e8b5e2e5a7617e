//! A lawful member whose record is stored before any vote that it records is sent.
//!
//! It guarantees:
//!
//! - a journal that carries its outputs out holds the member's record;
//! - each vote comes after its entry;
//! - exactly what the member accepts as final is reported, at rising views.
#![tactic(auto, using(crate::proofs::Continuity::stays))]

ghost use Rattle.std.specs.Prelude.{◌≡◌, ◌++◌, ◌∷◌, [], true, false, All, Contains, Some, None, IfOk, IfSome, OnOk, OnErr, IsNone, IsTrue, ◌↔◌, option_to_list};
ghost use Rattle.std.specs.Option.{option_copied};
ghost use Rattle.simplex_types.specs.Certificates.{certificate_facts};
ghost use Rattle.simplex_types.specs.Encoding.{certificate_subject};
ghost use Rattle.laws_safety.specs.Traces.{Accepts};
ghost use Rattle.laws_safety.specs.ObservedTraces.{certificates_in};
ghost use Rattle.simplex_member.specs.Calls.{asked};
ghost use Rattle.engine_outbox.specs.CertificateCalls.{certificate_call};
ghost use Rattle.engine_outbox.specs.SubjectActions.{IsActionOn, final_by};
ghost use Rattle.engine_outbox.specs.Finalizations.{finals_by};
ghost use Rattle.engine_outbox.specs.declared.output.Output.TheVariants as output;
ghost use Rattle.engine_outbox.specs.Resumes.{EachResumeContinues};

mod reach;

use crate::outbox::Outbox;
use crate::output::{Output, Work};
use lawful_member::lawful::LawfulMember;
use reach::lowest_of;
use simplex_member::member::{Call, Reply, Stored};
use simplex_types::types::{
    Artifact, Certificate, CertificateScheme, Digest, Elector, Proposal, Scheme, View,
};
use simplex_voter::voter::State;
use std::alloc::{AllocError, Global};

/// A member, and the outputs of its lifetime that the host must still carry out.
///
/// `IsJournaled` says which outputs were returned so far, in order. `begin` begins that list, each call preserves it by
/// its clause `continues`, and `next` appends what it returns. `keeps_the_laws` states what is true of the whole list.
/// `Continues` also says what the member has done in a call: votes, and the acceptance of a passed certificate, which
/// is reported as final if it is a finalization.
#[derive(Drop)]
pub struct Journaled<S: CertificateScheme, L: Elector<S>, D: Digest> {
    member: LawfulMember<S, L, D>,
    outbox: Outbox<S, D, Stored>,
    /// How many entries of the record are queued to be stored, or were.
    stored: usize,
    /// The lowest view of these; 2^64 - 1 if there are none.
    reach: View,
    /// Some of what was done can no longer be reported, and nothing more is returned.
    failed: bool,
}

impl<S: Scheme<D>, L: Elector<S>, D: Digest> Journaled<S, L, D> {
    ghost use Rattle.simplex_voter.specs.Refusals.{is_started};
    ghost use Rattle.simplex_member.specs.Calls.{reply_facts};
    ghost use Rattle.simplex_member.specs.MemberFacts.{IsCall};
    ghost use Rattle.simplex_record.specs.Entries.{entries_of};
    ghost use Rattle.simplex_record.specs.Votes.{votes_of};
    ghost use Rattle.laws_safety.specs.Lawful.{IsLawful};
    ghost use Rattle.laws_safety.specs.MemberHistory.{OfEachHistory, MayBeHistoryOf};
    ghost use Rattle.laws_safety.specs.RecordsOnce.{HoldsEachEntryOnce};
    ghost use Rattle.simplex_member.specs.Journal.{stored_of};
    ghost use Rattle.simplex_member.specs.OutstandingWork.{is_offered};
    ghost use Rattle.simplex_member.specs.PrunedRecord.{pruned_member};
    ghost use Rattle.engine_outbox.specs.Outputs.{AreBehind};
    ghost use Rattle.engine_outbox.specs.Outboxes.{HasRoom, IsRepeated, QueuesNoWork};
    ghost use Rattle.engine_outbox.specs.Finalizations.{finals_in, WereAccepted, RiseByView, EndsAt, ReportsNoMore};
    ghost use Rattle.engine_outbox.specs.Journals.{journal_of, IsRecordOf, BeginsWith};
    ghost use Rattle.engine_outbox.specs.Continuity.{IsJournaled, IsTraced, BeginsTraced, EmitsTraced, IsWhole, StoresRecord, Continues, ReportsNothing, IsUnchanged, IsUnpruned, has_failed};
    ghost use Rattle.engine_outbox.specs.EmittedVotes.{AllAreReturned};
    ghost use Rattle.engine_outbox.specs.HostStops.{EachStopIsLawful};
    ghost use Rattle.engine_outbox.specs.Signatures.{AreSigned, IsSignedBy, StaysSigned, BeginsSigned, EmitsSigned};
    ghost use Rattle.engine_outbox.specs.Refusals.{is_refused, says_nothing, IsLeftByCall};

    /// Begins a lifetime: the whole record is to be stored in place of all that is stored, before anything else. What
    /// is final already is never reported.
    ///
    /// - `kept`: nothing was returned.
    /// - `whole`: all of the record is queued.
    /// - `reported`: no proposal is queued to be reported as final.
    /// - `begins`: nothing else is queued.
    /// - `traced`: what the member has done before traces it, if each vote of its record was signed by then
    ///   (`IsTraced`).
    /// - `signed`: the stored votes are signed under the member's key, if those of its record are (`IsSignedBy`).
    pub fn begin(
        alloc: Global,
        member: LawfulMember<S, L, D>,
    ) -> Result<Journaled<S, L, D>, AllocError>
        ensures kept { IfOk result (IsJournaled S.certificate_bytes []) }
        ensures traced { IfOk result (BeginsTraced D.eq L.elect S.certificate_bytes member) }
        ensures signed { IfOk result (BeginsSigned S.IsSignature member) }
        ensures whole { IfOk result (λ j. IsWhole S.certificate_bytes j) }
        ensures reported { IfOk result ReportsNothing }
        ensures member { IfOk result (λ j. j.member ≡ member) }
        ensures begins { IfOk result (λ j. BeginsWith S.certificate_bytes member j.outbox.queue.items) }
    {
        let mut outbox = Outbox::new(alloc, last_finalized(&member));
        outbox.replace(member.record(), member.stored())?;
        let stored = member.record().len();
        let reach = lowest_of(View::new(u64::MAX), member.record());
        Ok(Journaled {
            member,
            outbox,
            stored,
            reach,
            failed: false,
        })
    }

    /// Makes a call of the member; pass certificates by `submit`. `store` queues what the call records.
    ///
    /// - `continues`: the member accepts no certificate but the one that the call passes, if that is no finalization.
    /// - `quiet`: a call that passes none accepts none.
    /// - `answered`: as of `LawfulMember::call`.
    /// - `refused`: a call that is refused, and not because of memory, changes nothing.
    /// - `dropped`: what an ignored call changes.
    /// - `signed`: the stored votes stay signed under the member's key.
    pub fn call(&mut self, call: Call<S, D>) -> Reply<S, D>
        ensures continues { (taken : _) → All (IsActionOn taken) (certificates_in call)
            → finals_by (certificates_in call) ≡ []
            → Continues D.eq L.elect S.certificate_bytes S.IsSignature taken self.old self.new }
        ensures signed { StaysSigned S.IsSignature self.old self.new }
        ensures quiet { certificates_in call ≡ []
            → Continues D.eq L.elect S.certificate_bytes S.IsSignature None self.old self.new }
        ensures answered { IsCall D.eq L.elect self.old.member.facts (asked S.certificate_bytes call)
            (reply_facts S.certificate_bytes result) self.new.member.facts }
        ensures refused { IsTrue (is_refused (reply_facts S.certificate_bytes result))
            → self.new.member.facts ≡ self.old.member.facts }
        ensures dropped { IsTrue (says_nothing (reply_facts S.certificate_bytes result))
            → IsLeftByCall (asked S.certificate_bytes call) self.old.member.facts self.new.member.facts }
        ensures outbox { self.new.outbox ≡ self.old.outbox }
    {
        // proof only: the contract of `record` says that the member's votes are those of its entries
        let _record = self.member.record();
        self.member.call(call)
    }

    /// Passes a certificate to the member. Without memory nothing has changed.
    ///
    /// - `continues`: the member accepts no certificate but this one; a finalization that it accepts is reported as
    ///   final, if its view is above all reported views.
    /// - `answered`, `refused`: as of `call`.
    /// - `no_work`: no work is queued.
    /// - `signed`: the stored votes stay signed under the member's key.
    pub fn submit(
        &mut self,
        certificate: Certificate<S, D>,
        now: u64,
    ) -> Result<Reply<S, D>, AllocError>
        ensures continues { Continues D.eq L.elect S.certificate_bytes S.IsSignature
            (Some (certificate_subject (certificate_facts S.certificate_bytes certificate))) self.old self.new }
        ensures signed { StaysSigned S.IsSignature self.old self.new }
        ensures answered { IfOk result (λ reply. IsCall D.eq L.elect self.old.member.facts
            (certificate_call (certificate_facts S.certificate_bytes certificate) now)
            (reply_facts S.certificate_bytes reply)
            self.new.member.facts) }
        ensures refused { IfOk result (λ reply. IsTrue (is_refused (reply_facts S.certificate_bytes reply))
            → self.new.member.facts ≡ self.old.member.facts) }
        ensures unchanged { OnErr result (IsUnchanged self.old self.new) }
        ensures no_work { QueuesNoWork self.old.outbox self.new.outbox }
    {
        match self.outbox.make_room() {
            Ok(()) => Ok(self.take(certificate, now)),
            Err(refused) => Err(refused),
        }
    }

    /// Passes a certificate to the member, and reports the proposal that it finalizes as final, if it is accepted.
    fn take(&mut self, certificate: Certificate<S, D>, now: u64) -> Reply<S, D>
        requires { HasRoom self.old.outbox }
        ensures continues { Continues D.eq L.elect S.certificate_bytes S.IsSignature
            (Some (certificate_subject (certificate_facts S.certificate_bytes certificate))) self.old self.new }
        ensures signed { StaysSigned S.IsSignature self.old self.new }
        ensures answered { IsCall D.eq L.elect self.old.member.facts
            (certificate_call (certificate_facts S.certificate_bytes certificate) now)
            (reply_facts S.certificate_bytes result)
            self.new.member.facts }
        ensures refused { IsTrue (is_refused (reply_facts S.certificate_bytes result))
            → self.new.member.facts ≡ self.old.member.facts }
        ensures no_work { QueuesNoWork self.old.outbox self.new.outbox }
    {
        // proof only: the contract of `record` says that the member's votes are those of its entries
        let _record = self.member.record();
        let finalized = finalized_by(&certificate);
        let reply = self.member.call(call_with_certificate(certificate, now));
        self.outbox.tell(final_by(finalized, &reply));
        reply
    }

    /// Queues the new entries of the record, and after them each vote in them. Without memory nothing has changed.
    ///
    /// - `whole`, `holds`: all of the record is queued, or was; so a journal that carries it out holds the record.
    /// - `no_work`: as of `submit`.
    /// - `signed`: the stored votes stay signed under the member's key.
    pub fn store(&mut self) -> Result<(), AllocError>
        ensures continues { Continues D.eq L.elect S.certificate_bytes S.IsSignature None self.old self.new }
        ensures signed { StaysSigned S.IsSignature self.old self.new }
        ensures whole { OnOk result (IsWhole S.certificate_bytes self.new) }
        ensures holds { OnOk result (StoresRecord S.certificate_bytes self.new) }
        ensures member { self.new.member ≡ self.old.member }
        ensures unchanged { OnErr result (IsUnchanged self.old self.new) }
        ensures no_work { QueuesNoWork self.old.outbox self.new.outbox }
    {
        let count = self.member.record().len();
        if count <= self.stored {
            return Ok(());
        }
        let reach = lowest_of(self.reach, self.member.record_since(self.stored));
        self.outbox.store(self.member.record_since(self.stored))?;
        self.stored = count;
        self.reach = reach;
        Ok(())
    }

    /// Prunes the record, after the state's own prune, and queues what is left in place of all that is stored. Before
    /// that it queues the new entries of the record, since no vote is sent by a record that is replaced.
    ///
    /// - `whole`: all of the record is queued.
    /// - `waiting`: what the member waits for is the same.
    /// - `pruned`: the record is pruned, as by `Member::prune_record`, and nothing else of the member has changed.
    /// - `unpruned`: without memory nothing has changed, or it is so pruned and has failed: what is stored is no longer
    ///   the record.
    /// - `no_work`: as of `submit`.
    /// - `signed`: the stored votes stay signed under the member's key.
    pub fn prune_record(&mut self) -> Result<(), AllocError>
        ensures continues { Continues D.eq L.elect S.certificate_bytes S.IsSignature None self.old self.new }
        ensures signed { StaysSigned S.IsSignature self.old self.new }
        ensures waiting { self.new.member.facts.outstanding_work ≡ self.old.member.facts.outstanding_work }
        ensures whole { OnOk result (IsWhole S.certificate_bytes self.new) }
        ensures pruned { OnOk result (self.new.member.facts ≡ pruned_member self.old.member.facts) }
        ensures unpruned { OnErr result (IsUnpruned self.old self.new) }
        ensures no_work { QueuesNoWork self.old.outbox self.new.outbox }
    {
        self.store()?;
        self.replace()
    }

    /// Prunes the record, of which all is queued to be stored or was, and queues what is left in place of all that is
    /// stored.
    fn replace(&mut self) -> Result<(), AllocError>
        requires { StoresRecord S.certificate_bytes self.old }
        ensures continues { Continues D.eq L.elect S.certificate_bytes S.IsSignature None self.old self.new }
        ensures signed { StaysSigned S.IsSignature self.old self.new }
        ensures whole { OnOk result (IsWhole S.certificate_bytes self.new) }
        ensures pruned { self.new.member.facts ≡ pruned_member self.old.member.facts }
        ensures failed { OnErr result (self.new.failed ≡ true) }
        ensures no_work { QueuesNoWork self.old.outbox self.new.outbox }
    {
        self.member.prune_record();
        self.stored = self.member.record().len();
        self.reach = lowest_of(View::new(u64::MAX), self.member.record());
        match self
            .outbox
            .replace(self.member.record(), self.member.stored())
        {
            Ok(()) => Ok(()),
            Err(refused) => {
                self.failed = true;
                Err(refused)
            }
        }
    }

    /// Queues other work, after all that is queued. Without memory nothing has changed.
    ///
    /// - `signed`: the stored votes stay signed under the member's key.
    pub fn push(&mut self, work: Work<S, D>) -> Result<(), AllocError>
        ensures continues { Continues D.eq L.elect S.certificate_bytes S.IsSignature None self.old self.new }
        ensures signed { StaysSigned S.IsSignature self.old self.new }
        ensures member { self.new.member ≡ self.old.member }
        ensures queued { OnOk result
            (self.new.outbox.queue.items ≡ self.old.outbox.queue.items ++ output.Work work ∷ []) }
        ensures unchanged { OnErr result (IsUnchanged self.old self.new) }
    {
        self.outbox.push(work)
    }

    /// Queues the newest stored vote to nullify once more, if it is one of the view. Returns whether it is.
    ///
    /// - `signed`: the stored votes stay signed under the member's key.
    pub fn repeat(&mut self, view: View) -> Result<bool, AllocError>
        ensures continues { Continues D.eq L.elect S.certificate_bytes S.IsSignature None self.old self.new }
        ensures signed { StaysSigned S.IsSignature self.old self.new }
        ensures member { self.new.member ≡ self.old.member }
        ensures repeated { IfOk result
            (λ sent. IsRepeated view self.old.outbox.repeat sent self.old.outbox self.new.outbox) }
        ensures unchanged { OnErr result (IsUnchanged self.old self.new) }
    {
        self.outbox.repeat(view)
    }

    /// Returns the next output to carry out.
    ///
    /// - `kept`: the returned output is appended to the list of outputs.
    /// - `reported`: no other proposal is queued to be reported as final.
    /// - `front`: the output was the first in the queue.
    /// - `traced`, `signed`: the list stays traced, and the stored votes stay signed under the member's key.
    pub fn next(&mut self) -> Option<Output<S, D, Stored>>
        ensures kept { (given : _) → IsJournaled S.certificate_bytes given self.old
            → IsJournaled S.certificate_bytes (given ++ option_to_list result) self.new }
        ensures traced { EmitsTraced D.eq L.elect S.certificate_bytes (option_to_list result) self.old self.new }
        ensures signed { EmitsSigned S.IsSignature (option_to_list result) self.old self.new }
        ensures reported { ReportsNoMore (option_to_list result) self.old.outbox self.new.outbox }
        ensures front { self.old.outbox.queue.items ≡ option_to_list result ++ self.new.outbox.queue.items }
        ensures none { IsNone result → self.new.outbox.queue.items ≡ [] }
        ensures same { (self.new.member ≡ self.old.member) × (self.new.stored ≡ self.old.stored)
            × (self.new.reach ≡ self.old.reach)
            × (self.new.failed ≡ self.old.failed) }
    {
        self.outbox.next()
    }

    /// Returns whether nothing is queued.
    pub fn is_idle(&self) -> bool
        ensures { IsTrue result ↔ (self.now.outbox.queue.items ≡ []) }
    {
        self.outbox.is_empty()
    }

    /// Fails: nothing more is returned.
    ///
    /// - `signed`: the stored votes stay signed under the member's key.
    pub fn fail(&mut self)
        ensures continues { Continues D.eq L.elect S.certificate_bytes S.IsSignature None self.old self.new }
        ensures signed { StaysSigned S.IsSignature self.old self.new }
        ensures failed { self.new ≡ record self.old { failed = true } }
    {
        self.failed = true;
    }

    /// Returns whether it failed, or the member did.
    pub fn has_failed(&self) -> bool
        ensures { result ≡ has_failed self.now }
    {
        self.failed || self.member.state().is_none()
    }

    /// Returns the member's state, while it has not failed: the state has a floor, and has not failed either.
    pub fn state(&self) -> Option<&State<S, L, D>>
        ensures life { option_copied result ≡ self.now.member.facts.life }
        ensures started { IfSome result (λ state. (state.now.failed ≡ false) × (is_started state.now ≡ true)) }
    {
        self.member.state()
    }

    /// Returns whether the member offered the view's proposal for certification and has received no verdict on it;
    /// false once it has failed.
    pub fn awaits_verdict(&self, view: View) -> bool
        ensures { result ≡ is_offered self.now.member.facts.outstanding_work view }
    {
        self.member.awaits_verdict(view)
    }

    /// Returns the record, oldest entry first.
    pub fn record(&self) -> &[Artifact<S, D>]
        ensures entries { entries_of S.certificate_bytes result.now ≡ self.now.member.facts.entries }
        ensures votes { votes_of result.now ≡ self.now.member.votes }
    {
        self.member.record()
    }

    /// Returns what a journal stores beside the record.
    pub fn stored(&self) -> Stored
        ensures { result ≡ stored_of self.now.member.facts }
    {
        self.member.stored()
    }

    /// Does nothing: its contract is the laws of all outputs that it returned, and of all that its member has done.
    ///
    /// - `behind`: each vote comes after an output that stores it, with exactly its signature.
    /// - `stored`: until it fails, if all of the record is queued or was, a journal that carries out all returned and
    ///   queued outputs holds the record, and what a journal stores beside it. So a member that is resumed from it
    ///   continues from the record.
    /// - `emitted`: until it fails, each stored vote was returned or is queued. The exceptions are votes of the record
    ///   that the lifetime began with; the first output stores them.
    /// - `stops`: until it fails, a host may stop after each output that was returned or is queued, and amid each
    ///   `Store`, of which only the first entries were written. The journal is then the record of a member that this
    ///   one was at some moment of this lifetime, and that member had signed each vote among these outputs.
    /// - `finals`: of each proposal that it reported as final, its member accepted the finalization.
    /// - `signed`: each vote that it returned is its member's, with a signature on the vote's own subject under the
    ///   member's key.
    /// - `rising`: the views of the proposals that it reported as final rise.
    /// - `last`: the last of them, reported or queued, is of the member's last finalized view.
    /// - `lawful`: what its member has done keeps the voting rules, over all its lifetimes.
    /// - `ran`: a network of `agreement` may have it as member `i`.
    /// - `once`: its record holds each entry once, and of each view at most seven.
    pub fn keeps_the_laws(&self)
        ensures behind { (given : _) → IsJournaled S.certificate_bytes given self.now → AreBehind [] given }
        ensures stored { (given : _) → IsJournaled S.certificate_bytes given self.now → self.now.failed ≡ false
            → IsWhole S.certificate_bytes self.now
            → IsRecordOf S.certificate_bytes self.now.member (journal_of (given ++ self.now.outbox.queue.items)) }
        ensures emitted { (given : _) → IsJournaled S.certificate_bytes given self.now → self.now.failed ≡ false
            → AllAreReturned (given ++ self.now.outbox.queue.items) }
        ensures stops { (term_length i : _) (earlier given all : _)
            → IsTraced D.eq L.elect S.certificate_bytes term_length i earlier given all self.now
            → self.now.failed ≡ false
            → EachStopIsLawful D.eq L.elect S.certificate_bytes term_length i earlier all
            (given ++ self.now.outbox.queue.items) }
        ensures finals { (term_length i : _) (earlier given all : _)
            → IsTraced D.eq L.elect S.certificate_bytes term_length i earlier given all self.now
            → WereAccepted all (finals_in given) }
        ensures signed { (i key given vote : _) → IsSignedBy S.IsSignature i key given self.now → AreBehind [] given
            → Contains given (output.Vote vote)
            → (vote.signer ≡ i) × S.IsSignature key vote.subject vote.signature }
        ensures rising { (given : _) → IsJournaled S.certificate_bytes given self.now → RiseByView (finals_in given) }
        ensures last { (given : _) → IsJournaled S.certificate_bytes given self.now
            → IfSome self.now.member.facts.life (λ x.
            EndsAt x.finalized (finals_in (given ++ self.now.outbox.queue.items))) }
        ensures lawful { OfEachHistory D.eq L.elect self.now.member.facts
            (λ term_length i all. IsLawful term_length all) }
        ensures ran { OfEachHistory D.eq L.elect self.now.member.facts (MayBeHistoryOf S.PublicKey D.eq L.elect) }
        ensures once { OfEachHistory D.eq L.elect self.now.member.facts
            (λ term_length i all. HoldsEachEntryOnce self.now.member.facts) }
    {
        self.outbox.keeps_the_law();
        self.member.keeps_the_laws();
        // proof only: the contract of `record` says that the member's votes are those of its entries
        let _record = self.member.record();
    }
}

/// Does nothing: its contract is the law that a host may stop between any two outputs, and resume from its journal.
///
/// The host carried outputs out in order and stopped after one of them, as `Journaled::keeps_the_laws`, clause `stops`,
/// allows. A member is then resumed from the journal that these outputs have written.
///
/// - That member is the same member of the network, and has done what it had done by then.
/// - It has signed each vote that the host carried out, and each vote of its record.
/// - Its next lifetime may begin: `traced` and `signed` of `Journaled::begin` ask for no more.
pub fn stops_are_resumed<S: Scheme<D>, L: Elector<S>, D: Digest>()
    ensures { EachResumeContinues D.eq L.elect S.IsSignature S.certificate_bytes S.me L.terms }
{}

/// Returns the last finalized view of a member that has not failed.
fn last_finalized<S: Scheme<D>, L: Elector<S>, D: Digest>(member: &LawfulMember<S, L, D>) -> View
    ensures { IfSome member.now.facts.life (λ x. result ≡ x.finalized) }
{
    match member.state() {
        Some(state) => state.last_finalized(),
        None => View::zero(),
    }
}

/// Returns the proposal that a certificate finalizes.
fn finalized_by<S: CertificateScheme, D: Digest>(
    certificate: &Certificate<S, D>,
) -> Option<Proposal<D>>
    ensures { finals_by (Accepts (certificate_subject (certificate_facts S.certificate_bytes certificate.now)) ∷ []) ≡
        option_to_list result }
{
    match certificate {
        Certificate::Finalization(finalization) => Some(finalization.proposal),
        _ => None,
    }
}

/// Returns the proposal that is final by the reply.
fn final_by<S: CertificateScheme, D: Digest>(
    finalized: Option<Proposal<D>>,
    reply: &Reply<S, D>,
) -> Option<Proposal<D>>
    ensures { result ≡ final_by finalized reply.now }
{
    match reply {
        Reply::Added(_, _) | Reply::AddedNullification(_) => finalized,
        _ => None,
    }
}

/// Returns the call that passes a certificate.
fn call_with_certificate<S: CertificateScheme, D: Digest>(
    certificate: Certificate<S, D>,
    now: u64,
) -> Call<S, D>
    ensures asked { asked S.certificate_bytes result ≡ certificate_call
        (certificate_facts S.certificate_bytes certificate) now }
    ensures hands { certificates_in result ≡ Accepts
        (certificate_subject (certificate_facts S.certificate_bytes certificate)) ∷ [] }
{
    match certificate {
        Certificate::Notarization(notarization) => Call::AddNotarization(notarization),
        Certificate::Nullification(nullification) => Call::AddNullification(nullification, now),
        Certificate::Finalization(finalization) => Call::AddFinalization(finalization, now),
    }
}
