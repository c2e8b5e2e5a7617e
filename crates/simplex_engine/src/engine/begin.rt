//! How an engine begins: a first lifetime at a floor, or another one from what was stored.
#![tactic(auto)]

ghost use Rattle.std.specs.Prelude.{◌≡◌, ◌==◌, ℕ, List, Option, [], ◌∷◌, Err, IfOk, IfErr, IfSome, length, reverse};
ghost use Rattle.simplex_resolver.specs.RecordCalls.{calls_of};
ghost use Rattle.simplex_resolver.specs.Steps.{Replayed};
ghost use Rattle.simplex_resolver.specs.CallHistory.{HasReceivedCalls};
ghost use Rattle.simplex_record.specs.Entries.{entries_of};
ghost use Rattle.simplex_engine.specs.EngineStart.{with_a_retry, IsPlanOf, IsCompanyOf, HasStartedWith, IsNotReplayed};
ghost use Rattle.simplex_record.specs.Votes.{votes_of};
ghost use Rattle.engine_outbox.specs.Continuity.{IsJournaled, IsWhole, ReportsNothing, BeginsTraced};
ghost use Rattle.engine_outbox.specs.Journals.{BeginsWith};
ghost use Rattle.engine_outbox.specs.Signatures.{BeginsSigned};

use super::Engine;
use engine_fetches::fetches::{Fetches, Peers};
use engine_fetches::repair::Repair;
use engine_outbox::journaled::Journaled;
use engine_planner::plan::{Options, Plan, Views};
use engine_votes::batcher::Batcher;
use lawful_member::lawful::LawfulMember;
use simplex_member::member::{RecoverError, ResumeError, Start, Stored};
use simplex_resolver::replay::{LawfulResolver, ReplayError};
use simplex_types::types::assembly::Assembly;
use simplex_types::types::{
    Artifact, CertificateScheme, Digest, Elector, Scheme, TermLength, View,
};
use std::alloc::{AllocError, Global};
use std::error::Error;
use std::fmt;

/// Why an engine could not begin.
#[derive(Clone, Copy, PartialEq, Eq, Debug)]
pub enum StartError {
    /// `timeout_retry` is 0: pass at least one millisecond.
    RetryZero,
    /// The floor or what was stored is refused.
    Resume(ResumeError),
    /// The resolver refuses the record.
    Replay(ReplayError),
}

impl fmt::Display for StartError {
    fn fmt<W: fmt::Write>(&self, f: &mut fmt::Formatter<W>) -> fmt::Result {
        match self {
            StartError::RetryZero => write!(f, "RetryZero"),
            StartError::Resume(error) => write!(f, "{error}"),
            StartError::Replay(error) => write!(f, "{error}"),
        }
    }
}

impl Error for StartError {}

impl From<AllocError> for StartError {
    ghost use Rattle.std.specs.Prelude.{◌≡◌};
    ghost use Rattle.simplex_member.specs.declared.member.resume.ResumeError.TheVariants.{Recover};
    ghost use Rattle.simplex_record.specs.declared.record.error.RecoverError.TheVariants.{OutOfMemory};
    ghost use Rattle.simplex_engine.specs.declared.engine.begin.StartError.TheVariants.{Resume};

    ghost from_gives = { λ _ error. error ≡ Resume (Recover OutOfMemory) };

    fn from(_refused: AllocError) -> StartError {
        StartError::Resume(ResumeError::Recover(RecoverError::OutOfMemory))
    }
}

/// The parts of an engine beside its member.
#[derive(Drop)]
struct Company<S: CertificateScheme, D> {
    batcher: Batcher<S, D>,
    peers: Peers,
    term_length: TermLength,
    is_alone: bool,
}

impl<S: Assembly<D>, L: Elector<S>, D: Digest> Engine<S, L, D> {
    ghost use Rattle.simplex_types.specs.Config.{floor_facts};
    ghost use Rattle.simplex_record.specs.Recovery.{recover_error};
    ghost use Rattle.simplex_record.specs.Start.{set_up, start_facts};
    ghost use Rattle.simplex_member.specs.Journal.{IsNotResumed, IsResumed};
    ghost use Rattle.simplex_member.specs.Start.{started_member};
    ghost use Rattle.laws_safety.specs.MemberHistory.{HasStarted, HasContinued};
    ghost use Rattle.simplex_engine.specs.EngineStart.{IsMemberError, IsStartRefusal};
    ghost use Rattle.simplex_engine.specs.declared.engine.begin.StartError.TheVariants.{RetryZero};
    ghost use Rattle.simplex_engine.specs.Bounds.{HoldsNoneAhead};
    ghost use Rattle.simplex_engine.specs.Provenance.{pending_causes};
    ghost use Rattle.simplex_engine.specs.FetchHeights.{FetchesTheReported};
    ghost use Rattle.simplex_engine.specs.ApplicationWork.{HasReportedAll};

    /// Begins the engine of a member that never voted, at a floor. A member that voted must `resume`, or it could vote
    /// twice in a view.
    ///
    /// The elector's members are the scheme's participants.
    ///
    /// - `started`, `votes`: its member is the one that `LawfulMember::start` makes, with no vote in its record.
    /// - `begins`: the member has accepted the floor's finalization, if there is one, and done nothing else.
    /// - `traced`: the empty list of outputs is traced by what the member did before (`IsTraced`).
    /// - `signed`: the stored votes are signed under the member's key, if those of its record are (`IsSignedBy`).
    /// - `kept`, `whole`, `queued`, `reported`, `bounded`, `due_work`: no output was returned. Only the whole record is
    ///   queued, in place of all that is stored. Nothing is to be reported as final, and the member waits for nothing.
    /// - `begun`: no vote is stored; certificates are made by the number of the scheme's participants. The resolver has
    ///   received the record, and its outstanding fetches are due at once, from all participants but this member. No
    ///   input was ignored.
    /// - `nothing`: no work is queued or planned, no early proposal is stored, and each fetch is one that the resolver
    ///   wants.
    /// - `fetch_heights`: no fetch is of a view above both the next term's first view and the views of all entries.
    /// - `no_retry`, `refused`: `RetryZero` exactly if `timeout_retry` is 0; the other errors as below.
    ///
    /// # Errors
    ///
    /// - `RetryZero`: `start.settings.timeout_retry` is 0. A vote to nullify would be repeated at once, and `poll`
    ///   would not return.
    /// - `OutOfMemory`, and those of `LawfulMember::start` and, on the record, of `LawfulResolver::start`.
    pub fn start(
        alloc: Global,
        start: Start<S, L, D>,
        options: Options,
    ) -> Result<Engine<S, L, D>, StartError>
        requires { L.members start.settings.elector ≡ length (S.participants start.settings.scheme) }
        ensures kept { IfOk result (λ engine. IsJournaled S.certificate_bytes [] engine.core) }
        ensures traced { IfOk result
            (λ engine. BeginsTraced D.eq L.elect S.certificate_bytes engine.core.member engine.core) }
        ensures signed { IfOk result (λ engine. BeginsSigned S.IsSignature engine.core.member engine.core) }
        ensures whole { IfOk result (λ engine. IsWhole S.certificate_bytes engine.core) }
        ensures queued { IfOk result
            (λ engine. BeginsWith S.certificate_bytes engine.core.member engine.core.outbox.queue.items) }
        ensures reported { IfOk result (λ engine. ReportsNothing engine.core) }
        ensures due_work { IfOk result (HasReportedAll []) }
        ensures bounded { IfOk result (λ engine. HoldsNoneAhead S.participants engine.core engine.batcher) }
        ensures begun { IfOk result
            (HasStartedWith D.bytes S.participants (S.participants start.settings.scheme) (S.me start.settings.scheme)
            (L.terms start.settings.elector).term_length (with_a_retry options)) }
        ensures started { IfOk result (λ engine. engine.core.member.facts ≡ started_member D.eq L.elect
            (set_up S.me S.participants L.terms L.elects_early start.settings)
            (floor_facts S.certificate_bytes start.floor) start.now) }
        ensures votes { IfOk result (λ engine. engine.core.member.votes ≡ []) }
        ensures begins { IfOk result (λ engine. HasStarted D.eq L.elect S.me L.terms start engine.core.member.facts) }
        ensures no_retry { start.settings.timeout_retry ≡ 0 → result ≡ Err RetryZero }
        ensures refused { IfErr result (IsStartRefusal start.settings.timeout_retry
            (IsMemberError (recover_error D.eq (set_up S.me S.participants L.terms L.elects_early start.settings)
            (floor_facts S.certificate_bytes start.floor) start.now []))
            (λ m. m ≡ started_member D.eq L.elect (set_up S.me S.participants L.terms L.elects_early start.settings)
            (floor_facts S.certificate_bytes start.floor) start.now)) }
        ensures nothing { IfOk result (λ engine. pending_causes engine ≡ []) }
        ensures fetch_heights { IfOk result FetchesTheReported }
    {
        if has_no_retry(&start) {
            return Err(StartError::RetryZero);
        }
        let company = company_of(alloc, &start)?;
        match LawfulMember::start(alloc, start) {
            Ok(member) => begin(alloc, member, company, options),
            Err(error) => Err(StartError::Resume(ResumeError::Recover(error))),
        }
    }

    /// Resumes the engine of a member from what was stored, also at a later floor.
    ///
    /// The elector's members are the scheme's participants.
    ///
    /// - `resumed`, `votes`: its member is the one that `LawfulMember::resume` makes, with the votes of the entries.
    /// - `continues`: with terms of the same length, and with the key of the same member or none, the member has done
    ///   what it had done before, and has accepted the floor's finalization.
    /// - `kept`, `traced`, `signed`, `whole`, `queued`, `reported`, `bounded`, `due_work`, `begun`, `nothing`,
    ///   `fetch_heights`, `no_retry`, `refused`: as of `start`.
    ///
    /// # Errors
    ///
    /// - `RetryZero`: as of `start`, before the entries are read.
    /// - `OutOfMemory`, and those of `LawfulMember::resume` and, on the record, of `LawfulResolver::start`.
    pub fn resume(
        alloc: Global,
        start: Start<S, L, D>,
        stored: Stored,
        entries: Vec<Artifact<S, D>>,
        options: Options,
    ) -> Result<Engine<S, L, D>, StartError>
        requires { L.members start.settings.elector ≡ length (S.participants start.settings.scheme) }
        ensures kept { IfOk result (λ engine. IsJournaled S.certificate_bytes [] engine.core) }
        ensures traced { IfOk result
            (λ engine. BeginsTraced D.eq L.elect S.certificate_bytes engine.core.member engine.core) }
        ensures signed { IfOk result (λ engine. BeginsSigned S.IsSignature engine.core.member engine.core) }
        ensures whole { IfOk result (λ engine. IsWhole S.certificate_bytes engine.core) }
        ensures queued { IfOk result
            (λ engine. BeginsWith S.certificate_bytes engine.core.member engine.core.outbox.queue.items) }
        ensures reported { IfOk result (λ engine. ReportsNothing engine.core) }
        ensures due_work { IfOk result (HasReportedAll []) }
        ensures bounded { IfOk result (λ engine. HoldsNoneAhead S.participants engine.core engine.batcher) }
        ensures begun { IfOk result
            (HasStartedWith D.bytes S.participants (S.participants start.settings.scheme) (S.me start.settings.scheme)
            (L.terms start.settings.elector).term_length (with_a_retry options)) }
        ensures resumed { IfOk result (λ engine. IsResumed D.eq L.elect stored
            (entries_of S.certificate_bytes entries.items)
            (start_facts S.me S.participants L.terms L.elects_early S.certificate_bytes start)
            engine.core.member.facts) }
        ensures votes { IfOk result (λ engine. engine.core.member.votes ≡ votes_of entries.items) }
        ensures continues { IfOk result (λ engine. HasContinued D.eq L.elect S.me L.terms stored
            (entries_of S.certificate_bytes entries.items) start engine.core.member.facts) }
        ensures no_retry { start.settings.timeout_retry ≡ 0 → result ≡ Err RetryZero }
        ensures refused { IfErr result (IsStartRefusal start.settings.timeout_retry
            (IsNotResumed D.eq L.elect stored (entries_of S.certificate_bytes entries.items)
            (start_facts S.me S.participants L.terms L.elects_early S.certificate_bytes start))
            (IsResumed D.eq L.elect stored (entries_of S.certificate_bytes entries.items)
            (start_facts S.me S.participants L.terms L.elects_early S.certificate_bytes start))) }
        ensures nothing { IfOk result (λ engine. pending_causes engine ≡ []) }
        ensures fetch_heights { IfOk result FetchesTheReported }
    {
        if has_no_retry(&start) {
            return Err(StartError::RetryZero);
        }
        let company = company_of(alloc, &start)?;
        match LawfulMember::resume(alloc, start, stored, entries) {
            Ok(member) => begin(alloc, member, company, options),
            Err(refusal) => Err(StartError::Resume(refusal.error)),
        }
    }
}

/// Returns whether a vote to nullify would be repeated after no time: `poll` would then ask the member for it without
/// end.
fn has_no_retry<S: Scheme<D>, L: Elector<S>, D: Digest>(start: &Start<S, L, D>) -> bool
    ensures { result ≡ (start.entry.now.settings.timeout_retry == 0) }
{
    start.settings.timeout_retry == 0
}

/// Makes the parts beside the member from its settings.
fn company_of<S: Assembly<D>, L: Elector<S>, D: Digest>(
    alloc: Global,
    start: &Start<S, L, D>,
) -> Result<Company<S, D>, AllocError>
    ensures { IfOk result (IsCompanyOf S.participants (S.participants start.entry.now.settings.scheme)
        (S.me start.entry.now.settings.scheme)
        (L.terms start.entry.now.settings.elector).term_length) }
{
    let scheme = start.settings.scheme.copy(alloc)?;
    let members = scheme.participants().len();
    let peers = Peers::new(members.min(u32::MAX as usize) as u32, scheme.me());
    Ok(Company {
        batcher: Batcher::new(alloc, scheme),
        peers,
        term_length: start.settings.elector.terms().term_length,
        is_alone: members == 1,
    })
}

/// Makes an engine around a member that has begun. Its resolver receives the record, and the resolver's fetches are due
/// at once.
fn begin<S: Assembly<D>, L: Elector<S>, D: Digest>(
    alloc: Global,
    member: LawfulMember<S, L, D>,
    company: Company<S, D>,
    options: Options,
) -> Result<Engine<S, L, D>, StartError>
    ensures kept { IfOk result (λ engine. IsJournaled S.certificate_bytes [] engine.core) }
    ensures traced { IfOk result
        (λ engine. BeginsTraced D.eq L.elect S.certificate_bytes engine.core.member engine.core) }
    ensures signed { IfOk result (λ engine. BeginsSigned S.IsSignature engine.core.member engine.core) }
    ensures whole { IfOk result (λ engine. IsWhole S.certificate_bytes engine.core) }
    ensures reported { IfOk result (λ engine. ReportsNothing engine.core) }
    ensures member { IfOk result (λ engine. engine.core.member ≡ member) }
    ensures queued { IfOk result
        (λ engine. BeginsWith S.certificate_bytes engine.core.member engine.core.outbox.queue.items) }
    ensures begun { (keys : List S.PublicKey) (me : Option ℕ) (term_length : ℕ)
        → IsCompanyOf S.participants keys me term_length company
        → IfOk result (HasStartedWith D.bytes S.participants keys me term_length (with_a_retry options)) }
    ensures refused { IfErr result (IsNotReplayed member.facts.entries) }
{
    let plan = plan_of(alloc, &member, &company, options.with_a_retry())?;
    let core = Journaled::begin(alloc, member)?;
    Ok(Engine {
        alloc,
        core,
        batcher: company.batcher,
        plan,
        forgotten: View::zero(),
        settled_at: None,
    })
}

/// Makes the plan of a member that has begun.
fn plan_of<S: Scheme<D>, L: Elector<S>, D: Digest>(
    alloc: Global,
    member: &LawfulMember<S, L, D>,
    company: &Company<S, D>,
    options: Options,
) -> Result<Plan<S, D>, StartError>
    ensures plan { IfOk result
        (IsPlanOf D.bytes company.now.term_length company.now.peers company.now.is_alone options member.now.facts) }
    ensures refused { IfErr result (IsNotReplayed member.now.facts.entries) }
{
    let resolver = resolver_of(alloc, company.term_length, member.record())?;
    let fetches = Fetches::new(alloc, company.peers, options.retry);
    let repair = Repair::new(resolver, fetches)?;
    Ok(Plan::new(alloc, options, company.is_alone, views_of(member), repair))
}

/// Makes the resolver of a record.
fn resolver_of<S: CertificateScheme, D: Digest>(
    alloc: Global,
    term_length: TermLength,
    entries: &[Artifact<S, D>],
) -> Result<LawfulResolver, StartError>
    ensures received { IfOk result
        (HasReceivedCalls term_length
        (Replayed ∷ calls_of D.bytes (reverse (entries_of S.certificate_bytes entries.now)))) }
    ensures refused { IfErr result (IsNotReplayed (entries_of S.certificate_bytes entries.now)) }
{
    match LawfulResolver::start(alloc, term_length, entries) {
        Ok(resolver) => Ok(resolver),
        Err(error) => Err(StartError::Replay(error)),
    }
}

/// Returns the views that a member begins at.
fn views_of<S: Scheme<D>, L: Elector<S>, D: Digest>(member: &LawfulMember<S, L, D>) -> Views
    ensures { IfSome member.now.facts.life (λ x. (result.current ≡ x.current) × (result.last_finalized ≡ x.finalized)) }
{
    match member.state() {
        Some(state) => Views {
            current: state.current_view(),
            last_finalized: state.last_finalized(),
        },
        None => Views {
            current: View::zero(),
            last_finalized: View::zero(),
        },
    }
}
