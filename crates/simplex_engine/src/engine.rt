//! The engine of a member: it receives inputs, and returns outputs in the order in which the host carries them out.
//!
//! It holds no network, clock or disk, and no key but the scheme's. Moments are milliseconds and never decrease.
#![tactic(auto, using(engine_outbox::proofs::Continuity::stays, engine_outbox::proofs::Continuity::goes_further, crate::proofs::CertificateVotes::takes_nothing, crate::proofs::CertificateVotes::takes_no_more, crate::proofs::CertificateVotes::takes_anyway))]

ghost use Rattle.std.specs.Prelude.{◌≡◌, ◌⊎◌, ◌++◌, [], length, Contains, None, Err, if◌then◌else◌, IfOk, IfErr, IfSome, OnOk, OnErr, IsNone, IsFalse, IsTrue, Ok, true, false};
ghost use Rattle.std.specs.Option.{option_copied};
ghost use Rattle.simplex_types.specs.declared.types.fault.Fault.TheVariants.{OutOfMemory, Failed};
ghost use Rattle.simplex_engine.specs.Failures.{IsFailure};

mod begin;
mod calls;
mod inputs;
mod rest;
mod steps;
mod votes;

use crate::input::Input;
pub use begin::StartError;
use engine_fetches::fetches::Fetches;
use engine_outbox::journaled::Journaled;
use engine_outbox::output::Output;
pub use engine_planner::plan::Options;
use engine_planner::plan::Plan;
use engine_votes::batcher::Batcher;
use simplex_member::member::Stored;
use simplex_resolver::replay::LawfulResolver;
use simplex_types::types::assembly::Assembly;
use simplex_types::types::{Artifact, CertificateScheme, Digest, Elector, Fault, View};
use simplex_voter::voter::State;
use std::alloc::Global;

/// A member, the batcher of its votes, its resolver and outstanding fetches, and the outputs that the host must still
/// carry out.
///
/// `IsJournaled` of `core` says which outputs were returned so far. `start` and `resume` begin that list, and `poll`
/// appends what it returns. `keeps_the_laws` states what is true of the whole list. After an error the engine has
/// failed and returns no further output: resume a new engine from what was stored.
#[derive(Drop)]
pub struct Engine<S: CertificateScheme, L: Elector<S>, D: Digest> {
    alloc: Global,
    core: Journaled<S, L, D>,
    batcher: Batcher<S, D>,
    plan: Plan<S, D>,
    /// All views below this one were forgotten by the last `Work::Forget`.
    forgotten: View,
    /// The moment at which all that was due was done last, if no input came since: at this moment, and at later ones
    /// before `wake`, only the queue is left to return.
    settled_at: Option<u64>,
}

impl<S: Assembly<D>, L: Elector<S>, D: Digest> Engine<S, L, D> {
    ghost use Rattle.simplex_voter.specs.Refusals.{is_started};
    ghost use Rattle.simplex_record.specs.Entries.{entries_of};
    ghost use Rattle.simplex_record.specs.Votes.{votes_of};
    ghost use Rattle.laws_safety.specs.Lawful.{IsLawful};
    ghost use Rattle.laws_safety.specs.MemberHistory.{OfEachHistory, MayBeHistoryOf};
    ghost use Rattle.laws_safety.specs.RecordsOnce.{HoldsEachEntryOnce};
    ghost use Rattle.engine_outbox.specs.Outputs.{AreBehind};
    ghost use Rattle.engine_outbox.specs.Finalizations.{finals_in, RiseByView, EndsAt, ReportsNoMore, WereAccepted};
    ghost use Rattle.engine_outbox.specs.Journals.{journal_of, IsRecordOf};
    ghost use Rattle.engine_outbox.specs.EmittedVotes.{AllAreReturned};
    ghost use Rattle.engine_outbox.specs.RecordReach.{IsShort};
    ghost use Rattle.engine_outbox.specs.Continuity.{IsJournaled, IsTraced, IsWhole, Continues, EmitsOn, ExtendsHistoryOn, HasReturned, has_failed};
    ghost use Rattle.engine_outbox.specs.Signatures.{IsSignedBy};
    ghost use Rattle.engine_outbox.specs.HostStops.{EachStopIsLawful};
    ghost use Rattle.engine_outbox.specs.declared.output.Output.TheVariants as output;
    ghost use Rattle.simplex_engine.specs.AtRest.{HasSettled, IsSettledAsStored, IsStillAtRest, IsUnsettled, ReturnsFirst, StaysAtRest, StaysSettled, unsettled};
    ghost use Rattle.simplex_engine.specs.Timeouts.{fetches_of, timeout_of};
    ghost use Rattle.laws_safety.specs.LifetimeLaws.{CurrentTimesOut};
    ghost use Rattle.engine_planner.specs.PlannedWork.{constants_of, AreAmong};
    ghost use Rattle.engine_planner.specs.PlanStates.{IsWake};
    ghost use Rattle.simplex_engine.specs.Inputs.{subject_in, returned_outputs};
    ghost use Rattle.simplex_engine.specs.OwnSteps.{ForgetsNoOther};
    ghost use Rattle.simplex_engine.specs.CertificateVotes.{votes_of_input, KeepsVotes, TakesVotes, TakesNone, IsBackedInput};
    ghost use Rattle.simplex_engine.specs.Bounds.{HoldsNoneAhead, StaysBounded, HoldsAdmitted};
    ghost use Rattle.simplex_engine.specs.BuildBounds.{BuildsNear};
    ghost use Rattle.simplex_engine.specs.FetchHeights.{FetchesNoHigher};
    ghost use Rattle.simplex_engine.specs.MemberViews.{TracksViews, StaysStoredEarly};
    ghost use Rattle.simplex_engine.specs.DroppedInputs.{IsDropped};
    ghost use Rattle.simplex_engine.specs.Admission.{is_input_admitted, one_more, IsTurnedAway, ignoring};
    ghost use Rattle.simplex_engine.specs.InputEffects.{IsActedOn};
    ghost use Rattle.simplex_engine.specs.Provenance.{input_causes, forgettable, held_by, IsCaused, IsCausedWith};
    ghost use Rattle.engine_outbox.specs.Outputs.{work_in};
    ghost use Rattle.simplex_engine.specs.ApplicationWork.{work_ahead, KeepsReports, HasReportedAll, AllIsReturned};

    /// Takes an input at a moment in milliseconds. Returns false if the input was ignored; ignored inputs are counted.
    ///
    /// The engine ignores:
    ///
    /// - a proposal that does not come from its view's leader, or that is this member's own;
    /// - a proposal whose view takes no votes. A proposal of one of the next eight views is stored until its view is
    ///   entered;
    /// - a vote whose view takes no votes, or whose signer voted before in that kind and view;
    /// - a certificate of a kind and view that has one;
    /// - a verification or a block that the engine did not ask for;
    /// - a verdict on a proposal that was not offered, or that already has its verdict.
    ///
    /// The clauses:
    ///
    /// - `continues`: the member accepts at most the passed certificate, or one on the subject of the passed vote.
    ///   Stored votes stay signed under its key. A finalization that it accepts is queued to be reported if its view is
    ///   above all reported views.
    /// - `votes`, `held`: every stored vote was passed in. An input that is not a vote changes no stored vote.
    /// - `backed`: votes of n - f different members, each passed in, back a certificate that a vote completes.
    /// - `dropped`: an ignored input leaves the member and the votes unchanged, with two exceptions: the reason of a
    ///   timeout and a verdict record their moment, and a verdict closes its offer.
    /// - `unadmitted`: an input that is not admitted (`is_input_admitted`) is ignored, and changes only the count of
    ///   ignored inputs. An early proposal is stored while fewer than eight are stored.
    /// - `acted`: for an admitted input the member receives the matching call, or the vote is counted.
    /// - `due_work`: work for the application is not lost. A proposal to verify or certify, and the block of an open
    ///   request, was returned, is queued or is planned. The exception is a block that a lone member builds once it
    ///   enters the view. No early proposal is lost before its view is entered. The options and the other members stay
    ///   the same.
    /// - `provenance`: this input, what was there before, or a reply of the member causes each of these: a call of the
    ///   member, work, a fetch that the resolver does not want, an early proposal. The engine continues to ask for a
    ///   certificate that a reply named as missing, until its view is final or the resolver ends the fetch. A fetch
    ///   that counts as asked by this call was due, and an output asks the peer whose turn it was (`AsksWhoseTurn`). An
    ///   output that was not there before asks a peer only for a certificate that was named as missing, or for a
    ///   nullification that the engine still asks for, unless its fetch is over (`IsSought`).
    /// - `fetch_heights`: no fetch appears of a view above both the next term's first view and the views of all entries
    ///   of the record.
    /// - `ignored`: exactly the ignored inputs are counted.
    /// - `bounded`: stored votes remain votes of members, and of no view above those whose votes are taken.
    /// - `to_settle`: the next `poll` looks for what is due, also before `wake`.
    /// - `failed`, `error`, `refused`: after an error the engine has failed. An engine that had failed returns `Failed`
    ///   and is unchanged.
    ///
    /// # Errors
    ///
    /// - `OutOfMemory`: the engine has failed. It also returns this for a call that would take 2^64 steps, or whose
    ///   resolver refuses what the member accepted.
    /// - `Failed`: the engine had failed before.
    pub fn handle(&mut self, input: Input<S, D>, now: u64) -> Result<bool, Fault>
        ensures continues { Continues D.eq L.elect S.certificate_bytes S.IsSignature
            (subject_in S.certificate_bytes input) self.old.core self.new.core }
        ensures votes { TakesVotes (votes_of_input input) self.old.batcher self.new.batcher }
        ensures held { KeepsVotes input self.old.batcher self.new.batcher }
        ensures backed { IsBackedInput D.eq L.elect S.certificate_bytes S.IsSignature
            (length (S.participants self.old.batcher.scheme))
            input self.old.batcher self.old.core self.new.core }
        ensures dropped { IfOk result (λ is_of_use. IsFalse is_of_use → IsDropped now input self.old self.new) }
        ensures unadmitted { IsFalse (is_input_admitted S.certificate_bytes self.old.core.member.facts input)
            → IfOk result (λ is_of_use.
            IsFalse is_of_use × IsTurnedAway input (unsettled (ignoring self.old)) self.new) }
        ensures bounded { StaysBounded S.participants self.old.core self.old.batcher self.new.core self.new.batcher }
        ensures acted { IsTrue (is_input_admitted S.certificate_bytes self.old.core.member.facts input)
            → IfOk result (IsActedOn D.eq L.elect S.certificate_bytes S.IsMadeOf S.participants now input self.old
            self.new.core.member.facts
            self.new.batcher self.new.plan.steps.items) }
        ensures due_work { OnOk result (KeepsReports self.old self.new) }
        ensures ignored { IfOk result (λ is_of_use. self.new.plan.ignored
            ≡ (if is_of_use then self.old.plan.ignored else one_more self.old.plan.ignored)) }
        ensures to_settle { has_failed self.old.core ≡ false → IsUnsettled self.new }
        ensures failed { OnErr result (has_failed self.new.core ≡ true) }
        ensures error { IfErr result (IsFailure (has_failed self.old.core)) }
        ensures refused { has_failed self.old.core ≡ true → (result ≡ Err Failed) × (self.new ≡ self.old) }
        ensures provenance { OnOk result
            (IsCausedWith D.eq L.elect D.bytes S.certificate_bytes now
            (input_causes S.certificate_bytes self.old.batcher input)
            self.old self.new) }
        ensures fetch_heights { OnOk result (FetchesNoHigher D.eq L.elect self.old self.new) }
    {
        if self.core.has_failed() {
            return Err(Fault::Failed);
        }
        let taken = self.take(input, now);
        self.settled_at = None;
        match taken {
            Ok(is_of_use) => Ok(is_of_use),
            Err(_) => {
                self.core.fail();
                Err(Fault::OutOfMemory)
            }
        }
    }

    /// Returns the next output to carry out, at a moment in milliseconds. `None`: there is no output before another
    /// input, or before the moment that `wake` returns.
    ///
    /// With no input in between, `poll` comes to `None`: first it returns what is queued; then it does all that is due,
    /// once; then it returns what that queued. From then on it returns `None` at each moment before `wake`, and does no
    /// work (`front`, `settles`, `stays`; `polls_end` of `laws_engine`).
    ///
    /// - `front`: until the engine fails, `poll` returns a queued output before it does anything else. It returns the
    ///   first one and changes nothing else. After `None` nothing is queued.
    /// - `settles`: where nothing was queued, all that is due at this moment is done now, unless the engine stays
    ///   settled (`StaysSettled`): it was done at this moment before, or at an earlier one, and this one is before
    ///   `wake`; and no input came since.
    /// - `stays`: where the engine stays settled, and nothing is queued, `poll` returns `None` and changes nothing.
    /// - `settled`: the moment that the engine stores as that at which it settled is such a moment.
    /// - `given`, `traced`: the returned output is appended to the list of outputs. What the member has done still
    ///   traces that list, and its votes stay signed under the member's key.
    /// - `does`, `reported`: the member accepts no certificate, and nothing more is queued to be reported as final.
    /// - `held`: only votes of views below the lowest retained one are forgotten.
    /// - `votes`, `bounded`, `failed`, `error`, `refused`, `ignored`, `constants`: as of `handle`; no input is counted.
    /// - `due_work`, `works`: as of `handle`. Work that was queued or planned was returned, or is still queued or
    ///   planned.
    /// - `provenance`: as of `handle`, without an input. The member votes to nullify only after its timeout, and
    ///   receives early proposals of their views' leaders.
    /// - `fetch_heights`: as of `handle`.
    /// - `near`, `seen`, `early`: no block is asked for above the next term's first view. The views in the plan stay
    ///   the member's views. No early proposal is lost before its view is entered.
    ///
    /// After `None`:
    ///
    /// - `rest`: the engine is at rest (`IsStillAtRest`), since the moment at which it settled:
    ///   - the whole record was returned to be stored;
    ///   - from the last finalized view on, the member has cast each vote that its rule allows, and each certificate
    ///     was returned; asked last, the member had no work for the application;
    ///   - asked for its next timeout at that moment, after all other calls, the member named one after this moment,
    ///     and `timeout` returns it: no timeout is due;
    ///   - no step is planned, and no fetch is due;
    ///   - each block to build is of the current view and was asked for, or is of a later view;
    ///   - no stored vote is of a view below the lowest retained one;
    ///   - each fetch is of a view above the last finalized one, and of a certificate that the state does not have; the
    ///     nullification of each such view that the resolver has open is being fetched.
    /// - `waiting`: each proposal to verify or certify and each block to build was returned, except where a lone member
    ///   waits for the view.
    /// - `short`: the record has at most `long_record` entries, or a pruning would drop no more of its views than it
    ///   would retain.
    /// - `admitted`: each stored vote is a member's and of a view that takes votes: at most three of a member in a
    ///   view.
    ///
    /// # Errors
    ///
    /// As of `handle`.
    pub fn poll(&mut self, now: u64) -> Result<Option<Output<S, D, Stored>>, Fault>
        ensures front { has_failed self.old.core ≡ false
            → ReturnsFirst self.old.core.outbox.queue.items result self.old self.new }
        ensures settles { self.old.core.outbox.queue.items ≡ []
            → OnOk result (StaysSettled now self.old ⊎ HasSettled now self.new) }
        ensures stays { has_failed self.old.core ≡ false → self.old.core.outbox.queue.items ≡ []
            → StaysSettled now self.old → StaysAtRest result self.old self.new }
        ensures given { HasReturned S.certificate_bytes (returned_outputs result) self.old.core self.new.core }
        ensures does { ExtendsHistoryOn D.eq L.elect None self.old.core.member.facts self.new.core.member.facts }
        ensures traced { EmitsOn D.eq L.elect S.certificate_bytes S.IsSignature None (returned_outputs result)
            self.old.core self.new.core }
        ensures reported { ReportsNoMore (returned_outputs result) self.old.core.outbox self.new.core.outbox }
        ensures settled { (given : _) → IsJournaled S.certificate_bytes given self.old.core
            → IsSettledAsStored D.eq L.elect S.certificate_bytes self.old
            → OnOk result (IsSettledAsStored D.eq L.elect S.certificate_bytes self.new) }
        ensures rest { IsSettledAsStored D.eq L.elect S.certificate_bytes self.old
            → IfOk result (λ out. IsNone out → IsStillAtRest D.eq L.elect S.certificate_bytes now self.new) }
        ensures short { (given : _) → IsJournaled S.certificate_bytes given self.old.core
            → IsSettledAsStored D.eq L.elect S.certificate_bytes self.old
            → IfOk result (λ out. IsNone out → IsShort self.new.plan.options.long_record self.new.core.member.facts) }
        ensures admitted { IsSettledAsStored D.eq L.elect S.certificate_bytes self.old
            → HoldsNoneAhead S.participants self.old.core self.old.batcher
            → IfOk result (λ out. IsNone out → HoldsAdmitted S.participants self.new.core self.new.batcher) }
        ensures votes { TakesNone self.old.batcher self.new.batcher }
        ensures held { ForgetsNoOther self.new.core self.old.batcher self.new.batcher }
        ensures bounded { StaysBounded S.participants self.old.core self.old.batcher self.new.core self.new.batcher }
        ensures due_work { OnOk result
            ((given : _) → HasReportedAll given self.old → HasReportedAll (given ++ returned_outputs result) self.new) }
        ensures waiting { IsSettledAsStored D.eq L.elect S.certificate_bytes self.old
            → IfOk result
            (λ out. IsNone out → (given : _) → HasReportedAll given self.old → AllIsReturned given self.new) }
        ensures works { OnOk result
            (AreAmong (work_ahead self.old) (work_in (returned_outputs result) ++ work_ahead self.new)) }
        ensures near { OnOk result (BuildsNear self.old.core self.old.plan → BuildsNear self.new.core self.new.plan) }
        ensures seen { OnOk result
            (TracksViews self.old.core.member.facts self.old.plan
            → TracksViews self.new.core.member.facts self.new.plan) }
        ensures early { OnOk result (TracksViews self.old.core.member.facts self.old.plan
            → StaysStoredEarly self.old.plan self.new.core.member.facts self.new.plan) }
        ensures ignored { OnOk result (self.new.plan.ignored ≡ self.old.plan.ignored) }
        ensures constants { OnOk result (constants_of self.new.plan ≡ constants_of self.old.plan) }
        ensures failed { OnErr result (has_failed self.new.core ≡ true) }
        ensures error { IfErr result (IsFailure (has_failed self.old.core)) }
        ensures refused { has_failed self.old.core ≡ true → (result ≡ Err Failed) × (self.new ≡ self.old) }
        ensures provenance { OnOk result
            (IsCaused D.eq L.elect D.bytes S.certificate_bytes now (forgettable self.new.core.member.facts)
            (work_in (returned_outputs result)) (held_by self.new) self.old self.new) }
        ensures fetch_heights { OnOk result (FetchesNoHigher D.eq L.elect self.old self.new) }
    {
        if self.core.has_failed() {
            return Err(Fault::Failed);
        }
        if !self.core.is_idle() {
            return Ok(self.core.next());
        }
        match self.work_unless_settled(now) {
            Ok(()) => Ok(self.core.next()),
            Err(_) => {
                self.core.fail();
                Err(Fault::OutOfMemory)
            }
        }
    }

    /// Returns whether the engine or its member has failed.
    pub fn has_failed(&self) -> bool
        ensures { result ≡ has_failed self.now.core }
    {
        self.core.has_failed()
    }

    /// Returns the moment of the member's next timeout, in milliseconds, as the member named it when `poll` asked last.
    pub fn timeout(&self) -> u64
        ensures { result ≡ timeout_of self.now }
    {
        self.plan.timeout()
    }

    /// Returns the moment, in milliseconds, at which to call `poll` if no input comes before: that of `timeout`, or the
    /// earliest one of `fetches`, whichever is earlier. Once `poll` has returned `None`, it does so at each moment
    /// before this one (`stays`).
    pub fn wake(&self) -> u64
        ensures { IsWake (fetches_of self.now).wanted.items (timeout_of self.now) result }
    {
        self.plan.wake()
    }

    /// Returns how many inputs were ignored.
    pub fn ignored(&self) -> u64
        ensures { result ≡ self.now.plan.ignored }
    {
        self.plan.ignored()
    }

    /// Returns the outstanding fetches.
    pub fn fetches(&self) -> &Fetches
        ensures { result.now ≡ fetches_of self.now }
    {
        self.plan.fetches()
    }

    /// Returns the resolver, whose state serves peers that lag.
    pub fn resolver(&self) -> &LawfulResolver
        ensures { result.now ≡ self.now.plan.repair.resolver }
    {
        self.plan.resolver()
    }

    /// Returns the member's state, with its views, leaders and certificates; `None` once the member has failed.
    pub fn state(&self) -> Option<&State<S, L, D>>
        ensures life { option_copied result ≡ self.now.core.member.facts.life }
        ensures started { IfSome result (λ state. (state.now.failed ≡ false) × (is_started state.now ≡ true)) }
    {
        self.core.state()
    }

    /// Returns the record, oldest entry first.
    pub fn record(&self) -> &[Artifact<S, D>]
        ensures entries { entries_of S.certificate_bytes result.now ≡ self.now.core.member.facts.entries }
        ensures votes { votes_of result.now ≡ self.now.core.member.votes }
    {
        self.core.record()
    }

    /// Does nothing: its contract is the laws of all outputs so far, and of all that the member has done.
    ///
    /// - `behind`: a vote comes after an output that stores it, with that signature.
    /// - `stored`: until the engine fails, a journal that carries out all returned and queued outputs holds the record,
    ///   and what a journal stores beside it.
    /// - `emitted`: until it fails, each vote in that journal was returned or is queued. The exceptions are votes of
    ///   the record that the lifetime began with; the first output stores them.
    /// - `stops`: until it fails, a host may stop after any output. Its journal is then the record of a member that the
    ///   engine's member was, and that member had signed each vote among these outputs (`stops_are_resumed`).
    /// - `finals`: the member accepted the finalization of each proposal that was reported as final.
    /// - `signed`: each vote that was returned is the member's own, with a signature on the vote's own subject under
    ///   the member's key.
    /// - `rising`: the views of these proposals rise.
    /// - `last`: the last of them, returned or queued, is of the member's last finalized view.
    /// - `lawful`: the member keeps the voting rules over all its lifetimes.
    /// - `ran`: a network of `agreement` may have it as member `i`.
    /// - `once`: the record holds each entry once: at most seven of a view.
    /// - `times_out`: the member's current view has a timeout, and lies above the last finalized one.
    pub fn keeps_the_laws(&self)
        ensures behind { (given : _) → IsJournaled S.certificate_bytes given self.now.core → AreBehind [] given }
        ensures stored { (given : _) → IsJournaled S.certificate_bytes given self.now.core
            → self.now.core.failed ≡ false
            → IsWhole S.certificate_bytes self.now.core
            → IsRecordOf S.certificate_bytes self.now.core.member
            (journal_of (given ++ self.now.core.outbox.queue.items)) }
        ensures emitted { (given : _) → IsJournaled S.certificate_bytes given self.now.core
            → self.now.core.failed ≡ false
            → AllAreReturned (given ++ self.now.core.outbox.queue.items) }
        ensures stops { (term_length i : _) (earlier given all : _)
            → IsTraced D.eq L.elect S.certificate_bytes term_length i earlier given all self.now.core
            → self.now.core.failed ≡ false
            → EachStopIsLawful D.eq L.elect S.certificate_bytes term_length i earlier all
            (given ++ self.now.core.outbox.queue.items) }
        ensures finals { (term_length i : _) (earlier given all : _)
            → IsTraced D.eq L.elect S.certificate_bytes term_length i earlier given all self.now.core
            → WereAccepted all (finals_in given) }
        ensures signed { (i key given vote : _) → IsSignedBy S.IsSignature i key given self.now.core
            → AreBehind [] given
            → Contains given (output.Vote vote) → (vote.signer ≡ i) × S.IsSignature key vote.subject vote.signature }
        ensures rising { (given : _) → IsJournaled S.certificate_bytes given self.now.core
            → RiseByView (finals_in given) }
        ensures last { (given : _) → IsJournaled S.certificate_bytes given self.now.core
            → IfSome self.now.core.member.facts.life (λ x.
            EndsAt x.finalized (finals_in (given ++ self.now.core.outbox.queue.items))) }
        ensures lawful { OfEachHistory D.eq L.elect self.now.core.member.facts
            (λ term_length i all. IsLawful term_length all) }
        ensures ran { OfEachHistory D.eq L.elect self.now.core.member.facts (MayBeHistoryOf S.PublicKey D.eq L.elect) }
        ensures once { OfEachHistory D.eq L.elect self.now.core.member.facts
            (λ term_length i all. HoldsEachEntryOnce self.now.core.member.facts) }
        ensures times_out { OfEachHistory D.eq L.elect self.now.core.member.facts
            (λ term_length i all. IfSome self.now.core.member.facts.life CurrentTimesOut) }
    {
        self.core.keeps_the_laws();
    }
}
