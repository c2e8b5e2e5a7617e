//! An engine behind a handle, with its last output: the host reads that output's bytes, which never takes memory.

ghost use Rattle.std.specs.Prelude.{◌≡◌, ◌++◌, ◌+◌, ◌-◌, ◌^◌, [], true, false, min, length, Contains, None, OnOk, IfSome};
ghost use Rattle.ffi_member.specs.Journals.{framed};
ghost use Rattle.ffi_member.specs.Resumption.{IsFlatStored};
ghost use Rattle.ffi_member.specs.Statuses.{not_written_number};
ghost use Rattle.ffi_engine.specs.declared.output_kind.OutputKind.TheVariants as output_kind;
ghost use Rattle.ffi_engine.specs.Outputs.{output_number};

use crate::flat::{FlatInput, FlatOutput, FlatTaken};
use crate::input::{HostInput, input_of};
use crate::input_kind::is_number_of_votes;
use crate::output::{
    HostEngine, HostOutput, NOTHING_STORED, flat_output, other_signature, output_of, signature_in,
};
use crate::output_kind::OutputKind;
use bytes::BytesMut;
use engine_outbox::output::Output;
use ffi_member::journal::{HostArtifact, NotWritten, write_entries};
use ffi_member::numbers::{number_of_fault, number_of_flag};
use ffi_member::statuses::number_of_not_written;
use ffi_member::view_types::FlatStored;
use ffi_scheme::scheme::Namespace;
use simplex_member::member::Stored;
use simplex_types::types::Fault;
use std::alloc::Global;

/// The status if one of an input's numbers is not valid: nothing was passed to the engine.
pub const STATUS_NO_INPUT: u32 = 6;

/// The status if there was no memory for a signature or a certificate: nothing was passed to the engine.
pub const STATUS_NOT_PASSED: u32 = 7;

/// An engine, and its last output.
#[derive(Drop)]
pub struct HeldEngine {
    pub(crate) alloc: Global,
    pub(crate) engine: HostEngine,
    /// The namespace of the engine's network.
    namespace: Namespace,
    /// 1 if leaders are drawn from certificates: then no certificates are made of votes, and no votes are taken.
    draws: u32,
    /// Entries to store could not be written as frames, and nothing more is returned.
    pub(crate) is_lost: bool,
    last: Option<HostOutput>,
    /// The entries to store, as frames.
    frames: BytesMut,
    /// The data stored beside a journal, once the journal has all returned outputs.
    stored: FlatStored,
    /// The bytes that were last loaded beside an output.
    pub(crate) shown: BytesMut,
}

impl HeldEngine {
    ghost use Rattle.ffi_engine.specs.EngineHandles.{HasShownNothing, IsReturned, IsHandled, IsNothing, IsPolled, IsReadAs, AreFramed, Takes};
    ghost use Rattle.ffi_engine.specs.EngineHandles.{HoldsRecord, IsAllReturned, first_bytes, second_bytes};
    ghost use Rattle.laws_safety.specs.Lawful.{IsLawful};
    ghost use Rattle.laws_safety.specs.MemberHistory.{OfEachHistory, MayBeHistoryOf};
    ghost use Rattle.laws_safety.specs.RecordsOnce.{HoldsEachEntryOnce};
    ghost use Rattle.laws_safety.specs.LifetimeLaws.{CurrentTimesOut};
    ghost use Rattle.engine_outbox.specs.EmittedVotes.{AllAreReturned};
    ghost use Rattle.engine_outbox.specs.Outputs.{AreBehind};
    ghost use Rattle.engine_outbox.specs.Finalizations.{finals_in, EndsAt, RiseByView, WereAccepted};
    ghost use Rattle.engine_outbox.specs.Continuity.{IsTraced};
    ghost use Rattle.simplex_codec.specs.Digests.{bytes_in_digest};
    ghost use Rattle.engine_outbox.specs.Signatures.{IsSignedBy};
    ghost use Rattle.engine_outbox.specs.declared.output.Output.TheVariants as output;
    ghost use Rattle.engine_outbox.specs.HostStops.{EachStopIsLawful};
    ghost use Rattle.ffi_scheme.specs.Host.{certificate_bytes, IsOrder};
    ghost use Rattle.ffi_member.specs.MemberHandles.{host_leader, same_host_payload};
    ghost use Rattle.ffi_scheme.specs.declared.scheme.HostKey.{HostKey};

    /// Returns an engine that has returned no output yet.
    pub(crate) fn new(
        alloc: Global,
        engine: HostEngine,
        namespace: Namespace,
        draws: u32,
    ) -> HeldEngine
        ensures engine { result.engine ≡ engine }
        ensures namespace { result.namespace ≡ namespace }
        ensures draws { result.draws ≡ draws }
        ensures fresh { HasShownNothing result }
    {
        HeldEngine {
            alloc,
            engine,
            namespace,
            draws,
            is_lost: false,
            last: None,
            frames: BytesMut::new(alloc),
            stored: NOTHING_STORED,
            shown: BytesMut::new(alloc),
        }
    }

    /// Passes an input to the engine. `bytes` are a vote's signature, or a certificate.
    pub fn handle(&mut self, flat: &FlatInput, bytes: &[u8], now: u64) -> FlatTaken
        ensures { IsHandled now self.old flat.now bytes.now result self.new }
    {
        if self.draws == 1 && is_number_of_votes(flat.kind) {
            return untaken(STATUS_NO_INPUT);
        }
        match input_of(self.alloc, &self.namespace, flat, bytes) {
            Ok(Some(input)) => self.take(input, now),
            Ok(None) => untaken(STATUS_NO_INPUT),
            Err(_) => untaken(STATUS_NOT_PASSED),
        }
    }

    fn take(&mut self, input: HostInput, now: u64) -> FlatTaken
        ensures { Takes now input self.old result self.new }
    {
        if self.is_lost {
            return untaken(number_of_fault(Fault::Failed));
        }
        match self.engine.handle(input, now) {
            Ok(is_of_use) => FlatTaken {
                status: 0,
                is_of_use: number_of_flag(is_of_use),
            },
            Err(fault) => untaken(number_of_fault(fault)),
        }
    }

    /// Returns the next output to carry out, at a moment in milliseconds.
    pub fn poll(&mut self, now: u64) -> FlatOutput
        ensures { IsPolled now self.old result self.new }
    {
        self.last = None;
        self.frames.clear();
        self.poll_engine(now)
    }

    /// Returns the next output to carry out, once the host no longer reads the output before.
    fn poll_engine(&mut self, now: u64) -> FlatOutput
        requires last { self.old.last ≡ None }
        requires empty { self.old.frames.items ≡ [] }
        ensures { IsPolled now self.old result self.new }
    {
        if self.is_lost {
            return no_output(number_of_fault(Fault::Failed));
        }
        match self.engine.poll(now) {
            Ok(Some(output)) => self.give_out(output),
            Ok(None) => no_output(0),
            Err(fault) => no_output(number_of_fault(fault)),
        }
    }

    /// Returns an output. If its entries find no memory as frames, nothing after it ever leaves, since it was not
    /// stored.
    fn give_out(&mut self, output: HostOutput) -> FlatOutput
        requires empty { self.old.frames.items ≡ [] }
        requires last { self.old.last ≡ None }
        requires going { self.old.is_lost ≡ false }
        ensures given { IsReturned output self.old.stored result self.new }
        ensures rest { (self.new.engine ≡ self.old.engine) × (self.new.namespace ≡ self.old.namespace)
            × (self.new.draws ≡ self.old.draws) × (self.new.shown ≡ self.old.shown) }
    {
        match self.write(&output) {
            Ok(()) => self.keep(output),
            Err(error) => self.lose(error),
        }
    }

    fn lose(&mut self, error: NotWritten) -> FlatOutput
        requires { self.old.last ≡ None }
        ensures nothing { IsNothing (not_written_number error) result self.new }
        ensures lost { self.new.is_lost ≡ true }
        ensures rest { (self.new.engine ≡ self.old.engine) × (self.new.namespace ≡ self.old.namespace)
            × (self.new.draws ≡ self.old.draws) × (self.new.shown ≡ self.old.shown) }
    {
        self.is_lost = true;
        self.frames.clear();
        no_output(number_of_not_written(error))
    }

    fn keep(&mut self, output: HostOutput) -> FlatOutput
        ensures read { IsReadAs output result self.new }
        ensures rest { self.new ≡ record self.old { last = self.new.last } }
    {
        let flat = flat_output(&output);
        self.last = Some(output);
        FlatOutput {
            bytes: self.first_bytes().len() as u64,
            other_bytes: self.second_bytes().len() as u64,
            stored: self.stored,
            ..flat
        }
    }

    /// Writes the entries to store as frames, and counts them.
    fn write(&mut self, output: &HostOutput) -> Result<(), NotWritten>
        requires { self.old.frames.items ≡ [] }
        ensures written { OnOk result (AreFramed output.now self.old.stored self.new.frames.items self.new.stored) }
        ensures rest { self.new ≡ record self.old { frames = self.new.frames; stored = self.new.stored } }
    {
        match output {
            Output::Store(entries) => self.write_behind(entries),
            Output::Replace(entries, beside) => self.write_anew(entries, beside),
            _ => Ok(()),
        }
    }

    fn write_behind(&mut self, entries: &[HostArtifact]) -> Result<(), NotWritten>
        requires { self.old.frames.items ≡ [] }
        ensures written { OnOk result (self.new.frames.items ≡ framed entries.now) }
        ensures stored { OnOk result (self.new.stored
            ≡ record self.old.stored { entries = min (self.old.stored.entries + length entries.now) (2 ^ 64 - 1) }) }
        ensures rest { self.new ≡ record self.old { frames = self.new.frames; stored = self.new.stored } }
    {
        write_entries(self.alloc, &mut self.frames, entries)?;
        self.stored.entries = self.stored.entries.saturating_add(entries.len() as u64);
        Ok(())
    }

    fn write_anew(&mut self, entries: &[HostArtifact], beside: &Stored) -> Result<(), NotWritten>
        requires { self.old.frames.items ≡ [] }
        ensures written { OnOk result (self.new.frames.items ≡ framed entries.now) }
        ensures entries { OnOk result (self.new.stored.entries ≡ length entries.now) }
        ensures stored { OnOk result (IsFlatStored self.new.stored beside.now) }
        ensures rest { self.new ≡ record self.old { frames = self.new.frames; stored = self.new.stored } }
    {
        write_entries(self.alloc, &mut self.frames, entries)?;
        self.stored = stored_beside(entries.len(), beside);
        Ok(())
    }

    /// Returns the bytes of the last output: entries as frames, the text to sign, a certificate, or the first signature
    /// of two.
    pub fn first_bytes(&self) -> &[u8]
        ensures { result.now ≡ first_bytes self.now }
    {
        match &self.last {
            Some(Output::Store(_)) | Some(Output::Replace(_, _)) => self.frames.as_slice(),
            Some(output) => signature_in(output),
            None => &[],
        }
    }

    /// Does nothing: its contract is the laws of all outputs that it returned, and of all that its member has done.
    ///
    /// - `behind`: each vote comes after an output that stores it, with exactly its order.
    /// - `stored`: if all of the record was returned, a journal that carries out all returned outputs holds the record,
    ///   and what a journal stores beside it.
    /// - `emitted`: until it fails, each stored vote was returned or is queued. The exceptions are votes of the record
    ///   that the lifetime began with; the first output stores them.
    /// - `stops`: until it fails, a host may stop after each output that was returned: the journal is then the record
    ///   of a member that the engine's member was, which had signed each vote among these outputs.
    /// - `finals`: of each proposal that it reported as final, its member accepted the finalization.
    /// - `signed`: each vote that it returned is its member's, an order to sign exactly the vote's own bytes with the
    ///   member's key.
    /// - `rising`: the views of the proposals that it reported as final rise.
    /// - `last`: the last of them, returned or queued, is of the member's last finalized view.
    /// - `lawful`: what its member has done keeps the voting rules, over all its lifetimes.
    /// - `ran`: a network of `agreement` may have it as member `i`.
    /// - `once`: its record holds each entry once: of each view at most seven.
    /// - `times_out`: the member's current view has a timeout, and lies above the last finalized one.
    pub fn keeps_the_laws(&self)
        ensures behind { (given : _) → IsAllReturned given self.now → self.now.is_lost ≡ false → AreBehind [] given }
        ensures stored { (given : _) → IsAllReturned given self.now → self.now.is_lost ≡ false
            → HoldsRecord given self.now }
        ensures emitted { (given : _) → IsAllReturned given self.now → self.now.is_lost ≡ false
            → self.now.engine.core.failed ≡ false
            → AllAreReturned (given ++ self.now.engine.core.outbox.queue.items) }
        ensures stops { (term_length i : _) (earlier given all : _)
            → IsTraced same_host_payload host_leader certificate_bytes term_length i earlier given all
            self.now.engine.core
            → self.now.engine.core.failed ≡ false
            → EachStopIsLawful same_host_payload host_leader certificate_bytes term_length i earlier all
            (given ++ self.now.engine.core.outbox.queue.items) }
        ensures finals { (term_length i : _) (earlier given all : _)
            → IsTraced same_host_payload host_leader certificate_bytes term_length i earlier given all
            self.now.engine.core
            → WereAccepted all (finals_in given) }
        ensures signed { (i key given vote : _) → IsSignedBy (IsOrder bytes_in_digest) i key given self.now.engine.core
            → AreBehind [] given
            → Contains given (output.Vote vote) → (vote.signer ≡ i)
            × IsOrder bytes_in_digest key vote.subject vote.signature }
        ensures rising { (given : _) → IsAllReturned given self.now → self.now.is_lost ≡ false
            → RiseByView (finals_in given) }
        ensures last { (given : _) → IsAllReturned given self.now → self.now.is_lost ≡ false
            → IfSome self.now.engine.core.member.facts.life (λ x.
            EndsAt x.finalized (finals_in (given ++ self.now.engine.core.outbox.queue.items))) }
        ensures lawful { OfEachHistory same_host_payload host_leader self.now.engine.core.member.facts
            (λ term_length i all. IsLawful term_length all) }
        ensures ran { OfEachHistory same_host_payload host_leader self.now.engine.core.member.facts
            (MayBeHistoryOf HostKey same_host_payload host_leader) }
        ensures once { OfEachHistory same_host_payload host_leader self.now.engine.core.member.facts
            (λ term_length i all.
            HoldsEachEntryOnce self.now.engine.core.member.facts) }
        ensures times_out { OfEachHistory same_host_payload host_leader self.now.engine.core.member.facts
            (λ term_length i all. IfSome self.now.engine.core.member.facts.life CurrentTimesOut) }
    {
        self.engine.keeps_the_laws();
    }

    /// Returns the second signature of two.
    pub fn second_bytes(&self) -> &[u8]
        ensures { result.now ≡ second_bytes self.now }
    {
        match &self.last {
            Some(output) => other_signature(output),
            None => &[],
        }
    }
}

/// Returns what is stored beside this number of entries.
fn stored_beside(entries: usize, beside: &Stored) -> FlatStored
    ensures entries { result.entries ≡ entries }
    ensures stored { IsFlatStored result beside.now }
{
    FlatStored {
        entries: entries as u64,
        closed: beside.closed as u64,
        retention: beside.retention.get(),
        least_retention: beside.least_retention.get(),
        is_pruned: number_of_flag(beside.is_pruned),
        reserved: 0,
    }
}

/// Returns the result that nothing was taken, for this status.
pub(crate) fn untaken(status: u32) -> FlatTaken
    ensures { (result.status ≡ status) × (result.is_of_use ≡ 0) }
{
    FlatTaken {
        status,
        is_of_use: 0,
    }
}

/// Returns the result that no output is ready.
pub(crate) fn no_output(status: u32) -> FlatOutput
    ensures status { result.status ≡ status }
    ensures nothing { (result.kind ≡ output_number output_kind.Nothing) × (result.bytes ≡ 0)
        × (result.other_bytes ≡ 0) }
{
    FlatOutput {
        status,
        ..output_of(OutputKind::Nothing)
    }
}
