//! A resolver behind a handle, with the effects of its last input, and what it last served.

ghost use Rattle.std.specs.Prelude.{◌≡◌, ◌⊎◌, ◌<◌, ◌≤◌, ◌++◌, [], Some, OnOk, OnErr, IfOk, IfErr, IfSome, MatchOption, length};
ghost use Rattle.simplex_types.specs.Certificates.{certificate_facts, notarization_facts};
ghost use Rattle.simplex_types.specs.MessageViews.{certificate_view};
ghost use Rattle.simplex_codec.specs.Digests.{bytes_in_digest};
ghost use Rattle.ffi_scheme.specs.Host.{certificate_bytes};
ghost use Rattle.simplex_resolver.specs.Steps.{highest_named, highest_view, update, verdict};
ghost use Rattle.ffi_member.specs.Numbers.{fault_status, flag_number, verdict_number};
ghost use Rattle.ffi_member.specs.ResolverHandles.{HasNoEffects, HasServed, HasServedOf, IsEffect, IsFlatCertificate, highest_passed, not_replayed_number, view_bytes};
ghost use Rattle.ffi_member.specs.ShownFacts.{IsChunk};

use crate::effect_kind::{EffectKind, number_of_effect};
use crate::flat_calls::{finalization_of, notarization_of, nullification_of};
use crate::flat_replies::STATUS_NOT_ALLOWED;
use crate::held::{STATUS_NO_CALL, STATUS_NOT_MADE};
use crate::journal::{NotRead, read_entries};
use crate::kinds::{CertificateKind, certificate_kind_of, number_of_missing};
use crate::numbers::{flag_of, number_of_fault, number_of_flag};
use crate::resolver_types::{
    FlatEffect, FlatEffects, FlatOutstanding, FlatResolverReply, FlatServed, FlatSettled,
};
use crate::view_types::FlatChunk;
use crate::views::chunk_of;
use bytes::{BufMut, BytesMut};
use ffi_scheme::scheme::{HostDigest, HostScheme};
use simplex_resolver::replay::{LawfulResolver, ReplayError};
use simplex_resolver::resolver::Effect;
use simplex_types::reasons::{FetchReason, Kind};
use simplex_types::types::{Certificate, Fault, Notarization, TermLength, View};
use std::alloc::{AllocError, Global};
use std::collections::BTreeSet;
use std::num::NonZeroU32;

/// The number of a verdict among a resolver's inputs: a certificate has its kind's number there.
const VERDICT: u32 = 4;

/// A certificate of a member of the host.
type HostCertified = Certificate<HostScheme, HostDigest>;

/// Why no resolver starts.
#[derive(Clone, Copy, PartialEq, Eq, Debug)]
pub enum NotReplayed {
    /// A term has no view.
    NoTerm,
    /// The journal is no record.
    Journal(NotRead),
    /// The record is refused, or memory ran out.
    Replay(ReplayError),
}

/// A resolver, the effects of its last input, and what it last served.
#[derive(Drop)]
pub struct HeldResolver {
    alloc: Global,
    resolver: LawfulResolver,
    last: Vec<Effect>,
    served: BytesMut,
}

impl HeldResolver {
    ghost use Rattle.ffi_member.specs.ResolverHandles.{AreOutstanding, IsReplayedFrom, IsEffectAt, IsReceived, IsReceivedAs, IsNotReplayedFrom, IsServedFor, IsSettledAt};

    /// Starts a resolver from the bytes of a journal, with its first fetches open.
    pub fn start(
        alloc: Global,
        term_length: u32,
        journal: &[u8],
    ) -> Result<HeldResolver, NotReplayed>
        ensures begun { IfOk result (IsReplayedFrom term_length journal.now) }
        ensures refused { IfErr result (IsNotReplayedFrom term_length journal.now) }
    {
        let Some(length) = NonZeroU32::new(term_length) else {
            return Err(NotReplayed::NoTerm);
        };
        let entries = match read_entries(alloc, journal) {
            Ok(entries) => entries,
            Err(error) => return Err(NotReplayed::Journal(error)),
        };
        match LawfulResolver::start(alloc, TermLength::new(length), &entries) {
            Ok(resolver) => Ok(HeldResolver {
                alloc,
                resolver,
                last: Vec::new(alloc),
                served: BytesMut::new(alloc),
            }),
            Err(error) => Err(NotReplayed::Replay(error)),
        }
    }

    /// Passes a newly accepted certificate, or a verdict, to the resolver. The functions below read the effects until
    /// the next input.
    pub fn told(&mut self, flat: &FlatResolverReply, certificate: &[u8]) -> FlatEffects
        ensures { IsReceived self.old flat.now certificate.now result self.new }
    {
        let Some(success) = flag_of(flat.success) else {
            return no_effects(STATUS_NO_CALL);
        };
        if flat.proposal.round.view == 0 {
            return no_effects(STATUS_NOT_ALLOWED);
        }
        if flat.kind == VERDICT {
            return self.judged(flat, success, certificate);
        }
        match certificate_in(self.alloc, flat, certificate) {
            Ok(Some(it)) => self.updated(&it),
            Ok(None) => no_effects(STATUS_NO_CALL),
            Err(_) => no_effects(STATUS_NOT_MADE),
        }
    }

    fn judged(&mut self, flat: &FlatResolverReply, success: bool, certificate: &[u8]) -> FlatEffects
        requires kind { flat.now.kind ≡ verdict_number }
        requires success { flag_number success ≡ flat.now.success }
        requires fits { flat.now.success < 2 }
        requires view { 1 ≤ flat.now.proposal.round.view }
        ensures { IsReceived self.old flat.now certificate.now result self.new }
    {
        match notarization_of(self.alloc, &flat.proposal, certificate) {
            Ok(it) => self.certified(it, success),
            Err(_) => no_effects(STATUS_NOT_MADE),
        }
    }

    fn updated(&mut self, certificate: &HostCertified) -> FlatEffects
        requires { 1 ≤ certificate_view certificate.now }
        ensures { IsReceivedAs self.old (highest_view certificate.now)
            (update bytes_in_digest (certificate_facts certificate_bytes certificate.now)) result self.new }
    {
        match self.resolver.updated(certificate) {
            Ok(effects) => self.keep(effects),
            Err(fault) => self.lose(fault),
        }
    }

    fn certified(
        &mut self,
        notarization: Notarization<HostScheme, HostDigest>,
        success: bool,
    ) -> FlatEffects
        requires { 1 ≤ notarization.proposal.round.view }
        ensures { IsReceivedAs self.old (highest_named notarization.proposal)
            (verdict bytes_in_digest (notarization_facts certificate_bytes notarization) success) result self.new }
    {
        match self.resolver.certified(notarization, success) {
            Ok(effects) => self.keep(effects),
            Err(fault) => self.lose(fault),
        }
    }

    /// Stores the effects of an input.
    fn keep(&mut self, effects: Vec<Effect>) -> FlatEffects
        ensures received { (result.status ≡ 0) × (result.count ≡ length effects.items)
            × (result.fetches ≡ length self.old.resolver.open_fetches) }
        ensures kept { self.new ≡ record self.old { last = effects } }
    {
        let count = effects.len() as u64;
        self.last = effects;
        FlatEffects {
            status: 0,
            reserved: 0,
            count,
            fetches: self.resolver.fetches().len() as u64,
        }
    }

    /// Clears the effects after an input that failed.
    fn lose(&mut self, fault: Fault) -> FlatEffects
        ensures received { HasNoEffects (fault_status fault) result }
        ensures kept { (self.new.resolver ≡ self.old.resolver) × (self.new.served ≡ self.old.served) }
        ensures none { self.new.last.items ≡ [] }
    {
        self.last.clear();
        no_effects(number_of_fault(fault))
    }

    /// Returns an effect of the last input.
    pub fn effect(&self, index: u64) -> FlatEffect
        ensures { IsEffectAt self.now.last.items index result }
    {
        match self.last.get(index as usize) {
            Some(effect) => flat_effect(*effect),
            None => no_effect(),
        }
    }

    /// Returns what the resolver knows of a view.
    pub fn settled(&self, view: u64) -> FlatSettled
        ensures { IsSettledAt self.now.resolver view result }
    {
        let view = View::new(view);
        let state = self.resolver.state();
        FlatSettled {
            status: 0,
            is_failed: number_of_flag(state.is_failed()),
            is_open: number_of_flag(self.resolver.fetches().contains(&view)),
            nullification: number_of_flag(state.settled(view, Kind::Nullification)),
            notarization: number_of_flag(state.settled(view, Kind::Notarization)),
            uncertifiable: number_of_flag(state.uncertifiable(view)),
            fetches: self.resolver.fetches().len() as u64,
        }
    }

    /// Loads the views with an open fetch, rising.
    pub fn outstanding(&mut self) -> FlatOutstanding
        ensures { AreOutstanding self.old result self.new }
    {
        self.served.clear();
        if put_views(&mut self.served, self.resolver.fetches()).is_err() {
            self.served.clear();
            return FlatOutstanding {
                status: 1,
                reserved: 0,
                count: 0,
                bytes: 0,
            };
        }
        FlatOutstanding {
            status: 0,
            reserved: 0,
            count: self.resolver.fetches().len() as u64,
            bytes: self.served.len() as u64,
        }
    }

    /// Loads what a peer is served for a view.
    pub fn produce(&mut self, view: u64) -> FlatServed
        ensures { IsServedFor self.old view result self.new }
    {
        serve_in(&self.resolver, view, &mut self.served)
    }

    /// Returns a part of what was served last.
    pub fn chunk(&self, from: u64) -> FlatChunk
        ensures { IsChunk self.now.served.items from result }
    {
        chunk_of(self.served.as_slice(), from)
    }
}

/// Loads what a resolver serves a peer for a view, in place of what was loaded before.
pub fn serve_in(resolver: &LawfulResolver, view: u64, served: &mut BytesMut) -> FlatServed
    ensures view { result.view ≡ view }
    ensures served { HasServedOf resolver.now.state view result served.new.items }
{
    served.clear();
    match resolver.state().produce(View::new(view)) {
        Ok(Some(bytes)) => serve(view, bytes.as_slice(), served),
        Ok(None) => unserved(view, 0),
        Err(fault) => unserved(view, number_of_fault(fault)),
    }
}

fn serve(view: u64, bytes: &[u8], served: &mut BytesMut) -> FlatServed
    requires { served.old.items ≡ [] }
    ensures view { result.view ≡ view }
    ensures served { HasServed (Some bytes.now) result served.new.items }
{
    if served.put_slice(bytes).is_err() {
        served.clear();
        return unserved(view, 1);
    }
    FlatServed {
        status: 0,
        has: 1,
        bytes: bytes.len() as u64,
        view,
    }
}

/// Appends views to the bytes of `out`, eight bytes each.
fn put_views(out: &mut BytesMut, views: &BTreeSet<View>) -> Result<(), AllocError>
    ensures { OnOk result (out.new.items ≡ out.old.items ++ view_bytes views.now.keys) }
{
    let mut rest = views.iter();
    while let Some(view) = rest.next().copied() {
        out.put_u64(view.get())?;
    }
    Ok(())
}

/// Returns the certificate that is passed; `None` if no certificate has the kind.
fn certificate_in(
    alloc: Global,
    flat: &FlatResolverReply,
    bytes: &[u8],
) -> Result<Option<HostCertified>, AllocError>
    ensures made { IfOk result (λ found. MatchOption found ((flat.now.kind ≡ 0) ⊎ (4 ≤ flat.now.kind))
        (λ c. IsFlatCertificate flat.now bytes.now (certificate_facts certificate_bytes c))) }
    ensures view { IfOk result (λ found. IfSome found (λ c. certificate_view c ≡ flat.now.proposal.round.view)) }
    ensures highest { IfOk result (λ found. IfSome found (λ c. highest_view c ≡ highest_passed flat.now)) }
    ensures kind { IfOk result (λ found. IfSome found (λ _. (0 < flat.now.kind) × (flat.now.kind < 4))) }
    ensures wanting { OnErr result ((0 < flat.now.kind) × (flat.now.kind < 4)) }
{
    let Some(kind) = certificate_kind_of(flat.kind) else {
        return Ok(None);
    };
    Ok(Some(match kind {
        CertificateKind::Notarization => {
            Certificate::Notarization(notarization_of(alloc, &flat.proposal, bytes)?)
        }
        CertificateKind::Nullification => {
            Certificate::Nullification(nullification_of(alloc, flat.proposal.round, bytes)?)
        }
        CertificateKind::Finalization => {
            Certificate::Finalization(finalization_of(alloc, &flat.proposal, bytes)?)
        }
    }))
}

pub(crate) fn no_effects(status: u32) -> FlatEffects
    ensures { HasNoEffects status result }
{
    FlatEffects {
        status,
        reserved: 0,
        count: 0,
        fetches: 0,
    }
}

/// Returns the result that a peer is served nothing.
pub fn unserved(view: u64, status: u32) -> FlatServed
    ensures status { result.status ≡ status }
    ensures view { result.view ≡ view }
    ensures nothing { (result.has ≡ 0) × (result.bytes ≡ 0) }
{
    FlatServed {
        status,
        has: 0,
        bytes: 0,
        view,
    }
}

/// Returns the flat form of an effect.
fn flat_effect(effect: Effect) -> FlatEffect
    ensures effect { IsEffect effect result }
    ensures status { result.status ≡ 0 }
{
    match effect {
        Effect::Fetch {
            view,
            cause,
            reason,
        } => FlatEffect {
            kind: number_of_effect(EffectKind::Fetch),
            reason: match reason {
                FetchReason::MissingNullification => 0,
                FetchReason::CertificationFailed => 1,
            },
            view: view.get(),
            cause: cause.get(),
            ..no_effect()
        },
        Effect::Settled { kind, start, end } => FlatEffect {
            kind: number_of_effect(EffectKind::Settled),
            reason: number_of_missing(kind),
            view: start.get(),
            end: end.get(),
            ..no_effect()
        },
        Effect::Finalized(view) => FlatEffect {
            kind: number_of_effect(EffectKind::Finalized),
            view: view.get(),
            ..no_effect()
        },
        Effect::Raised(view) => FlatEffect {
            kind: number_of_effect(EffectKind::Raised),
            view: view.get(),
            ..no_effect()
        },
    }
}

/// Returns the result that there is no effect.
pub(crate) fn no_effect() -> FlatEffect
    ensures { (result.status ≡ 0) × (result.kind ≡ 0) }
{
    FlatEffect {
        status: 0,
        kind: 0,
        reason: 0,
        reserved: 0,
        view: 0,
        cause: 0,
        end: 0,
    }
}

/// Returns the number of an error of a resolver's start.
pub fn number_of_not_replayed(error: NotReplayed) -> u32
    ensures { result ≡ not_replayed_number error }
{
    match error {
        NotReplayed::NoTerm => 9,
        NotReplayed::Journal(NotRead::OutOfMemory) => 1,
        NotReplayed::Journal(NotRead::Damaged(_)) => 12,
        NotReplayed::Journal(NotRead::NoEntry(_, _)) => 13,
        NotReplayed::Replay(ReplayError::OutOfMemory) => 1,
        NotReplayed::Replay(ReplayError::ZeroView) => 42,
        NotReplayed::Replay(ReplayError::ViewTooLarge) => 43,
        NotReplayed::Replay(ReplayError::VerdictWithoutNotarization) => 46,
    }
}
