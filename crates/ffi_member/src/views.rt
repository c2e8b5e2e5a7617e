//! The data that the host can read of a member beside its replies.

ghost use Rattle.std.specs.Prelude.{◌≡◌, ◌≤◌, ◌++◌, true, IfOk, IfSome, OnOk, OnErr, MatchOption, length, take, drop};
ghost use Rattle.std.specs.Option.{IsSome, option_copied};
ghost use Rattle.ffi_member.specs.Numbers.{IsNoKind, certificate_number, index_number};
ghost use Rattle.ffi_member.specs.ShownFacts.{HasAnsweredIn, HasForwardable, IsChunk, IsViewIn, IsSubject, IsText, IsViewOf, ShowsCertificate, certificate_of_kind};
ghost use Rattle.simplex_voter.specs.Refusals.{is_started};
ghost use Rattle.simplex_voter.specs.StateAnswers.{forwardable_of};

use crate::flat::{FlatFetch, FlatProposal, FlatRound};
use crate::flat_calls::{proposal_of, round_in};
use crate::flat_replies::{flat_proposal, flat_round};
use crate::held::Held;
use crate::journal::write_entries;
use crate::kinds::{
    CertificateKind, VoteKind, certificate_kind_of, number_of_certificate, vote_kind_of,
};
use crate::list_kind::{ListKind, list_kind_of};
use crate::numbers::number_of_flag;
use crate::statuses::number_of_not_written;
use crate::view_types::{
    CHUNK, FlatChunk, FlatEntries, FlatFound, FlatItem, FlatStored, FlatText, FlatView,
};
use bytes::{BufMut, BytesMut};
use ffi_scheme::elector::HostElector;
use ffi_scheme::scheme::{HostDigest, HostScheme, Namespace, Order};
use simplex_types::types::{Participant, Proposal, Subject, View};
use simplex_voter::voter::State;
use std::alloc::{AllocError, Global};

/// The state of a member of the host.
pub type HostState = State<HostScheme, HostElector, HostDigest>;

/// An empty proposal.
const NO_PROPOSAL: FlatProposal = FlatProposal {
    round: FlatRound { epoch: 0, view: 0 },
    parent: 0,
    payload: [0; 32],
};

impl Held {
    ghost use Rattle.ffi_member.specs.ShownFacts.{IsChunkOf, IsEntries, IsFound, IsItem, IsItemOf, IsStoredBeside, IsView};

    /// Returns what a journal stores beside the record; also of a member that has failed.
    pub fn stored(&self) -> FlatStored
        ensures { IsStoredBeside self.now.member.facts result }
    {
        let stored = self.member.stored();
        FlatStored {
            entries: self.member.record().len() as u64,
            closed: stored.closed as u64,
            retention: stored.retention.get(),
            least_retention: stored.least_retention.get(),
            is_pruned: number_of_flag(stored.is_pruned),
            reserved: 0,
        }
    }

    /// Loads what was recorded after the first `count` entries, as frames; also of a member that has failed.
    pub fn entries(&mut self, count: u64) -> FlatEntries
        ensures { IsEntries self.old count result self.new }
    {
        self.shown.clear();
        let written = write_entries(
            self.alloc,
            &mut self.shown,
            self.member.record_since(count as usize),
        );
        if let Err(error) = written {
            self.shown.clear();
            return self.entries_of_status(number_of_not_written(error));
        }
        self.entries_of_status(0)
    }

    fn entries_of_status(&self, status: u32) -> FlatEntries
        ensures status { result.status ≡ status }
        ensures bytes { result.bytes ≡ length self.now.shown.items }
        ensures stored { IsStoredBeside self.now.member.facts result.stored }
    {
        FlatEntries {
            status,
            reserved: 0,
            bytes: self.shown.len() as u64,
            stored: self.stored(),
        }
    }

    /// Returns what the member knows, and what it knows of a view.
    pub fn view(&self, view: u64) -> FlatView
        ensures { IsView self.now.member.facts view result }
    {
        view_in(self.member.state(), view)
    }

    /// Loads the bytes of a view's certificate, and returns its subject: 1 asks for a notarization, 2 for a
    /// nullification, 3 for a finalization.
    pub fn certificate(&mut self, kind: u32, view: u64) -> FlatFound
        ensures { IsFound self.old kind view result self.new }
    {
        certificate_in(self.member.state(), kind, view, &mut self.shown)
    }

    /// Returns the bytes that were loaded last.
    pub fn shown(&self) -> &[u8]
        ensures { result.now ≡ self.now.shown.items }
    {
        self.shown.as_slice()
    }

    /// Returns a part of the bytes of the last reply, if `which` is 0, and otherwise of those that were loaded last.
    pub fn chunk(&self, which: u32, from: u64) -> FlatChunk
        ensures { IsChunkOf self.now which from result }
    {
        if which == 0 {
            return chunk_of(self.bytes(), from);
        }
        chunk_of(self.shown(), from)
    }

    /// Returns an item of the last reply's lists: 1 asks for a proposal to certify, 2 for a certificate to fetch, 3 for
    /// a view that was dropped.
    pub fn item(&self, which: u32, index: u64) -> FlatItem
        ensures { IsItem self.now.last which index result }
    {
        match list_kind_of(which) {
            Some(kind) => self.item_of(kind, index as usize),
            None => no_item(),
        }
    }

    /// Returns an item of the last reply's list of a kind.
    fn item_of(&self, kind: ListKind, index: usize) -> FlatItem
        ensures { IsItemOf self.now.last kind index result }
    {
        match kind {
            ListKind::Proposals => proposal_item(self.proposal_at(index)),
            ListKind::Fetches => fetch_item(self.fetch_at(index)),
            ListKind::Dropped => view_item(self.dropped_at(index)),
        }
    }
}

/// Returns what a member in this state knows, and what it knows of a view; a member that has failed has no state.
pub fn view_in(state: Option<&HostState>, view: u64) -> FlatView
    requires { IfSome (option_copied state) (λ x. is_started x ≡ true) }
    ensures { IsViewIn (option_copied state.entry) view result }
{
    match state {
        Some(state) => view_of(state, View::new(view)),
        None => FlatView {
            status: 2,
            ..no_view()
        },
    }
}

/// Loads the bytes of a view's certificate in a state, in place of what was loaded before, and returns its subject.
pub fn certificate_in(
    state: Option<&HostState>,
    kind: u32,
    view: u64,
    shown: &mut BytesMut,
) -> FlatFound
    ensures answered { HasAnsweredIn (option_copied state.entry) kind view result shown.new.items }
    ensures bytes { result.bytes ≡ length shown.new.items }
{
    shown.clear();
    let Some(kind) = certificate_kind_of(kind) else {
        return unfound(6);
    };
    let Some(state) = state else {
        return unfound(2);
    };
    match show_certificate(state, kind, View::new(view), shown) {
        Ok(found) => found,
        Err(_) => {
            shown.clear();
            unfound(1)
        }
    }
}

/// Returns what a state knows, and what it knows of a view.
fn view_of(state: &HostState, view: View) -> FlatView
    requires { is_started state.now ≡ true }
    ensures { IsViewOf state.now view result }
{
    let (has_forwardable, forwardable) = forwardable_of(state, view);
    FlatView {
        status: 0,
        leader: number_of_index(state.leader_index(view)),
        is_tracked: number_of_flag(state.is_tracked(view)),
        admits_vote: number_of_flag(state.admits_vote(view)),
        admits_certificate: number_of_flag(state.admits_certificate(view)),
        voted_nullify: number_of_flag(state.voted_nullify(view)),
        has_notarization: number_of_flag(state.notarization(view).is_some()),
        has_nullification: number_of_flag(state.nullification(view).is_some()),
        has_finalization: number_of_flag(state.finalization(view).is_some()),
        has_forwardable,
        epoch: state.epoch().get(),
        current: state.current_view().get(),
        last_finalized: state.last_finalized().get(),
        min_active: state.min_active().get(),
        forwardable,
    }
}

/// Returns the proposal of a view that may be forwarded, with 1 if there is one.
fn forwardable_of(state: &HostState, view: View) -> (u32, FlatProposal)
    ensures { HasForwardable (forwardable_of state.now view) result.0 result.1 }
{
    match state.forwardable_proposal(view) {
        Some(proposal) => (1, flat_proposal(proposal)),
        None => (0, NO_PROPOSAL),
    }
}

/// Returns the index of a member, or the greatest number if there is none.
fn number_of_index(index: Option<Participant>) -> u32
    ensures { result ≡ index_number index }
{
    match index {
        Some(index) => index.get(),
        None => u32::MAX,
    }
}

/// Returns an empty view, for a member that knows nothing.
pub(crate) fn no_view() -> FlatView {
    FlatView {
        status: 0,
        leader: u32::MAX,
        is_tracked: 0,
        admits_vote: 0,
        admits_certificate: 0,
        voted_nullify: 0,
        has_notarization: 0,
        has_nullification: 0,
        has_finalization: 0,
        has_forwardable: 0,
        epoch: 0,
        current: 0,
        last_finalized: 0,
        min_active: 0,
        forwardable: NO_PROPOSAL,
    }
}

/// Appends the bytes of a view's certificate to those of `out`.
fn show_certificate(
    state: &HostState,
    kind: CertificateKind,
    view: View,
    out: &mut BytesMut,
) -> Result<FlatFound, AllocError>
    ensures found { IfOk result (λ r. (r.status ≡ 0)
        × ShowsCertificate (certificate_of_kind kind state.now view) r out.old.items out.new.items) }
    ensures wanting { OnErr result (IsSome (certificate_of_kind kind state.now view)) }
{
    match kind {
        CertificateKind::Notarization => match state.notarization(view) {
            Some(it) => show(
                out,
                kind,
                flat_proposal(&it.proposal),
                it.certificate.bytes.as_slice(),
            ),
            None => Ok(unfound(0)),
        },
        CertificateKind::Nullification => match state.nullification(view) {
            Some(it) => show(
                out,
                kind,
                of_round(flat_round(it.round)),
                it.certificate.bytes.as_slice(),
            ),
            None => Ok(unfound(0)),
        },
        CertificateKind::Finalization => match state.finalization(view) {
            Some(it) => show(
                out,
                kind,
                flat_proposal(&it.proposal),
                it.certificate.bytes.as_slice(),
            ),
            None => Ok(unfound(0)),
        },
    }
}

/// Appends bytes to those of `out`.
fn show(
    out: &mut BytesMut,
    kind: CertificateKind,
    proposal: FlatProposal,
    bytes: &[u8],
) -> Result<FlatFound, AllocError>
    ensures found { IfOk result
        (λ r. (r.status ≡ 0) × (r.has ≡ certificate_number kind) × (r.proposal ≡ proposal)
        × (r.bytes ≡ length bytes.now)) }
    ensures written { OnOk result (out.new.items ≡ out.old.items ++ bytes.now) }
{
    out.put_slice(bytes)?;
    Ok(FlatFound {
        status: 0,
        has: number_of_certificate(kind),
        bytes: bytes.len() as u64,
        proposal,
    })
}

/// Returns the subject of a nullification of a round.
fn of_round(round: FlatRound) -> FlatProposal
    ensures { result.round ≡ round }
{
    FlatProposal {
        round,
        ..NO_PROPOSAL
    }
}

/// Returns the result that no certificate is found.
pub(crate) fn unfound(status: u32) -> FlatFound
    ensures status { result.status ≡ status }
    ensures nothing { (result.has ≡ 0) × (result.bytes ≡ 0) }
{
    FlatFound {
        status,
        has: 0,
        bytes: 0,
        proposal: NO_PROPOSAL,
    }
}

fn proposal_item(proposal: Option<FlatProposal>) -> FlatItem
    ensures item { MatchOption proposal (result.has ≡ 0) (λ it. (result.has ≡ 1) × (result.proposal ≡ it)) }
    ensures status { result.status ≡ 0 }
{
    match proposal {
        Some(proposal) => FlatItem {
            has: 1,
            proposal,
            ..no_item()
        },
        None => no_item(),
    }
}

fn fetch_item(fetch: Option<FlatFetch>) -> FlatItem
    ensures item { MatchOption fetch (result.has ≡ 0) (λ it. (result.has ≡ 1) × (result.fetch ≡ it)) }
    ensures status { result.status ≡ 0 }
{
    match fetch {
        Some(fetch) => FlatItem {
            has: 1,
            fetch,
            ..no_item()
        },
        None => no_item(),
    }
}

fn view_item(view: Option<u64>) -> FlatItem
    ensures item { MatchOption view (result.has ≡ 0) (λ it. (result.has ≡ 1) × (result.view ≡ it)) }
    ensures status { result.status ≡ 0 }
{
    match view {
        Some(view) => FlatItem {
            has: 1,
            view,
            ..no_item()
        },
        None => no_item(),
    }
}

/// Returns the result that there is no item.
pub(crate) fn no_item() -> FlatItem
    ensures { (result.status ≡ 0) × (result.has ≡ 0) }
{
    FlatItem {
        status: 0,
        has: 0,
        view: 0,
        fetch: FlatFetch {
            proposal: 0,
            view: 0,
        },
        proposal: NO_PROPOSAL,
    }
}

/// Returns a part of bytes as a chunk.
pub fn chunk_of(bytes: &[u8], from: u64) -> FlatChunk
    ensures { IsChunk bytes.now from result }
{
    let part = part_of(bytes, from);
    let mut chunk = [0; CHUNK];
    chunk[..part.len()].copy_from_slice(part);
    FlatChunk {
        status: 0,
        reserved: 0,
        count: part.len() as u64,
        bytes: chunk,
    }
}

/// Returns a part of bytes, from the byte `from` on, as many as a chunk has room for.
fn part_of(bytes: &[u8], from: u64) -> &[u8]
    ensures part { result.now ≡ take 1024 (drop from bytes.now) }
    ensures room { length result.now ≤ 1024 }
{
    let Some((_, left)) = bytes.split_at_checked(from as usize) else {
        return &[];
    };
    front_of(left)
}

/// Returns the first bytes, as many as a chunk has room for.
fn front_of(bytes: &[u8]) -> &[u8]
    ensures part { result.now ≡ take 1024 bytes.now }
    ensures room { length result.now ≤ 1024 }
{
    match bytes.split_at_checked(CHUNK) {
        Some((part, _)) => part,
        None => bytes,
    }
}

/// Returns the text that a vote of a kind signs in a network: the namespace, then the subject's bytes. For a vote to
/// nullify only the round counts.
pub fn subject_text(
    alloc: Global,
    namespace: &Namespace,
    kind: u32,
    proposal: &FlatProposal,
) -> FlatText
    ensures { IsText namespace.now kind proposal.now result }
{
    let Some(subject) = subject_of(kind, proposal) else {
        return no_text(6);
    };
    match Order::text_in(alloc, namespace, &subject) {
        Ok(text) => text_of(text.as_slice()),
        Err(_) => no_text(1),
    }
}

/// Returns the subject of a vote of a kind; `None` if no vote has the kind.
fn subject_of(kind: u32, proposal: &FlatProposal) -> Option<Subject<HostDigest>>
    ensures { MatchOption result (IsNoKind kind) (IsSubject kind proposal.now) }
{
    Some(match vote_kind_of(kind)? {
        VoteKind::Notarize => Subject::Notarize(proposal_of(proposal)),
        VoteKind::Nullify => Subject::Nullify(round_in(proposal.round)),
        VoteKind::Finalize => Subject::Finalize(proposal_of(proposal)),
    })
}

/// Returns the text of a vote.
fn text_of(text: &[u8]) -> FlatText
    requires { length text.now ≤ 96 }
    ensures status { result.status ≡ 0 }
    ensures count { result.count ≡ length text.now }
    ensures text { take result.count result.bytes ≡ text.now }
{
    let mut bytes = [0; 96];
    bytes[..text.len()].copy_from_slice(text);
    FlatText {
        status: 0,
        count: text.len() as u32,
        bytes,
    }
}

/// Returns the result that there is no text.
fn no_text(status: u32) -> FlatText
    ensures { result.status ≡ status }
{
    FlatText {
        status,
        count: 0,
        bytes: [0; 96],
    }
}
