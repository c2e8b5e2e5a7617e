//! A member behind a handle, with its last reply: the host reads there what flat replies leave out, which never takes
//! memory.

ghost use Rattle.std.specs.Prelude.{IfOk, IfErr, ◌≡◌, ◌≤◌, MatchOption, Some, length, slice_get};

use crate::flat::{FlatCall, FlatFetch, FlatProposal, FlatReply, FlatSettings};
use crate::flat_calls::call_of;
use crate::flat_replies::{HostReply, flat_proposal, flat_reply, unanswered};
use crate::settings::{SettingsError, start_of};
use bytes::BytesMut;
use ffi_scheme::elector::HostElector;
use ffi_scheme::scheme::{HostDigest, HostScheme};
use simplex_member::member::{Member, RecoverError, Reply};
use simplex_types::types::{Certificate, Proposal};
use std::alloc::Global;

/// A member of the host.
pub type HostMember = Member<HostScheme, HostElector, HostDigest>;

/// A reply's status if one of the call's numbers is not valid for a kind, reason or verdict: no call was made.
pub const STATUS_NO_CALL: u32 = 6;

/// A reply's status if there was no memory for the call's certificate: no call was made.
pub const STATUS_NOT_MADE: u32 = 7;

/// Why no member starts.
#[derive(Clone, Copy, PartialEq, Eq, Debug)]
pub enum NotStarted {
    Settings(SettingsError),
    /// The floor is refused, or memory ran out.
    Recover(RecoverError),
}

/// A member, its last reply, and the bytes that were last loaded beside it.
#[derive(Drop)]
pub struct Held {
    pub(crate) alloc: Global,
    pub(crate) member: HostMember,
    last: HostReply,
    /// The bytes that were last loaded beside a reply.
    pub(crate) shown: BytesMut,
}

impl Held {
    ghost use Rattle.ffi_member.specs.MemberStart.{IsFresh, IsNotStarted, IsStarted};
    ghost use Rattle.ffi_member.specs.MemberHandles.{IsCallServed, IsFetchAt, IsProposalAt, dropped_in, fetches_in, proposals_in, reply_bytes};

    /// Starts a member that never voted, from flat settings, a table of leaders and the bytes of the floor's
    /// certificate.
    pub fn start(
        alloc: Global,
        flat: &FlatSettings,
        leaders: &[u32],
        certificate: &[u8],
        now: u64,
    ) -> Result<Held, NotStarted>
        ensures refused { IfErr result (IsNotStarted flat.now leaders.now certificate.now now) }
        ensures started { IfOk result (IsStarted flat.now leaders.now certificate.now now) }
    {
        let start = match start_of(alloc, flat, leaders, certificate, now) {
            Ok(start) => start,
            Err(error) => return Err(NotStarted::Settings(error)),
        };
        match Member::start(alloc, start) {
            Ok(member) => Ok(Held::new(alloc, member)),
            Err(error) => Err(NotStarted::Recover(error)),
        }
    }

    /// Returns a member of which no call was made yet.
    pub fn new(alloc: Global, member: HostMember) -> Held
        ensures member { result.member ≡ member }
        ensures fresh { IsFresh result }
    {
        Held {
            alloc,
            member,
            last: Reply::Unit,
            shown: BytesMut::new(alloc),
        }
    }

    /// Makes a call of the member. The reply has everything but a certificate, a text to sign and lists. The functions
    /// below read those until the next call is made.
    pub fn call(&mut self, flat: &FlatCall, certificate: &[u8]) -> FlatReply
        ensures { IsCallServed self.old flat.now certificate.now result self.new }
    {
        match call_of(self.alloc, flat, certificate) {
            Ok(Some(call)) => {
                let reply = self.member.call(call);
                let replied = flat_reply(&reply);
                self.last = reply;
                replied
            }
            Ok(None) => unanswered(STATUS_NO_CALL),
            Err(_) => unanswered(STATUS_NOT_MADE),
        }
    }

    /// Returns the member, to read its state.
    pub fn member(&self) -> &HostMember
        ensures { result.now ≡ self.now.member }
    {
        &self.member
    }

    /// Returns the text to sign for the vote of the last reply, or the bytes of its certificate; nothing if it has
    /// neither.
    pub fn bytes(&self) -> &[u8]
        ensures { result.now ≡ reply_bytes self.now.last }
    {
        match &self.last {
            Reply::Notarize(Some(vote)) => vote.signature.text.as_slice(),
            Reply::Nullify(Some((_, vote))) => vote.signature.text.as_slice(),
            Reply::Finalize(Some(vote)) => vote.signature.text.as_slice(),
            Reply::Certified(_, Some(it)) => it.certificate.bytes.as_slice(),
            Reply::Certificate(Some(Certificate::Notarization(it))) => it
                .certificate
                .bytes
                .as_slice(),
            Reply::Certificate(Some(Certificate::Nullification(it))) => it
                .certificate
                .bytes
                .as_slice(),
            Reply::Certificate(Some(Certificate::Finalization(it))) => it
                .certificate
                .bytes
                .as_slice(),
            _ => &[],
        }
    }

    /// Returns a proposal that the last reply offers for certification.
    pub fn proposal_at(&self, index: usize) -> Option<FlatProposal>
        ensures { MatchOption result (length (proposals_in self.now.last) ≤ index)
            (IsProposalAt (proposals_in self.now.last) index) }
    {
        let proposal = self.offered(index)?;
        Some(flat_proposal(proposal))
    }

    fn offered(&self, index: usize) -> Option<&Proposal<HostDigest>>
        ensures { MatchOption result (length (proposals_in self.now.last) ≤ index)
            (λ proposal. slice_get (proposals_in self.now.last) index ≡ Some proposal.now) }
    {
        match &self.last {
            Reply::Candidates(proposals, _) => proposals.get(index),
            _ => None,
        }
    }

    /// Returns a certificate that the last reply asks to be fetched.
    pub fn fetch_at(&self, index: usize) -> Option<FlatFetch>
        ensures { MatchOption result (length (fetches_in self.now.last) ≤ index)
            (IsFetchAt (fetches_in self.now.last) index) }
    {
        match &self.last {
            Reply::Candidates(_, fetches) => {
                let fetch = fetches.get(index)?;
                Some(FlatFetch {
                    proposal: fetch.proposal.get(),
                    view: fetch.view.get(),
                })
            }
            _ => None,
        }
    }

    /// Returns a view that the last reply dropped.
    pub fn dropped_at(&self, index: usize) -> Option<u64>
        ensures { MatchOption result (length (dropped_in self.now.last) ≤ index)
            (λ view. slice_get (dropped_in self.now.last) index ≡ Some view) }
    {
        match &self.last {
            Reply::Views(views) => {
                let view = views.get(index)?;
                Some(view.get())
            }
            _ => None,
        }
    }
}
