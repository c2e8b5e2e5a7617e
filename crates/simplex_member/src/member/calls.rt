//! The calls of a member, and their replies.

ghost use Rattle.std.specs.Prelude.{◌≡◌};
ghost use Rattle.simplex_member.specs.Calls.{reply_facts};
ghost use Rattle.simplex_member.specs.MethodContracts.{refusal_facts};

mod certificates;
mod certifications;
mod proposals;
mod servings;
mod timeouts;
mod verifications;
mod votes;

use super::refusal::Refusal;
use simplex_types::reasons::{HandoffAbandonedReason, TimeoutReason};
use simplex_types::types::{
    Certificate, CertificateScheme, Digest, Fault, Finalization, Finalize, Notarization, Notarize,
    Nullification, Nullify, Proposal, View,
};
use simplex_voter::voter::{CertificateFetch, ProposalRequest, Verify};

/// A call of the voter's state, with its arguments. Moments are in milliseconds.
///
/// A method of the state may take a context; its call names the view instead: the open context there is that of the
/// last request to build in that view.
#[derive(Drop)]
pub enum Call<S: CertificateScheme, D> {
    AddNotarization(Notarization<S, D>),
    AddNullification(Nullification<S>, u64),
    AddFinalization(Finalization<S, D>, u64),
    /// Passes a proposal of the view's leader.
    SetProposal(View, Proposal<D>),
    /// Asks what this member must build next.
    TryPropose,
    /// Passes the payload that was built on request in the view.
    Proposed(View, D, u64),
    /// Asks whether the request to build in the view must be replaced by another.
    SupersedeProposalRequest(View),
    /// Asks whether a handoff that is being built in the view must be abandoned, and why.
    PendingHandoffAbandonment(View),
    /// Abandons the request to build in the view.
    ReleaseProposalRequest(View),
    /// Asks which proposal to verify next.
    TryVerify,
    /// Reports that the view's proposal was found valid.
    Verified(View),
    /// Reports that the view's proposal was found invalid, or could not be verified.
    VerificationFailed(View, TimeoutReason, u64),
    ConstructNotarize(View),
    /// Asks which proposals to certify next.
    CertifyCandidates,
    /// Reports that the certification of the view's proposal is under way under a token.
    SetCertifyHandle(View, u64),
    /// Reports the verdict of a view's certification.
    Certified(View, bool, u64),
    ConstructNullify(View, TimeoutReason),
    ConstructFinalize(View),
    BroadcastNotarization(View),
    BroadcastNullification(View),
    BroadcastFinalization(View),
    GetBestCertificate,
    /// Times the view out for a reason that the state doesn't see by itself.
    TriggerTimeout(View, TimeoutReason, u64),
    /// Asks for the next timeout of the current view.
    NextTimeout(u64),
    Prune,
}

/// The reply to a call.
#[derive(Drop)]
pub enum Reply<S: CertificateScheme, D> {
    /// The call was made.
    Unit,
    /// The result of `SetProposal`, `Proposed`, `SupersedeProposalRequest` or `Verified`.
    Flag(bool),
    /// True if the notarization or finalization was newly added, and the key of a leader that equivocated.
    Added(bool, Option<S::PublicKey>),
    /// True if the nullification was newly added.
    AddedNullification(bool),
    /// The request to build, if there is one.
    Request(Option<ProposalRequest<D, S::PublicKey>>),
    /// The proposal to verify, or the certificate to fetch.
    Work(Verify<D, S::PublicKey>),
    /// The proposals to certify, and the notarizations to fetch for others.
    Candidates(Vec<Proposal<D>>, Vec<CertificateFetch>),
    /// The verdict, and the notarization of its view.
    Certified(bool, Option<Notarization<S, D>>),
    Notarize(Option<Notarize<S, D>>),
    /// The vote, and whether it is a repeat.
    Nullify(Option<(bool, Nullify<S>)>),
    Finalize(Option<Finalize<S, D>>),
    Certificate(Option<Certificate<S, D>>),
    /// The moment of the next timeout, in milliseconds, and its reason.
    Timeout(u64, TimeoutReason),
    /// The views that were dropped, rising.
    Views(Vec<View>),
    /// True if a request to build was open in the view.
    Released(bool),
    /// True if the timeout is the one that counts from now on.
    Triggered(bool),
    /// Why a handoff must be abandoned, if it must.
    Abandoned(Option<HandoffAbandonedReason>),
    /// The member was restarted.
    Restarted,
    Fault(Fault),
    /// The host must not make this call now.
    NotAllowed,
}

impl<S: CertificateScheme, D: Digest> Reply<S, D> {
    /// The reply to a refused call.
    pub(super) fn refused(refusal: Refusal) -> Self
        ensures { reply_facts S.certificate_bytes result ≡ refusal_facts refusal }
    {
        match refusal {
            Refusal::Fault(fault) => Reply::Fault(fault),
            Refusal::NotAllowed => Reply::NotAllowed,
        }
    }
}
