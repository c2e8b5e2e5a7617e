//! The calls of the member that an engine plans.

ghost use Rattle.std.specs.Prelude.{◌≡◌, []};
ghost use Rattle.simplex_member.specs.Calls.{asked};
ghost use Rattle.laws_safety.specs.ObservedTraces.{certificates_in};
ghost use Rattle.engine_planner.specs.Tasks.{call_of};

use simplex_member::member::Call;
use simplex_types::reasons::TimeoutReason;
use simplex_types::types::{CertificateScheme, Digest, Proposal, View};

/// A call of the member that passes no certificate. A variant has the name of its `Call`.
#[derive(Clone, Copy)]
pub enum Task<D> {
    SetProposal(View, Proposal<D>),
    TryPropose,
    Proposed(View, D),
    SupersedeProposalRequest(View),
    PendingHandoffAbandonment(View),
    ReleaseProposalRequest(View),
    TryVerify,
    Verified(View),
    VerificationFailed(View),
    CertifyCandidates,
    SetCertifyHandle(View),
    Certified(View, bool),
    ConstructNotarize(View),
    ConstructFinalize(View),
    ConstructNullify(View, TimeoutReason),
    BroadcastNotarization(View),
    BroadcastNullification(View),
    BroadcastFinalization(View),
    GetBestCertificate,
    TriggerTimeout(View, TimeoutReason),
    NextTimeout,
    Prune,
}

impl<D: Digest> Task<D> {
    /// Returns the call, at a moment in milliseconds.
    pub fn call<S: CertificateScheme>(self, now: u64) -> Call<S, D>
        ensures asked { asked S.certificate_bytes result ≡ call_of self now }
        ensures plain { certificates_in result ≡ [] }
    {
        match self {
            Task::SetProposal(view, proposal) => Call::SetProposal(view, proposal),
            Task::TryPropose => Call::TryPropose,
            Task::Proposed(view, payload) => Call::Proposed(view, payload, now),
            Task::SupersedeProposalRequest(view) => Call::SupersedeProposalRequest(view),
            Task::PendingHandoffAbandonment(view) => Call::PendingHandoffAbandonment(view),
            Task::ReleaseProposalRequest(view) => Call::ReleaseProposalRequest(view),
            Task::TryVerify => Call::TryVerify,
            Task::Verified(view) => Call::Verified(view),
            Task::VerificationFailed(view) => {
                Call::VerificationFailed(view, TimeoutReason::InvalidProposal, now)
            }
            Task::CertifyCandidates => Call::CertifyCandidates,
            Task::SetCertifyHandle(view) => Call::SetCertifyHandle(view, view.get()),
            Task::Certified(view, is_success) => Call::Certified(view, is_success, now),
            Task::ConstructNotarize(view) => Call::ConstructNotarize(view),
            Task::ConstructFinalize(view) => Call::ConstructFinalize(view),
            Task::ConstructNullify(view, reason) => Call::ConstructNullify(view, reason),
            Task::BroadcastNotarization(view) => Call::BroadcastNotarization(view),
            Task::BroadcastNullification(view) => Call::BroadcastNullification(view),
            Task::BroadcastFinalization(view) => Call::BroadcastFinalization(view),
            Task::GetBestCertificate => Call::GetBestCertificate,
            Task::TriggerTimeout(view, reason) => Call::TriggerTimeout(view, reason, now),
            Task::NextTimeout => Call::NextTimeout(now),
            Task::Prune => Call::Prune,
        }
    }
}
