//! The kinds of calls, and their numbers.

ghost use Rattle.std.specs.Prelude.{◌≡◌, ◌<◌, ◌≤◌, MatchOption};
ghost use Rattle.ffi_member.specs.Numbers.{kind_number};

/// The kind of a member's call: one for each of `Call`.
#[derive(Clone, Copy, PartialEq, Eq, Debug)]
pub enum CallKind {
    AddNotarization,
    AddNullification,
    AddFinalization,
    SetProposal,
    TryPropose,
    Proposed,
    SupersedeProposalRequest,
    PendingHandoffAbandonment,
    ReleaseProposalRequest,
    TryVerify,
    Verified,
    VerificationFailed,
    CertifyCandidates,
    SetCertifyHandle,
    Certified,
    ConstructNotarize,
    ConstructNullify,
    ConstructFinalize,
    BroadcastNotarization,
    BroadcastNullification,
    BroadcastFinalization,
    GetBestCertificate,
    TriggerTimeout,
    NextTimeout,
    Prune,
}

/// Returns the kind of a number, if it is one's.
pub fn kind_of(number: u32) -> Option<CallKind>
    ensures { MatchOption result (25 ≤ number) (λ kind. (kind_number kind ≡ number) × (number < 25)) }
{
    match number {
        0 => Some(CallKind::AddNotarization),
        1 => Some(CallKind::AddNullification),
        2 => Some(CallKind::AddFinalization),
        3 => Some(CallKind::SetProposal),
        4 => Some(CallKind::TryPropose),
        5 => Some(CallKind::Proposed),
        6 => Some(CallKind::SupersedeProposalRequest),
        7 => Some(CallKind::PendingHandoffAbandonment),
        8 => Some(CallKind::ReleaseProposalRequest),
        9 => Some(CallKind::TryVerify),
        10 => Some(CallKind::Verified),
        11 => Some(CallKind::VerificationFailed),
        12 => Some(CallKind::CertifyCandidates),
        13 => Some(CallKind::SetCertifyHandle),
        14 => Some(CallKind::Certified),
        15 => Some(CallKind::ConstructNotarize),
        16 => Some(CallKind::ConstructNullify),
        17 => Some(CallKind::ConstructFinalize),
        18 => Some(CallKind::BroadcastNotarization),
        19 => Some(CallKind::BroadcastNullification),
        20 => Some(CallKind::BroadcastFinalization),
        21 => Some(CallKind::GetBestCertificate),
        22 => Some(CallKind::TriggerTimeout),
        23 => Some(CallKind::NextTimeout),
        24 => Some(CallKind::Prune),
        _ => None,
    }
}
