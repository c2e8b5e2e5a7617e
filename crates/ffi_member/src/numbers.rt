//! Reasons and verdicts as numbers.

ghost use Rattle.std.specs.Prelude.{◌≡◌, ◌<◌, ◌≤◌, MatchOption};
ghost use Rattle.ffi_member.specs.Numbers.{reason_number, abandoned_number, fault_status, flag_number, member_number};

use ffi_scheme::scheme::HostKey;
use simplex_types::reasons::{HandoffAbandonedReason, TimeoutReason};
use simplex_types::types::Fault;

/// Returns the reason of a number, if it is one's.
pub fn reason_of(number: u32) -> Option<TimeoutReason>
    ensures { MatchOption result (10 ≤ number) (λ reason. (reason_number reason ≡ number) × (number < 10)) }
{
    match number {
        0 => Some(TimeoutReason::Retry),
        1 => Some(TimeoutReason::Inactivity),
        2 => Some(TimeoutReason::LeaderNullify),
        3 => Some(TimeoutReason::LeaderTimeout),
        4 => Some(TimeoutReason::CertificationTimeout),
        5 => Some(TimeoutReason::StallTimeout),
        6 => Some(TimeoutReason::MissingProposal),
        7 => Some(TimeoutReason::IgnoredProposal),
        8 => Some(TimeoutReason::InvalidProposal),
        9 => Some(TimeoutReason::FailedCertification),
        _ => None,
    }
}

/// Returns the flag of 0 and of 1.
pub fn flag_of(number: u32) -> Option<bool>
    ensures { MatchOption result (2 ≤ number) (λ flag. (flag_number flag ≡ number) × (number < 2)) }
{
    match number {
        0 => Some(false),
        1 => Some(true),
        _ => None,
    }
}

/// Returns the number of a reason for a timeout.
pub fn number_of_reason(it: TimeoutReason) -> u32
    ensures { result ≡ reason_number it }
{
    match it {
        TimeoutReason::Retry => 0,
        TimeoutReason::Inactivity => 1,
        TimeoutReason::LeaderNullify => 2,
        TimeoutReason::LeaderTimeout => 3,
        TimeoutReason::CertificationTimeout => 4,
        TimeoutReason::StallTimeout => 5,
        TimeoutReason::MissingProposal => 6,
        TimeoutReason::IgnoredProposal => 7,
        TimeoutReason::InvalidProposal => 8,
        TimeoutReason::FailedCertification => 9,
    }
}

/// Returns the number of a reason to abandon a handoff.
pub fn number_of_abandoned(it: HandoffAbandonedReason) -> u32
    ensures { result ≡ abandoned_number it }
{
    match it {
        HandoffAbandonedReason::ViewExit => 0,
        HandoffAbandonedReason::AncestrySuperseded => 1,
        HandoffAbandonedReason::AncestryInvalidated => 2,
        HandoffAbandonedReason::ParentNullify => 3,
        HandoffAbandonedReason::ViewNullify => 4,
        HandoffAbandonedReason::ResponseClosed => 5,
        HandoffAbandonedReason::IneligibleAtRecording => 6,
    }
}

/// Returns the number of a fault: a reply's status.
pub fn number_of_fault(it: Fault) -> u32
    ensures { result ≡ fault_status it }
{
    match it {
        Fault::OutOfMemory => 1,
        Fault::Failed => 2,
        Fault::ViewTooLarge => 3,
        Fault::TimeOverflow => 4,
    }
}

/// Returns 1 for true, and 0 for false.
pub fn number_of_flag(flag: bool) -> u32
    ensures { result ≡ flag_number flag }
{
    if flag { 1 } else { 0 }
}

/// Returns the index of a member, or the greatest number if there is none.
pub fn number_of_member(member: &Option<HostKey>) -> u32
    ensures { result ≡ member_number member.now }
{
    match member {
        Some(key) => key.index,
        None => u32::MAX,
    }
}
