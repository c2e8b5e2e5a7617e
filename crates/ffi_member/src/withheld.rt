//! Why a member withholds a vote, as a number.

ghost use Rattle.std.specs.Prelude.{◌≡◌};
ghost use Rattle.std.specs.Option.{option_copied};
ghost use Rattle.ffi_member.specs.Withheld.{IsWithheldIn, withheld_number, withheld_of_vote};

use crate::held::Held;
use crate::kinds::{VoteKind, vote_kind_of};
use crate::view_types::FlatWithheld;
use crate::views::HostState;
use simplex_types::types::View;
use simplex_voter::voter::Withheld;

impl Held {
    ghost use Rattle.ffi_member.specs.Withheld.{IsWithheld};

    /// Returns why the member withholds its vote of a kind on a view: 1 asks for a vote to notarize, 2 to nullify, 3 to
    /// finalize.
    pub fn withheld(&self, kind: u32, view: u64) -> FlatWithheld
        ensures { IsWithheld self.now.member.facts kind view result }
    {
        withheld_in(self.member.state(), kind, view)
    }
}

/// Returns why a member in this state withholds its vote of a kind on a view; a member that has failed has no state.
pub fn withheld_in(state: Option<&HostState>, kind: u32, view: u64) -> FlatWithheld
    ensures { IsWithheldIn (option_copied state.entry) kind view result }
{
    let Some(kind) = vote_kind_of(kind) else {
        return no_reason(6);
    };
    let Some(state) = state else {
        return no_reason(2);
    };
    FlatWithheld {
        status: 0,
        reason: number_of_withheld(withheld_of(state, kind, View::new(view))),
    }
}

/// Returns why a vote of a kind is withheld.
fn withheld_of(state: &HostState, kind: VoteKind, view: View) -> Option<Withheld>
    ensures { result ≡ withheld_of_vote kind state.now view }
{
    match kind {
        VoteKind::Notarize => state.notarize_withheld(view),
        VoteKind::Nullify => state.nullify_withheld(view),
        VoteKind::Finalize => state.finalize_withheld(view),
    }
}

/// Returns the number of a reason; 0 if the vote is not withheld.
fn number_of_withheld(withheld: Option<Withheld>) -> u32
    ensures { result ≡ withheld_number withheld }
{
    match withheld {
        None => 0,
        Some(Withheld::NoKey) => 1,
        Some(Withheld::NotAdmitted) => 2,
        Some(Withheld::AlreadyVoted) => 3,
        Some(Withheld::VotedToNullify) => 4,
        Some(Withheld::VotedToFinalize) => 5,
        Some(Withheld::NoProposal) => 6,
        Some(Withheld::Equivocated) => 7,
        Some(Withheld::NotVerified) => 8,
        Some(Withheld::AncestryNotReady) => 9,
        Some(Withheld::BindingChanged) => 10,
        Some(Withheld::NotCurrent) => 11,
        Some(Withheld::AlreadyFinalized) => 12,
        Some(Withheld::ConflictingNullify) => 13,
        Some(Withheld::ParentNotCertified) => 14,
        Some(Withheld::NotNotarized) => 15,
        Some(Withheld::CertificationFailed) => 16,
        Some(Withheld::NotCertified) => 17,
    }
}

/// Returns the result that there is no reason, for this status.
pub(crate) fn no_reason(status: u32) -> FlatWithheld
    ensures { result.status ≡ status }
{
    FlatWithheld { status, reason: 0 }
}
