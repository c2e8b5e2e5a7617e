//! Votes of any kind, as one type.

ghost use Rattle.std.specs.Prelude.{◌≡◌, ◌↔◌, IsTrue};
ghost use Rattle.simplex_types.specs.Proposal.{same_proposal};
ghost use Rattle.simplex_types.specs.MessageViews.{subject_view};
ghost use Rattle.engine_votes.specs.Subjects.{same_subject, subject_round};

use simplex_types::types::{Digest, Participant, Proposal, Round, Subject};

/// A member's vote: its subject, its signer, and the signature, of type `G`.
#[derive(Drop)]
pub struct Vote<D, G> {
    pub subject: Subject<D>,
    pub signer: Participant,
    pub signature: G,
}

/// Returns the epoch and the view of a vote.
pub fn round_of<D: Copy>(subject: &Subject<D>) -> Round
    ensures round { result ≡ subject_round subject.now }
    ensures view { result.view ≡ subject_view subject.now }
{
    match subject {
        Subject::Notarize(proposal) => proposal.round,
        Subject::Nullify(round) => *round,
        Subject::Finalize(proposal) => proposal.round,
    }
}

/// Returns whether two votes are on the same subject: of one kind, on one proposal or round.
pub fn is_same_subject<D: Digest>(one: &Subject<D>, other: &Subject<D>) -> bool
    ensures same { result ≡ same_subject D.eq one.now other.now }
    ensures decided { IsTrue result ↔ (one.now ≡ other.now) }
{
    match one {
        Subject::Notarize(proposal) => match other {
            Subject::Notarize(rival) => is_same_proposal(proposal, rival),
            _ => false,
        },
        Subject::Nullify(round) => match other {
            Subject::Nullify(rival) => round == rival,
            _ => false,
        },
        Subject::Finalize(proposal) => match other {
            Subject::Finalize(rival) => is_same_proposal(proposal, rival),
            _ => false,
        },
    }
}

/// Returns whether two proposals are the same.
fn is_same_proposal<D: Digest>(one: &Proposal<D>, other: &Proposal<D>) -> bool
    ensures same { result ≡ same_proposal D.eq one.now other.now }
    ensures decided { IsTrue result ↔ (one.now ≡ other.now) }
{
    one == other
}
