//! Evidence that makes a member accountable: two of its votes that alone show that it broke a rule.

ghost use Rattle.std.specs.Prelude.{◌≡◌, ◌≢◌, ◌↔◌, true, IsTrue};
ghost use Rattle.lawful_member.specs.Evidence.{signed_vote_in, AreEvidence, ShowsABrokenRule};

use simplex_types::types::{Artifact, CertificateScheme, Digest, Proposal};

/// Returns whether two artifacts are votes of one member, in one epoch, that alone show that it broke a rule: two to
/// notarize one view or two to finalize it, on two proposals, or one to nullify a view and one to finalize it. No
/// member that runs this code ever gives such votes, in any of its lifetimes.
///
/// The caller must verify that each signature is the member's; this function does not read signatures.
pub fn is_evidence<S: CertificateScheme, D: Digest>(
    first: &Artifact<S, D>,
    second: &Artifact<S, D>,
) -> bool
    ensures decided { IsTrue result ↔ AreEvidence (signed_vote_in first.now) (signed_vote_in second.now) }
    ensures broken { IsTrue result → ShowsABrokenRule (signed_vote_in first.now) (signed_vote_in second.now) }
{
    contradict(first, second)
}

/// Returns whether they are such votes.
fn contradict<S: CertificateScheme, D: Digest>(
    first: &Artifact<S, D>,
    second: &Artifact<S, D>,
) -> bool
    ensures { IsTrue result ↔ AreEvidence (signed_vote_in first.now) (signed_vote_in second.now) }
{
    match first {
        Artifact::Notarize(one) => match second {
            Artifact::Notarize(other) => {
                one.signer == other.signer && are_rivals(&one.proposal, &other.proposal)
            }
            _ => false,
        },
        Artifact::Finalize(one) => match second {
            Artifact::Finalize(other) => {
                one.signer == other.signer && are_rivals(&one.proposal, &other.proposal)
            }
            Artifact::Nullify(other) => {
                one.signer == other.signer && one.proposal.round == other.round
            }
            _ => false,
        },
        Artifact::Nullify(one) => match second {
            Artifact::Finalize(other) => {
                one.signer == other.signer && one.round == other.proposal.round
            }
            _ => false,
        },
        _ => false,
    }
}

/// Returns whether two proposals are of one round, and differ.
fn are_rivals<D: Digest>(one: &Proposal<D>, other: &Proposal<D>) -> bool
    ensures same_round { result ≡ true → one.now.round ≡ other.now.round }
    ensures apart { result ≡ true → one.now ≢ other.now }
    ensures whole { one.now.round ≡ other.now.round → one.now ≢ other.now → result ≡ true }
{
    one.round == other.round && one != other
}
