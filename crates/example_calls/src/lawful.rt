//! Callers of a lawful member and of agreement: what the laws say of the values that an engine has.

ghost use Rattle.std.specs.Prelude.{◌≡◌, true};
ghost use Rattle.simplex_types.specs.declared.types.messages.Subject.TheVariants.{Finalize};
ghost use Rattle.laws_safety.specs.MemberHistory.{OfEachHistory};
ghost use Rattle.laws_safety.specs.Replicas.{OfEachNetwork, Backed};
ghost use Rattle.example_calls.specs.FinalizeVotes.{FinalizesOneProposal};

use lawful_member::lawful::LawfulMember;
use laws_safety::laws::agreement;
use simplex_types::types::{Digest, Elector, Proposal, Scheme};

/// Does nothing: its contract is what `keeps_the_laws` says of such votes. All votes to finalize one view that a member
/// has signed, in any of its lifetimes, are for one proposal.
pub fn a_view_is_finalized_once<S: Scheme<D>, L: Elector<S>, D: Digest>(
    member: &LawfulMember<S, L, D>,
)
    ensures { OfEachHistory D.eq L.elect member.now.facts (λ term_length i all. FinalizesOneProposal all) }
{
    member.keeps_the_laws();
}

/// Returns whether two proposals have one payload. If both are of one view, and the votes of a network back a
/// finalization of each, they do.
pub fn blocks_agree<S: Scheme<D>, L: Elector<S>, D: Digest>(
    mine: &Proposal<D>,
    theirs: &Proposal<D>,
) -> bool
    ensures answer { result ≡ D.eq mine.now.payload theirs.now.payload }
    ensures agreed { OfEachNetwork S.PublicKey D.eq L.elect (λ term_length network.
        Backed network (Finalize mine.now) → Backed network (Finalize theirs.now)
        → mine.now.round.view ≡ theirs.now.round.view → result ≡ true) }
{
    agreement::<S, L, D>();
    mine.payload == theirs.payload
}
