//! Callers of a member, proved by its contracts alone: what one reply says of the next.
#![tactic(auto)]

pub mod failed;
pub mod lawful;

ghost use Rattle.std.specs.Prelude.{◌≡◌, ◌++◌, OnOk, IfOk, IfSome, IsNone};
ghost use Rattle.simplex_voter.specs.StateAnswers.{broadcast_notarization_answer};
ghost use Rattle.simplex_member.specs.Calls.{reply_finalize};
ghost use Rattle.simplex_member.specs.CallSemantics.{vote_entry};
ghost use Rattle.simplex_member.specs.ReplySignatures.{signed_finalize};
ghost use Rattle.simplex_member.specs.MethodContracts.{HasNoneLeft};

use simplex_member::member::{Member, Refusal};
use simplex_types::reasons::TimeoutReason;
use simplex_types::types::{Certificate, Digest, Elector, Finalize, Nullify, Scheme, View};

/// A member's votes in one view: one to nullify it, and the reply when it is then asked to finalize it.
#[derive(Drop)]
pub struct Votes<S: Scheme<D>, D: Digest> {
    pub nullify: Nullify<S>,
    pub finalize: Option<Finalize<S, D>>,
}

/// Asks for a vote to nullify a view, and if there is one, for a vote to finalize it, which there is not.
pub fn nullify_then_finalize<S: Scheme<D>, L: Elector<S>, D: Digest>(
    member: &mut Member<S, L, D>,
    view: View,
) -> Result<Option<Votes<S, D>>, Refusal>
    ensures { IfOk result (λ votes. IfSome votes (λ v. IsNone v.finalize)) }
{
    let vote = member.construct_nullify(view, TimeoutReason::LeaderTimeout)?;
    let Some((_, nullify)) = vote else {
        return Ok(None);
    };
    let finalize = member.construct_finalize(view)?;
    Ok(Some(Votes { nullify, finalize }))
}

/// Asks twice for a vote to finalize a view: the second time there is none.
pub fn finalize_twice<S: Scheme<D>, L: Elector<S>, D: Digest>(
    member: &mut Member<S, L, D>,
    view: View,
) -> Result<Option<(Finalize<S, D>, Option<Finalize<S, D>>)>, Refusal>
    ensures { IfOk result (λ votes. IfSome votes (λ v. IsNone v.1)) }
{
    let Some(first) = member.construct_finalize(view)? else {
        return Ok(None);
    };
    let second = member.construct_finalize(view)?;
    Ok(Some((first, second)))
}

/// Returns a vote to finalize a view. It is then the last entry of the record, with exactly the same signature.
pub fn finalize<S: Scheme<D>, L: Elector<S>, D: Digest>(
    member: &mut Member<S, L, D>,
    view: View,
) -> Result<Option<Finalize<S, D>>, Refusal>
    ensures recorded { IfOk result
        (λ vote. member.new.facts.entries ≡ member.old.facts.entries ++ vote_entry (reply_finalize vote)) }
    ensures signed { IfOk result (λ vote. member.new.votes ≡ member.old.votes ++ signed_finalize vote) }
{
    member.construct_finalize(view)
}

/// Takes the notarization of a view to send on, and asks once more: the second time there is none.
pub fn broadcast_twice<S: Scheme<D>, L: Elector<S>, D: Digest>(
    member: &mut Member<S, L, D>,
    view: View,
) -> Result<(Option<Certificate<S, D>>, Option<Certificate<S, D>>), Refusal>
    ensures once { IfOk result (λ handed. IsNone handed.1) }
    ensures none_left { OnOk result (HasNoneLeft broadcast_notarization_answer member.new.facts view) }
{
    let first = member.broadcast_notarization(view)?;
    let second = member.broadcast_notarization(view)?;
    Ok((first, second))
}
