//! Recording of a member's votes, each before it is returned: the state counts as lost until the vote is recorded.

ghost use Rattle.std.specs.Prelude.{◌≡◌, ◌⊎◌, ◌<◌, ◌++◌, Ok, Err, IfOk, IfErr, OnErr, vec_len, vec_capacity};
ghost use Rattle.simplex_types.specs.declared.types.fault.Fault.TheVariants.{OutOfMemory};
ghost use Rattle.simplex_record.specs.Entries.{entries_of};
ghost use Rattle.simplex_record.specs.Votes.{votes_of};
ghost use Rattle.simplex_member.specs.Calls.{reply_notarize, reply_nullify, reply_finalize};
ghost use Rattle.simplex_member.specs.CallSemantics.{unrepeated_vote, vote_entry};
ghost use Rattle.simplex_member.specs.ReplySignatures.{signed_notarize, signed_nullify, signed_finalize};

use super::recorded_calls::keep;
use simplex_types::types::{
    Artifact, CertificateScheme, Digest, Fault, Finalize, Notarize, Nullify,
};
use std::alloc::Global;

/// Records a vote to nullify that the state made, unless it is a repeat. If there is no memory for a copy, the state is
/// lost.
pub(super) fn store_nullify<S: CertificateScheme, D: Digest>(
    alloc: Global,
    artifacts: &mut Vec<Artifact<S, D>>,
    made: Result<Option<(bool, Nullify<S>)>, Fault>,
) -> Result<Option<(bool, Nullify<S>)>, Fault>
    requires { vec_len artifacts.old < vec_capacity artifacts.old }
    ensures same { IfOk result (λ vote. made ≡ Ok vote) }
    ensures kept { IfOk result (λ vote. entries_of S.certificate_bytes artifacts.new.items
        ≡ entries_of S.certificate_bytes artifacts.old.items ++ unrepeated_vote (reply_nullify vote)) }
    ensures votes { IfOk result
        (λ vote. votes_of artifacts.new.items ≡ votes_of artifacts.old.items ++ signed_nullify vote) }
    ensures same_record { OnErr result
        (entries_of S.certificate_bytes artifacts.new.items ≡ entries_of S.certificate_bytes artifacts.old.items) }
    ensures same_votes { OnErr result (votes_of artifacts.new.items ≡ votes_of artifacts.old.items) }
    ensures refused { IfErr result (λ fault. (made ≡ Err fault) ⊎ (fault ≡ OutOfMemory)) }
{
    let vote = made?;
    if let Some((false, first)) = &vote {
        let Ok(copy) = first.clone(alloc) else {
            return Err(Fault::OutOfMemory);
        };
        keep(artifacts, Artifact::Nullify(copy));
    }
    Ok(vote)
}

/// Records a vote to notarize that the state made. If there is no memory for a copy, the state is lost.
pub(super) fn store_notarize<S: CertificateScheme, D: Digest>(
    alloc: Global,
    artifacts: &mut Vec<Artifact<S, D>>,
    made: Result<Option<Notarize<S, D>>, Fault>,
) -> Result<Option<Notarize<S, D>>, Fault>
    requires { vec_len artifacts.old < vec_capacity artifacts.old }
    ensures same { IfOk result (λ vote. made ≡ Ok vote) }
    ensures kept { IfOk result (λ vote. entries_of S.certificate_bytes artifacts.new.items
        ≡ entries_of S.certificate_bytes artifacts.old.items ++ vote_entry (reply_notarize vote)) }
    ensures votes { IfOk result
        (λ vote. votes_of artifacts.new.items ≡ votes_of artifacts.old.items ++ signed_notarize vote) }
    ensures same_record { OnErr result
        (entries_of S.certificate_bytes artifacts.new.items ≡ entries_of S.certificate_bytes artifacts.old.items) }
    ensures same_votes { OnErr result (votes_of artifacts.new.items ≡ votes_of artifacts.old.items) }
    ensures refused { IfErr result (λ fault. (made ≡ Err fault) ⊎ (fault ≡ OutOfMemory)) }
{
    let vote = made?;
    if let Some(cast) = &vote {
        let Ok(copy) = cast.clone(alloc) else {
            return Err(Fault::OutOfMemory);
        };
        keep(artifacts, Artifact::Notarize(copy));
    }
    Ok(vote)
}

/// Records a vote to finalize that the state made. If there is no memory for a copy, the state is lost.
pub(super) fn store_finalize<S: CertificateScheme, D: Digest>(
    alloc: Global,
    artifacts: &mut Vec<Artifact<S, D>>,
    made: Result<Option<Finalize<S, D>>, Fault>,
) -> Result<Option<Finalize<S, D>>, Fault>
    requires { vec_len artifacts.old < vec_capacity artifacts.old }
    ensures same { IfOk result (λ vote. made ≡ Ok vote) }
    ensures kept { IfOk result (λ vote. entries_of S.certificate_bytes artifacts.new.items
        ≡ entries_of S.certificate_bytes artifacts.old.items ++ vote_entry (reply_finalize vote)) }
    ensures votes { IfOk result
        (λ vote. votes_of artifacts.new.items ≡ votes_of artifacts.old.items ++ signed_finalize vote) }
    ensures same_record { OnErr result
        (entries_of S.certificate_bytes artifacts.new.items ≡ entries_of S.certificate_bytes artifacts.old.items) }
    ensures same_votes { OnErr result (votes_of artifacts.new.items ≡ votes_of artifacts.old.items) }
    ensures refused { IfErr result (λ fault. (made ≡ Err fault) ⊎ (fault ≡ OutOfMemory)) }
{
    let vote = made?;
    if let Some(cast) = &vote {
        let Ok(copy) = cast.clone(alloc) else {
            return Err(Fault::OutOfMemory);
        };
        keep(artifacts, Artifact::Finalize(copy));
    }
    Ok(vote)
}
