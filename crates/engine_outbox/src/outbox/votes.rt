//! Entries and the votes in them, copied.

ghost use Rattle.std.specs.Prelude.{◌≡◌, ◌++◌, map, IfOk, OnOk, None, Some, option_to_list};
ghost use Rattle.std.specs.Option.{option_map_or};
ghost use Rattle.engine_outbox.specs.Entries.{vote_in, votes_of_entries, nullify_in, newest_from, AreCopies};
ghost use Rattle.engine_outbox.specs.declared.output.Output.TheVariants as output;

use crate::output::Output;
use engine_votes::votes::Vote;
use simplex_types::types::{Artifact, CertificateScheme, Digest, Subject};
use std::alloc::{AllocError, Global};
use std::collections::VecDeque;

/// Returns copies of the entries, in order.
pub(super) fn copies<S: CertificateScheme, D: Digest>(
    alloc: Global,
    entries: &[Artifact<S, D>],
) -> Result<Vec<Artifact<S, D>>, AllocError>
    ensures { IfOk result (λ copies. AreCopies S.certificate_bytes entries.now copies.items) }
{
    let mut copies = Vec::new(alloc);
    for entry in entries {
        let Ok(copy) = entry.clone(alloc) else {
            return Err(AllocError);
        };
        copies.push(copy)?;
    }
    Ok(copies)
}

/// Returns an equal vote.
pub(super) fn copy_of<S: CertificateScheme, D: Digest>(
    alloc: Global,
    vote: &Vote<D, S::Signature>,
) -> Result<Vote<D, S::Signature>, AllocError>
    ensures { IfOk result (λ copy. copy ≡ vote.now) }
{
    Ok(Vote {
        subject: vote.subject,
        signer: vote.signer,
        signature: S::copy_signature(alloc, &vote.signature)?,
    })
}

/// Returns the vote that the entry records.
fn vote_in<S: CertificateScheme, D: Digest>(
    alloc: Global,
    entry: &Artifact<S, D>,
) -> Result<Option<Vote<D, S::Signature>>, AllocError>
    ensures { IfOk result (λ vote. vote ≡ vote_in entry.now) }
{
    Ok(match entry {
        Artifact::Notarize(vote) => Some(Vote {
            subject: Subject::Notarize(vote.proposal),
            signer: vote.signer,
            signature: S::copy_signature(alloc, &vote.signature)?,
        }),
        Artifact::Nullify(vote) => Some(Vote {
            subject: Subject::Nullify(vote.round),
            signer: vote.signer,
            signature: S::copy_signature(alloc, &vote.signature)?,
        }),
        Artifact::Finalize(vote) => Some(Vote {
            subject: Subject::Finalize(vote.proposal),
            signer: vote.signer,
            signature: S::copy_signature(alloc, &vote.signature)?,
        }),
        _ => None,
    })
}

/// Returns the votes that the entries record, in order, as they are sent.
pub(super) fn votes_of<S: CertificateScheme, D: Digest, J: Drop>(
    alloc: Global,
    entries: &[Artifact<S, D>],
) -> Result<VecDeque<Output<S, D, J>>, AllocError>
    ensures { IfOk result (λ votes. votes.items ≡ map output.Vote (votes_of_entries entries.now)) }
{
    let mut votes = VecDeque::new(alloc);
    for entry in entries {
        push_vote(alloc, &mut votes, entry)?;
    }
    Ok(votes)
}

/// Appends the vote that the entry records, if there is one.
fn push_vote<S: CertificateScheme, D: Digest, J: Drop>(
    alloc: Global,
    votes: &mut VecDeque<Output<S, D, J>>,
    entry: &Artifact<S, D>,
) -> Result<(), AllocError>
    ensures { OnOk result (votes.new.items ≡ votes.old.items ++ map output.Vote (option_to_list (vote_in entry.now))) }
{
    match vote_in(alloc, entry)? {
        Some(vote) => {
            votes.push_back(Output::Vote(vote))?;
            Ok(())
        }
        None => Ok(()),
    }
}

/// Returns the newest vote to nullify that the entries record.
pub(super) fn newest_nullify<S: CertificateScheme, D: Digest>(
    alloc: Global,
    entries: &[Artifact<S, D>],
) -> Result<Option<Vote<D, S::Signature>>, AllocError>
    ensures { IfOk result (λ newest. newest ≡ newest_from None entries.now) }
{
    let mut newest = None;
    for entry in entries {
        newest = newer(alloc, newest, entry)?;
    }
    Ok(newest)
}

/// Returns the vote to nullify that the entry records, or else the previous one.
fn newer<S: CertificateScheme, D: Digest>(
    alloc: Global,
    before: Option<Vote<D, S::Signature>>,
    entry: &Artifact<S, D>,
) -> Result<Option<Vote<D, S::Signature>>, AllocError>
    ensures { IfOk result (λ newest. newest ≡ option_map_or Some (nullify_in entry.now) before) }
{
    Ok(match entry {
        Artifact::Nullify(vote) => Some(Vote {
            subject: Subject::Nullify(vote.round),
            signer: vote.signer,
            signature: S::copy_signature(alloc, &vote.signature)?,
        }),
        _ => before,
    })
}
