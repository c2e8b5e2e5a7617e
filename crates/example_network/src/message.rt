//! The messages between members.

use bytes::Bytes;
use engine_fetches::fetches::FetchKind;
use engine_votes::votes::Vote;
use example_engine::digest::BlockDigest;
use example_engine::parts::{Block, Proof};
use example_engine::scheme::{SealScheme, Signature};
use simplex_types::types::{CertificateScheme, Fault, Subject, View};
use std::alloc::Global;

/// A vote. The leader's vote to notarize is its proposal too.
pub type Ballot = Vote<BlockDigest, Signature>;

/// A message.
#[derive(Drop)]
pub enum Message {
    Vote(Ballot),
    Certificate(Proof),
    /// A request for a certificate of this kind.
    Ask(FetchKind, View),
    /// The bytes of a requested certificate.
    Served(Bytes),
}

impl Message {
    /// Returns a copy of the message.
    pub(crate) fn copy(&self, alloc: Global) -> Result<Message, Fault> {
        Ok(match self {
            Message::Vote(vote) => Message::Vote(copy_vote(alloc, vote)?),
            Message::Certificate(proof) => Message::Certificate(proof.clone(alloc)?),
            Message::Ask(kind, view) => Message::Ask(*kind, *view),
            Message::Served(bytes) => Message::Served(bytes.clone()?),
        })
    }
}

/// Returns the proposal of a vote, if it is one to notarize.
pub(crate) fn proposal_of(vote: &Ballot) -> Option<Block> {
    match &vote.subject {
        Subject::Notarize(proposal) => Some(*proposal),
        _ => None,
    }
}

/// Returns a copy of the vote.
pub(crate) fn copy_vote(alloc: Global, vote: &Ballot) -> Result<Ballot, Fault> {
    Ok(Vote {
        subject: vote.subject,
        signer: vote.signer,
        signature: SealScheme::copy_signature(alloc, &vote.signature)?,
    })
}
