//! Faulty members as leaders: they withhold their proposals, or send different ones to different members.

use crate::message::{Ballot, Message, proposal_of};
use engine_votes::votes::Vote;
use example_engine::digest::BlockDigest;
use example_engine::parts::Block;
use example_engine::scheme::SealScheme;
use simplex_types::types::{Fault, Participant, Proposal, Scheme, Subject, View, Viewable};
use std::alloc::Global;

/// The behavior of a faulty leader in a view.
#[derive(Clone, Copy)]
pub enum Behavior {
    /// It sends its proposal to nobody.
    StaysSilent,
    /// It sends another proposal to one member in four.
    DeceivesFew,
    /// It sends another proposal to one member in two.
    DeceivesHalf,
    /// It sends its proposal to all.
    Obeys,
}

/// Returns what a faulty leader does in the view.
pub(crate) fn behavior_in(view: View) -> Behavior {
    match view.get() / 4 % 4 {
        1 => Behavior::StaysSilent,
        2 => Behavior::DeceivesFew,
        3 => Behavior::DeceivesHalf,
        _ => Behavior::Obeys,
    }
}

/// Returns what a faulty member sends to another in place of its own message, if it sends anything.
pub(crate) fn sent(
    alloc: Global,
    scheme: &SealScheme,
    to: u8,
    message: Message,
    is_leader: bool,
) -> Result<Option<Message>, Fault> {
    match message {
        Message::Vote(vote) if is_leader => shown(alloc, scheme, to, vote),
        message => Ok(Some(message)),
    }
}

/// Returns the vote that a faulty leader sends.
fn shown(
    alloc: Global,
    scheme: &SealScheme,
    to: u8,
    vote: Ballot,
) -> Result<Option<Message>, Fault> {
    let Some(proposal) = proposal_of(&vote) else {
        return Ok(Some(Message::Vote(vote)));
    };
    let signer = vote.signer;
    match behavior_in(proposal.view()) {
        Behavior::StaysSilent => Ok(None),
        Behavior::Obeys => Ok(Some(Message::Vote(vote))),
        Behavior::DeceivesFew if to % 4 == 0 => another(alloc, scheme, signer, &proposal),
        Behavior::DeceivesHalf if to % 2 == 0 => another(alloc, scheme, signer, &proposal),
        Behavior::DeceivesFew | Behavior::DeceivesHalf => Ok(Some(Message::Vote(vote))),
    }
}

/// Returns a vote for another block in the same place.
fn another(
    alloc: Global,
    scheme: &SealScheme,
    signer: Participant,
    proposal: &Block,
) -> Result<Option<Message>, Fault> {
    let payload = BlockDigest::of_block(&proposal.payload, proposal.round.view, 1);
    let subject = Subject::Notarize(Proposal {
        round: proposal.round,
        parent: proposal.parent,
        payload,
    });
    let Some(signature) = scheme.sign(alloc, &subject)? else {
        return Ok(None);
    };
    Ok(Some(Message::Vote(Vote {
        subject,
        signer,
        signature,
    })))
}
