//! Inputs: a member verifies signatures and certificates, and then passes them to the engine.

use super::Node;
use crate::message::{Ballot, Message, proposal_of};
use engine_fetches::fetches::FetchKind;
use example_engine::decode::decode;
use example_engine::parts::Proof;
use simplex_engine::input::Input;
use simplex_types::types::{Fault, Scheme, Subject, View};

impl Node {
    /// Takes a message of a member, and carries out what follows.
    pub(crate) fn receive(&mut self, from: u8, message: Message, now: u64) -> Result<(), Fault> {
        match message {
            Message::Vote(vote) => self.take_vote(vote, now)?,
            Message::Certificate(proof) => self.take_certificate(proof, now)?,
            Message::Ask(kind, view) => self.serve(from, kind, view)?,
            Message::Served(bytes) => {
                if let Ok(proof) = decode(self.alloc, &bytes) {
                    self.take_certificate(proof, now)?;
                }
            }
        }
        self.settle(now)
    }

    /// Takes a vote with a valid signature. One to notarize is a proposal too, if its member leads.
    fn take_vote(&mut self, vote: Ballot, now: u64) -> Result<(), Fault> {
        let is_good = self
            .scheme
            .is_signed_by(self.alloc, vote.signer, &vote.subject, vote.signature)?;
        let Some(engine) = &mut self.engine else {
            return Ok(());
        };
        if !is_good {
            return Ok(());
        }
        if let Some(proposal) = proposal_of(&vote) {
            engine.handle(Input::Proposal(vote.signer, proposal), now)?;
        }
        engine.handle(Input::Vote(vote), now)?;
        Ok(())
    }

    /// Takes a valid certificate.
    fn take_certificate(&mut self, proof: Proof, now: u64) -> Result<(), Fault> {
        let is_good = match &proof {
            Proof::Notarization(it) => self
                .scheme
                .verify(&Subject::Notarize(it.proposal), &it.certificate),
            Proof::Nullification(it) => self
                .scheme
                .verify(&Subject::Nullify(it.round), &it.certificate),
            Proof::Finalization(it) => self
                .scheme
                .verify(&Subject::Finalize(it.proposal), &it.certificate),
        };
        let Some(engine) = &mut self.engine else {
            return Ok(());
        };
        if is_good {
            engine.handle(Input::Certificate(proof), now)?;
        }
        Ok(())
    }

    /// Serves the certificate that a member asks for, or else one that leads past its view.
    fn serve(&mut self, to: u8, kind: FetchKind, view: View) -> Result<(), Fault> {
        let Some(engine) = &self.engine else {
            return Ok(());
        };
        if let (FetchKind::Notarization, Some(state)) = (kind, engine.state()) {
            if let Some(notarization) = state.notarization(view) {
                let copy = notarization.clone(self.alloc)?;
                return self.send_to(to, Message::Certificate(Proof::Notarization(copy)));
            }
        }
        match engine.resolver().state().produce(view)? {
            Some(bytes) => self.send_to(to, Message::Served(bytes)),
            None => Ok(()),
        }
    }
}
