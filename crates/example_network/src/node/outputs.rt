//! The engine's outputs, carried out in order.

use super::Node;
use crate::message::{Message, copy_vote};
use crate::report::News;
use engine_fetches::fetches::Ask;
use engine_outbox::output::{Output, Work};
use example_engine::digest::BlockDigest;
use example_engine::parts::{Block, Proof};
use example_engine::scheme::{MemberKey, SealScheme};
use simplex_engine::input::Input;
use simplex_member::member::Stored;
use simplex_types::types::{Context, Fault, View};

/// The most outputs that are carried out in a row: a lone member enters view after view without an event.
const MOST_OUTPUTS: u32 = 10_000;

impl Node {
    /// Polls the engine until it returns no output.
    pub(crate) fn settle(&mut self, now: u64) -> Result<(), Fault> {
        for _ in 0..MOST_OUTPUTS {
            let Some(engine) = &mut self.engine else {
                return Ok(());
            };
            match engine.poll(now)? {
                Some(output) => self.carry_out(output, now)?,
                None => return Ok(()),
            }
        }
        Ok(())
    }

    fn carry_out(
        &mut self,
        output: Output<SealScheme, BlockDigest, Stored>,
        now: u64,
    ) -> Result<(), Fault> {
        match output {
            Output::Store(entries) => {
                self.disk.append(entries)?;
                Ok(())
            }
            Output::Replace(entries, stored) => {
                self.disk.replace(entries, stored);
                Ok(())
            }
            Output::Vote(vote) => {
                let own = copy_vote(self.alloc, &vote)?;
                self.send_to_all(Message::Vote(vote))?;
                self.send_to(self.me, Message::Vote(own))
            }
            Output::Finalized(proposal) => {
                self.counts.finalized = self.counts.finalized.saturating_add(1);
                self.tell(News::Finalized(proposal))
            }
            Output::Work(work) => self.do_work(work, now),
        }
    }

    fn do_work(&mut self, work: Work<SealScheme, BlockDigest>, now: u64) -> Result<(), Fault> {
        match work {
            Work::Broadcast(certificate) => self.broadcast(certificate),
            Work::Verify(context, proposal) => self.verify(&context, &proposal, now),
            Work::Build(context) => self.build(context, now),
            Work::Certify(proposal) => self.answer(
                Input::Certified(proposal.round.view, true),
                now,
            ),
            Work::Fetch(ask) => self.fetch(ask),
            Work::Equivocated(_, _) => {
                self.counts.contradictions = self.counts.contradictions.saturating_add(1);
                Ok(())
            }
            Work::ProposedTwice(view, _) => self.tell(News::ProposedTwice(view)),
            Work::StopBuilding(_) | Work::Forget(_) => Ok(()),
        }
    }

    fn answer(&mut self, input: Input<SealScheme, BlockDigest>, now: u64) -> Result<(), Fault> {
        if let Some(engine) = &mut self.engine {
            engine.handle(input, now)?;
        }
        Ok(())
    }

    fn broadcast(&mut self, certificate: Proof) -> Result<(), Fault> {
        if let Proof::Nullification(nullification) = &certificate {
            let view = nullification.round.view;
            self.tell(News::Nullified(view))?;
        }
        self.send_to_all(Message::Certificate(certificate))
    }

    /// Verifies a proposal: it is valid if its block is one of the two that may be built on its parent.
    fn verify(
        &mut self,
        context: &Context<BlockDigest, MemberKey>,
        proposal: &Block,
        now: u64,
    ) -> Result<(), Fault> {
        let view: View = context.round.view;
        let block = BlockDigest::of_block(&context.parent.1, view, 0);
        let other = BlockDigest::of_block(&block, view, 1);
        let is_valid = proposal.payload == block || proposal.payload == other;
        self.answer(Input::Verified(view, is_valid), now)
    }

    fn build(&mut self, context: Context<BlockDigest, MemberKey>, now: u64) -> Result<(), Fault> {
        let block = BlockDigest::of_block(&context.parent.1, context.round.view, 0);
        self.answer(Input::Built(context, block), now)
    }

    fn fetch(&mut self, ask: Ask) -> Result<(), Fault> {
        self.counts.fetches = self.counts.fetches.saturating_add(1);
        let Some(member) = ask.of else {
            return Ok(());
        };
        match u8::try_from(member.get()) {
            Ok(to) => self.send_to(to, Message::Ask(ask.kind, ask.view)),
            Err(_) => Ok(()),
        }
    }
}
