//! A resolver that lines call: what each line does, and its reply.

ghost use Rattle.std.specs.Prelude.{◌≡◌, ◌≢◌, [], IfOk, OnOk, MatchOption, true};
ghost use Rattle.simplex_types.specs.declared.types.fault.Fault.TheVariants.{OutOfMemory};
ghost use Rattle.simplex_resolver.specs.Facts.{empty};
ghost use Rattle.simplex_resolver.specs.Steps.{Replayed};
ghost use Rattle.simplex_resolver.specs.Repair.{IsApplied};
ghost use Rattle.simplex_program.specs.ResolverReplies.{ResolverAnswers, Calls, Reports, IsProposedAt, notarization_call, nullification_call, finalization_call, verdict_call};
ghost use Rattle.simplex_program.specs.declared.resolver.Answer.TheVariants.{Effects as AreEffects, Fault as IsFault};

use crate::resolver_line::ResolverLine;
use crate::rounds::{nullification_of, round_of};
use bytes::Bytes;
use simplex_resolver::resolver::{Effect, State, apply};
use simplex_types::types::plain::{PlainCertificate, PlainDigest, PlainScheme};
use simplex_types::types::{
    Certificate, Fault, Finalization, Notarization, Proposal, TermLength, View,
};
use std::alloc::{AllocError, Global};
use std::collections::BTreeSet;

/// The payload of every proposal that a line names.
const PAYLOAD: u64 = 0;

/// A resolver, and the views with an open fetch.
#[derive(Drop)]
pub(crate) struct Resolver {
    state: State,
    outstanding: BTreeSet<View>,
}

/// A reply line.
#[derive(Drop)]
pub enum Answer {
    Effects(Vec<Effect>),
    Flag(bool),
    Encoding(Option<Bytes>),
    Outstanding(Vec<View>),
    Fault(Fault),
    NotAllowed,
}

impl Resolver {
    /// Returns a resolver that replays its journal: it fetches nothing before the line `replayed`.
    pub(crate) fn new(alloc: Global, term_length: TermLength) -> Resolver
        ensures state { result.state ≡ empty term_length }
        ensures outstanding { result.outstanding.keys ≡ [] }
    {
        Resolver {
            state: State::new(alloc, term_length),
            outstanding: BTreeSet::new(alloc),
        }
    }

    /// Does what the line asks. The only error is out of memory.
    pub(crate) fn answer(&mut self, alloc: Global, line: ResolverLine) -> Result<Answer, AllocError>
        ensures { IfOk result (λ answer.
            ResolverAnswers self.old.state self.old.outstanding.keys line answer self.new.state
            self.new.outstanding.keys) }
    {
        match line {
            ResolverLine::Notarization(view) => self.notarize(view),
            ResolverLine::Nullification(view) => self.nullify(view),
            ResolverLine::Finalization(view) => self.finalize(view),
            ResolverLine::Certified { view, success } => self.certify(view, success),
            ResolverLine::Replayed => self.end_replay(),
            ResolverLine::Settled { view, kind } => {
                Ok(Answer::Flag(self.state.settled(view, kind)))
            }
            ResolverLine::KeySettled(view) => Ok(Answer::Flag(self.state.key_settled(view))),
            ResolverLine::Uncertifiable(view) => Ok(Answer::Flag(self.state.uncertifiable(view))),
            ResolverLine::Produce(view) => match self.state.produce(view) {
                Ok(encoding) => Ok(Answer::Encoding(encoding)),
                Err(fault) => refused(fault),
            },
            ResolverLine::Outstanding => {
                let views = self.outstanding.iter().copied().collect(alloc)?;
                Ok(Answer::Outstanding(views))
            }
        }
    }

    #[tactic(auto, using(crate::proofs::Reported::named_at))]
    fn notarize(&mut self, view: View) -> Result<Answer, AllocError>
        ensures { IfOk result (λ answer.
            Reports self.old.state self.old.outstanding.keys view (notarization_call view) answer self.new.state
            self.new.outstanding.keys) }
    {
        let Some(notarization) = notarization_of(view) else {
            return Ok(Answer::NotAllowed);
        };
        match self.state.updated(&Certificate::Notarization(notarization)) {
            Ok(effects) => self.apply(effects),
            Err(fault) => refused(fault),
        }
    }

    fn nullify(&mut self, view: View) -> Result<Answer, AllocError>
        ensures { IfOk result (λ answer.
            Reports self.old.state self.old.outstanding.keys view (nullification_call view) answer self.new.state
            self.new.outstanding.keys) }
    {
        if view.is_zero() {
            return Ok(Answer::NotAllowed);
        }
        let certificate: Certificate<PlainScheme, PlainDigest> = Certificate::Nullification(
            nullification_of(view),
        );
        match self.state.updated(&certificate) {
            Ok(effects) => self.apply(effects),
            Err(fault) => refused(fault),
        }
    }

    #[tactic(auto, using(crate::proofs::Reported::named_at))]
    fn finalize(&mut self, view: View) -> Result<Answer, AllocError>
        ensures { IfOk result (λ answer.
            Reports self.old.state self.old.outstanding.keys view (finalization_call view) answer self.new.state
            self.new.outstanding.keys) }
    {
        let Some(finalization) = finalization_of(view) else {
            return Ok(Answer::NotAllowed);
        };
        match self.state.updated(&Certificate::Finalization(finalization)) {
            Ok(effects) => self.apply(effects),
            Err(fault) => refused(fault),
        }
    }

    #[tactic(auto, using(crate::proofs::Reported::named_at))]
    fn certify(&mut self, view: View, success: bool) -> Result<Answer, AllocError>
        ensures { IfOk result (λ answer.
            Reports self.old.state self.old.outstanding.keys view (verdict_call view success) answer self.new.state
            self.new.outstanding.keys) }
    {
        let Some(notarization) = notarization_of(view) else {
            return Ok(Answer::NotAllowed);
        };
        match self.state.certified(notarization, success) {
            Ok(effects) => self.apply(effects),
            Err(fault) => refused(fault),
        }
    }

    fn end_replay(&mut self) -> Result<Answer, AllocError>
        ensures { IfOk result (λ answer.
            Calls self.old.state self.old.outstanding.keys 0 Replayed answer self.new.state self.new.outstanding.keys) }
    {
        match self.state.replayed() {
            Ok(effects) => self.apply(effects),
            Err(fault) => refused(fault),
        }
    }

    /// Replies with the effects of a call, and applies them to the open fetches.
    fn apply(&mut self, effects: Vec<Effect>) -> Result<Answer, AllocError>
        ensures state { self.new.state ≡ self.old.state }
        ensures applied { OnOk result (IsApplied self.old.outstanding.keys effects.items self.new.outstanding.keys) }
        ensures answer { IfOk result (λ answer. answer ≡ AreEffects effects) }
    {
        if apply(&mut self.outstanding, effects.as_slice()).is_err() {
            return Err(AllocError);
        }
        Ok(Answer::Effects(effects))
    }
}

/// Returns the reply to a refused call, or an error if memory ran out.
fn refused(fault: Fault) -> Result<Answer, AllocError>
    ensures { IfOk result (λ answer. (answer ≡ IsFault fault) × (fault ≢ OutOfMemory)) }
{
    match fault {
        Fault::OutOfMemory => Err(AllocError),
        _ => Ok(Answer::Fault(fault)),
    }
}

/// Returns the proposal of a view that a line names; its parent is the view before.
fn proposal_of(view: View) -> Option<Proposal<PlainDigest>>
    ensures { MatchOption result (view ≡ 0) (IsProposedAt view) }
{
    let parent = view.previous()?;
    Some(Proposal {
        round: round_of(view),
        parent,
        payload: PlainDigest::new(PAYLOAD),
    })
}

fn notarization_of(view: View) -> Option<Notarization<PlainScheme, PlainDigest>>
    ensures { MatchOption result (view ≡ 0) (λ n. IsProposedAt view n.proposal × (n.certificate.good ≡ true)) }
{
    Some(Notarization {
        proposal: proposal_of(view)?,
        certificate: PlainCertificate { good: true },
    })
}

fn finalization_of(view: View) -> Option<Finalization<PlainScheme, PlainDigest>>
    ensures { MatchOption result (view ≡ 0) (λ f. IsProposedAt view f.proposal × (f.certificate.good ≡ true)) }
{
    Some(Finalization {
        proposal: proposal_of(view)?,
        certificate: PlainCertificate { good: true },
    })
}
