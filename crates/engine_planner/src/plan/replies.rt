//! The steps that follow the reply to a call.

ghost use Rattle.std.specs.Prelude.{◌≡◌, ◌==◌, [], ◌∷◌, OnOk, IfErr, if◌then◌else◌};
ghost use Rattle.simplex_resolver.specs.Steps.{highest_named};
ghost use Rattle.engine_fetches.specs.Repairs.{IsUnrepaired};
ghost use Rattle.engine_planner.specs.PlanStates.{HasPlanned, touching};
ghost use Rattle.engine_planner.specs.declared.task.Task.TheVariants.{ReleaseProposalRequest, SupersedeProposalRequest};
ghost use Rattle.engine_planner.specs.Consequences.{Consequence, Nothing, Touched, Built, Stopped, Asked, after_refusal, after_flag, after_watch, IsConsequence, lacking, IsVerifyFollowed, waits, IsRequestFollowed, IsBroadcastFollowed, repeating, IsNullifyFollowed, IsTimeoutFollowed, certifying, AreCertified, IsVerdictFollowed, IsVerdictReportedAbove, IsUnjudged, IsFollowed, IsUnfollowed};

use super::certificates::is_genesis;
use super::{Plan, Step};
use crate::task::Task;
use engine_fetches::fetches::{FetchKind, fetch_kind};
use engine_outbox::output::Work;
use simplex_member::member::Reply;
use simplex_types::reasons::TimeoutReason;
use simplex_types::types::{
    Certificate, CertificateScheme, Context, Digest, Fault, Notarization, Nullify, Proposal, View,
    Viewable,
};
use simplex_voter::voter::{CertificateFetch, ProposalRequest, Verify};
use std::alloc::AllocError;

impl<S: CertificateScheme, D: Digest> Plan<S, D> {
    /// Follows a reply.
    ///
    /// # Errors
    ///
    /// `OutOfMemory`, also if that is the reply; for a verdict, those of `Repair::certified`.
    pub fn follow(&mut self, task: Task<D>, reply: Reply<S, D>, now: u64) -> Result<(), Fault>
        ensures followed { OnOk result (IsFollowed D.bytes S.certificate_bytes now task reply self.old self.new) }
        ensures refused { IfErr result (λ fault. IsUnfollowed fault reply self.old self.new) }
    {
        match reply {
            Reply::Flag(is_taken) => Ok(self.follow_flag(task, is_taken)?),
            Reply::Triggered(is_taken) => Ok(self.follow_flag(task, is_taken)?),
            Reply::Released(is_released) => Ok(self.follow_flag(task, is_released)?),
            Reply::Abandoned(reason) => Ok(self.follow_watch(task, reason.is_some())?),
            Reply::Work(verify) => Ok(self.follow_verify(verify)?),
            Reply::Request(request) => Ok(self.follow_request(request)?),
            Reply::Candidates(proposals, fetches) => {
                Ok(self.follow_candidates(&proposals, &fetches, now)?)
            }
            Reply::Certified(is_success, notarization) => {
                self.follow_verdict(is_success, notarization, now)
            }
            Reply::Nullify(answer) => Ok(self.follow_nullify(answer, now)?),
            Reply::Certificate(certificate) => Ok(self.broadcast(certificate)?),
            Reply::Timeout(moment, reason) => Ok(self.follow_timeout(moment, reason, now)?),
            Reply::Fault(Fault::OutOfMemory) => Err(Fault::OutOfMemory),
            Reply::NotAllowed => Ok(self.follow_refusal(task)?),
            _ => Ok(()),
        }
    }

    /// Follows a call that was not allowed, and has changed nothing: the block that the call was about is dropped.
    fn follow_refusal(&mut self, task: Task<D>) -> Result<(), AllocError>
        ensures { OnOk result (IsConsequence (after_refusal task) self.old self.new) }
    {
        match task {
            Task::PendingHandoffAbandonment(view)
            | Task::SupersedeProposalRequest(view)
            | Task::ReleaseProposalRequest(view) => self.stop_building(view),
            Task::Proposed(view, _) => {
                self.end_building(view);
                Ok(())
            }
            _ => Ok(()),
        }
    }

    /// Follows a reply that says whether the call was taken.
    fn follow_flag(&mut self, task: Task<D>, is_taken: bool) -> Result<(), AllocError>
        ensures { OnOk result (IsConsequence (after_flag task is_taken) self.old self.new) }
    {
        match task {
            Task::Proposed(view, _) => self.follow_proposed(view),
            Task::SetProposal(view, _) | Task::Verified(view) | Task::TriggerTimeout(view, _) => {
                self.touch_where(is_taken, view)
            }
            Task::ReleaseProposalRequest(view) => self.stop_building(view),
            Task::SupersedeProposalRequest(view) => self.stop_where(is_taken, view),
            _ => Ok(()),
        }
    }

    /// Follows a built block.
    fn follow_proposed(&mut self, view: View) -> Result<(), AllocError>
        ensures { OnOk result (IsConsequence (Built view) self.old self.new) }
    {
        self.end_building(view);
        self.touch(view)
    }

    /// Plans what a change in the view calls for, if there was one.
    fn touch_where(&mut self, is_changed: bool, view: View) -> Result<(), AllocError>
        ensures { OnOk result (IsConsequence (if is_changed then Touched view else Nothing) self.old self.new) }
    {
        if is_changed { self.touch(view) } else { Ok(()) }
    }

    /// Stops the view's block, if another one is to be built instead.
    fn stop_where(&mut self, is_replaced: bool, view: View) -> Result<(), AllocError>
        ensures { OnOk result (IsConsequence (if is_replaced then Stopped view else Nothing) self.old self.new) }
    {
        if is_replaced {
            self.stop_building(view)
        } else {
            Ok(())
        }
    }

    /// Follows the reply that says whether a block must be abandoned; if not, it may be replaced by another.
    fn follow_watch(&mut self, task: Task<D>, is_abandoned: bool) -> Result<(), AllocError>
        ensures { OnOk result (IsConsequence (after_watch task is_abandoned) self.old self.new) }
    {
        match task {
            Task::PendingHandoffAbandonment(view) => self.ask_of_build(view, is_abandoned),
            _ => Ok(()),
        }
    }

    /// Asks to release a block that is abandoned, or else whether another replaces it.
    fn ask_of_build(&mut self, view: View, is_abandoned: bool) -> Result<(), AllocError>
        ensures { OnOk result (IsConsequence (Asked
            (if is_abandoned then ReleaseProposalRequest view else SupersedeProposalRequest view)) self.old self.new) }
    {
        if is_abandoned {
            self.ask(Task::ReleaseProposalRequest(view))
        } else {
            self.ask(Task::SupersedeProposalRequest(view))
        }
    }

    /// Follows a reply to verify: a proposal is to be verified, or a certificate is missing for one, which is fetched
    /// unless it is already.
    fn follow_verify(&mut self, verify: Verify<D, S::PublicKey>) -> Result<(), AllocError>
        ensures { OnOk result (IsVerifyFollowed verify self.old self.new) }
    {
        match verify {
            Verify::Ready(context, proposal) => self.push(Work::Verify(context, proposal)),
            Verify::Resolve {
                proposal,
                view,
                kind,
                ..
            } => self.lack(fetch_kind(kind), view, proposal),
            Verify::Wait => Ok(()),
        }
    }

    /// Plans the fetch of a certificate that is missing for a proposal, unless it is outstanding.
    fn lack(&mut self, kind: FetchKind, view: View, proposal: View) -> Result<(), AllocError>
        ensures { OnOk result (HasPlanned (lacking kind view proposal self.old.repair.fetches.wanted.items)
            self.old self.new) }
    {
        if self.fetches().is_open(kind, view) {
            return Ok(());
        }
        self.plan(Step::Resolve(kind, view, proposal))
    }

    /// Plans a block to build. A lone member builds none ahead of its parent's certification before it has entered the
    /// view: its own application may refuse the parent for good.
    fn follow_request(
        &mut self,
        request: Option<ProposalRequest<D, S::PublicKey>>,
    ) -> Result<(), AllocError>
        ensures { OnOk result (IsRequestFollowed request self.old self.new) }
    {
        match request {
            Some(ProposalRequest::Prepare(context)) => self.build(context, !self.waits(&context)),
            Some(ProposalRequest::Propose(context)) => self.build(context, true),
            None => Ok(()),
        }
    }

    /// Returns whether a block on a parent that is not certified waits until its view is entered.
    fn waits(&self, context: &Context<D, S::PublicKey>) -> bool
        ensures { result ≡ waits self.now.is_alone self.now.views.current context.now }
    {
        self.is_alone && self.views.current < context.round.view
    }

    /// Sends a certificate to all others, if there is one.
    fn broadcast(&mut self, certificate: Option<Certificate<S, D>>) -> Result<(), AllocError>
        ensures { OnOk result (IsBroadcastFollowed certificate self.old self.new) }
    {
        match certificate {
            Some(certificate) => self.push(Work::Broadcast(certificate)),
            None => Ok(()),
        }
    }

    /// Has proposals certified, and fetches the notarizations that other proposals wait for.
    fn follow_candidates(
        &mut self,
        proposals: &[Proposal<D>],
        fetches: &[CertificateFetch],
        now: u64,
    ) -> Result<(), AllocError>
        ensures { OnOk result (AreCertified now proposals.now fetches.now self.old self.new) }
    {
        self.certify_all(proposals)?;
        self.repair.fetch_all(fetches, now)
    }

    /// Has proposals certified.
    fn certify_all(&mut self, proposals: &[Proposal<D>]) -> Result<(), AllocError>
        ensures { OnOk result (HasPlanned (certifying proposals.now) self.old self.new) }
    {
        for proposal in proposals {
            self.certify(*proposal)?;
        }
        Ok(())
    }

    /// Has a proposal certified.
    fn certify(&mut self, proposal: Proposal<D>) -> Result<(), AllocError>
        ensures { OnOk result (HasPlanned (certifying (proposal ∷ [])) self.old self.new) }
    {
        self.push(Work::Certify(proposal))?;
        self.ask(Task::SetCertifyHandle(proposal.round.view))
    }

    /// Follows a verdict, and passes it to the resolver.
    fn follow_verdict(
        &mut self,
        is_success: bool,
        notarization: Option<Notarization<S, D>>,
        now: u64,
    ) -> Result<(), Fault>
        ensures followed { OnOk result
            (IsVerdictFollowed D.bytes S.certificate_bytes now is_success notarization self.old self.new) }
        ensures refused { IfErr result (λ fault. IsUnjudged fault notarization self.old.repair self.new.repair) }
    {
        match notarization {
            Some(notarization) => self.judge(is_success, notarization, now),
            None => Ok(()),
        }
    }

    /// Passes a verdict to the resolver.
    fn judge(
        &mut self,
        is_success: bool,
        notarization: Notarization<S, D>,
        now: u64,
    ) -> Result<(), Fault>
        ensures followed { OnOk result
            (IsVerdictReportedAbove D.bytes S.certificate_bytes now (notarization.proposal.round.view == 0)
            is_success notarization
            self.old self.new) }
        ensures refused { IfErr result
            (λ fault. IsUnrepaired (highest_named notarization.proposal) fault self.old.repair self.new.repair) }
    {
        let view = notarization.view();
        if is_genesis(view) {
            return Ok(());
        }
        let moment = self.later(now);
        self.repair.certified(notarization, is_success, moment)?;
        self.touch(view)?;
        Ok(())
    }

    /// Follows a vote to nullify: it was cast, or the one before is sent once more with the best certificate, for
    /// members that missed either. If none is allowed, the view was voted final, and its finalization ends it.
    fn follow_nullify(
        &mut self,
        answer: Option<(bool, Nullify<S>)>,
        now: u64,
    ) -> Result<(), AllocError>
        ensures { OnOk result (IsNullifyFollowed now answer self.old self.new) }
    {
        match answer {
            Some((true, vote)) => self.repeat(vote.round.view),
            Some((false, _)) => self.ask(Task::NextTimeout),
            None => {
                self.timeout = now.saturating_add(self.options.retry);
                Ok(())
            }
        }
    }

    /// Sends the vote to nullify the view once more.
    fn repeat(&mut self, view: View) -> Result<(), AllocError>
        ensures { OnOk result (HasPlanned (repeating view) self.old self.new) }
    {
        self.plan(Step::Repeat(view))?;
        self.ask(Task::GetBestCertificate)?;
        self.ask(Task::NextTimeout)
    }

    /// Plans the vote to nullify the current view, if its moment has come.
    fn follow_timeout(
        &mut self,
        moment: u64,
        reason: TimeoutReason,
        now: u64,
    ) -> Result<(), AllocError>
        ensures { OnOk result (IsTimeoutFollowed now moment reason self.old self.new) }
    {
        self.timeout = moment;
        if moment <= now {
            self.ask(Task::ConstructNullify(self.views.current, reason))?;
        }
        Ok(())
    }
}
