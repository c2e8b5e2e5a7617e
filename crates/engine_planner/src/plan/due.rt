//! The next step, and what is planned if none is queued.

ghost use Rattle.std.specs.Prelude.{◌≡◌, ◌++◌, false, IfOk, OnOk};
ghost use Rattle.engine_planner.specs.PlanStates.{HasPlanned};
ghost use Rattle.engine_planner.specs.StepSelection.{watching_one, watching_all, watching_where, IsFetchAsked, IsPruneAsked, IsTimeoutAsked, IsReady, HasTaken};

use super::builds::PendingBuild;
use super::{Plan, Step, queue};
use crate::task::Task;
use engine_outbox::output::Work;
use simplex_types::types::{CertificateScheme, Digest, View};
use std::alloc::AllocError;
use std::collections::VecDeque;

impl<S: CertificateScheme, D: Digest> Plan<S, D> {
    /// Returns the next step, at a moment in milliseconds. Returns `None` only if nothing is due at the moment.
    ///
    /// If no step is queued, it first plans what is due, in this order:
    ///
    /// - if something has changed since, it asks about each block to build, and abandons those of past views;
    /// - else it asks for the timeout, or else which views may be dropped, once a moment each;
    /// - or else it asks for the first fetch that is due.
    pub fn next(&mut self, now: u64) -> Result<Option<Step<S, D>>, AllocError>
        ensures { IfOk result (λ step. HasTaken now step self.old self.new) }
    {
        self.fill(now)?;
        Ok(self.steps.pop_front())
    }

    /// Plans what is due, if no step is queued.
    fn fill(&mut self, now: u64) -> Result<(), AllocError>
        ensures { OnOk result (IsReady self.old.steps.items now self.old self.new) }
    {
        if !self.steps.is_empty() {
            return Ok(());
        }
        self.watch()?;
        if !self.steps.is_empty() {
            return Ok(());
        }
        self.plan_due(now)
    }

    /// Plans to ask whether blocks are still needed, if something has changed since the last time.
    fn watch(&mut self) -> Result<(), AllocError>
        ensures { OnOk result (HasPlanned
            (watching_where self.old.is_watch_due self.old.views.current self.old.builds.buildings.items)
            (record self.old { is_watch_due = false }) self.new) }
    {
        if !self.is_watch_due {
            return Ok(());
        }
        self.is_watch_due = false;
        self.watch_builds()
    }

    /// Plans to abandon the blocks of past views, and to ask about each other one whether it must be abandoned.
    fn watch_builds(&mut self) -> Result<(), AllocError>
        ensures { OnOk result (HasPlanned (watching_all self.old.views.current self.old.builds.buildings.items)
            self.old self.new) }
    {
        watch_all(self.views.current, self.builds.all(), &mut self.steps)
    }

    /// Plans what is due: first the timeout, then the dropping of views, and then the fetches.
    fn plan_due(&mut self, now: u64) -> Result<(), AllocError>
        ensures { OnOk result (IsTimeoutAsked self.old.is_timeout_due now self.old self.new) }
    {
        if self.is_timeout_due {
            self.is_timeout_due = false;
            return self.ask(Task::NextTimeout);
        }
        self.plan_upkeep(now)
    }

    /// Plans what is due beside the timeout.
    fn plan_upkeep(&mut self, now: u64) -> Result<(), AllocError>
        ensures { OnOk result (IsPruneAsked self.old.is_prune_due now self.old self.new) }
    {
        if self.is_prune_due {
            self.is_prune_due = false;
            return self.ask(Task::Prune);
        }
        self.plan_fetch(now)
    }

    /// Plans to ask for the first fetch that is due.
    fn plan_fetch(&mut self, now: u64) -> Result<(), AllocError>
        ensures { OnOk result (IsFetchAsked now self.old self.new) }
    {
        match self.repair.ask(now) {
            Some(ask) => self.push(Work::Fetch(ask)),
            None => Ok(()),
        }
    }
}

/// Abandons the blocks of past views, and asks about each other one whether it must be abandoned.
fn watch_all<S: CertificateScheme, D: Digest>(
    current: View,
    builds: &[PendingBuild<D, S::PublicKey>],
    steps: &mut VecDeque<Step<S, D>>,
) -> Result<(), AllocError>
    ensures { OnOk result (steps.new.items ≡ steps.old.items ++ watching_all current builds.now) }
{
    for building in builds {
        queue(steps, Step::Ask(watching_one(current, building)))?;
    }
    Ok(())
}

/// Returns the call of the member about a block to build. A proposal of a view below the current one serves nobody: the
/// view was nullified or certified, or other members are ahead. An application that never builds such blocks would
/// leave ever more.
fn watching_one<D: Digest, P: Copy>(current: View, building: &PendingBuild<D, P>) -> Task<D>
    ensures { result ≡ watching_one current building.now }
{
    let view = building.context.round.view;
    if view < current {
        Task::ReleaseProposalRequest(view)
    } else {
        Task::PendingHandoffAbandonment(view)
    }
}
