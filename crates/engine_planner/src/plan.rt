//! The engine's plan, and the state that it needs: queued steps, outstanding fetches, blocks to build, early proposals.
//!
//! Each call plans exactly what its contract states. An error is out of memory, or an error of the resolver; after an
//! error a plan must not be used.

mod builds;
mod certificates;
mod due;
mod early;
mod replies;
mod view_changes;
mod work;

ghost use Rattle.std.specs.Prelude.{◌≡◌, ◌+◌, ◌-◌, ◌^◌, ℕ, min, max, true, [], ◌∷◌, ◌++◌, filter, OnOk, IfErr, IsOk, IsTrue, ◌↔◌, ◌≤◌, false};
ghost use Rattle.simplex_types.specs.declared.types.fault.Fault.TheVariants.{Failed};
ghost use Rattle.engine_fetches.specs.Repairs.{HasPassed};
ghost use Rattle.engine_fetches.specs.OutstandingFetches.{is_missing, FetchesTheMissing};
ghost use Rattle.engine_planner.specs.PlanStates.{IsIdle, IsWake, HasPlanned, asking_for_votes, asking_for_certificates, touching, watching};
ghost use Rattle.engine_planner.specs.Blocks.{builds_from};
ghost use Rattle.engine_planner.specs.declared.plan.Step.TheVariants.{Ask, Push};

use crate::task::Task;
use builds::{Builds, is_ahead};
use early::EarlyProposals;
use engine_fetches::fetches::{FetchKind, Fetches};
use engine_fetches::repair::Repair;
use engine_outbox::output::Work;
use simplex_resolver::replay::LawfulResolver;
use simplex_types::types::{
    CertificateScheme, Digest, Elector, Fault, Participant, Proposal, View,
};
use simplex_voter::voter::State;
use std::alloc::{AllocError, Global};
use std::collections::VecDeque;

/// Intervals, in milliseconds, and the length of a long record.
#[derive(Clone, Copy)]
pub struct Options {
    /// The interval after which a fetch is asked again, of the next peer. It is at least a millisecond: a fetch that is
    /// due again at once would be asked for without end.
    pub retry: u64,
    /// How long a missing certificate may be on its way before the engine asks for it.
    pub on_its_way: u64,
    /// The engine prunes the record once it has more entries than this, if that drops more of its views than it
    /// retains.
    pub long_record: usize,
}

impl Options {
    /// Returns these options, with `retry` raised to at least a millisecond.
    pub fn with_a_retry(self) -> Options
        ensures { result ≡ record self { retry = max self.retry 1 } }
    {
        Options {
            retry: self.retry.max(1),
            on_its_way: self.on_its_way,
            long_record: self.long_record,
        }
    }
}

/// One step of the engine.
#[derive(Drop)]
pub enum Step<S: CertificateScheme, D> {
    /// A call of the member, whose reply is then followed.
    Ask(Task<D>),
    /// An early proposal, with the member that sent it.
    Offer(Participant, Proposal<D>),
    /// A proposal needs a certificate of an earlier view; the proposal's leader is asked first.
    Resolve(FetchKind, View, View),
    /// The newest vote to nullify is sent once more, if it is one of the view.
    Repeat(View),
    /// Work to be carried out.
    Push(Work<S, D>),
}

/// The member's views, as the plan last saw them.
#[derive(Clone, Copy)]
pub struct Views {
    pub current: View,
    pub last_finalized: View,
}

/// The steps to take, and the state from which they are planned.
#[derive(Drop)]
pub struct Plan<S: CertificateScheme, D> {
    alloc: Global,
    options: Options,
    /// There is no other member.
    is_alone: bool,
    views: Views,
    steps: VecDeque<Step<S, D>>,
    repair: Repair,
    builds: Builds<D, S::PublicKey>,
    early: EarlyProposals<D>,
    is_watch_due: bool,
    is_timeout_due: bool,
    is_prune_due: bool,
    /// The moment of the next timeout.
    timeout: u64,
    /// How many inputs were ignored.
    ignored: u64,
}

impl<S: CertificateScheme, D: Digest> Plan<S, D> {
    /// Returns the plan of a lifetime that begins at these views: nothing is planned, built or stored early, and
    /// everything is due.
    pub fn new(
        alloc: Global,
        options: Options,
        is_alone: bool,
        views: Views,
        repair: Repair,
    ) -> Plan<S, D>
        ensures options { (result.options ≡ options) × (result.is_alone ≡ is_alone) }
        ensures views { result.views ≡ views }
        ensures repair { result.repair ≡ repair }
        ensures nothing { (result.steps.items ≡ []) × (result.builds.buildings.items ≡ [])
            × (result.early.proposals.items ≡ []) × (result.ignored ≡ 0) }
        ensures due { (result.is_watch_due ≡ true) × (result.is_timeout_due ≡ true) × (result.is_prune_due ≡ true)
            × (result.timeout ≡ 0) }
    {
        Plan {
            alloc,
            options,
            is_alone,
            views,
            steps: VecDeque::new(alloc),
            repair,
            builds: Builds::new(alloc),
            early: EarlyProposals::new(alloc),
            is_watch_due: true,
            is_timeout_due: true,
            is_prune_due: true,
            timeout: 0,
            ignored: 0,
        }
    }

    /// Returns the resolver, with its outstanding fetches.
    pub fn resolver(&self) -> &LawfulResolver
        ensures { result.now ≡ self.now.repair.resolver }
    {
        self.repair.resolver()
    }

    /// Returns the outstanding fetches.
    pub fn fetches(&self) -> &Fetches
        ensures { result.now ≡ self.now.repair.fetches }
    {
        self.repair.fetches()
    }

    /// Returns how many entries a record may have without being pruned, however many views it has.
    pub fn long_record(&self) -> usize
        ensures { result ≡ self.now.options.long_record }
    {
        self.options.long_record
    }

    /// Returns how many inputs were ignored.
    pub fn ignored(&self) -> u64
        ensures { result ≡ self.now.ignored }
    {
        self.ignored
    }

    /// Returns the moment of the next timeout.
    pub fn timeout(&self) -> u64
        ensures { result ≡ self.now.timeout }
    {
        self.timeout
    }

    /// Returns the moment at which something is due, if no input comes before.
    pub fn wake(&self) -> u64
        ensures { IsWake self.now.repair.fetches.wanted.items self.now.timeout result }
    {
        match self.fetches().wake() {
            Some(moment) => moment.min(self.timeout),
            None => self.timeout,
        }
    }

    /// Counts an ignored input. The count stops at 2^64 - 1.
    pub fn ignore(&mut self)
        ensures { self.new ≡ record self.old { ignored = min (self.old.ignored + 1) (2 ^ 64 - 1) } }
    {
        self.ignored = self.ignored.saturating_add(1);
    }

    /// Marks the timeout and the pruning as due.
    pub fn begin(&mut self)
        ensures { self.new ≡ record self.old { is_timeout_due = true; is_prune_due = true } }
    {
        self.is_timeout_due = true;
        self.is_prune_due = true;
    }

    /// Closes the fetches of certificates that the state is not missing, and no other fetch.
    ///
    /// - `answers`, `refused`: when it returns an error, which one, and that nothing has changed then.
    /// - `lacking`: so exactly the missing certificates are asked for.
    /// - `idle`: a plan that was idle stays idle.
    ///
    /// # Errors
    ///
    /// Those of `Repair::drop_served`.
    pub fn drop_served<L: Elector<S>>(&mut self, state: &State<S, L, D>) -> Result<(), Fault>
        ensures same { self.new ≡ record self.old { repair = self.new.repair } }
        ensures kept { let repair = self.old.repair in
            OnOk result (HasPassed state.now.finalized
            (filter (is_missing repair.resolver.open_fetches state.now) repair.fetches.wanted.items) repair
            self.new.repair) }
        ensures answers { IsOk result
            ↔ ((self.old.repair.is_behind ≡ false) × (self.old.repair.passed ≤ state.now.finalized)) }
        ensures refused { IfErr result (λ fault. (fault ≡ Failed) × (self.new ≡ self.old)) }
        ensures lacking { OnOk result
            (FetchesTheMissing self.new.repair.resolver.open_fetches state.now self.new.repair.fetches.wanted.items) }
        ensures idle { (now : ℕ) → IsIdle now self.old → IsIdle now self.new }
    {
        self.repair.drop_served(state)
    }

    /// Returns whether nothing is due at the moment.
    pub fn is_idle(&self, now: u64) -> bool
        ensures { IsTrue result ↔ IsIdle now self.now }
    {
        self.steps.is_empty()
            && !self.is_watch_due
            && !self.is_timeout_due
            && !self.is_prune_due
            && !self.fetches().is_due(now)
    }

    /// Returns whether each block to build is of a later view, or is of this view and was asked for.
    pub fn builds_from(&self, view: View) -> bool
        ensures { result ≡ builds_from view self.now.builds.buildings.items }
    {
        self.builds.all().iter().all(|it| is_ahead(it, view))
    }

    /// Plans a step.
    fn plan(&mut self, step: Step<S, D>) -> Result<(), AllocError>
        ensures { OnOk result (HasPlanned (step ∷ []) self.old self.new) }
    {
        queue(&mut self.steps, step)
    }

    /// Plans a call of the member.
    pub fn ask(&mut self, task: Task<D>) -> Result<(), AllocError>
        ensures { OnOk result (HasPlanned (Ask task ∷ []) self.old self.new) }
    {
        self.plan(Step::Ask(task))
    }

    /// Plans work to be carried out.
    pub fn push(&mut self, work: Work<S, D>) -> Result<(), AllocError>
        ensures { OnOk result (HasPlanned (Push work ∷ []) self.old self.new) }
    {
        self.plan(Step::Push(work))
    }

    /// Plans what a change in the view calls for: its votes and certificates are asked for, and the blocks to build are
    /// watched.
    pub fn touch(&mut self, view: View) -> Result<(), AllocError>
        ensures { OnOk result (HasPlanned (touching view) (watching self.old) self.new) }
    {
        self.is_watch_due = true;
        self.ask_for_votes(view)?;
        self.ask_for_certificates(view)
    }

    /// Plans to ask for the votes on the view.
    fn ask_for_votes(&mut self, view: View) -> Result<(), AllocError>
        ensures { OnOk result (HasPlanned (asking_for_votes view) self.old self.new) }
    {
        self.ask(Task::ConstructNotarize(view))?;
        self.ask(Task::ConstructFinalize(view))
    }

    /// Plans to ask for the certificates of the view that are to be broadcast.
    fn ask_for_certificates(&mut self, view: View) -> Result<(), AllocError>
        ensures { OnOk result (HasPlanned (asking_for_certificates view) self.old self.new) }
    {
        self.ask(Task::BroadcastNotarization(view))?;
        self.ask(Task::BroadcastNullification(view))?;
        self.ask(Task::BroadcastFinalization(view))
    }
}

/// Queues a step.
fn queue<S: CertificateScheme, D: Digest>(
    steps: &mut VecDeque<Step<S, D>>,
    step: Step<S, D>,
) -> Result<(), AllocError>
    ensures { OnOk result (steps.new.items ≡ steps.old.items ++ step ∷ []) }
{
    steps.push_back(step)?;
    Ok(())
}
