//! The steps that are planned once the member has entered other views.

ghost use Rattle.std.specs.Prelude.{◌≡◌, ◌++◌, map, filter, nat_lt, OnOk};
ghost use Rattle.engine_planner.specs.BuildPlans.{HasBuilds};
ghost use Rattle.engine_planner.specs.Blocks.{reported_by};
ghost use Rattle.engine_planner.specs.ViewChanges.{asking_by, offering, HasEntered, IsPassedWhere, HasSeen};

use super::builds::{PendingBuild, has_waited};
use super::early::Early;
use super::{Plan, Step, Views, queue};
use engine_outbox::output::Work;
use simplex_types::types::{CertificateScheme, Digest, View};
use std::alloc::AllocError;
use std::collections::VecDeque;

impl<S: CertificateScheme, D: Digest> Plan<S, D> {
    /// Takes note of the member's views.
    ///
    /// It closes the fetches of the views up to a later finalized one. If another view is entered, it plans to ask for
    /// what may be due in that view, then for the blocks that waited for it, then for the proposals that came before
    /// it.
    pub fn update_views(&mut self, views: Views) -> Result<(), AllocError>
        ensures { OnOk result (HasSeen views self.old self.new) }
    {
        self.pass(views.last_finalized);
        let is_entered = self.views.current != views.current;
        self.views = views;
        if !is_entered {
            return Ok(());
        }
        self.enter(views.current)
    }

    /// Closes the fetches that a finalization passed, if a later view is finalized than before.
    fn pass(&mut self, finalized: View)
        ensures same { self.new ≡ record self.old { repair = self.new.repair } }
        ensures passed { IsPassedWhere (nat_lt self.old.views.last_finalized finalized) finalized self.old.repair
            self.new.repair }
    {
        if self.views.last_finalized < finalized {
            self.repair.pass(finalized);
        }
    }

    /// Plans what entering the view calls for: to ask for what may be due in it, and for what waited for it.
    fn enter(&mut self, view: View) -> Result<(), AllocError>
        ensures { OnOk result (HasEntered view self.old self.new) }
    {
        self.touch(view)?;
        self.build_waiting(view)?;
        self.offer_early(view)
    }

    /// Asks for the blocks that waited for the view.
    fn build_waiting(&mut self, view: View) -> Result<(), AllocError>
        ensures { let builds = self.old.builds.buildings.items in
            OnOk result (HasBuilds (asking_by view builds) (map (reported_by view) builds) self.old self.new) }
    {
        ask_waiting(view, self.builds.all(), &mut self.steps)?;
        self.builds.tell(view);
        Ok(())
    }

    /// Passes on the early proposals whose view has been reached.
    fn offer_early(&mut self, view: View) -> Result<(), AllocError>
        ensures same { self.new ≡ record self.old { steps = self.new.steps; early = self.new.early } }
        ensures steps { OnOk result
            (self.new.steps.items ≡ self.old.steps.items ++ offering view self.old.early.proposals.items) }
        ensures early { OnOk result (self.new.early.proposals.items
            ≡ filter (λ early. nat_lt view early.view) self.old.early.proposals.items) }
    {
        offer_until(view, self.early.all(), &mut self.steps)?;
        self.early.pass(view);
        Ok(())
    }
}

/// Asks for the blocks that waited for the view.
fn ask_waiting<S: CertificateScheme, D: Digest>(
    view: View,
    builds: &[PendingBuild<D, S::PublicKey>],
    steps: &mut VecDeque<Step<S, D>>,
) -> Result<(), AllocError>
    ensures { OnOk result (steps.new.items ≡ steps.old.items ++ asking_by view builds.now) }
{
    for building in builds {
        if has_waited(building, view) {
            queue(steps, Step::Push(Work::Build(building.context)))?;
        }
    }
    Ok(())
}

/// Plans to pass on the early proposals of the views up to this one.
fn offer_until<S: CertificateScheme, D: Digest>(
    view: View,
    early: &[Early<D>],
    steps: &mut VecDeque<Step<S, D>>,
) -> Result<(), AllocError>
    ensures { OnOk result (steps.new.items ≡ steps.old.items ++ offering view early.now) }
{
    for it in early {
        if it.view <= view {
            queue(steps, Step::Offer(it.from, it.proposal))?;
        }
    }
    Ok(())
}
