//! Work on proposals: missing certificates, blocks to build, and early proposals.

ghost use Rattle.std.specs.List.{list_any};
ghost use Rattle.std.specs.Prelude.{◌≡◌, ◌+◌, ◌-◌, ◌^◌, min, if◌then◌else◌, [], ◌∷◌, ◌++◌, length, OnOk, OnErr};
ghost use Rattle.engine_fetches.specs.Fetches.{opened, place_of};
ghost use Rattle.engine_fetches.specs.Repairs.{HasFetches};
ghost use Rattle.engine_planner.specs.PlanStates.{may_keep, HasPlanned};
ghost use Rattle.engine_planner.specs.Blocks.{is_asked_in, is_asked_at, in_place};
ghost use Rattle.engine_planner.specs.BuildPlans.{stopping, asking_for, HasBuilds, IsEnded, IsStopped};

use super::Plan;
use super::builds::{is_asked_at, is_asked_in};
use super::early::{Early, MOST_EARLY};
use engine_fetches::fetches::FetchKind;
use engine_outbox::output::Work;
use simplex_types::types::{CertificateScheme, Context, Digest, Participant, Proposal, View};
use std::alloc::AllocError;

impl<S: CertificateScheme, D: Digest> Plan<S, D> {
    /// Stores a proposal that came before its view, if few are stored: nobody sends it again, and its view would be
    /// lost. Without memory nothing has changed.
    pub fn store_early(
        &mut self,
        from: Participant,
        view: View,
        proposal: Proposal<D>,
    ) -> Result<(), AllocError>
        ensures same { self.new ≡ record self.old { early = self.new.early } }
        ensures kept { let old = self.old.early.proposals.items in
            OnOk result (self.new.early.proposals.items ≡ (if may_keep self.old.views.current view (length old)
            then old ++ record { from = from; view = view; proposal = proposal } ∷ [] else old)) }
        ensures refused { OnErr result (self.new.early.proposals.items ≡ self.old.early.proposals.items) }
    {
        let ahead = view.get().saturating_sub(self.views.current.get());
        if 0 < ahead && ahead <= MOST_EARLY as u64 {
            self.early.keep(Early {
                from,
                view,
                proposal,
            })?;
        }
        Ok(())
    }

    /// Opens the fetch of a missing certificate, which this member is asked for first, unless it arrives soon. Without
    /// memory nothing has changed.
    pub fn resolve(
        &mut self,
        kind: FetchKind,
        view: View,
        of: Option<Participant>,
        now: u64,
    ) -> Result<(), AllocError>
        ensures same { self.new ≡ record self.old { repair = self.new.repair } }
        ensures opened { let fetches = self.old.repair.fetches in let moment =
            min (now + self.old.options.on_its_way) (2 ^ 64 - 1) in
            OnOk result (HasFetches (opened kind view (place_of fetches.peers of) moment fetches.wanted.items)
            self.old.repair self.new.repair) }
        ensures refused { OnErr result
            (HasFetches self.old.repair.fetches.wanted.items self.old.repair self.new.repair) }
    {
        let moment = self.later(now);
        self.repair.open(kind, view, of, moment)
    }

    /// Adds a block to build in the context, in place of one of its view, now or when its view is entered.
    pub(super) fn build(
        &mut self,
        context: Context<D, S::PublicKey>,
        is_reported: bool,
    ) -> Result<(), AllocError>
        ensures { OnOk result (HasBuilds (asking_for context is_reported)
            (in_place (record { context = context; is_reported = is_reported }) self.old.builds.buildings.items)
            self.old self.new) }
    {
        self.builds.put(context, is_reported)?;
        if is_reported {
            self.push(Work::Build(context))?;
        }
        Ok(())
    }

    /// Returns whether the application was asked for a block in exactly this context.
    pub fn is_building(&self, context: &Context<D, S::PublicKey>) -> bool
        ensures { result ≡ list_any (is_asked_in D.eq context.now) self.now.builds.buildings.items }
    {
        self.builds.all().iter().any(|it| is_asked_in(it, context))
    }

    /// Returns whether the application was asked for a block in the view.
    fn is_asked(&self, view: View) -> bool
        ensures { result ≡ list_any (is_asked_at view) self.now.builds.buildings.items }
    {
        self.builds.all().iter().any(|it| is_asked_at(it, view))
    }

    /// Stops building in the view.
    pub(super) fn stop_building(&mut self, view: View) -> Result<(), AllocError>
        ensures { OnOk result (IsStopped view self.old self.new) }
    {
        let is_reported = self.is_asked(view);
        self.end_building(view);
        self.push_stop(view, is_reported)
    }

    /// Has the application stop building in the view, if it was asked to build.
    fn push_stop(&mut self, view: View, is_reported: bool) -> Result<(), AllocError>
        ensures { OnOk result (HasPlanned (stopping view is_reported) self.old self.new) }
    {
        if is_reported {
            self.push(Work::StopBuilding(view))?;
        }
        Ok(())
    }

    /// Removes the view's block.
    pub(super) fn end_building(&mut self, view: View)
        ensures { IsEnded view self.old self.new }
    {
        self.builds.end(view);
    }
}
