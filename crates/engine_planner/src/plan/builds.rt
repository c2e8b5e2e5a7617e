//! Blocks to build: at most one a view.

ghost use Rattle.std.specs.Prelude.{◌≡◌, [], ◌∷◌, ◌++◌, map, true, OnOk};
ghost use Rattle.engine_planner.specs.Blocks.{is_asked_in, is_asked_at, is_ahead, all_but_at, one_a_view, in_place};
ghost use Rattle.engine_planner.specs.Blocks.{has_waited, reported_by};

use simplex_types::types::{Context, Digest, View};
use std::alloc::{AllocError, Global};

/// A block to build.
#[derive(Clone, Copy)]
pub(super) struct PendingBuild<D, P: Copy> {
    pub context: Context<D, P>,
    /// The application was asked for it.
    pub is_reported: bool,
}

/// The blocks to build: at most one a view.
#[derive(Drop)]
pub struct Builds<D, P: Copy> {
    buildings: Vec<PendingBuild<D, P>>,
    ghost once: { one_a_view buildings.items ≡ true },
}

impl<D: Digest, P: Copy> Builds<D, P> {
    /// Returns an empty list.
    pub(super) fn new(alloc: Global) -> Builds<D, P>
        ensures { result.buildings.items ≡ [] }
    {
        Builds {
            buildings: Vec::new(alloc),
        }
    }

    /// Adds a block to build, in place of one of its view.
    pub(super) fn put(
        &mut self,
        context: Context<D, P>,
        is_reported: bool,
    ) -> Result<(), AllocError>
        ensures { OnOk result (self.new.buildings.items ≡ in_place
            (record { context = context; is_reported = is_reported }) self.old.buildings.items) }
    {
        self.end(view_of(&context));
        self.buildings.push(PendingBuild {
            context,
            is_reported,
        })?;
        Ok(())
    }

    /// Removes the view's block.
    pub(super) fn end(&mut self, view: View)
        ensures { self.new.buildings.items ≡ all_but_at view self.old.buildings.items }
    {
        self.buildings.retain(|it| it.context.round.view != view);
    }

    /// Marks each block of the view, and of those below it, as asked for.
    pub(super) fn tell(&mut self, view: View)
        ensures { self.new.buildings.items ≡ map (reported_by view) self.old.buildings.items }
    {
        mark_reported(view, &mut self.buildings);
    }

    /// Returns all blocks to build.
    pub(super) fn all(&self) -> &[PendingBuild<D, P>]
        ensures { result.now ≡ self.now.buildings.items }
    {
        &self.buildings
    }
}

/// Returns the view of a context.
fn view_of<D: Digest, P: Copy>(context: &Context<D, P>) -> View
    ensures { result ≡ context.now.round.view }
{
    context.round.view
}

/// Returns whether the application was asked for the block in exactly this context.
pub(super) fn is_asked_in<D: Digest, P: Copy>(
    building: &PendingBuild<D, P>,
    context: &Context<D, P>,
) -> bool
    ensures { result ≡ is_asked_in D.eq context.now building.now }
{
    building.is_reported
        && building.context.round == context.round
        && building.context.parent == context.parent
}

/// Returns whether the application was asked for the block, in the view.
pub(super) fn is_asked_at<D: Digest, P: Copy>(building: &PendingBuild<D, P>, view: View) -> bool
    ensures { result ≡ is_asked_at view building.now }
{
    building.is_reported && building.context.round.view == view
}

/// Returns whether the block is of a later view, or is of the view and was asked for.
pub(super) fn is_ahead<D: Digest, P: Copy>(building: &PendingBuild<D, P>, view: View) -> bool
    ensures { result ≡ is_ahead view building.now }
{
    view < building.context.round.view || is_asked_at(building, view)
}

/// Returns whether the block was to be asked for in the view, or in one below it, and was not yet.
pub(super) fn has_waited<D: Digest, P: Copy>(building: &PendingBuild<D, P>, view: View) -> bool
    ensures { result ≡ has_waited view building.now }
{
    !building.is_reported && building.context.round.view <= view
}

/// Marks each of these blocks that is of the view, or of one below it, as asked for.
fn mark_reported<D: Digest, P: Copy>(view: View, builds: &mut [PendingBuild<D, P>])
    ensures { builds.new ≡ map (reported_by view) builds.old }
{
    for building in builds.iter_mut() {
        *building = reported_by(*building, view);
    }
}

/// Returns the block, marked as asked for if it is of the view or below it.
fn reported_by<D: Digest, P: Copy>(building: PendingBuild<D, P>, view: View) -> PendingBuild<D, P>
    ensures { result ≡ reported_by view building }
{
    PendingBuild {
        context: building.context,
        is_reported: building.is_reported || building.context.round.view <= view,
    }
}
