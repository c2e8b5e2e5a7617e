//! Proposals that came before their views: nobody sends them again, so a few are stored.

ghost use Rattle.std.specs.Prelude.{◌≡◌, ◌≤◌, ◌++◌, ◌∷◌, [], nat_lt, filter, length, vec_len, OnOk, OnErr, if◌then◌else◌};

use simplex_types::types::{Participant, Proposal, View};
use std::alloc::{AllocError, Global};

/// A proposal that came before its view, and the member that sent it.
#[derive(Clone, Copy)]
pub(super) struct Early<D> {
    pub from: Participant,
    pub view: View,
    pub proposal: Proposal<D>,
}

/// How many early proposals are stored at most.
pub(super) const MOST_EARLY: usize = 8;

/// The early proposals: eight at most.
#[derive(Drop)]
pub struct EarlyProposals<D> {
    proposals: Vec<Early<D>>,
    ghost few: { vec_len proposals ≤ 8 },
}

impl<D: Copy> EarlyProposals<D> {
    /// Returns an empty list.
    pub(super) fn new(alloc: Global) -> EarlyProposals<D>
        ensures { result.proposals.items ≡ [] }
    {
        EarlyProposals {
            proposals: Vec::new(alloc),
        }
    }

    /// Stores one more, if fewer than eight are stored. Without memory nothing has changed.
    pub(super) fn keep(&mut self, early: Early<D>) -> Result<(), AllocError>
        ensures kept { OnOk result (self.new.proposals.items ≡ (if nat_lt (length self.old.proposals.items) 8
            then self.old.proposals.items ++ early ∷ [] else self.old.proposals.items)) }
        ensures refused { OnErr result (self.new.proposals.items ≡ self.old.proposals.items) }
    {
        if self.proposals.len() < MOST_EARLY {
            self.proposals.push(early)?;
        }
        Ok(())
    }

    /// Removes the proposals of the views up to this one.
    pub(super) fn pass(&mut self, current: View)
        ensures { self.new.proposals.items ≡ filter (λ early. nat_lt current early.view) self.old.proposals.items }
    {
        self.proposals.retain(|early| current < early.view);
    }

    /// Returns all stored proposals.
    pub(super) fn all(&self) -> &[Early<D>]
        ensures { result.now ≡ self.now.proposals.items }
    {
        &self.proposals
    }
}
