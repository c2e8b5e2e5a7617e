//! Rows of the slot and the round at the plain parts.

mod calls;
mod slot;

use simplex_types::types;
use simplex_types::types::plain::PlainDigest;
use simplex_types::types::{Epoch, Proposal, View};

/// View 1 of epoch 1, which the rows are about.
fn first_round() -> types::Round {
    types::Round {
        epoch: Epoch::new(1),
        view: View::new(1),
    }
}

/// A proposal for that view on genesis.
fn proposal(payload: u64) -> Proposal<PlainDigest> {
    Proposal {
        round: first_round(),
        parent: View::zero(),
        payload: PlainDigest::new(payload),
    }
}

/// Returns that proposal, if there is a payload.
fn proposal_of(payload: Option<u64>) -> Option<Proposal<PlainDigest>> {
    match payload {
        Some(payload) => Some(proposal(payload)),
        None => None,
    }
}
