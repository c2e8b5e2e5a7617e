//! The resolver: which certificates it stores and serves, and which views it fetches.
//!
//! The host passes every certificate that its member accepts (`State::updated`), every verdict on a
//! notarization (`State::certified`) and the end of its journal's replay (`State::replayed`). Each call returns
//! effects, in order: what is settled, whether the floor rose, and which nullifications must be fetched.
//! `apply` updates the set of open fetches, and `State::produce` serves a peer that repairs below the current
//! view.

mod effect;
mod laws;
mod notarizations;
mod outstanding;
mod scan;
mod served;
mod state;
mod views;

pub use effect::Effect;
pub use laws::{answers, repair};
pub use outstanding::apply;
pub use simplex_view_maps::by_term::ByTerm;
pub use state::State;
