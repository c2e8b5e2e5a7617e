//! The proof that an engine's handle may move between threads.

use crate::held::HeldEngine;

fn is_send<T: Send>(_value: &T) {}

/// Compiles only if `HeldEngine` is `Send`. The type of this body is the statement: it has no clause, and it does
/// nothing.
pub fn held_engine_is_send(held: &HeldEngine) {
    is_send(held)
}
