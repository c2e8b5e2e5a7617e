//! The proof that a handle may move between threads.

use crate::held::Held;
use crate::resolver_calls::HeldResolver;

fn is_send<T: Send>(_value: &T) {}

/// Compiles only if `Held` is `Send`. The type of this body is the statement: it has no clause, and it does nothing.
pub fn held_is_send(held: &Held) {
    is_send(held)
}

/// Compiles only if `HeldResolver` is `Send`. Here too the type is the statement.
pub fn held_resolver_is_send(held: &HeldResolver) {
    is_send(held)
}
