//! Values that wait for an answer, by view.

ghost use Rattle.std.specs.Prelude.{◌≡◌, ◌==◌, true, not, filter, [], Some, None, if◌then◌else◌, OnOk, IfErr};
ghost use Rattle.std.specs.Option.{option_copied};
ghost use Rattle.std.specs.FinMap.Entries.{find, put};
ghost use Rattle.std.specs.Ordering.{nat_cmp};
ghost use Rattle.simplex_types.specs.declared.types.fault.Fault.TheVariants.{OutOfMemory};

use simplex_types::types::{Fault, View};
use simplex_view_maps::tracked::Tracked;
use std::alloc::Global;
use std::marker::Model;

/// Values by view. The newest is stored apart, so that storing it takes no memory; it moves to the others when room is
/// made for the next.
#[derive(Drop)]
pub struct Pending<V> {
    newest: Option<(View, V)>,
    others: Tracked<V>,
}

impl<V> Model for Pending<V> {
    ghost use Rattle.std.specs.Prelude.{is_some, not};
    ghost use Rattle.std.specs.FinMap as map;
    ghost use Rattle.simplex_member.specs.PendingValues.{PendingFacts, with_newest};

    ghost Value = { PendingFacts V };

    ghost view = { λ w. record {
      entries = map.entries (with_newest w.newest w.others);
      has_room = not (is_some w.newest);
    } };
}

impl<V: Drop> Pending<V> {
    pub(super) fn new(alloc: Global) -> Self
        ensures { result ≡ record { entries = []; has_room = true } }
    {
        Pending {
            newest: None,
            others: Tracked::new(alloc),
        }
    }

    pub(super) fn get(&self, view: View) -> Option<&V>
        ensures { option_copied result ≡ find nat_cmp view self.now.entries }
    {
        match &self.newest {
            Some(newest) => {
                if newest.0 == view {
                    Some(&newest.1)
                } else {
                    self.others.get(view)
                }
            }
            None => self.others.get(view),
        }
    }

    /// Makes room for one more value. If there is no memory, nothing has changed.
    pub(super) fn make_room(&mut self) -> Result<(), Fault>
        ensures same { self.new.entries ≡ self.old.entries }
        ensures room { OnOk result (self.new.has_room ≡ true) }
        ensures refused { IfErr result (λ fault. fault ≡ OutOfMemory) }
    {
        match self.newest.take() {
            Some(newest) => self.move_over(newest.0, newest.1),
            None => Ok(()),
        }
    }

    /// Moves a value to the others, or leaves it the newest if there is no memory.
    fn move_over(&mut self, view: View, value: V) -> Result<(), Fault>
        requires { self.old.has_room ≡ true }
        ensures entries { self.new.entries ≡ put nat_cmp view value self.old.entries }
        ensures room { OnOk result (self.new.has_room ≡ true) }
        ensures refused { IfErr result (λ fault. fault ≡ OutOfMemory) }
    {
        self.others.remove(view);
        match self.others.insert(view, value) {
            Ok(_) => Ok(()),
            Err(refused) => {
                self.newest = Some((view, refused.value));
                Err(Fault::OutOfMemory)
            }
        }
    }

    /// Sets the value of a view, which may have one.
    pub(super) fn put(&mut self, view: View, value: V)
        requires { self.old.has_room ≡ true }
        ensures entries { self.new.entries ≡ put nat_cmp view value self.old.entries }
    {
        self.newest = Some((view, value));
    }

    /// Removes the value of a view, if there is one.
    pub(super) fn remove(&mut self, view: View)
        ensures entries { self.new.entries ≡ filter (λ e. not (e.0 == view)) self.old.entries }
        ensures room { self.old.has_room ≡ true → self.new.has_room ≡ true }
    {
        self.others.remove(view);
        self.newest = match self.newest.take() {
            Some(newest) => unless_of(newest, view),
            None => None,
        };
    }
}

/// An entry, unless it is of the view.
fn unless_of<V: Drop>(entry: (View, V), view: View) -> Option<(View, V)>
    ensures { result ≡ (if entry.0 == view then None else Some entry) }
{
    if entry.0 == view { None } else { Some(entry) }
}
