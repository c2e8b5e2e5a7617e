//! The resolver's effects on fetches: which are opened, and which are closed.

ghost use Rattle.std.specs.Prelude.{◌≡◌, OnOk};
ghost use Rattle.engine_fetches.specs.OutstandingFetches.{after_effect, after_effects, wanting};

use super::{FetchKind, Fetches, fetch_kind};
use simplex_resolver::resolver::Effect;
use simplex_types::types::View;
use std::alloc::AllocError;
use std::collections::BTreeSet;

impl Fetches {
    /// Opens and closes fetches as the effects say, in order. A missing certificate may be on its way, and is asked for
    /// from this moment on.
    pub fn apply(&mut self, effects: &[Effect], moment: u64) -> Result<(), AllocError>
        ensures after { OnOk result (self.new.wanted.items ≡ after_effects moment effects.now self.old.wanted.items) }
        ensures same { (self.new.peers ≡ self.old.peers) × (self.new.retry ≡ self.old.retry) }
    {
        for effect in effects {
            self.apply_one(effect, moment)?;
        }
        Ok(())
    }

    /// Opens or closes fetches as an effect says.
    fn apply_one(&mut self, effect: &Effect, moment: u64) -> Result<(), AllocError>
        ensures after { OnOk result (self.new.wanted.items ≡ after_effect moment effect.now self.old.wanted.items) }
        ensures same { (self.new.peers ≡ self.old.peers) × (self.new.retry ≡ self.old.retry) }
    {
        match *effect {
            Effect::Fetch { view, .. } => {
                self.open(FetchKind::Nullification, view, None, moment)?;
            }
            Effect::Settled { kind, start, end } => self.settle(fetch_kind(kind), start, end),
            Effect::Finalized(view) => self.pass(view),
            Effect::Raised(view) => self.settle(FetchKind::Nullification, View::zero(), view),
        }
        Ok(())
    }

    /// Opens the fetch of a nullification of each view, which is due at once.
    pub fn open_all(&mut self, views: &BTreeSet<View>) -> Result<(), AllocError>
        ensures opened { OnOk result (self.new.wanted.items ≡ wanting views.now.keys self.old.wanted.items) }
        ensures same { (self.new.peers ≡ self.old.peers) × (self.new.retry ≡ self.old.retry) }
    {
        let mut rest = views.iter();
        while let Some(view) = rest.next().copied() {
            self.open(FetchKind::Nullification, view, None, 0)?;
        }
        Ok(())
    }
}
