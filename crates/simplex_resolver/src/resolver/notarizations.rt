//! The notarized and judged views, with the encodings of those whose last verdict was true, and which of them
//! have failed.

ghost use Rattle.std.specs.Prelude.{◌≡◌, Some, None, OnOk};
ghost use Rattle.std.specs.Option.{option_copied};
ghost use Rattle.std.specs.FinMap as map;
ghost use Rattle.simplex_view_maps.specs.Tracked.{at_or_above};
ghost use Rattle.simplex_resolver.specs.Facts.{certified_encoding};
ghost use Rattle.simplex_resolver.specs.Steps.{insert_new};

use crate::resolver::served;
use crate::resolver::views::Views;
use bytes::Bytes;
use simplex_types::types::{Fault, View};
use simplex_view_maps::tracked::Tracked;
use std::alloc::Global;
use std::marker::Model;

/// A map from views, each with an encoding if its last verdict was true, and the set of those with a false
/// verdict.
///
/// Each view takes one place, except one that has failed and was certified after that.
#[derive(Drop)]
pub(super) struct Notarizations {
    /// Views without a verdict.
    noted: Views,
    /// Views with a false verdict.
    failed: Views,
    /// The encodings of the views whose last verdict was true.
    certified: Tracked<Bytes>,
}

impl Model for Notarizations {
    ghost use Rattle.simplex_resolver.specs.ViewSets.{NotarizationsFacts, notarizations_code, with_values, AreApart};

    ghost Value = { NotarizationsFacts };

    ghost coded = { notarizations_code };

    ghost view = { λ n. record {
      by_view = with_values n.certified n.failed n.noted;
      failed = n.failed;
    } };

    ghost invariant = { λ n. AreApart n.certified n.failed n.noted };
}

impl Notarizations {
    pub(super) fn new(alloc: Global) -> Notarizations
        ensures by_view { result.by_view ≡ map.empty }
        ensures failed { result.failed ≡ map.empty }
    {
        Notarizations {
            noted: Views::new(alloc),
            failed: Views::new(alloc),
            certified: Tracked::new(alloc),
        }
    }

    /// Adds a view, unless it is there.
    pub(super) fn note(&mut self, view: View) -> Result<(), Fault>
        ensures { OnOk result (self.new ≡ record self.old { by_view = insert_new self.old.by_view view None }) }
    {
        if self.failed.contains(view) || self.certified.get(view).is_some() {
            return Ok(());
        }
        self.noted.insert(view)
    }

    /// Records that the view's last verdict was true, and stores the encoding to serve.
    pub(super) fn certify(&mut self, view: View, encoding: Bytes) -> Result<(), Fault>
        ensures { OnOk result (self.new ≡ record
            self.old { by_view = map.insert self.old.by_view view (Some encoding) }) }
    {
        served::put(&mut self.certified, view, encoding)?;
        self.noted.remove(view);
        Ok(())
    }

    /// Records that the view's last verdict was false: it has failed from now on.
    pub(super) fn refuse(&mut self, view: View) -> Result<(), Fault>
        ensures { OnOk result (self.new ≡ record {
          by_view = map.insert self.old.by_view view None;
          failed = insert_new self.old.failed view tt;
        }) }
    {
        self.failed.insert(view)?;
        self.noted.remove(view);
        self.certified.remove(view);
        Ok(())
    }

    /// Returns whether the view is notarized or judged.
    pub(super) fn contains(&self, view: View) -> bool
        ensures { result ≡ map.contains_key self.now.by_view view }
    {
        self.certified.get(view).is_some()
            || self.failed.contains(view)
            || self.noted.contains(view)
    }

    /// Returns whether the view has a false verdict.
    pub(super) fn has_failed(&self, view: View) -> bool
        ensures { result ≡ map.contains_key self.now.failed view }
    {
        self.failed.contains(view)
    }

    /// The views with a false verdict.
    pub(super) fn failed(&self) -> &Views
        ensures { result.now ≡ self.now.failed }
    {
        &self.failed
    }

    /// The encoding at the view, if its last verdict was true.
    pub(super) fn certified_at(&self, view: View) -> Option<&Bytes>
        ensures { option_copied result ≡ certified_encoding self.now.by_view view }
    {
        self.certified.get(view)
    }

    /// Removes the views below a view.
    pub(super) fn drop_below(&mut self, view: View)
        ensures { self.new ≡ record {
          by_view = at_or_above self.old.by_view view;
          failed = at_or_above self.old.failed view;
        } }
    {
        self.noted.drop_below(view);
        self.failed.drop_below(view);
        self.certified.drop_below(view);
    }
}
