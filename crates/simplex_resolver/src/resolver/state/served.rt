//! The results that a resolver returns from its stored certificates.

ghost use Rattle.std.specs.Prelude.{◌≡◌, ◌&&◌, IfOk, IfErr, OnErr, true, false, is_some};
ghost use Rattle.std.specs.Option.{option_copied};
ghost use Rattle.std.specs.FinMap as map;
ghost use Rattle.simplex_types.specs.declared.types.fault.Fault.TheVariants.{OutOfMemory, Failed};
ghost use Rattle.simplex_types.specs.declared.reasons.Kind.TheVariants.{Nullification as OfNullification, Notarization as OfNotarization};
ghost use Rattle.simplex_view_maps.specs.ByTerm.{has_covering};
ghost use Rattle.simplex_resolver.specs.Served.{is_settled, served_encoding, finalized_for, floor_for};

use crate::resolver::scan;
use crate::resolver::state::State;
use bytes::Bytes;
use simplex_types::reasons::Kind;
use simplex_types::types::{Fault, View};

impl State {
    /// Returns whether nothing of the kind must be fetched at the view any more: it is finalized, or the
    /// resolver holds such a certificate, or a verdict was false.
    pub fn settled(&self, view: View, kind: Kind) -> bool
        ensures { result ≡ is_settled self.now view kind }
    {
        let is_held = match kind {
            Kind::Nullification => self.is_covered(view),
            Kind::Notarization => self.notarizations.contains(view),
        };
        view <= self.last_finalized() || is_held
    }

    /// Returns whether a nullification covers the view.
    fn is_covered(&self, view: View) -> bool
        ensures { result ≡ has_covering self.now.nullifications view }
    {
        scan::covering_nullification(&self.nullifications, view).is_some()
    }

    /// Returns whether nothing must be fetched at the view any more, of either kind.
    pub fn key_settled(&self, view: View) -> bool
        ensures { result ≡ (is_settled self.now view OfNullification && is_settled self.now view OfNotarization) }
    {
        if view <= self.last_finalized() {
            return true;
        }
        self.is_covered(view) && self.notarizations.contains(view)
    }

    /// Returns whether a verdict on the notarization at the view was false, and the view isn't finalized.
    pub fn uncertifiable(&self, view: View) -> bool
        ensures { result ≡ map.contains_key self.now.uncertifiable view }
    {
        self.notarizations.has_failed(view)
    }

    /// Returns the encoding of the certificate to serve to a peer that asks for the view, the first there is of:
    /// - the highest finalization, if it is at or above the view,
    /// - the certified notarization of the view,
    /// - the nullification of the highest view that covers it,
    /// - the certified notarization at the floor, if the view is below it.
    ///
    /// # Errors
    ///
    /// `Failed` on a failed state, and `OutOfMemory`, which does not fail the state, and never occurs if
    /// nothing is served.
    pub fn produce(&self, view: View) -> Result<Option<Bytes>, Fault>
        ensures served { IfOk result (λ bytes. bytes ≡ served_encoding self.now view) }
        ensures failed { self.now.is_failed ≡ true → result ≡ Err Failed }
        ensures live { self.now.is_failed ≡ false → IfErr result (λ fault. fault ≡ OutOfMemory) }
        ensures refused_only_a_copy { self.now.is_failed ≡ false
            → OnErr result (is_some (served_encoding self.now view) ≡ true) }
    {
        if self.failed {
            return Err(Fault::Failed);
        }
        match self.served(view) {
            Some(encoding) => Ok(Some(encoding.clone()?)),
            None => Ok(None),
        }
    }

    fn finalized_for(&self, view: View) -> Option<&Bytes>
        ensures { option_copied result ≡ finalized_for self.now view }
    {
        match &self.finalization {
            Some((finalized, encoding)) if view <= *finalized => Some(encoding),
            _ => None,
        }
    }

    fn floor_for(&self, view: View) -> Option<&Bytes>
        ensures { option_copied result ≡ floor_for self.now view }
    {
        if view > self.floor {
            return None;
        }
        self.notarizations.certified_at(self.floor)
    }

    fn served(&self, view: View) -> Option<&Bytes>
        ensures { option_copied result ≡ served_encoding self.now view }
    {
        if let Some(encoding) = self.finalized_for(view) {
            return Some(encoding);
        }
        if let Some(encoding) = self.notarizations.certified_at(view) {
            return Some(encoding);
        }
        if let Some(encoding) = scan::covering_nullification(&self.nullifications, view) {
            return Some(encoding);
        }
        self.floor_for(view)
    }
}
