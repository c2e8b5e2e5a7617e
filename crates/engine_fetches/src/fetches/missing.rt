//! Which fetches are of missing certificates; the others are closed.

ghost use Rattle.std.specs.Prelude.{◌≡◌, filter};
ghost use Rattle.simplex_resolver.specs.Repair.{has};
ghost use Rattle.engine_fetches.specs.OutstandingFetches.{is_held, is_missing};

use super::{Fetch, FetchKind, Fetches};
use simplex_types::types::{CertificateScheme, Digest, Elector, View};
use simplex_voter::voter::State;
use std::collections::BTreeSet;

impl Fetches {
    /// Closes the fetches of certificates that are not missing: of views up to the last finalized one, and of
    /// certificates that the state has. The nullifications of these views stay outstanding though the state may have
    /// them.
    pub fn retain_missing<S: CertificateScheme, L: Elector<S>, D: Digest>(
        &mut self,
        wanted: &BTreeSet<View>,
        state: &State<S, L, D>,
    )
        ensures kept { self.new.wanted.items ≡ filter (is_missing wanted.now.keys state.now) self.old.wanted.items }
        ensures same { (self.new.peers ≡ self.old.peers) × (self.new.retry ≡ self.old.retry) }
    {
        self.wanted.retain(|fetch| is_missing(wanted, state, fetch));
    }
}

/// Returns whether the fetch is of a view above the last finalized one, and of a missing certificate.
fn is_missing<S: CertificateScheme, L: Elector<S>, D: Digest>(
    wanted: &BTreeSet<View>,
    state: &State<S, L, D>,
    fetch: &Fetch,
) -> bool
    ensures { result ≡ is_missing wanted.now.keys state.now fetch.now }
{
    state.last_finalized() < fetch.view && !is_held(wanted, state, fetch)
}

/// Returns whether the state has the certificate, and its nullification is not outstanding.
fn is_held<S: CertificateScheme, L: Elector<S>, D: Digest>(
    wanted: &BTreeSet<View>,
    state: &State<S, L, D>,
    fetch: &Fetch,
) -> bool
    ensures { result ≡ is_held wanted.now.keys state.now fetch.now }
{
    match fetch.kind {
        FetchKind::Notarization => state.notarization(fetch.view).is_some(),
        FetchKind::Nullification => {
            !is_among(wanted, fetch.view) && state.nullification(fetch.view).is_some()
        }
        FetchKind::Decision => false,
    }
}

/// Returns whether the view is among these.
fn is_among(views: &BTreeSet<View>, view: View) -> bool
    ensures { result ≡ has views.now.keys view }
{
    views.contains(&view)
}
