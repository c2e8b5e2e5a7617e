//! The place of each view's newest notarization in a record.

ghost use Rattle.std.specs.Prelude.{◌≡◌, ◌≤◌, [], ◌∷◌, ◌++◌, length, option_map, OnOk, OnErr};
ghost use Rattle.std.specs.Option.{option_copied};
ghost use Rattle.std.specs.FinMap as map;
ghost use Rattle.simplex_types.specs.Certificates.{artifact_facts, notarization_facts};
ghost use Rattle.simplex_resolver.specs.RecordCalls.{newest_first, notarization_at, newest_notarization};
ghost use Rattle.simplex_resolver.specs.RecordPositions.{with_place, AreNoted};

use simplex_types::types::{
    AllocFailed, Artifact, CertificateScheme, Digest, Notarization, View, Viewable,
};
use simplex_view_maps::tracked::Tracked;
use std::alloc::Global;

/// The places of the newest notarizations among the first entries of a record.
///
/// If there is no memory for a place, it and the later ones are not noted: then a search walks back over them.
/// So a record is tested however little memory there is.
#[derive(Drop)]
pub(super) struct Places {
    by_view: Tracked<usize>,
    // the number of entries whose places are noted
    noted: usize,
}

impl Places {
    /// No entry is noted.
    pub(super) fn new(alloc: Global) -> Places
        ensures places { result.by_view ≡ map.empty }
        ensures noted { result.noted ≡ 0 }
    {
        Places {
            by_view: Tracked::new(alloc),
            noted: 0,
        }
    }

    /// Notes the entry after some others, if all of these are noted.
    pub(super) fn note<S: CertificateScheme, D: Digest>(
        &mut self,
        before: &[Artifact<S, D>],
        artifact: &Artifact<S, D>,
    )
        requires { AreNoted S.certificate_bytes self.old before.now }
        ensures { AreNoted S.certificate_bytes self.new (before.now ++ artifact.now ∷ []) }
    {
        let place = before.len();
        if self.noted < place {
            return;
        }
        let Some(noted) = place.checked_add(1) else {
            return;
        };
        if store_position(&mut self.by_view, artifact, place).is_ok() {
            self.noted = noted;
        }
    }

    /// The last notarization of the view among some entries.
    pub(super) fn last_notarization<'a, S: CertificateScheme, D: Digest>(
        &self,
        entries: &'a [Artifact<S, D>],
        view: View,
    ) -> Option<&'a Notarization<S, D>>
        requires { AreNoted S.certificate_bytes self.now entries.now }
        ensures { option_map (notarization_facts S.certificate_bytes) (option_copied result)
            ≡ newest_notarization view (newest_first S.certificate_bytes entries.now) }
    {
        let behind = last_notarization(&entries[self.noted..], view);
        if behind.is_some() {
            return behind;
        }
        let Some(place) = self.by_view.get(view).copied() else {
            return None;
        };
        notarization_at(&entries[place], view)
    }
}

/// Stores the place of an entry, if it is a notarization.
fn store_position<S: CertificateScheme, D: Digest>(
    places: &mut Tracked<usize>,
    artifact: &Artifact<S, D>,
    place: usize,
) -> Result<(), AllocFailed<usize>>
    ensures kept { OnOk result
        (places.new ≡ with_place places.old (artifact_facts S.certificate_bytes artifact.now) place) }
    ensures refused { OnErr result (places.new ≡ places.old) }
{
    match artifact {
        Artifact::Notarization(notarization) => put(places, notarization.view(), place),
        _ => Ok(()),
    }
}

/// Stores a place, in place of the one that the view has.
fn put(places: &mut Tracked<usize>, view: View, place: usize) -> Result<(), AllocFailed<usize>>
    ensures kept { OnOk result (places.new ≡ map.insert places.old view place) }
    ensures refused { OnErr result (places.new ≡ places.old) }
{
    if let Some(place) = places.insert(view, place)? {
        if let Some(entry) = places.get_mut(view) {
            *entry = place;
        }
    }
    Ok(())
}

/// The last notarization of the view, by a walk over all entries.
fn last_notarization<S: CertificateScheme, D: Digest>(
    entries: &[Artifact<S, D>],
    view: View,
) -> Option<&Notarization<S, D>>
    ensures { option_map (notarization_facts S.certificate_bytes) (option_copied result)
        ≡ newest_notarization view (newest_first S.certificate_bytes entries.now) }
{
    for artifact in entries.iter().rev() {
        let found = notarization_at(artifact, view);
        if found.is_some() {
            return found;
        }
    }
    None
}

/// The notarization in the artifact, if it is one of the view.
fn notarization_at<S: CertificateScheme, D: Digest>(
    artifact: &Artifact<S, D>,
    view: View,
) -> Option<&Notarization<S, D>>
    ensures { option_map (notarization_facts S.certificate_bytes) (option_copied result)
        ≡ notarization_at view (artifact_facts S.certificate_bytes artifact.now) }
{
    match artifact {
        Artifact::Notarization(notarization) if notarization.view() == view => Some(notarization),
        _ => None,
    }
}
