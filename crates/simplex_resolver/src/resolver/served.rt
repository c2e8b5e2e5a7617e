//! Storing certificates at views: steps over plain maps.

ghost use Rattle.std.specs.Prelude.{◌≡◌, ◌<◌, ◌^◌, ◌+◌, nat_lt, if◌then◌else◌, Some, OnOk, OnErr, is_some};
ghost use Rattle.std.specs.Option.{option_copied, option_map_or};
ghost use Rattle.std.specs.FinMap as map;
ghost use Rattle.simplex_types.specs.Terms.{IsVotable};
ghost use Rattle.simplex_types.specs.Certificates.{certificate_facts};
ghost use Rattle.simplex_types.specs.Encoding.{encoding};
ghost use Rattle.simplex_resolver.specs.Facts.{certified_encoding};
ghost use Rattle.simplex_resolver.specs.Steps.{insert_new};

use bytes::Bytes;
use simplex_types::types::{Certificate, CertificateScheme, Digest, Fault, View};
use simplex_view_maps::by_term::ByTerm;
use simplex_view_maps::tracked::Tracked;
use std::alloc::Global;

/// Stores the value, in place of the one that the view has.
pub(super) fn put<V: Drop>(tracked: &mut Tracked<V>, view: View, value: V) -> Result<(), Fault>
    ensures put { OnOk result (tracked.new ≡ map.insert tracked.old view value) }
    ensures refused { OnErr result (tracked.new ≡ tracked.old) }
{
    if let Some(value) = tracked.insert(view, value)? {
        if let Some(entry) = tracked.get_mut(view) {
            *entry = value;
        }
    }
    Ok(())
}

/// Stores the nullification's encoding, unless the view has one.
pub(super) fn store_nullification<S: CertificateScheme, D: Digest>(
    alloc: Global,
    nullifications: &mut ByTerm<Bytes>,
    view: View,
    certificate: &Certificate<S, D>,
) -> Result<(), Fault>
    requires { IsVotable view }
    ensures kept { OnOk result (nullifications.new ≡ record nullifications.old {
      by_view = insert_new nullifications.old.by_view view
          (encoding D.bytes (certificate_facts S.certificate_bytes certificate.now));
    }) }
    ensures same_terms { nullifications.new.term_length ≡ nullifications.old.term_length }
{
    if nullifications.get(view).is_some() {
        return Ok(());
    }
    let encoding = certificate.encode(alloc)?;
    match nullifications.insert(view, encoding) {
        Ok(_) => Ok(()),
        Err(_) => Err(Fault::OutOfMemory),
    }
}

/// Keeps the finalization of the higher view.
pub(super) fn store_finalization<S: CertificateScheme, D: Digest>(
    alloc: Global,
    finalization: &mut Option<(View, Bytes)>,
    view: View,
    certificate: &Certificate<S, D>,
) -> Result<(), Fault>
    ensures kept { OnOk result (finalization.new ≡ (if nat_lt (option_map_or (λ f. f.0) finalization.old 0) view
        then Some (view, encoding D.bytes (certificate_facts S.certificate_bytes certificate.now))
        else finalization.old)) }
    ensures refused { OnErr result (finalization.new ≡ finalization.old) }
{
    let last = match finalization {
        Some((last, _)) => *last,
        None => View::zero(),
    };
    if view > last {
        let encoding = certificate.encode(alloc)?;
        *finalization = Some((view, encoding));
    }
    Ok(())
}
