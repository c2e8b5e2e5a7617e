//! Members of plain parts that begin at a finalization.

use super::{PlainMember, proposal, start, started};
use simplex_member::member::Restart;
use simplex_types::config::Floor;
use simplex_types::types::plain::{PlainCertificate, PlainDigest, PlainScheme};
use simplex_types::types::{Finalization, View, Viewable};
use std::alloc::Global;
use std::test::Fail;

/// A floor of the view: its finalization, on the view before.
fn floor(view: u64, parent: u64) -> Floor<PlainScheme, PlainDigest> {
    Floor::Finalized(Finalization {
        proposal: proposal(view, parent, 7),
        certificate: PlainCertificate { good: true },
    })
}

/// Returns the view of the certificate that lets others enter the current view.
fn best(member: &mut PlainMember) -> Option<View> {
    match member.get_best_certificate() {
        Ok(Some(certificate)) => Some(certificate.view()),
        _ => None,
    }
}

/// Returns whether the best certificate is of a view, and the record has this number of entries.
fn stands_at(member: &mut PlainMember, view: u64, entries: usize) -> bool {
    best(member) == Some(View::new(view)) && member.record_since(0).len() == entries
}

/// Returns a member that begins at a floor of view 5.
fn begun_at_5(alloc: Global) -> Result<Box<PlainMember>, Fail> {
    let mut begun = start(alloc, 10)?;
    begun.floor = floor(5, 4);
    started(alloc, begun)
}

/// Begins another lifetime, at a floor of view 9.
fn restart_at_9(alloc: Global, member: &mut PlainMember) -> Result<(), Fail> {
    let mut again = start(alloc, 10)?;
    again.floor = floor(9, 8);
    member.restart(Restart {
        drop: 0,
        prune: false,
        start: again,
    })?;
    Ok(())
}

#[test]
fn a_member_begins_after_the_view_of_its_floor(rt: HostRuntime) -> Result<(), Fail> {
    let mut member = begun_at_5(rt.alloc())?;
    assert!(rt; stands_at(&mut member, 5, 1));
    restart_at_9(rt.alloc(), &mut member)?;
    assert!(rt; stands_at(&mut member, 9, 2));
    Ok(())
}

#[test]
fn no_certificate_lets_others_enter_the_first_view(rt: HostRuntime) -> Result<(), Fail> {
    let alloc = rt.alloc();
    let mut member = started(alloc, start(alloc, 10)?)?;
    assert_eq!(rt; best(&mut member), None);
    Ok(())
}
