//! Each call with ample memory, and the bytes that are served. The worked rows are transcripts of the
//! program `viewstate`.

ghost use Rattle.std.specs.Prelude.{◌≤◌};
ghost use Rattle.simplex_types.specs.MessageViews.{certificate_view};

use simplex_resolver::resolver::{Effect, State, apply};
use simplex_types::reasons::Kind;
use simplex_types::types::plain::{PlainCertificate, PlainDigest, PlainScheme};
use simplex_types::types::{
    Certificate, Epoch, Fault, Notarization, Nullification, Proposal, Round, TermLength, View,
};
use std::alloc::{AllocError, Global};
use std::collections::BTreeSet;
use std::num::NonZeroU32;
use std::test::Fail;

fn term_of_one() -> TermLength {
    TermLength::new(NonZeroU32::MIN)
}

/// Returns a round of a view, or of view 1 for genesis.
fn round_of(epoch: u64, view: u64) -> Round
    ensures { 1 ≤ result.view }
{
    Round {
        epoch: Epoch::new(epoch),
        view: View::new(view.max(1)),
    }
}

fn notarization_of(view: u64) -> Notarization<PlainScheme, PlainDigest>
    ensures { 1 ≤ result.proposal.round.view }
{
    Notarization {
        proposal: Proposal {
            round: round_of(1, view),
            parent: View::new(view.saturating_sub(1)),
            payload: PlainDigest::new(7),
        },
        certificate: PlainCertificate { good: true },
    }
}

fn nullified(epoch: u64, view: u64) -> Certificate<PlainScheme, PlainDigest>
    ensures { 1 ≤ certificate_view result }
{
    Certificate::Nullification(Nullification {
        round: round_of(epoch, view),
        certificate: PlainCertificate { good: true },
    })
}

/// Returns a resolver in terms of one view, on the heap.
fn begun(alloc: Global) -> Result<Box<State>, AllocError> {
    Ok(Box::new(alloc, State::new(alloc, term_of_one()))?)
}

/// Returns whether a nullification of view 3 opens three fetches, and one of view 2 leaves that of view 1.
fn settles_in_turn(alloc: Global, state: &mut State) -> Result<bool, Fail> {
    let mut outstanding = BTreeSet::new(alloc);
    let opened = state.updated(&nullified(1, 3))?;
    apply(&mut outstanding, opened.as_slice())?;
    let settled = state.updated(&nullified(1, 2))?;
    apply(&mut outstanding, settled.as_slice())?;
    Ok(opened.len() == 3 && outstanding.len() == 1 && outstanding.contains(&View::new(1)))
}

#[test]
fn a_fetch_is_open_until_it_is_settled(rt: HostRuntime) -> Result<(), Fail> {
    let mut state = begun(rt.alloc())?;
    assert!(rt; state.term_length() == term_of_one() && state.replayed()?.is_empty());
    assert!(rt; settles_in_turn(rt.alloc(), &mut state)?);
    Ok(())
}

/// Returns whether exactly these bytes are served for a view.
fn serves(state: &State, view: u64, bytes: &[u8]) -> Result<bool, Fail> {
    let served = state.produce(View::new(view))?.ok_or("nothing is served")?;
    Ok(served.as_slice() == bytes)
}

/// Returns whether a notarization settles view 3, something else is left to ask for there, and it may be certified.
fn settles_3(state: &State) -> bool {
    state.settled(View::new(3), Kind::Notarization)
        && !state.key_settled(View::new(3))
        && !state.uncertifiable(View::new(3))
}

/// The notarization of view 3, as it is served.
static NOTARIZED: [u8; 34] = [
    0, 0, 0, 0, 0, 0, 0, 0, 1, 0, 0, 0, 0, 0, 0, 0, 3, 0, 0, 0, 0, 0, 0, 0, 2, 0, 0, 0, 0, 0, 0, 0,
    7, 1,
];

#[test]
fn a_certified_notarization_is_served(rt: HostRuntime) -> Result<(), Fail> {
    let mut state = begun(rt.alloc())?;
    let effects = state.certified(notarization_of(3), true)?;
    let raised = Effect::Raised(View::new(3));
    assert!(rt; effects.as_slice().last() == Some(&raised) && settles_3(&state));
    assert!(rt; serves(&state, 2, &NOTARIZED)?);
    Ok(())
}

/// The nullification of view 4 in epoch 9, as it is served.
static NULLIFIED: [u8; 18] = [1, 0, 0, 0, 0, 0, 0, 0, 9, 0, 0, 0, 0, 0, 0, 0, 4, 1];

#[test]
fn a_nullification_is_served_whole(rt: HostRuntime) -> Result<(), Fail> {
    let mut state = begun(rt.alloc())?;
    state.updated(&nullified(9, 4))?;
    assert!(rt; serves(&state, 4, &NULLIFIED)?);
    Ok(())
}

/// Returns whether a certificate is refused with this error.
fn refuses(
    state: &mut State,
    certificate: &Certificate<PlainScheme, PlainDigest>,
    fault: Fault,
) -> bool
    requires { 1 ≤ certificate_view certificate.now }
{
    state.updated(certificate).err() == Some(fault)
}

#[test]
fn a_failed_resolver_refuses_each_call(rt: HostRuntime) -> Result<(), Fail> {
    let mut state = begun(rt.alloc())?;
    state.fail();
    assert!(rt; state.is_failed() && refuses(&mut state, &nullified(1, 3), Fault::Failed));
    assert!(rt; matches!(state.produce(View::new(3)), Err(Fault::Failed)));
    Ok(())
}

#[test]
fn a_view_above_the_largest_is_refused(rt: HostRuntime) -> Result<(), Fail> {
    let mut state = begun(rt.alloc())?;
    let above = nullified(1, 0x8000_0000_0000_0000);
    assert!(rt; refuses(&mut state, &above, Fault::ViewTooLarge) && !state.is_failed());
    state.updated(&nullified(1, 0x7fff_ffff_ffff_ffff))?;
    let served = state.produce(View::new(0x7fff_ffff_ffff_ffff))?;
    assert!(rt; served.is_some());
    Ok(())
}

#[test]
fn a_parent_above_the_largest_view_is_refused(rt: HostRuntime) -> Result<(), Fail> {
    let mut state = begun(rt.alloc())?;
    let mut notarization = notarization_of(3);
    notarization.proposal.parent = View::new(0x8000_0000_0000_0000);
    let refused = refuses(
        &mut state,
        &Certificate::Notarization(notarization),
        Fault::ViewTooLarge,
    );
    assert!(rt; refused && !state.is_failed() && !state.settled(View::new(3), Kind::Notarization));
    Ok(())
}
