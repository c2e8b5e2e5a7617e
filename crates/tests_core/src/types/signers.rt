//! Signers and leaders.

use super::{good, proposal, round};
use simplex_types::types::plain::{
    PlainDigest, PlainElector, PlainKey, PlainScheme, PlainSignature,
};
use simplex_types::types::{
    CertificateScheme, Elector, Participant, Round, Scheme, Subject, TermLength, Terms, View,
    Viewable,
};
use std::alloc::Global;
use std::num::NonZeroU32;
use std::test::Fail;

/// Returns whether a scheme is that of member 3 of four, and signs with its key.
fn signs_as_member_3(alloc: Global, scheme: &PlainScheme) -> Result<bool, Fail> {
    let subject: Subject<PlainDigest> = Subject::Nullify(round(1, 3));
    let signed = scheme.sign(alloc, &subject)?.ok_or("no signature")?;
    Ok(
        signed.key == PlainKey(3)
            && subject.view() == View::new(3)
            && scheme.me() == Some(Participant::new(3))
            && scheme.participants()
                == [PlainKey(0), PlainKey(1), PlainKey(2), PlainKey(3)].as_slice(),
    )
}

#[test]
fn a_copy_of_a_scheme_has_its_members_and_signs_with_its_key(rt: HostRuntime) -> Result<(), Fail> {
    let signer = PlainScheme::new(rt.alloc(), 4, Some(Participant::new(3)))?;
    let copy = signer.copy(rt.alloc())?;
    assert!(rt; signs_as_member_3(rt.alloc(), &copy)?);
    Ok(())
}

#[test]
fn a_scheme_without_a_key_verifies_and_signs_nothing(rt: HostRuntime) -> Result<(), Fail> {
    let subject: Subject<PlainDigest> = Subject::Nullify(round(1, 3));
    let watcher = PlainScheme::new(rt.alloc(), 4, None)?;
    assert!(rt; watcher.sign(rt.alloc(), &subject)?.is_none());
    assert!(rt; Scheme::<PlainDigest>::verify(&watcher, &subject, &good()));
    Ok(())
}

/// Returns whether two votes sign the same bytes.
fn sign_alike(
    alloc: Global,
    one: &Subject<PlainDigest>,
    other: &Subject<PlainDigest>,
) -> Result<bool, Fail> {
    Ok(one.encode(alloc)? == other.encode(alloc)?)
}

/// Returns whether a copy of the signature equals the signature.
fn is_copied(alloc: Global, signature: &PlainSignature) -> Result<bool, Fail> {
    let copy = PlainScheme::copy_signature(alloc, signature)?;
    Ok(copy.key == signature.key && sign_alike(alloc, &copy.subject, &signature.subject)?)
}

/// Returns subjects that differ from a vote to finalize proposal 7 of view 3 in one thing each.
fn others() -> [Subject<PlainDigest>; 5] {
    [
        Subject::Notarize(proposal(1, 3, 2, 7)),
        Subject::Nullify(round(1, 3)),
        Subject::Finalize(proposal(1, 3, 2, 8)),
        Subject::Finalize(proposal(1, 3, 1, 7)),
        Subject::Finalize(proposal(2, 3, 2, 7)),
    ]
}

#[test]
fn a_signature_is_on_one_subject(rt: HostRuntime) -> Result<(), Fail> {
    let finalize = PlainSignature {
        key: PlainKey(3),
        subject: Subject::Finalize(proposal(1, 3, 2, 7)),
    };
    assert!(rt; is_copied(rt.alloc(), &finalize)?);
    for other in &others() {
        assert!(rt; !sign_alike(rt.alloc(), &finalize.subject, other)?);
    }
    Ok(())
}

#[test]
fn members_lead_in_turn_a_term_each(rt: HostRuntime) -> Result<(), Fail> {
    let Some(five) = NonZeroU32::new(5) else {
        unreachable!()
    };
    let elector = PlainElector::new(4, terms_of(five));
    for (view, leader) in [(1, 0), (5, 0), (6, 1), (20, 3), (21, 0)] {
        let elected = leader_of(&elector, round(1, view));
        assert_eq!(rt; elected, Participant::new(leader));
    }
    assert_eq!(rt; terms_and_members(&elector), (terms_of(five), 4, true));
    Ok(())
}

fn terms_of(views: NonZeroU32) -> Terms {
    Terms {
        term_length: TermLength::new(views),
        optimistic_views: 2,
        stall_timeout: None,
    }
}

fn leader_of<E: Elector<PlainScheme>>(elector: &E, round: Round) -> Participant {
    let certificate = good();
    elector.elect(round, Some(&certificate))
}

fn terms_and_members<E: Elector<PlainScheme>>(elector: &E) -> (Terms, usize, bool) {
    (elector.terms(), elector.members(), elector.elects_early())
}
