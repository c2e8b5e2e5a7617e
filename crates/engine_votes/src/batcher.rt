//! The vote batcher: it collects votes and makes certificates of them.
//!
//! It guarantees:
//!
//! - a certificate is made of the signatures of exactly n - f different members on one subject, each of a vote that was
//!   passed in;
//! - of each member one vote of a kind and view counts, and a contradicting one is returned with it;
//! - a refused vote changes nothing.
//!
//! It stores at most one vote of each kind of each member in each view that was admitted and is not forgotten. The host
//! verifies a vote's signature before.

ghost use Rattle.std.specs.Prelude.{◌≡◌, ◌≢◌, ◌≤◌, ◌++◌, ◌∷◌, [], ℕ, true, length, IfOk, OnOk, OnErr, MatchOption};
ghost use Rattle.std.specs.FinMap as map;
ghost use Rattle.simplex_types.specs.MessageViews.{subject_view};
ghost use Rattle.engine_votes.specs.Polls.{slots_at, HoldsTheSame};
ghost use Rattle.engine_votes.specs.VoteCounts.{IsCountedIn};

mod poll;

use crate::votes::Vote;
use poll::{Ballot, count};
use simplex_types::types::assembly::Assembly;
use simplex_types::types::{
    Certificate, CertificateScheme, Digest, Participant, Subject, View, Viewable,
};
use simplex_view_maps::tracked::Tracked;
use std::alloc::{AllocError, Global};

/// The result of counting a vote.
#[derive(Drop)]
pub enum Counted<S: CertificateScheme, D> {
    /// Its view is not admitted, or its signer is no member. Nothing has changed.
    Refused,
    /// Its signer voted for the same before, or a pair of votes that contradict each other was returned of its signer,
    /// of this kind and view. Nothing has changed.
    Known,
    /// Its signer voted for something else of this kind in this view before: that vote, and this one. Such a pair is
    /// returned once of a signer, kind and view; the first vote stays stored.
    Equivocated(Vote<D, S::Signature>, Vote<D, S::Signature>),
    /// It was taken. The votes for the same are fewer than a quorum, or were one before.
    Taken,
    /// It was taken, and completes a quorum: the certificate of the votes for the same.
    Certified(Certificate<S, D>),
}

/// The votes of one kind, by view and member.
type Polls<D, G> = Tracked<Vec<Option<Ballot<D, G>>>>;

/// The stored votes, by kind, view and member.
#[derive(Drop)]
pub struct Batcher<S: CertificateScheme, D> {
    alloc: Global,
    scheme: S,
    notarize: Polls<D, S::Signature>,
    nullify: Polls<D, S::Signature>,
    finalize: Polls<D, S::Signature>,
}

impl<S: Assembly<D>, D: Digest> Batcher<S, D> {
    ghost use Rattle.engine_votes.specs.StoredVotes.{held, kind_of, AreGiven, AreGood, IsGoodIfCertified, HoldsNothing, HoldsAllTheSame, HoldsNoOther, HoldsUpTo, HoldsFrom, KeepsOthers, MayCount, IsCounted, IsForgotten};

    /// Returns an empty batcher of the scheme's members.
    pub fn new(alloc: Global, scheme: S) -> Batcher<S, D>
        ensures scheme { result.scheme ≡ scheme }
        ensures nothing { HoldsNothing result }
        ensures given { AreGiven [] result }
    {
        Batcher {
            alloc,
            scheme,
            notarize: Tracked::new(alloc),
            nullify: Tracked::new(alloc),
            finalize: Tracked::new(alloc),
        }
    }

    /// Counts a vote whose signature is valid. `is_admitted` says whether the state admits votes of its view
    /// (`State::admits_vote`).
    ///
    /// A quorum is n - f of n members, of whom f are fewer than a third. A scheme of more than 2^32 - 1 members has no
    /// quorum, and each vote is refused. Without memory nothing has changed, and the vote may be counted again.
    ///
    /// - `given`: it stores only votes that were passed in.
    /// - `good`: if each vote that was passed in is valid, so is a returned certificate: `verify` accepts it.
    /// - `within`: it stores votes only of members, and of views up to the highest one that is admitted.
    pub fn count(
        &mut self,
        vote: Vote<D, S::Signature>,
        is_admitted: bool,
    ) -> Result<Counted<S, D>, AllocError>
        ensures counted { IfOk result
            (IsCounted D.eq (S.IsMadeOf self.old.scheme) (length (S.participants self.old.scheme))
            is_admitted self.old vote self.new) }
        ensures kept { OnErr result (HoldsAllTheSame self.old self.new) }
        ensures given { (given : _) → AreGiven given self.old → AreGiven (given ++ vote ∷ []) self.new }
        ensures good { (given : _) → AreGiven given self.old
            → AreGood S.IsSignature (S.participants self.old.scheme) (given ++ vote ∷ [])
            → IfOk result (IsGoodIfCertified (S.accepts self.old.scheme)) }
        ensures within { let members = length (S.participants self.old.scheme) in (highest : ℕ)
            → (is_admitted ≡ true → (1 ≤ subject_view vote.subject) × (subject_view vote.subject ≤ highest))
            → HoldsUpTo members highest self.old → HoldsUpTo members highest self.new }
        ensures scheme { self.new.scheme ≡ self.old.scheme }
    {
        self.count_vote(vote, is_admitted)
    }

    /// Counts a vote, if it may count.
    fn count_vote(
        &mut self,
        vote: Vote<D, S::Signature>,
        is_admitted: bool,
    ) -> Result<Counted<S, D>, AllocError>
        ensures counted { IfOk result
            (IsCounted D.eq (S.IsMadeOf self.old.scheme) (length (S.participants self.old.scheme))
            is_admitted self.old vote self.new) }
        ensures kept { OnErr result (HoldsAllTheSame self.old self.new) }
        ensures scheme { self.new.scheme ≡ self.old.scheme }
    {
        match self.members_to_count(vote.signer, is_admitted) {
            Some(members) => self.count_among(members, vote),
            None => Ok(Counted::Refused),
        }
    }

    /// Returns how many members there are, if a vote of the signer may count.
    fn members_to_count(&self, signer: Participant, is_admitted: bool) -> Option<u32>
        ensures { let members = length (S.participants self.now.scheme) in MatchOption result
            (¬ MayCount members is_admitted signer)
            (λ count. (members ≡ count) × MayCount members is_admitted signer) }
    {
        let members = u32::try_from(self.scheme.participants().len()).ok()?;
        if is_admitted && signer.get() < members {
            Some(members)
        } else {
            None
        }
    }

    /// Counts a vote that may count.
    fn count_among(
        &mut self,
        members: u32,
        vote: Vote<D, S::Signature>,
    ) -> Result<Counted<S, D>, AllocError>
        requires { length (S.participants self.old.scheme) ≡ members }
        ensures counted { IfOk result (IsCountedIn D.eq (S.IsMadeOf self.old.scheme) members
            (held self.old (kind_of vote.subject) (subject_view vote.subject)) vote
            (held self.new (kind_of vote.subject) (subject_view vote.subject))) }
        ensures kept { OnErr result (HoldsTheSame (held self.old (kind_of vote.subject) (subject_view vote.subject))
            (held self.new (kind_of vote.subject) (subject_view vote.subject))) }
        ensures others { KeepsOthers vote.subject self.old self.new }
        ensures scheme { self.new.scheme ≡ self.old.scheme }
    {
        match vote.subject {
            Subject::Notarize(_) => {
                count_at(self.alloc, &self.scheme, members, &mut self.notarize, vote)
            }
            Subject::Nullify(_) => {
                count_at(self.alloc, &self.scheme, members, &mut self.nullify, vote)
            }
            Subject::Finalize(_) => {
                count_at(self.alloc, &self.scheme, members, &mut self.finalize, vote)
            }
        }
    }

    /// Forgets the votes of the views below.
    pub fn forget(&mut self, lowest: View)
        ensures forgotten { IsForgotten lowest self.old self.new }
        ensures fewer { HoldsNoOther self.old self.new }
        ensures lowest { HoldsFrom lowest self.new }
        ensures given { (given : _) → AreGiven given self.old → AreGiven given self.new }
        ensures scheme { self.new.scheme ≡ self.old.scheme }
    {
        self.notarize.drop_below(lowest);
        self.nullify.drop_below(lowest);
        self.finalize.drop_below(lowest);
    }
}

/// Counts a vote in the poll of its view.
fn count_at<S: Assembly<D>, D: Digest>(
    alloc: Global,
    scheme: &S,
    members: u32,
    polls: &mut Polls<D, S::Signature>,
    vote: Vote<D, S::Signature>,
) -> Result<Counted<S, D>, AllocError>
    requires { length (S.participants scheme.now) ≡ members }
    ensures counted { IfOk result (IsCountedIn D.eq (S.IsMadeOf scheme.now) members
        (slots_at polls.old (subject_view vote.subject)) vote (slots_at polls.new (subject_view vote.subject))) }
    ensures kept { OnErr result
        (HoldsTheSame (slots_at polls.old (subject_view vote.subject))
        (slots_at polls.new (subject_view vote.subject))) }
    ensures others { (view : ℕ) → view ≢ subject_view vote.subject → slots_at polls.new view ≡ slots_at polls.old view }
{
    let view = vote.subject.view();
    open(alloc, polls, view)?;
    let Some(slots) = polls.get_mut(view) else {
        unreachable!()
    };
    count(alloc, scheme, members, slots, vote)
}

/// Opens the poll of the view, if there is none.
fn open<D: Copy, G: Drop>(
    alloc: Global,
    polls: &mut Polls<D, G>,
    view: View,
) -> Result<(), AllocError>
    ensures open { OnOk result (map.contains_key polls.new view ≡ true) }
    ensures same { (other : ℕ) → slots_at polls.new other ≡ slots_at polls.old other }
{
    match polls.insert(view, Vec::new(alloc)) {
        Ok(_standing) => Ok(()),
        Err(_refused) => Err(AllocError),
    }
}
