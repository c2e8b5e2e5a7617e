//! A lawful member's state, and its journal.

ghost use Rattle.std.specs.Prelude.{◌≡◌, IfOk, IfErr, IfSome, drop, false, length, true};
ghost use Rattle.std.specs.Option.{option_copied};
ghost use Rattle.simplex_record.specs.Start.{start_facts};
ghost use Rattle.simplex_voter.specs.Refusals.{is_started};

use super::member::LawfulMember;
use simplex_member::member::{Member, NotResumed, Start, Stored};
use simplex_types::types::{Artifact, Digest, Elector, Scheme, View};
use simplex_voter::voter::State;
use std::alloc::Global;

impl<S: Scheme<D>, L: Elector<S>, D: Digest> LawfulMember<S, L, D> {
    ghost use Rattle.simplex_record.specs.Entries.{entries_of};
    ghost use Rattle.simplex_record.specs.Votes.{votes_of};
    ghost use Rattle.simplex_member.specs.Journal.{stored_of, votes_since, IsResumed, IsNotResumed};
    ghost use Rattle.laws_safety.specs.MemberHistory.{HasContinued};
    ghost use Rattle.simplex_member.specs.OutstandingWork.{is_offered};

    /// The state while the member has not failed: it has a floor, and has not failed either.
    pub fn state(&self) -> Option<&State<S, L, D>>
        ensures life { option_copied result ≡ self.now.facts.life }
        ensures started { IfSome result (λ state. (state.now.failed ≡ false) × (is_started state.now ≡ true)) }
    {
        self.member.state()
    }

    /// Returns whether the member offered the view's proposal for certification and has received no verdict on it;
    /// false once it has failed.
    pub fn awaits_verdict(&self, view: View) -> bool
        ensures { result ≡ is_offered self.now.facts.outstanding_work view }
    {
        self.member.awaits_verdict(view)
    }

    /// The record, oldest entry first.
    pub fn record(&self) -> &[Artifact<S, D>]
        ensures entries { entries_of S.certificate_bytes result.now ≡ self.now.facts.entries }
        ensures votes { votes_of result.now ≡ self.now.votes }
    {
        self.member.record()
    }

    /// Returns the entries recorded after the first `count`: none, if there are no more.
    pub fn record_since(&self, count: usize) -> &[Artifact<S, D>]
        ensures entries { entries_of S.certificate_bytes result.now ≡ drop count self.now.facts.entries }
        ensures votes { votes_of result.now ≡ votes_since count self.now }
    {
        self.member.record_since(count)
    }

    /// Returns what a journal stores beside the record.
    pub fn stored(&self) -> Stored
        ensures { result ≡ stored_of self.now.facts }
    {
        self.member.stored()
    }

    /// Resumes a member from its journal, as `Member::resume` does, or is refused with its errors and the entries.
    ///
    /// The elector's members must be the scheme's participants.
    /// - `continues`: in terms of the same length and with the key of the same member or none, what the member whose
    ///   journal this is did remains done, and the floor's finalization is accepted too.
    pub fn resume(
        alloc: Global,
        start: Start<S, L, D>,
        stored: Stored,
        entries: Vec<Artifact<S, D>>,
    ) -> Result<LawfulMember<S, L, D>, NotResumed<S, D>>
        requires { L.members start.settings.elector ≡ length (S.participants start.settings.scheme) }
        ensures resumed { IfOk result (λ member. IsResumed D.eq L.elect stored
            (entries_of S.certificate_bytes entries.items)
            (start_facts S.me S.participants L.terms L.elects_early S.certificate_bytes start) member.facts) }
        ensures votes { IfOk result (λ member. member.votes ≡ votes_of entries.items) }
        ensures refused { IfErr result (λ refusal. IsNotResumed D.eq L.elect stored
            (entries_of S.certificate_bytes entries.items)
            (start_facts S.me S.participants L.terms L.elects_early S.certificate_bytes start) refusal.error) }
        ensures handed_back { IfErr result (λ refusal. refusal.entries.items ≡ entries.items) }
        ensures continues { IfOk result (λ member. HasContinued D.eq L.elect S.me L.terms stored
            (entries_of S.certificate_bytes entries.items) start member.facts) }
    {
        match Member::resume(alloc, start, stored, entries) {
            Ok(member) => Ok(LawfulMember { member }),
            Err(refusal) => Err(refusal),
        }
    }
}
