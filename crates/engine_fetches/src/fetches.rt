//! The outstanding fetches: certificates that are asked of peers, each again until its fetch is closed.
//!
//! It guarantees:
//!
//! - a fetch stays open until its certificate arrived or a finalization passed it;
//! - a fetch is asked again once the retry interval is over, of the next peer in round-robin order and never of this
//!   member;
//! - `wake` is the moment of the next asking.
//!
//! Moments are milliseconds and never decrease.

ghost use Rattle.std.specs.Prelude.{◌≡◌, ◌≢◌, ◌≤◌, ℕ, [], ◌++◌, ◌∷◌, true, not, filter, is_some, length, nat_lt, IfOk, OnOk, OnErr, IfSome, IsTrue, if◌then◌else◌};
ghost use Rattle.engine_fetches.specs.Fetches.{fetch_kind, same_kind, is_of, is_within, is_fetch_open, each_once, due_at, fresh, asked_again, first_of, peers_of, place_of, whose_turn, IsEarliest};

mod effects;
mod missing;

use simplex_types::reasons::Kind;
use simplex_types::types::{Participant, View};
use std::alloc::{AllocError, Global};

/// The certificate that a fetch asks for.
#[derive(Clone, Copy, PartialEq, Eq, Debug)]
pub enum FetchKind {
    /// The view's notarization.
    Notarization,
    /// A nullification that covers the view.
    Nullification,
    /// Any certificate that decides the view.
    Decision,
}

impl FetchKind {
    /// Returns whether it is the same kind.
    fn is(self, other: FetchKind) -> bool
        ensures { result ≡ same_kind self other }
    {
        match self {
            FetchKind::Notarization => matches!(other, FetchKind::Notarization),
            FetchKind::Nullification => matches!(other, FetchKind::Nullification),
            FetchKind::Decision => matches!(other, FetchKind::Decision),
        }
    }
}

/// Returns the kind of certificate to ask for.
pub fn fetch_kind(kind: Kind) -> FetchKind
    ensures { result ≡ fetch_kind kind }
{
    match kind {
        Kind::Notarization => FetchKind::Notarization,
        Kind::Nullification => FetchKind::Nullification,
    }
}

/// The other members, who are asked round-robin.
#[derive(Clone, Copy)]
pub struct Peers {
    /// How many others there are.
    others: u32,
    /// The place of this member among all of them; after them if it is none of them.
    me: u32,
}

/// An outstanding fetch.
#[derive(Clone, Copy)]
pub struct Fetch {
    pub kind: FetchKind,
    pub view: View,
    /// The peer that was asked first, as a place among the others.
    pub first: u32,
    /// How often it was asked for.
    pub count: u64,
    /// When it is to be asked for next.
    pub moment: u64,
}

/// The certificate to ask for, and the peer: no one if there are no others.
#[derive(Clone, Copy)]
pub struct Ask {
    pub kind: FetchKind,
    pub view: View,
    pub of: Option<Participant>,
}

impl Peers {
    /// Returns all of this number of members but this one.
    pub fn new(members: u32, me: Option<Participant>) -> Peers
        ensures { result ≡ peers_of members me }
    {
        match me {
            Some(me) if me.get() < members => Peers {
                others: members - 1,
                me: me.get(),
            },
            _ => Peers {
                others: members,
                me: members,
            },
        }
    }

    /// Returns the place of a member among the others; the first place, if none is named.
    fn place_of(self, member: Option<Participant>) -> u32
        ensures { result ≡ place_of self member }
    {
        match member {
            Some(member) if member.get() < self.me => member.get(),
            Some(member) => member.get().saturating_sub(1),
            None => 0,
        }
    }

    /// Returns the peer to ask after this number of askings, if the first went to this place: one of the others.
    fn turn(self, first: u32, count: u64) -> Option<Participant>
        ensures whose { result ≡ whose_turn self first count }
        ensures another { IfSome result (λ member. member ≢ self.me) }
    {
        if self.others == 0 {
            return None;
        }
        let others = u64::from(self.others);
        let place = ((u64::from(first) + count % others) % others) as u32;
        Some(Participant::new(if place < self.me { place } else { place + 1 }))
    }
}

/// The outstanding fetches, each once.
#[derive(Drop)]
pub struct Fetches {
    peers: Peers,
    retry: u64,
    wanted: Vec<Fetch>,
    ghost once: { IsTrue (each_once wanted.items) },
}

impl Fetches {
    ghost use Rattle.engine_fetches.specs.Requests.{IsAsking};

    /// Returns an empty list. Each fetch is asked again after `retry` milliseconds.
    pub fn new(alloc: Global, peers: Peers, retry: u64) -> Fetches
        ensures parts { (result.peers ≡ peers) × (result.retry ≡ retry) }
        ensures none { result.wanted.items ≡ [] }
    {
        Fetches {
            peers,
            retry,
            wanted: Vec::new(alloc),
        }
    }

    /// Opens a fetch, which is due at once: of this member first, if one is named. Returns whether it was opened; one
    /// that is open is unchanged.
    pub fn open(
        &mut self,
        kind: FetchKind,
        view: View,
        of: Option<Participant>,
        now: u64,
    ) -> Result<bool, AllocError>
        ensures opened { IfOk result (λ opened. opened ≡ not (is_fetch_open kind view self.old.wanted.items)) }
        ensures after { OnOk result (self.new.wanted.items
            ≡ (if is_fetch_open kind view self.old.wanted.items then self.old.wanted.items
            else self.old.wanted.items ++ fresh kind view (place_of self.old.peers of) now ∷ [])) }
        ensures refused { OnErr result (self.new.wanted.items ≡ self.old.wanted.items) }
        ensures same { (self.new.peers ≡ self.old.peers) × (self.new.retry ≡ self.old.retry) }
    {
        if is_among(&self.wanted, kind, view) {
            return Ok(false);
        }
        self.wanted.push(Fetch {
            kind,
            view,
            first: self.peers.place_of(of),
            count: 0,
            moment: now,
        })?;
        Ok(true)
    }

    /// Closes a fetch: its certificate arrived.
    pub fn close(&mut self, kind: FetchKind, view: View)
        ensures closed { self.new.wanted.items ≡ filter (λ f. not (is_of kind view f)) self.old.wanted.items }
        ensures same { (self.new.peers ≡ self.old.peers) × (self.new.retry ≡ self.old.retry) }
    {
        self.wanted.retain(|fetch| !fetch.is_of(kind, view));
    }

    /// Closes the fetches that a finalization of the view passed: those of this view and of earlier ones.
    pub fn pass(&mut self, finalized: View)
        ensures passed { self.new.wanted.items ≡ filter (λ f. nat_lt finalized f.view) self.old.wanted.items }
        ensures same { (self.new.peers ≡ self.old.peers) × (self.new.retry ≡ self.old.retry) }
    {
        self.wanted.retain(|fetch| finalized < fetch.view);
    }

    /// Closes the fetches of this kind of the views from one to another: nothing is left to ask for there.
    pub fn settle(&mut self, kind: FetchKind, first: View, last: View)
        ensures settled { self.new.wanted.items ≡ filter (λ f. not (is_within kind first last f))
            self.old.wanted.items }
        ensures same { (self.new.peers ≡ self.old.peers) × (self.new.retry ≡ self.old.retry) }
    {
        self.wanted
            .retain(|fetch| !fetch.is_within(kind, first, last));
    }

    /// Returns the first fetch whose moment has come, and the peer to ask. The fetch is due again, of the next peer,
    /// after the retry interval. An engine calls this until there is none.
    pub fn ask(&mut self, now: u64) -> Option<Ask>
        ensures asked_again { IsAsking now self.old result self.new }
        ensures still { (kind : _) (view : ℕ)
            → is_fetch_open kind view self.new.wanted.items ≡ is_fetch_open kind view self.old.wanted.items }
    {
        let place = due_at(&self.wanted, now)?;
        let fetch = self.wanted[place];
        let ask = Ask {
            kind: fetch.kind,
            view: fetch.view,
            of: self.peers.turn(fetch.first, fetch.count),
        };
        let again = fetch.asked(now, self.retry);
        self.wanted[place] = again;
        Some(ask)
    }

    /// Returns whether the moment of one has come.
    pub fn is_due(&self, now: u64) -> bool
        ensures { result ≡ is_some (due_at now self.now.wanted.items) }
    {
        due_at(&self.wanted, now).is_some()
    }

    /// Returns whether the fetch is open.
    pub fn is_open(&self, kind: FetchKind, view: View) -> bool
        ensures { result ≡ is_fetch_open kind view self.now.wanted.items }
    {
        is_among(&self.wanted, kind, view)
    }

    /// Returns the moment of the next asking; `None` if no fetch is open.
    pub fn wake(&self) -> Option<u64>
        ensures { IsEarliest self.now.wanted.items result }
    {
        earliest(&self.wanted)
    }

    /// Returns the open fetches, in the order in which they were opened. No kind and view is open twice.
    pub fn all(&self) -> &[Fetch]
        ensures all { result.now ≡ self.now.wanted.items }
        ensures once { each_once result.now ≡ true }
    {
        &self.wanted
    }

    /// Returns how many are open.
    pub fn len(&self) -> usize
        ensures { result ≡ length self.now.wanted.items }
    {
        self.wanted.len()
    }
}

impl Fetch {
    /// Returns whether it is the fetch of this kind and view.
    fn is_of(&self, kind: FetchKind, view: View) -> bool
        ensures { result ≡ is_of kind view self.now }
    {
        self.kind.is(kind) && self.view == view
    }

    /// Returns whether it is a fetch of this kind and of a view from one to another.
    fn is_within(&self, kind: FetchKind, first: View, last: View) -> bool
        ensures { result ≡ is_within kind first last self.now }
    {
        self.kind.is(kind) && first <= self.view && self.view <= last
    }

    /// Returns the same fetch once it was asked for.
    fn asked(&self, now: u64, retry: u64) -> Fetch
        ensures { result ≡ asked_again now retry self.now }
    {
        Fetch {
            kind: self.kind,
            view: self.view,
            first: self.first,
            count: self.count.saturating_add(1),
            moment: now.saturating_add(retry),
        }
    }
}

/// Returns whether the fetch is open.
fn is_among(fetches: &[Fetch], kind: FetchKind, view: View) -> bool
    ensures { result ≡ is_fetch_open kind view fetches.now }
{
    fetches.iter().any(|fetch| fetch.is_of(kind, view))
}

/// Returns the place of the first fetch whose moment has come.
fn due_at(fetches: &[Fetch], now: u64) -> Option<usize>
    ensures { result ≡ due_at now fetches.now }
{
    fetches.iter().position(|fetch| fetch.moment <= now)
}

/// Returns the earliest moment of an asking.
fn earliest(fetches: &[Fetch]) -> Option<u64>
    ensures { IsEarliest fetches.now result }
{
    let mut earliest = None;
    for fetch in fetches {
        earliest = Some(first_of(earliest, fetch.moment));
    }
    earliest
}

/// Returns the earlier of two moments.
fn first_of(earliest: Option<u64>, moment: u64) -> u64
    ensures { result ≡ first_of earliest moment }
{
    match earliest {
        Some(before) => before.min(moment),
        None => moment,
    }
}
