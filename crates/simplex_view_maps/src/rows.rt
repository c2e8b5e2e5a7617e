//! A list cut into rows, so that an insert moves entries of one row, and one entry of each row after it.

ghost use Rattle.std.specs.Prelude.{◌≡◌, suc, ◌+◌, ◌-◌, ◌^◌, ◌<◌, ◌≤◌, [], ◌∷◌, ◌++◌, drop, length, slice_index_or, slice_set, IfOk, IfSome, IsSome, IfErr, MatchOption, OnOk, OnErr, ◌↔◌, IsTrue, IsFalse};
ghost use Rattle.std.specs.List.{insert, remove};
ghost use Rattle.std.specs.VecDeque.{deque_len, deque_capacity};
ghost use Rattle.simplex_view_maps.specs.Rows.{row_size, row_entries, AreFullButLast, HasRoomAt, IsFull, EndsShort};

use simplex_types::types::AllocFailed;
use std::alloc::{AllocError, Global};
use std::collections::VecDeque;
use std::marker::Model;
use std::mem::replace;
use std::ops::Index;

/// How many entries each row has, except the first and the last, which may have fewer.
const ROW: usize = 2048;

/// A list.
#[derive(Drop)]
pub struct Rows<T> {
    count: usize,
    first: VecDeque<T>,
    rest: VecDeque<VecDeque<T>>,
}

impl<T> Model for Rows<T> {
    ghost use Rattle.std.specs.Prelude.{List, ◌++◌};
    ghost use Rattle.std.specs.Coded.{coded_list};
    ghost use Rattle.simplex_view_maps.specs.Rows.{row_entries, IsInRows};

    ghost Value = { List T };

    ghost coded = { coded_list T.code };

    ghost view = { λ r. r.first.items ++ row_entries r.rest.items };

    ghost invariant = { λ r. IsInRows r.count r.first r.rest };
}

impl<T> Rows<T> {
    ghost use Rattle.std.specs.Borrow.{LendsIf, sem};
    ghost use Rattle.simplex_view_maps.specs.contracts.rows.Rows.{the_row};

    pub(super) fn new(alloc: Global) -> Self
        ensures { result ≡ [] }
    {
        Rows {
            count: 0,
            first: VecDeque::new(alloc),
            rest: VecDeque::new(alloc),
        }
    }

    /// An empty list with room for one entry.
    pub(super) fn with_room(alloc: Global) -> Result<Self, AllocError>
        ensures { IfOk result (λ rows. rows ≡ []) }
    {
        Ok(Rows {
            count: 0,
            first: VecDeque::with_capacity(alloc, 1)?,
            rest: VecDeque::new(alloc),
        })
    }

    pub(super) fn len(&self) -> usize
        ensures { result ≡ length self.now }
    {
        self.count
    }

    pub(super) fn allocator(&self) -> Global {
        *self.first.allocator()
    }

    /// The entry at a place.
    pub(super) fn get(&self, place: usize) -> Option<&T>
        ensures variant { IsSome result ↔ (place < length self.now) }
        ensures lookup { IfSome result (λ entry. entry.now ≡ slice_index_or self.now place entry.now) }
    {
        if place < self.count {
            Some(&self[place])
        } else {
            None
        }
    }

    /// The entry at a place, for changes.
    pub(super) fn get_mut(&mut self, place: usize) -> Option<&mut T>
        ensures* writes_back { sem 𝓛
            (LendsIf (the_row T.row) T.row self.entry result (slice_set self.old place) self.old) }
        ensures variant { IsSome result ↔ (place < length self.old) }
        ensures value { IfSome result (λ entry. entry.now ≡ slice_index_or self.old place entry.now) }
    {
        if self.count <= place {
            return None;
        }
        let first = self.first.len();
        if place < first {
            return self.first.get_mut(place);
        }
        let after = place - first;
        let row = self.rest.get_mut(after / ROW)?;
        row.get_mut(after % ROW)
    }

    /// Inserts an entry at a place. Returns it if there is no memory.
    pub(super) fn insert(&mut self, place: usize, value: T) -> Result<(), AllocFailed<T>>
        requires { place ≤ length self.old }
        ensures items { OnOk result (self.new ≡ insert self.old place value) }
        ensures value_returned { IfErr result (λ refused. refused.value ≡ value) }
        ensures unchanged { OnErr result (self.new ≡ self.old) }
    {
        let Some(count) = self.count.checked_add(1) else {
            return Err(AllocFailed { value });
        };
        if end_full_row(&mut self.first, &mut self.rest).is_err() {
            return Err(AllocFailed { value });
        }
        let first = self.first.len();
        if place <= first {
            put(&mut self.first, place, value)?;
        } else {
            insert_in(&mut self.rest, place - first, value)?;
        }
        self.count = count;
        Ok(())
    }
}

impl<T> Index<usize> for Rows<T> {
    type Output = T;

    ghost use Rattle.std.specs.Prelude.{◌≡◌, ◌<◌, length, slice_index_or};

    ghost can_index = { λ entries place. place < length entries };

    ghost index_gives = { λ entries place entry. entry ≡ slice_index_or entries place entry };

    fn index(&self, place: usize) -> &T
        requires { place < length self.now }
        ensures entry { result.now ≡ slice_index_or self.now place result.now }
        ensures fits { length self.now < 2 ^ 64 }
    {
        let first = self.first.len();
        if place < first {
            &self.first[place]
        } else {
            at(&self.rest, place - first)
        }
    }
}

impl<T: Drop> Rows<T> {
    /// Takes the first entry, if there is one.
    pub(super) fn pop_front(&mut self) -> Option<T>
        ensures { MatchOption result ((self.old ≡ []) × (self.new ≡ [])) (λ entry. self.old ≡ entry ∷ self.new) }
    {
        if self.first.is_empty() {
            self.first = self.rest.pop_front()?;
        }
        let entry = self.first.pop_front()?;
        self.count -= 1;
        Some(entry)
    }

    /// Removes the first entry, if there is one.
    pub(super) fn drop_front(&mut self)
        ensures { self.new ≡ drop 1 self.old }
    {
        let _removed = self.pop_front();
    }

    /// Removes the entry at a place.
    pub(super) fn remove(&mut self, place: usize)
        requires { place < length self.old }
        ensures { self.new ≡ remove self.old place }
    {
        self.count -= 1;
        let first = self.first.len();
        if place < first {
            drop_at(&mut self.first, place);
        } else {
            remove_in(&mut self.rest, place - first);
            fill_room(&mut self.first, &mut self.rest);
        }
    }
}

/// The entry at a place of rows.
fn at<T>(rows: &VecDeque<VecDeque<T>>, place: usize) -> &T
    requires { AreFullButLast rows.now.items × (place < length (row_entries rows.now.items)) }
    ensures { result.now ≡ slice_index_or (row_entries rows.now.items) place result.now }
{
    &rows[place / ROW][place % ROW]
}

/// Inserts an entry into one row.
fn put<T>(row: &mut VecDeque<T>, place: usize, value: T) -> Result<(), AllocFailed<T>>
    requires { place ≤ deque_len row.old }
    ensures items { OnOk result (row.new.items ≡ insert row.old.items place value) }
    ensures len { OnOk result (deque_len row.new ≡ deque_len row.old + 1) }
    ensures value_returned { IfErr result (λ refused. refused.value ≡ value) }
    ensures unchanged { OnErr result ((row.new.items ≡ row.old.items) × (deque_len row.new ≡ deque_len row.old)) }
    ensures full { OnErr result (deque_capacity row.old ≤ deque_len row.old) }
{
    match row.insert(place, value) {
        Ok(()) => Ok(()),
        Err(refused) => Err(AllocFailed {
            value: refused.value,
        }),
    }
}

/// Turns a full first row into one of the others, so that the first has places left.
fn end_full_row<T>(
    first: &mut VecDeque<T>,
    rest: &mut VecDeque<VecDeque<T>>,
) -> Result<(), AllocError>
    requires { (deque_len first.old ≤ row_size) × AreFullButLast rest.old.items }
    ensures same { first.new.items ++ row_entries rest.new.items ≡ first.old.items ++ row_entries rest.old.items }
    ensures places { (deque_len first.new ≤ row_size) × OnOk result (deque_len first.new < row_size) }
    ensures cut { AreFullButLast rest.new.items }
{
    if first.len() < ROW {
        return Ok(());
    }
    let alloc = *first.allocator();
    rest.reserve(1)?;
    let row = replace(first, VecDeque::new(alloc));
    rest.push_front_reserved(row);
    Ok(())
}

/// Inserts an entry at a place of rows.
fn insert_in<T>(
    rows: &mut VecDeque<VecDeque<T>>,
    place: usize,
    value: T,
) -> Result<(), AllocFailed<T>>
    requires { AreFullButLast rows.old.items × (place ≤ length (row_entries rows.old.items)) }
    ensures items { OnOk result (row_entries rows.new.items ≡ insert (row_entries rows.old.items) place value) }
    ensures value_returned { IfErr result (λ refused. refused.value ≡ value) }
    ensures unchanged { OnErr result (row_entries rows.new.items ≡ row_entries rows.old.items) }
    ensures cut { AreFullButLast rows.new.items }
{
    if make_room(rows).is_err() {
        return Err(AllocFailed { value });
    }
    let last = rows.len() - 1;
    let row = place / ROW;
    hand_over(rows, row, last);
    put(&mut rows[row], place % ROW, value)?;
    Ok(())
}

/// Makes room for one more entry in the last row.
fn make_room<T>(rows: &mut VecDeque<VecDeque<T>>) -> Result<(), AllocError>
    requires { AreFullButLast rows.old.items }
    ensures same { row_entries rows.new.items ≡ row_entries rows.old.items }
    ensures room { OnOk result (HasRoomAt (deque_len rows.new - 1) rows.new.items) }
    ensures cut { OnErr result (AreFullButLast rows.new.items) }
{
    if ends_full(rows) {
        return add_row(rows);
    }
    let Some(last) = rows.back_mut() else {
        unreachable!()
    };
    last.reserve(1)
}

/// Returns whether the last row is full, or there is none.
fn ends_full<T>(rows: &VecDeque<VecDeque<T>>) -> bool
    requires { AreFullButLast rows.now.items }
    ensures full { IsTrue result → IsFull rows.now.items }
    ensures short { IsFalse result → EndsShort rows.now.items }
{
    match rows.back() {
        Some(last) => last.len() == ROW,
        None => true,
    }
}

/// Adds an empty row after full ones.
fn add_row<T>(rows: &mut VecDeque<VecDeque<T>>) -> Result<(), AllocError>
    requires { IsFull rows.old.items }
    ensures same { row_entries rows.new.items ≡ row_entries rows.old.items }
    ensures room { OnOk result (HasRoomAt (deque_len rows.new - 1) rows.new.items) }
    ensures cut { OnErr result (AreFullButLast rows.new.items) }
{
    let alloc = *rows.allocator();
    rows.reserve(1)?;
    let row = VecDeque::with_capacity(alloc, 1)?;
    rows.push_back_reserved(row);
    Ok(())
}

/// Moves one entry of each row, from one on, to the next, up to a row that has room. The room is then in the first.
fn hand_over<T>(rows: &mut VecDeque<VecDeque<T>>, from: usize, to: usize)
    requires { (from ≤ to) × HasRoomAt to rows.old.items }
    ensures same { row_entries rows.new.items ≡ row_entries rows.old.items }
    ensures room { HasRoomAt from rows.new.items }
{
    let mut row = to;
    while from < row {
        row -= 1;
        move_last_to_next(rows, row);
    }
}

/// Moves the last entry of a row to the next row, which has room.
fn move_last_to_next<T>(rows: &mut VecDeque<VecDeque<T>>, row: usize)
    requires { HasRoomAt (suc row) rows.old.items }
    ensures same { row_entries rows.new.items ≡ row_entries rows.old.items }
    ensures room { HasRoomAt row rows.new.items }
{
    let Some(value) = rows[row].pop_back() else {
        unreachable!()
    };
    rows[row + 1].push_front_reserved(value);
}

/// Removes the entry at a place of one row.
fn drop_at<T: Drop>(row: &mut VecDeque<T>, place: usize)
    requires { place < deque_len row.old }
    ensures items { row.new.items ≡ remove row.old.items place }
    ensures len { deque_len row.new + 1 ≡ deque_len row.old }
    ensures capacity { deque_capacity row.new ≡ deque_capacity row.old }
{
    let _removed = row.remove(place);
}

/// Removes the entry at a place of rows. The first row then has room.
fn remove_in<T: Drop>(rows: &mut VecDeque<VecDeque<T>>, place: usize)
    requires { AreFullButLast rows.old.items × (place < length (row_entries rows.old.items)) }
    ensures removed { row_entries rows.new.items ≡ remove (row_entries rows.old.items) place }
    ensures room { HasRoomAt 0 rows.new.items }
{
    let row = place / ROW;
    drop_at(&mut rows[row], place % ROW);
    hand_over(rows, 0, row);
}

/// Fills the room in the row after the first with the last entry of the first. If there is none, that row becomes the
/// first.
fn fill_room<T: Drop>(first: &mut VecDeque<T>, rest: &mut VecDeque<VecDeque<T>>)
    requires { (deque_len first.old ≤ row_size) × HasRoomAt 0 rest.old.items }
    ensures same { first.new.items ++ row_entries rest.new.items ≡ first.old.items ++ row_entries rest.old.items }
    ensures places { deque_len first.new ≤ row_size }
    ensures cut { AreFullButLast rest.new.items }
{
    if let Some(value) = first.pop_back() {
        rest[0].push_front_reserved(value);
        return;
    }
    if let Some(row) = rest.pop_front() {
        *first = row;
    }
}
