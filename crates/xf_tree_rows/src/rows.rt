//! Rows in document order, with room for more at one place among them.
ghost use Rattle.std.specs.Prelude.{◌≡◌, ◌+◌, ◌<◌, ◌≤◌, ◌++◌, ◌∷◌, ◌-◌, ◌^◌, [], length, map, take, drop, slice_index_or, slice_set, OnOk};
ghost use Rattle.std.specs.List.{All, copy_within};
ghost use Rattle.xf_tree_rows.specs.Rows.{rotated, raised, raised_part, deepened, deepened_part, tree_of, Sized, no_row};

use std::alloc::{AllocError, Global};
use std::marker::Model;

/// A node's place in document order: where its slot is, how many nodes its tree has, its depth.
#[derive(Clone, Copy, Debug)]
pub struct Row {
    pub key: usize,
    pub size: usize,
    pub depth: u32,
}

/// The rows of a forest. Between two of them, or at an end, is room for more: a row that comes in there moves none, and the room moves to where it is
/// wanted by moving the rows between. So texts that come in or go near one another, as when a form settles, cost what stands between them.
#[derive(Drop)]
pub struct Rows {
    items: Vec<Row>,
    // Where the room begins, and for how many rows it is.
    start: usize,
    room: usize,
}

const NO_ROW: Row = Row {
    key: 0,
    size: 0,
    depth: 0,
};

impl Model for Rows {
    ghost use Rattle.std.specs.Prelude.{◌≤◌, ◌+◌, ◌++◌, length, take, drop};
    ghost use Rattle.xf_tree_rows.specs.Rows.{RowList};

    ghost Value = { RowList };

    ghost view = { λ r. record { items = take r.start r.items.items ++ drop (r.start + r.room) r.items.items; room_at = r.start; capacity = length r.items.items } };

    ghost invariant = { λ r. r.start + r.room ≤ length r.items.items };
}

impl Rows {
    /// No rows. Takes no memory.
    pub fn new(alloc: Global) -> Self
        ensures { result ≡ record { items = []; room_at = 0; capacity = 0 } }
    {
        Rows {
            items: Vec::new(alloc),
            start: 0,
            room: 0,
        }
    }

    #[inline(always)]
    pub fn len(&self) -> usize
        ensures { result ≡ length self.now.items }
    {
        self.items.len() - self.room
    }

    /// There are no more of them than a number of this machine tells.
    #[inline(always)]
    pub fn is_bounded(&self)
        ensures { length self.now.items < 2 ^ 64 }
    {
        let _ = self.len();
    }

    #[inline(always)]
    pub fn at(&self, at: usize) -> Row
        requires { at < length self.now.items }
        ensures { result ≡ slice_index_or self.now.items at no_row }
    {
        if at < self.start {
            self.items[at]
        } else {
            self.items[at + self.room]
        }
    }

    /// Writes a row anew.
    #[inline(always)]
    pub fn put(&mut self, at: usize, row: Row)
        requires { at < length self.old.items }
        ensures { self.new ≡ record self.old { items = slice_set self.old.items at row } }
    {
        if at < self.start {
            self.items[at] = row;
        } else {
            self.items[at + self.room] = row;
        }
    }

    /// Makes room for so many rows more.
    pub fn reserve(&mut self, more: usize) -> Result<(), AllocError>
        ensures items { self.new.items ≡ self.old.items }
        ensures spare { self.old.capacity ≤ self.new.capacity }
        ensures room { OnOk result (length self.old.items + more ≤ self.new.capacity) }
    {
        if more <= self.room {
            return Ok(());
        }
        self.move_room(self.len());
        self.items.reserve(more - self.room)?;
        while self.items.len() < self.items.capacity() {
            self.items.push_reserved(NO_ROW);
            self.room += 1;
        }
        Ok(())
    }

    /// Puts a row behind all others.
    pub fn push_reserved(&mut self, row: Row)
        requires { length self.old.items < self.old.capacity }
        ensures items { self.new.items ≡ self.old.items ++ row ∷ [] }
        ensures room { self.new.capacity ≡ self.old.capacity }
    {
        self.move_room(self.len());
        self.insert(row);
    }

    /// Puts a row where the room is. The room stands behind it then.
    pub fn insert(&mut self, row: Row)
        requires { length self.old.items < self.old.capacity }
        ensures { self.new ≡ record { items = take self.old.room_at self.old.items ++ row ∷ drop self.old.room_at self.old.items; room_at = self.old.room_at + 1; capacity = self.old.capacity } }
    {
        self.items[self.start] = row;
        self.start += 1;
        self.room -= 1;
    }

    /// Drops the rows from one place to before another. There is room in their place then.
    pub fn open(&mut self, from: usize, to: usize)
        requires first { from ≤ to }
        requires second { to ≤ length self.old.items }
        ensures { self.new ≡ record { items = take from self.old.items ++ drop to self.old.items; room_at = from; capacity = self.old.capacity } }
    {
        self.move_room(to);
        self.room += to - from;
        self.start = from;
    }

    /// Drops the rows from a place on.
    pub fn truncate(&mut self, to: usize)
        requires { to ≤ length self.old.items }
        ensures items { self.new.items ≡ take to self.old.items }
        ensures room { self.new.capacity ≡ self.old.capacity }
    {
        self.open(to, self.len());
    }

    /// Moves the rows from `at` to before `mid` behind those to before `end`.
    pub fn rotate(&mut self, at: usize, mid: usize, end: usize)
        requires first { at ≤ mid }
        requires second { mid ≤ end }
        requires third { end ≤ length self.old.items }
        ensures items { self.new.items ≡ rotated at mid end self.old.items }
        ensures same { length self.new.items ≡ length self.old.items }
        ensures room { self.new.capacity ≡ self.old.capacity }
    {
        self.move_room(self.len());
        rotate(&mut self.items, at, mid, end);
    }

    /// Makes the rows from one place to before another less deep.
    pub fn raise(&mut self, from: usize, to: usize, by: u32)
        requires first { from ≤ to }
        requires second { to ≤ length self.old.items }
        ensures items { self.new.items ≡ raised_part from to by self.old.items }
        ensures same { length self.new.items ≡ length self.old.items }
        ensures room { self.new.capacity ≡ self.old.capacity }
    {
        self.move_room(self.len());
        raise(&mut self.items, from, to, by);
    }

    /// Makes the rows from one place to before another deeper.
    pub fn deepen(&mut self, from: usize, to: usize, by: u32)
        requires first { from ≤ to }
        requires second { to ≤ length self.old.items }
        requires fits { All (λ r. r.depth + by < 2 ^ 32) (take (to - from) (drop from self.old.items)) }
        ensures items { self.new.items ≡ deepened_part from to by self.old.items }
        ensures same { length self.new.items ≡ length self.old.items }
        ensures room { self.new.capacity ≡ self.old.capacity }
    {
        self.move_room(self.len());
        deepen(&mut self.items, from, to, by);
    }

    /// Copies the rows from one place to before another to an earlier place.
    pub fn copy_within(&mut self, from: usize, end: usize, to: usize)
        requires order { to ≤ from }
        requires first { from ≤ end }
        requires second { end ≤ length self.old.items }
        ensures items { self.new.items ≡ copy_within self.old.items from end to }
        ensures same { length self.new.items ≡ length self.old.items }
        ensures room { self.new.capacity ≡ self.old.capacity }
    {
        self.move_room(self.len());
        self.items.copy_within(from..end, to);
    }

    /// Moves the room to a place.
    fn move_room(&mut self, to: usize)
        requires { to ≤ length self.old.items }
        ensures { self.new ≡ record self.old { room_at = to } }
    {
        if to < self.start {
            self.items.copy_within(to..self.start, to + self.room);
        } else {
            self.items
                .copy_within(self.start + self.room..to + self.room, self.start);
        }
        self.start = to;
    }
}

/// Where the tree at a place ends.
#[inline(always)]
pub fn end_of(rows: &Rows, at: usize) -> usize
    requires within { at < length rows.now.items }
    requires sized { Sized rows.now.items }
    ensures answer { result ≡ at + length (tree_of (drop at rows.now.items)) }
    ensures within { result ≤ length rows.now.items }
{
    rows.is_bounded();
    at + rows.at(at).size
}

/// Moves what stands from `at` to before `mid` behind what stands to before `end`.
fn rotate(items: &mut Vec<Row>, at: usize, mid: usize, end: usize)
    requires first { at ≤ mid }
    requires second { mid ≤ end }
    requires third { end ≤ length items.old.items }
    ensures { items.new.items ≡ rotated at mid end items.old.items }
{
    rotate_all(items, at, mid, end);
}

/// The same on a slice.
fn rotate_all(rows: &mut [Row], at: usize, mid: usize, end: usize)
    requires first { at ≤ mid }
    requires second { mid ≤ end }
    requires third { end ≤ length rows.old }
    ensures { rows.new ≡ rotated at mid end rows.old }
{
    rows[at..end].rotate_left(mid - at);
}

/// Makes what stands from one place to before another less deep.
fn raise(items: &mut Vec<Row>, from: usize, to: usize, by: u32)
    requires first { from ≤ to }
    requires second { to ≤ length items.old.items }
    ensures { items.new.items ≡ raised_part from to by items.old.items }
{
    raise_part(items, from, to, by);
}

/// The same on a slice.
fn raise_part(rows: &mut [Row], from: usize, to: usize, by: u32)
    requires first { from ≤ to }
    requires second { to ≤ length rows.old }
    ensures { rows.new ≡ raised_part from to by rows.old }
{
    raise_all(&mut rows[from..to], by);
}

/// Makes what stands from one place to before another deeper.
fn deepen(items: &mut Vec<Row>, from: usize, to: usize, by: u32)
    requires first { from ≤ to }
    requires second { to ≤ length items.old.items }
    requires fits { All (λ r. r.depth + by < 2 ^ 32) (take (to - from) (drop from items.old.items)) }
    ensures { items.new.items ≡ deepened_part from to by items.old.items }
{
    deepen_part(items, from, to, by);
}

/// The same on a slice.
fn deepen_part(rows: &mut [Row], from: usize, to: usize, by: u32)
    requires first { from ≤ to }
    requires second { to ≤ length rows.old }
    requires fits { All (λ r. r.depth + by < 2 ^ 32) (take (to - from) (drop from rows.old)) }
    ensures { rows.new ≡ deepened_part from to by rows.old }
{
    deepen_all(&mut rows[from..to], by);
}

/// Makes all rows less deep.
fn raise_all(rows: &mut [Row], by: u32)
    ensures { rows.new ≡ map (raised by) rows.old }
{
    for row in rows.iter_mut() {
        row.depth = row.depth.saturating_sub(by);
    }
}

/// Makes all rows deeper.
fn deepen_all(rows: &mut [Row], by: u32)
    requires { All (λ r. r.depth + by < 2 ^ 32) rows.old }
    ensures { rows.new ≡ map (deepened by) rows.old }
{
    for row in rows.iter_mut() {
        row.depth = row.depth + by;
    }
}
