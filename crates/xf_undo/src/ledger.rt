//! The ledger: what was changed since a forest was kept, and how it is undone.
ghost use Rattle.std.specs.Prelude.{◌≡◌, ◌<◌, ◌∷◌, ◌++◌, [], true, drop, nat_eq, vec_len, vec_capacity, OnOk, OnErr};
ghost use Rattle.xf_def_forest.specs.Needs.{MayGiveUp};
ghost use Rattle.xf_def_forest.specs.Texts.{Keeping};
ghost use Rattle.xf_def_forest.specs.Undo.{kept_at, with_note, text_filled, place_filled, attach_filled, rolled_back, is_known};
ghost use Rattle.xf_def_forest.specs.WellFormed.{AreTrees};
ghost use Rattle.xf_law_forests.specs.Rollback.Back.{CanRollBack};
ghost use Rattle.xf_undo.specs.Entries.{change_of, entries_of};
ghost use Rattle.xf_law_forests.specs.Rollback.Made.{Made};
ghost use Rattle.xf_undo.specs.Index.{IsListed, are_quiet};

use crate::entry::{
    Change, Entry, is_known, is_set_of, text_noted, undo_all, with_attach, with_place,
};
use indexmap::IndexMap;
use std::alloc::{AllocError, Global};
use std::marker::Model;
use xf_def_forest::NodeId;
use xf_tree::{Before, Forest};

/// The changes since a forest was kept. Contracts see them the last one first.
#[derive(Drop)]
pub struct Ledger {
    // The last one is at the end.
    entries: Vec<Entry>,
    // By a node's number, the place of the last entry that its text was set. What it says is tested where it is used; that a
    // node has no seat says that no entry sets its text.
    seats: IndexMap<u128, usize>,
    // The entries from this place on are of no tree that moved.
    still: usize,
    // The number that was next in the forest that was kept.
    next: u128,
}

impl Model for Ledger {
    ghost use Rattle.xf_def_forest.specs.Texts.{Keeping};
    ghost use Rattle.xf_def_forest.specs.Undo.{Ledger as Known};

    ghost Value = { Known };

    ghost use Rattle.xf_undo.specs.Entries.{entries_of};
    ghost use Rattle.xf_undo.specs.Index.{IsIndexed};

    ghost view = { λ l. record { entries = entries_of l.entries.items; next = l.next } };

    ghost invariant = { λ l. IsIndexed l.entries.items l.seats l.still };
}

impl Ledger {
    /// The ledger of a forest that is kept as it stands. Takes no memory.
    pub fn new(alloc: Global, forest: &Forest) -> Self
        ensures { result ≡ kept_at forest.now.forest }
    {
        Ledger {
            entries: Vec::new(alloc),
            seats: IndexMap::new(alloc),
            still: 0,
            next: forest.next_number(),
        }
    }

    /// Keeps the forest as it stands now, in place of the one that was kept. Takes no memory.
    pub fn commit(&mut self, forest: &Forest)
        ensures { self.new ≡ kept_at forest.now.forest }
    {
        self.entries.clear();
        vacate(&mut self.seats);
        self.still = 0;
        self.next = forest.next_number();
    }

    /// Notes a change before it is made, and takes the room that filling it in needs.
    pub fn note(&mut self, change: Change) -> Result<(), AllocError>
        ensures ok { OnOk result (self.new ≡ with_note (change_of change) self.old) }
        ensures err { OnErr result (self.new ≡ self.old) }
    {
        self.seats.reserve(1)?;
        self.entries.push(Entry::Noted(change))?;
        Ok(())
    }

    /// Fills in what the node had before its text was set. What was known already is given up. Takes no memory.
    pub fn fill_text(&mut self, forest: &mut Forest, before: Before)
        requires { MayGiveUp before forest.old }
        ensures { (self.new, forest.new) ≡ text_filled before self.old forest.old }
    {
        let Some(entry) = self.entries.pop() else {
            return;
        };
        match text_noted(&entry) {
            Some(node) => {
                if is_known_by(node, forest, &self.entries, &self.seats, self.still) {
                    forest.give_up(before);
                } else {
                    // There is room, so that this cannot fail.
                    let _ = self.seats.insert(node.number, self.entries.len());
                    put_last(&mut self.entries, Entry::Set(node, before));
                }
            }
            None => put_last(&mut self.entries, entry),
        }
    }

    /// Fills in the parent and the place that the tree had which was detached. Takes no memory.
    pub fn fill_place(&mut self, parent: NodeId, place: u32)
        ensures { self.new ≡ place_filled parent.number place self.old }
    {
        if let Some(entry) = self.entries.pop() {
            put_last(&mut self.entries, with_place(entry, parent, place));
            self.still = self.entries.len();
        }
    }

    /// Fills in that the tree was attached. Takes no memory.
    pub fn fill_attach(&mut self)
        ensures { self.new ≡ attach_filled self.old }
    {
        if let Some(entry) = self.entries.pop() {
            put_last(&mut self.entries, with_attach(entry));
            self.still = self.entries.len();
        }
    }

    /// Gives the forest back that was kept: undoes the changes from the last one to the first, and drops what is new. Takes no
    /// memory.
    pub fn roll_back(&mut self, forest: &mut Forest)
        requires { CanRollBack self.old forest.old }
        ensures back { forest.new ≡ rolled_back self.old forest.old }
        ensures none { self.new ≡ record { entries = []; next = self.old.next } }
        ensures law { (start : Keeping) → Made start self.old forest.old → AreTrees forest.old → forest.new ≡ start }
    {
        undo_all(&mut self.entries, forest);
        vacate(&mut self.seats);
        self.still = 0;
        forest.drop_from(self.next);
    }
}

/// Whether what this node had before is known already, and none of its children came or went since. Looks through the
/// entries only where a tree moved since the node's text was set.
fn is_known_by(
    node: NodeId,
    forest: &Forest,
    entries: &[Entry],
    seats: &IndexMap<u128, usize>,
    still: usize,
) -> bool
    requires listed { IsListed entries.now seats.now }
    requires quiet { are_quiet (drop still entries.now) ≡ true }
    ensures { result ≡ is_known node.number forest.now (entries_of entries.now) }
{
    let Some(seat) = seats.get(&node.number) else {
        return false;
    };
    let at = *seat;
    if at >= still && at < entries.len() && is_set_of(node, &entries[at]) {
        return true;
    }
    is_known(node, forest, entries)
}

/// Takes all seats out: one by one where they are few, since a clearing looks at the whole room that was ever taken.
fn vacate(seats: &mut IndexMap<u128, usize>) {
    if seats.len() > seats.capacity() / 8 {
        seats.clear();
        return;
    }
    for _ in 0..seats.len() {
        let _ = seats.pop();
    }
}

/// Puts an entry last, where one has its room.
fn put_last(entries: &mut Vec<Entry>, entry: Entry)
    requires { vec_len entries.old < vec_capacity entries.old }
    ensures { entries.new.items ≡ entries.old.items ++ entry ∷ [] }
{
    // There is room, so that this cannot fail.
    let _ = entries.push(entry);
}
