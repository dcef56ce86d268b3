//! Where rows are thought to stand. What is thought is tested where it is used, so nothing is promised of it.
use crate::rows::Rows;
use std::alloc::Global;

/// What is thought of the node under a key: where its row stands, and the parent's key.
#[derive(Clone, Copy, Debug)]
struct Hint {
    row: usize,
    parent: usize,
}

/// What is thought of nodes, by their keys. Rows from one place on may all have moved by so many since they were noted: a text that comes in or
/// goes moves what stands behind it, and of that nothing is noted anew but what stands between the places of two such changes.
#[derive(Drop)]
pub struct Hints {
    list: Vec<Hint>,
    from: usize,
    // Forward where it is small, and back where it is so large that a sum wraps.
    by: usize,
}

impl Hints {
    /// Takes no memory.
    pub fn new(alloc: Global) -> Self {
        Hints {
            list: Vec::new(alloc),
            from: 0,
            by: 0,
        }
    }

    /// Makes room for what is thought of the node under a key. Where there is no memory for it, there is none, and the node is looked for.
    pub fn reserve(&mut self, key: usize) {
        for _ in self.list.len()..key.saturating_add(1) {
            if self.list.push(Hint { row: 0, parent: 0 }).is_err() {
                return;
            }
        }
    }

    /// Where the row of the node under a key was noted.
    #[inline(always)]
    pub fn noted(&self, key: usize) -> Option<usize> {
        match self.list.get(key) {
            Some(hint) => Some(hint.row),
            None => None,
        }
    }

    /// The key of its parent.
    #[inline(always)]
    pub fn parent(&self, key: usize) -> Option<usize> {
        match self.list.get(key) {
            Some(hint) => Some(hint.parent),
            None => None,
        }
    }

    /// Where a row stands now that moved with all others since it was noted.
    #[inline(always)]
    pub fn moved(&self, noted: usize) -> usize {
        noted.wrapping_add(self.by)
    }

    /// Notes where the row of the node under a key stands.
    pub fn note(&mut self, key: usize, at: usize) {
        if key < self.list.len() {
            self.list[key].row = if at < self.from {
                at
            } else {
                at.wrapping_sub(self.by)
            };
        }
    }

    /// Notes whose child it is.
    pub fn note_parent(&mut self, key: usize, parent: usize) {
        if key < self.list.len() {
            self.list[key].parent = parent;
        }
    }

    /// Notes anew where the rows from one place to before another stand.
    pub fn note_rows(&mut self, rows: &Rows, from: usize, end: usize) {
        for at in from..end.min(rows.len()) {
            self.note(rows.at(at).key, at);
        }
    }

    /// Takes it that the rows that stand from a place on stood from another one on before. What stands between this change and the last one is noted
    /// anew, so that texts that come in or go one behind the other, or one before the other, cost what stands between them.
    pub fn shift(&mut self, rows: &Rows, behind: usize, stood: usize) {
        let had = self.from;
        let moved = self.by;
        let by = behind.wrapping_sub(stood);
        self.by = moved.wrapping_add(by);
        self.from = behind;
        if moved == 0 {
            return;
        }
        if had <= stood {
            self.note_rows(rows, had, behind);
            return;
        }
        self.note_rows(rows, behind, had.wrapping_add(by));
    }
}
