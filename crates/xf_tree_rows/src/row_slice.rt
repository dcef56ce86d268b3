//! Rows from one place to before another, to be read.
ghost use Rattle.std.specs.Prelude.{◌≡◌, ◌-◌, ◌<◌, ◌≤◌, length, take, drop, slice_index_or};
ghost use Rattle.xf_tree_rows.specs.Rows.{no_row};

use crate::rows::{Row, Rows};
use std::marker::Model;

/// The rows from one place to before another. Contracts see it as the list of these.
#[derive(Drop)]
pub struct RowSlice<'a> {
    rows: &'a Rows,
    from: usize,
    to: usize,
}

impl<'a> Model for RowSlice<'a> {
    ghost use Rattle.std.specs.Prelude.{◌≤◌, ◌<◌, ◌-◌, ◌^◌, List, length, take, drop};
    ghost use Rattle.xf_tree_rows.specs.declared.rows.Row.{Row};

    ghost Value = { List Row };

    ghost view = { λ p. take (p.to - p.from) (drop p.from p.rows.now.items) };

    ghost invariant = { λ p. (p.from ≤ p.to) × ((p.to ≤ length p.rows.now.items) × (p.to < 2 ^ 64)) };
}

/// The rows from one place to before another.
#[inline(always)]
pub fn slice<'a>(rows: &'a Rows, from: usize, to: usize) -> RowSlice<'a>
    requires first { from ≤ to }
    requires second { to ≤ length rows.now.items }
    ensures { result ≡ take (to - from) (drop from rows.now.items) }
{
    RowSlice { rows, from, to }
}

impl<'a> RowSlice<'a> {
    #[inline(always)]
    pub fn len(&self) -> usize
        ensures { result ≡ length self.now }
    {
        self.to - self.from
    }

    #[inline(always)]
    pub fn at(&self, at: usize) -> Row
        requires { at < length self.now }
        ensures { result ≡ slice_index_or self.now at no_row }
    {
        self.rows.at(self.from + at)
    }

    /// Takes so many rows off the front.
    #[inline(always)]
    pub fn skip(&mut self, count: usize)
        requires { count ≤ length self.old }
        ensures { self.new ≡ drop count self.old }
    {
        self.from += count;
    }
}
