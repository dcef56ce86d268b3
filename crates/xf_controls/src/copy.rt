//! Copies of controls.

ghost use Rattle.std.specs.Prelude.{◌≡◌, ◌↔◌, ◌<◌, ◌++◌, [], ◌∷◌, Some, map, find, length, option_map, slice_get, IsTrue, OnOk, OnErr};
ghost use Rattle.std.specs.Str.{bytes_eq};
ghost use Rattle.xf_controls.specs.Former.{with_value_at};
ghost use Rattle.xf_controls.specs.Seen.{is_copy_at, number, seen_copy};

use std::alloc::{AllocError, Global};
use std::marker::Model;
use std::mem::replace;
use xf_def_forest::{NodeId, NodeList};
use xf_def_ui::ItemList;
use xf_name::Word;

/// A copy of a control or container (XForms 1.1, sections 8.1.1 and 9).
#[derive(Drop)]
pub struct ControlCopy {
    pub element: u32,
    /// The row nodes of the repeats around it, the outermost first.
    pub rows: NodeList,
    /// The node that it binds.
    pub node: Option<NodeId>,
    /// `None` is no value, which an empty one is not.
    pub value: Option<Word>,
    pub enabled: bool,
    pub readwrite: bool,
    pub required: bool,
    pub valid: bool,
    /// Those of a select.
    pub items: ItemList,
}

/// The copies of the controls and containers of a form, in document order.
#[derive(Drop)]
pub struct ControlList {
    copies: Vec<ControlCopy>,
}

impl Model for ControlList {
    ghost use Rattle.std.specs.Prelude.{List};
    ghost use Rattle.xf_controls.specs.declared.copy.ControlCopy.{ControlCopy};

    ghost Value = { List ControlCopy };

    ghost view = { λ l. l.copies.items };
}

impl ControlList {
    pub fn new(alloc: Global) -> Self
        ensures { result ≡ [] }
    {
        ControlList {
            copies: Vec::new(alloc),
        }
    }

    pub fn as_slice(&self) -> &[ControlCopy]
        ensures { result.now ≡ self.now }
    {
        self.copies.as_slice()
    }

    pub fn len(&self) -> usize
        ensures { result ≡ length self.now }
    {
        self.copies.len()
    }

    pub fn is_empty(&self) -> bool
        ensures { IsTrue result ↔ (self.now ≡ []) }
    {
        self.copies.is_empty()
    }

    /// The copy at a place.
    pub(crate) fn at(&self, place: usize) -> &ControlCopy
        requires { place < length self.now }
        ensures { slice_get self.now place ≡ Some result.now }
    {
        &self.copies.as_slice()[place]
    }

    /// Puts a copy behind the others.
    pub fn push(&mut self, copy: ControlCopy) -> Result<(), AllocError>
        ensures ok { OnOk result (self.new ≡ self.old ++ copy ∷ []) }
        ensures err { OnErr result (self.new ≡ self.old) }
    {
        Ok(self.copies.push(copy)?)
    }

    /// Gives a copy another value. The answer is the one that it had.
    pub(crate) fn swap_value(&mut self, place: usize, value: Option<Word>) -> Option<Word>
        requires { place < length self.old }
        ensures old { option_map (λ c. c.value) (slice_get self.old place) ≡ Some result }
        ensures new { self.new ≡ with_value_at place value self.old }
    {
        replace(&mut self.copies[place].value, value)
    }
}

/// The copy of an element under a chain of row nodes, the outermost first.
pub fn control_of<'a>(
    controls: &'a ControlList,
    element: u32,
    rows: &[NodeId],
) -> Option<&'a ControlCopy>
    ensures { option_map (λ c. seen_copy c.now) result ≡ find (is_copy_at element (map number rows.now)) (map seen_copy controls.now) }
{
    for copy in controls.as_slice() {
        if is_copy_at(copy, element, rows) {
            return Some(copy);
        }
    }
    None
}

fn is_copy_at(copy: &ControlCopy, element: u32, rows: &[NodeId]) -> bool
    ensures { result ≡ is_copy_at element (map number rows.now) (seen_copy copy.now) }
{
    if copy.element != element {
        return false;
    }
    same_rows(copy.rows.as_slice(), rows)
}

/// Whether two chains have the same rows.
pub(crate) fn same_rows(one: &[NodeId], other: &[NodeId]) -> bool
    ensures { result ≡ bytes_eq (map number one.now) (map number other.now) }
{
    if one.is_empty() {
        return other.is_empty();
    }
    if other.is_empty() {
        return false;
    }
    if one[0].number != other[0].number {
        return false;
    }
    same_rows(&one[1..], &other[1..])
}
