//! The copies of controls from one refresh to the next, and as they were at the end of the last event.

ghost use Rattle.std.specs.Prelude.{◌≡◌, ◌<◌, ◌++◌, [], true, not, length, map, option_map, IfOk, OnOk};
ghost use Rattle.xf_def_values.specs.Bounded.{GivesBounded};
ghost use Rattle.xf_def_ui.specs.Notifications as told;
ghost use Rattle.xf_controls.specs.Former as values;
ghost use Rattle.xf_controls.specs.Former.{node_at, value_at, with_value_at};
ghost use Rattle.xf_controls.specs.Renewed as spec;
ghost use Rattle.xf_controls.specs.Renewed.{AreThere, renewed};
ghost use Rattle.xf_controls.specs.Rising.{is_rising};
ghost use Rattle.xf_controls.specs.Seen.{IsThere, number, seen_copy, seen_notification};

use crate::before::is_rising;
use crate::copy::{ControlCopy, ControlList};
use crate::refresh::{NotificationList, push_told, same_value};
use crate::value::{has_value, value_over};
use std::alloc::{AllocError, Global};
use std::marker::Model;
use std::mem::replace;
use xf_base::Items;
use xf_eval::EvalFault;
use xf_name::Word;
use xf_tree::Forest;

/// The value that the copy at a place had.
#[derive(Drop)]
pub(crate) struct Former {
    pub place: usize,
    pub value: Option<Word>,
}

/// The copies of the last refresh, and those that were kept at the end of the last event. Contracts see both lists.
#[derive(Drop)]
pub struct Shown {
    list: ControlList,
    // Those that were kept, where a whole list came since.
    aside: Option<ControlList>,
    // The values of those that were kept, where copies got others since; the last one last.
    former: Vec<Former>,
}

impl Model for Shown {
    ghost use Rattle.xf_controls.specs.Former.{Standing, kept_in};

    ghost Value = { Standing };

    ghost view = { λ s. record { now = s.list; kept = kept_in s.list s.aside s.former.items } };
}

impl Shown {
    /// No copies.
    pub fn new(alloc: Global) -> Self
        ensures { result ≡ record { now = []; kept = [] } }
    {
        Shown {
            list: ControlList::new(alloc),
            aside: None,
            former: Vec::new(alloc),
        }
    }

    /// Those of the last refresh.
    pub fn list(&self) -> &ControlList
        ensures { result.now ≡ self.now.now }
    {
        &self.list
    }

    /// Whether each element has one copy at most, in document order.
    pub fn is_rising(&self) -> bool
        ensures { result ≡ is_rising self.now.now }
    {
        is_rising(self.list.as_slice())
    }

    /// Takes a whole list in place of that of the last refresh.
    pub fn take(&mut self, list: ControlList)
        ensures now { self.new.now ≡ list }
        ensures kept { self.new.kept ≡ self.old.kept }
    {
        let mut before = replace(&mut self.list, list);
        if self.aside.is_none() {
            put_back(&mut before, &mut self.former);
            self.aside = Some(before);
        }
        self.former.clear();
    }

    /// Gives each copy the value that its node has in these data. The answer is what is told of those that got another one. It costs a look at
    /// each copy, and memory for those alone that got another one. An `Err` is want of memory, or a string that is too long.
    pub fn renew(&mut self, alloc: Global, forest: &Forest) -> Result<NotificationList, EvalFault>
        requires there { AreThere self.old.now forest.now.forest.nodes }
        requires rising { is_rising self.old.now ≡ true }
        ensures list { GivesBounded EvalFault.Memory EvalFault.Long (λ _. self.new.now) result (renewed forest.now.forest.nodes self.old.now) }
        ensures told { IfOk result (λ all. map seen_notification all ≡ told.notifications (map seen_copy self.old.now) (map seen_copy self.new.now)) }
        ensures kept { self.new.kept ≡ self.old.kept }
    {
        renew_all(alloc, &mut self.list, &mut self.former, forest)
    }

    /// Keeps those of the last refresh. Takes no memory.
    pub fn commit(&mut self)
        ensures { self.new ≡ record { now = self.old.now; kept = self.old.now } }
    {
        self.aside = None;
        self.former.clear();
    }

    /// Those that were kept stand again. Takes no memory.
    pub fn roll_back(&mut self)
        ensures { self.new ≡ record { now = self.old.kept; kept = self.old.kept } }
    {
        match self.aside.take() {
            Some(kept) => {
                self.list = kept;
                self.former.clear();
            }
            None => put_back(&mut self.list, &mut self.former),
        }
    }
}

/// Gives each copy of a list the value that its node has in these data, and notes those that they had. The answer is what is told of those that
/// got another one.
fn renew_all(
    alloc: Global,
    list: &mut ControlList,
    former: &mut Vec<Former>,
    forest: &Forest,
) -> Result<NotificationList, EvalFault>
    requires there { AreThere list.old forest.now.forest.nodes }
    requires rising { is_rising list.old ≡ true }
    ensures list { GivesBounded EvalFault.Memory EvalFault.Long (λ _. list.new) result (renewed forest.now.forest.nodes list.old) }
    ensures told { IfOk result (λ all. map seen_notification all ≡ told.notifications (map seen_copy list.old) (map seen_copy list.new)) }
    ensures kept { values.put_back list.new former.new.items ≡ values.put_back list.old former.old.items }
{
    let mut all = Items::new(alloc);
    for place in 0..list.len() {
        let is_other = renew_at(list, former, forest, place)?;
        push_if(alloc, is_other, list.at(place), &mut all)?;
    }
    Ok(all)
}

/// Where a copy got another value, tells so.
fn push_if(
    alloc: Global,
    is_other: bool,
    copy: &ControlCopy,
    all: &mut NotificationList,
) -> Result<(), AllocError>
    ensures { OnOk result (map seen_notification all.new ≡ map seen_notification all.old ++ values.told_if (not is_other) copy.now) }
{
    if is_other {
        return push_told(alloc, "xforms-value-changed", copy, all);
    }
    Ok(())
}

/// Gives the copy at a place the value that its node has in these data, and notes the one that it had. Whether it got another one.
fn renew_at(
    list: &mut ControlList,
    former: &mut Vec<Former>,
    forest: &Forest,
    place: usize,
) -> Result<bool, EvalFault>
    requires place { place < length list.old }
    requires there { IsThere (node_at list.old place) forest.now.forest.nodes }
    ensures list { GivesBounded EvalFault.Memory EvalFault.Long (λ _. list.new) result (option_map (λ value. with_value_at place value list.old) (spec.value_over forest.now.forest.nodes (option_map number (node_at list.old place)))) }
    ensures told { IfOk result (λ is_other. is_other ≡ not (told.same_value (value_at list.old place) (value_at list.new place))) }
    ensures kept { values.put_back list.new former.new.items ≡ values.put_back list.old former.old.items }
{
    let copy = &list.as_slice()[place];
    if has_value(forest, copy.node, &copy.value) {
        return Ok(false);
    }
    let value = value_over(forest, copy.node)?;
    if same_value(&copy.value, &value) {
        return Ok(false);
    }
    former.reserve(1)?;
    let value = list.swap_value(place, value);
    former.push_reserved(Former { place, value });
    Ok(true)
}

/// Puts the former values back, the last one first.
fn put_back(list: &mut ControlList, former: &mut Vec<Former>)
    ensures list { list.new ≡ values.put_back list.old former.old.items }
    ensures former { former.new.items ≡ [] }
{
    while let Some(change) = former.pop() {
        if change.place < list.len() {
            let _ = list.swap_value(change.place, change.value);
        }
    }
}
