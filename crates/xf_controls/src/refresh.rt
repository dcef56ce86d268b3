//! What a refresh tells (XForms 1.1, sections 4.3.4 and 4.4): where the copies of two lists differ.

ghost use Rattle.std.specs.Prelude.{◌≡◌, ◌++◌, [], ◌∷◌, IfOk, OnOk, find, map, option_map};
ghost use Rattle.xf_def_ui.specs.Notifications as told;
ghost use Rattle.xf_controls.specs.Before.{Knows};
ghost use Rattle.xf_controls.specs.Seen.{seen_copy, seen_notification};

use crate::before::{Before, before_of, first_place};
use crate::copy::{ControlCopy, ControlList, same_rows};
use std::alloc::{AllocError, Global};
use xf_base::Items;
use xf_def_forest::NodeList;
use xf_eval::append;
use xf_name::Word;

/// What is told of a copy.
#[derive(Drop)]
pub struct Notification {
    /// The name of the event.
    pub name: &'static str,
    /// The element to which it goes.
    pub target: u32,
    /// The chain of rows of its copy.
    pub rows: NodeList,
}

/// What is told, in the order in which it is dispatched.
pub type NotificationList = Items<Notification>;

/// Where the copies of a new list differ from those of the list before, in the order of the new one. Where both lists have the same elements,
/// each once and in document order, it is one pass; else each copy is sought from the first one of its row on.
pub fn notifications(
    alloc: Global,
    old: &ControlList,
    new: &ControlList,
) -> Result<NotificationList, AllocError>
    ensures { IfOk result (λ all. map seen_notification all ≡ told.notifications (map seen_copy old.now) (map seen_copy new.now)) }
{
    let before = before_of(alloc, old.as_slice())?;
    let mut all = Items::new(alloc);
    for (at, copy) in new.as_slice().iter().enumerate() {
        push_since(alloc, &before, at, copy, &mut all)?;
    }
    Ok(all)
}

/// Puts what is told of a copy behind others; it may stand at the same place in the list before.
fn push_since(
    alloc: Global,
    before: &Before<'_>,
    at: usize,
    copy: &ControlCopy,
    all: &mut NotificationList,
) -> Result<(), AllocError>
    requires { Knows before.now }
    ensures { OnOk result (map seen_notification all.new ≡ map seen_notification all.old ++ told.told_since (find (told.is_same_copy (seen_copy copy.now)) (map seen_copy before.now.copies.now)) (seen_copy copy.now)) }
{
    match same_copy(before, at, copy) {
        Some(old) => push_differences(alloc, old, copy, all),
        None => Ok(()),
    }
}

/// The same copy in the list before.
fn same_copy<'a>(before: &Before<'a>, at: usize, copy: &ControlCopy) -> Option<&'a ControlCopy>
    requires { Knows before.now }
    ensures { option_map (λ c. seen_copy c.now) result ≡ find (told.is_same_copy (seen_copy copy.now)) (map seen_copy before.now.copies.now) }
{
    let copies = before.copies;
    let rising = before.rising;
    if rising && at < copies.len() {
        if is_same(copy, &copies[at]) {
            return Some(&copies[at]);
        }
    }
    sought(before, copy)
}

/// The same copy, from the first one of its row on.
fn sought<'a>(before: &Before<'a>, copy: &ControlCopy) -> Option<&'a ControlCopy>
    requires { Knows before.now }
    ensures { option_map (λ c. seen_copy c.now) result ≡ find (told.is_same_copy (seen_copy copy.now)) (map seen_copy before.now.copies.now) }
{
    let copies = before.copies;
    let Some(place) = first_place(before, copy) else {
        return None;
    };
    if place >= copies.len() {
        return None;
    }
    searched(&copies[place..], copy)
}

fn searched<'a>(copies: &'a [ControlCopy], copy: &ControlCopy) -> Option<&'a ControlCopy>
    ensures { option_map (λ c. seen_copy c.now) result ≡ find (told.is_same_copy (seen_copy copy.now)) (map seen_copy copies.now) }
{
    for other in copies {
        if is_same(copy, other) {
            return Some(other);
        }
    }
    None
}

fn is_same(one: &ControlCopy, other: &ControlCopy) -> bool
    ensures { result ≡ told.is_same_copy (seen_copy one.now) (seen_copy other.now) }
{
    if one.element != other.element {
        return false;
    }
    same_rows(one.rows.as_slice(), other.rows.as_slice())
}

/// Puts the differences of a copy behind others.
fn push_differences(
    alloc: Global,
    old: &ControlCopy,
    new: &ControlCopy,
    all: &mut NotificationList,
) -> Result<(), AllocError>
    ensures { OnOk result (map seen_notification all.new ≡ map seen_notification all.old ++ told.told (seen_copy new.now) (told.names_of (seen_copy old.now) (seen_copy new.now))) }
{
    push_value(alloc, old, new, all)?;
    push_state(
        alloc,
        "xforms-valid",
        "xforms-invalid",
        old.valid,
        new.valid,
        new,
        all,
    )?;
    push_state(
        alloc,
        "xforms-readwrite",
        "xforms-readonly",
        old.readwrite,
        new.readwrite,
        new,
        all,
    )?;
    push_state(
        alloc,
        "xforms-required",
        "xforms-optional",
        old.required,
        new.required,
        new,
        all,
    )?;
    push_state(
        alloc,
        "xforms-enabled",
        "xforms-disabled",
        old.enabled,
        new.enabled,
        new,
        all,
    )
}

/// Where the value is another one, tells so.
fn push_value(
    alloc: Global,
    old: &ControlCopy,
    new: &ControlCopy,
    all: &mut NotificationList,
) -> Result<(), AllocError>
    ensures { OnOk result (map seen_notification all.new ≡ map seen_notification all.old ++ told.told (seen_copy new.now) (told.value_names (seen_copy old.now) (seen_copy new.now))) }
{
    if same_value(&old.value, &new.value) {
        return Ok(());
    }
    push_told(alloc, "xforms-value-changed", new, all)
}

pub(crate) fn same_value(old: &Option<Word>, new: &Option<Word>) -> bool
    ensures { result ≡ told.same_value old.now new.now }
{
    match old {
        Some(text) => match new {
            Some(other) => text.is(other.as_str()),
            None => false,
        },
        None => match new {
            Some(_) => false,
            None => true,
        },
    }
}

/// Where the state is another one, puts the name of what it is now behind others.
fn push_state(
    alloc: Global,
    on: &'static str,
    off: &'static str,
    old: bool,
    new: bool,
    copy: &ControlCopy,
    all: &mut NotificationList,
) -> Result<(), AllocError>
    ensures { OnOk result (map seen_notification all.new ≡ map seen_notification all.old ++ told.told (seen_copy copy.now) (told.state_names on.now off.now old new)) }
{
    if old == new {
        return Ok(());
    }
    push_told(alloc, if new { on } else { off }, copy, all)
}

/// Puts one event to a copy behind others.
pub(crate) fn push_told(
    alloc: Global,
    name: &'static str,
    copy: &ControlCopy,
    all: &mut NotificationList,
) -> Result<(), AllocError>
    ensures { OnOk result (map seen_notification all.new ≡ map seen_notification all.old ++ told.told (seen_copy copy.now) (name.now ∷ [])) }
{
    let mut rows = NodeList::with_capacity(alloc, copy.rows.len())?;
    append(&mut rows, &copy.rows)?;
    all.push(Notification {
        name,
        target: copy.element,
        rows,
    })
}
