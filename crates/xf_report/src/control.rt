//! The lines of repeats, switches and copies of controls.
ghost use Rattle.std.specs.Prelude.{◌≡◌, ◌++◌, IfOk, OnOk, option_map, string_bytes};
ghost use Rattle.std.specs.List.{flat_map, list_any};
ghost use Rattle.std.specs.Str.{bytes_eq};
ghost use Rattle.xf_def_machine.specs.ControlText.{is_chosen_in, joined, sign_if, value_part};
ghost use Rattle.xf_def_ui.specs.Elements.{element_at};
ghost use Rattle.xf_def_ui.specs.Interface.{interface_of, sort_of};
ghost use Rattle.xf_def_ui.specs.Items.{is_chosen, words};
ghost use Rattle.xf_report.specs.Controls.{behind_comma, control_line, copy_text, is_word, item_text, item_texts, many_in, repeat_text, rows_in, seen_copy, switch_text};
ghost use Rattle.xf_report.specs.Named.{name_in, numbers_of};

use crate::marks::push_marks;
use crate::names::{element_in, push_name};
use crate::text::{push_number, push_quoted};
use std::alloc::{AllocError, Global};
use xf_def_syntax::{Control, Form, Kind};
use xf_def_ui::{Item, Marks};
use xf_num::is_space;

/// A copy of a control, as it is printed.
#[derive(Clone, Copy)]
pub struct ShownCopy<'a> {
    /// The element of which it is a copy.
    pub element: u32,
    /// The numbers of its rows among those of their repeats, from 1, the outermost first.
    pub rows: &'a [u32],
    pub marks: Marks,
    pub value: Option<&'a str>,
    pub items: &'a [Item],
}

/// Appends the line of a repeat, with its index and how many rows it has.
pub fn push_repeat(
    alloc: Global,
    text: &mut String,
    form: &Form,
    numbers: &[u64],
    element: u32,
    index: u32,
    rows: u32,
) -> Result<(), AllocError>
    requires { numbers.now ≡ numbers_of form.now.elements }
    ensures text { OnOk result (string_bytes text.new ≡ string_bytes text.old ++ repeat_text (interface_of form.now) element index rows) }
{
    text.push_str("repeat ")?;
    push_name(alloc, text, form, numbers, element)?;
    text.push_str(" ")?;
    push_number(text, index as u64)?;
    text.push_str(" ")?;
    push_number(text, rows as u64)?;
    text.push_str("\n")
}

/// Appends the line of a switch, with its selected case.
pub fn push_switch(
    alloc: Global,
    text: &mut String,
    form: &Form,
    numbers: &[u64],
    element: u32,
    case: u32,
) -> Result<(), AllocError>
    requires { numbers.now ≡ numbers_of form.now.elements }
    ensures { OnOk result (string_bytes text.new ≡ string_bytes text.old ++ switch_text (interface_of form.now) element case) }
{
    text.push_str("case ")?;
    push_name(alloc, text, form, numbers, element)?;
    text.push_str(" ")?;
    push_name(alloc, text, form, numbers, case)?;
    text.push_str("\n")
}

/// Appends the lines of a copy of a control: one for it, and for a select one for each item.
pub fn push_copy(
    alloc: Global,
    text: &mut String,
    form: &Form,
    numbers: &[u64],
    copy: &ShownCopy<'_>,
) -> Result<(), AllocError>
    requires { numbers.now ≡ numbers_of form.now.elements }
    ensures { OnOk result (string_bytes text.new ≡ string_bytes text.old ++ copy_text (interface_of form.now) (seen_copy copy.now)) }
{
    let name = name_with_rows(alloc, form, numbers, copy.element, copy.rows)?;
    push_control(alloc, text, name.as_str(), copy.marks, copy.value)?;
    push_chosen(
        alloc,
        text,
        many_of(form, copy.element),
        name.as_str(),
        copy.value,
        copy.items,
    )
}

/// The name of a control and the numbers of its rows.
fn name_with_rows(
    alloc: Global,
    form: &Form,
    numbers: &[u64],
    element: u32,
    rows: &[u32],
) -> Result<String, AllocError>
    requires { numbers.now ≡ numbers_of form.now.elements }
    ensures { IfOk result (λ name. string_bytes name ≡ name_in (interface_of form.now) element ++ rows_in rows.now) }
{
    let mut name = String::new(alloc);
    push_name(alloc, &mut name, form, numbers, element)?;
    push_rows(&mut name, rows)?;
    Ok(name)
}

/// Appends the line of a control, whose name and rows these are.
fn push_control(
    alloc: Global,
    text: &mut String,
    name: &str,
    marks: Marks,
    value: Option<&str>,
) -> Result<(), AllocError>
    ensures { OnOk result (string_bytes text.new ≡ string_bytes text.old ++ control_line name.now marks (option_map (λ v. v.now) value.entry)) }
{
    text.push_str("control ")?;
    text.push_str(name)?;
    text.push_str(" ")?;
    push_marks(text, marks)?;
    push_value(alloc, text, value)?;
    text.push_str("\n")
}

/// Appends the lines of the items, where the control is a select.
fn push_chosen(
    alloc: Global,
    text: &mut String,
    many: Option<bool>,
    name: &str,
    value: Option<&str>,
    items: &[Item],
) -> Result<(), AllocError>
    ensures { OnOk result (string_bytes text.new ≡ string_bytes text.old ++ item_texts name.now many (option_map (λ v. v.now) value.entry) items.now) }
{
    match many {
        Some(many) => push_items(alloc, text, name, many, value, items),
        None => Ok(()),
    }
}

/// Whether several items may be chosen, where the element is a select.
fn many_of(form: &Form, element: u32) -> Option<bool>
    ensures { result ≡ many_in (element_at (interface_of form.now) element).sort }
{
    match element_in(form, element) {
        Some(found) => many_in(&found.kind),
        None => None,
    }
}

fn many_in(kind: &Kind) -> Option<bool>
    ensures { result ≡ many_in (sort_of kind.now) }
{
    match kind {
        Kind::Control(_, control) => match control {
            Control::Select(_) => Some(true),
            Control::SelectOne(_) => Some(false),
            _ => None,
        },
        _ => None,
    }
}

/// Appends the numbers of rows, behind a blank.
fn push_rows(text: &mut String, rows: &[u32]) -> Result<(), AllocError>
    ensures { OnOk result (string_bytes text.new ≡ string_bytes text.old ++ rows_in rows.now) }
{
    text.push_str(" [")?;
    push_joined(text, rows)?;
    text.push_str("]")
}

fn push_joined(text: &mut String, rows: &[u32]) -> Result<(), AllocError>
    ensures { OnOk result (string_bytes text.new ≡ string_bytes text.old ++ joined rows.now) }
{
    if rows.is_empty() {
        return Ok(());
    }
    push_number(text, rows[0] as u64)?;
    push_more(text, &rows[1..])
}

/// Appends numbers, each behind a comma.
fn push_more(text: &mut String, rows: &[u32]) -> Result<(), AllocError>
    ensures { OnOk result (string_bytes text.new ≡ string_bytes text.old ++ flat_map behind_comma rows.now) }
{
    for row in rows {
        text.push_str(",")?;
        push_number(text, *row as u64)?;
    }
    Ok(())
}

fn push_value(alloc: Global, text: &mut String, value: Option<&str>) -> Result<(), AllocError>
    ensures { OnOk result (string_bytes text.new ≡ string_bytes text.old ++ value_part (option_map (λ v. v.now) value.entry)) }
{
    let Some(value) = value else {
        return Ok(());
    };
    text.push_str(" ")?;
    push_quoted(alloc, text, value)
}

/// Appends a line for each item of a select, whose name and rows these are.
fn push_items(
    alloc: Global,
    text: &mut String,
    name: &str,
    many: bool,
    value: Option<&str>,
    items: &[Item],
) -> Result<(), AllocError>
    ensures { OnOk result (string_bytes text.new ≡ string_bytes text.old ++ flat_map (item_text name.now many (option_map (λ v. v.now) value.entry)) items.now) }
{
    for item in items {
        push_item(alloc, text, name, many, value, item)?;
    }
    Ok(())
}

fn push_item(
    alloc: Global,
    text: &mut String,
    name: &str,
    many: bool,
    value: Option<&str>,
    item: &Item,
) -> Result<(), AllocError>
    ensures { OnOk result (string_bytes text.new ≡ string_bytes text.old ++ item_text name.now many (option_map (λ v. v.now) value.entry) item.now) }
{
    text.push_str("item ")?;
    text.push_str(name)?;
    text.push_str(" ")?;
    push_quoted(alloc, text, item.label.as_str())?;
    text.push_str(" ")?;
    push_quoted(alloc, text, item.value.as_str())?;
    text.push_str(sign(is_chosen_in(many, value, item)))?;
    text.push_str("\n")
}

fn sign(is_chosen: bool) -> &'static str
    ensures { result.now ≡ sign_if is_chosen }
{
    if is_chosen { " +" } else { " -" }
}

/// Whether an item is chosen: without a value none is.
fn is_chosen_in(many: bool, value: Option<&str>, item: &Item) -> bool
    ensures { result ≡ is_chosen_in many (option_map (λ v. v.now) value.entry) item.now }
{
    match value {
        Some(text) => is_chosen(many, text, item),
        None => false,
    }
}

/// Whether an item is chosen by a value: by one of its words, where several items may be.
fn is_chosen(many: bool, value: &str, item: &Item) -> bool
    ensures { result ≡ is_chosen many value.now item.now }
{
    if many {
        has_word(value.as_bytes(), item.value.as_bytes())
    } else {
        item.value.is(value)
    }
}

/// Whether one of the words of a value is this.
fn has_word(value: &[u8], word: &[u8]) -> bool
    ensures { result ≡ list_any (bytes_eq word.now) (words value.now) }
{
    let mut start = 0;
    for at in 0..value.len() {
        if is_space(value[at]) {
            if is_word(&value[start..at], word) {
                return true;
            }
            start = at + 1;
        }
    }
    is_word(&value[start..], word)
}

/// Whether a part between white space is this word.
fn is_word(part: &[u8], word: &[u8]) -> bool
    ensures { result ≡ is_word word.now part.now }
{
    !part.is_empty() && part == word
}
