//! The text of an explanation.

ghost use Rattle.std.specs.Prelude.{◌≡◌, ◌++◌, ◌+◌, codes, string_bytes, IfOk, OnOk};
ghost use Rattle.std.specs.Fmt.{decimal};
ghost use Rattle.xf_form_explain.specs.Texts as texts;

use crate::detail::{Detail, Need};
use crate::expression::{characters_before, push_expression};
use crate::words::{attribute_name, choice_text, kind_text, limit_text, need_text, wanted_text};
use serde_json::Value;
use std::alloc::{AllocError, Global};
use xf_form_vocabulary::{Choice, Wanted};
use xf_name::Word;

const NO_ELEMENT: &str =
    ": an element is an array of its name, an object of attributes, and texts and elements";

const BAD_SCHEMA: &str =
    ": its place, its attributes, its base or its value is not that of a type by restriction";

const SECOND_SPACE: &str = " gives its prefix a second namespace, or none";

const BY_VALUES: &str = "a bind selects by position alone";

const NO_TYPE: &str = " is no simple type";

/// The lines that tell a refusal with its number, its place and what is known of it.
pub fn told(alloc: Global, number: u8, place: &Word, detail: &Detail) -> Result<String, AllocError>
    ensures { IfOk result (λ text. string_bytes text ≡ texts.told_text number place.now detail.now) }
{
    let mut text = format!(in alloc; "F{number}")?;
    push_place(&mut text, place)?;
    push_detail(alloc, &mut text, detail)?;
    text.push_str("\n")?;
    push_where(&mut text, detail)?;
    Ok(text)
}

fn push_place(text: &mut String, place: &Word) -> Result<(), AllocError>
    ensures { OnOk result (string_bytes text.new ≡ string_bytes text.old ++ texts.place_text place.now) }
{
    if place.is_empty() {
        return Ok(());
    }
    text.push_str(" ")?;
    text.push_str(place.as_str())
}

// A text of the form, as JSON, so that it makes no line of its own.
#[tactic(auto, unfolding(crate::specs::Texts::quoted))]
fn push_quoted(alloc: Global, text: &mut String, word: &Word) -> Result<(), AllocError>
    ensures { OnOk result (string_bytes text.new ≡ string_bytes text.old ++ texts.quoted word.now) }
{
    let quoted = Value::String(String::from_str(alloc, word.as_str())?).to_string(alloc)?;
    text.push_str(quoted.as_str())
}

fn push_number(alloc: Global, text: &mut String, number: usize) -> Result<(), AllocError>
    ensures { OnOk result (string_bytes text.new ≡ string_bytes text.old ++ decimal number) }
{
    let number = format!(in alloc; "{number}")?;
    text.push_str(number.as_str())
}

// What is wrong.
fn push_detail(alloc: Global, text: &mut String, detail: &Detail) -> Result<(), AllocError>
    ensures { OnOk result (string_bytes text.new ≡ string_bytes text.old ++ texts.detail_text detail.now) }
{
    match detail {
        Detail::Nothing => Ok(()),
        Detail::Unread(line, column, is_early) => {
            push_unread(alloc, text, *line, *column, *is_early)
        }
        Detail::TooLarge => text.push_str(": more than 1048576 bytes"),
        Detail::NotElement => text.push_str(NO_ELEMENT),
        Detail::NoModel => text.push_str(": there is no model"),
        Detail::NoInstance => text.push_str(": a model without an instance"),
        Detail::UnknownElement => text.push_str(": XForms has no such element"),
        Detail::Misplaced(around) => push_misplaced(alloc, text, around),
        Detail::NotOneElement(count) => push_count(alloc, text, *count),
        Detail::NoCase => text.push_str(": it has no case"),
        Detail::BadSchema => text.push_str(BAD_SCHEMA),
        Detail::Passed(word) => push_limit(text, word),
        _ => push_by_attribute(alloc, text, detail),
    }
}

// What is wrong with names and attributes.
fn push_by_attribute(alloc: Global, text: &mut String, detail: &Detail) -> Result<(), AllocError>
    ensures { OnOk result (string_bytes text.new ≡ string_bytes text.old ++ texts.attribute_text detail.now) }
{
    match detail {
        Detail::NoName(name) => push_about(alloc, text, ": ", name, " is no name"),
        Detail::DoubleAttribute => text.push_str(": two attributes have one name"),
        Detail::UnknownPrefix(name) => push_unknown_prefix(alloc, text, name),
        Detail::Rebound(name) => push_about(alloc, text, ": ", name, SECOND_SPACE),
        Detail::BadExpression(code, expression, place, kind) => {
            push_fault(alloc, text, *code, expression, *place, kind_text(*kind))
        }
        Detail::Moving(code, expression, place) => {
            push_fault(alloc, text, *code, expression, *place, BY_VALUES)
        }
        Detail::BadText(code, written, choice) => {
            push_bad_text(alloc, text, *code, written, *choice)
        }
        Detail::Lacks(need) => push_need(text, *need),
        Detail::DoubleId(id, count) => push_double(alloc, text, id, *count),
        Detail::NoSuchId(code, id, wanted) => push_no_such_id(alloc, text, *code, id, *wanted),
        Detail::UnknownType(name) => push_about(alloc, text, ": type: ", name, NO_TYPE),
        _ => Ok(()),
    }
}

// A text of the form, between two others.
fn push_about(
    alloc: Global,
    text: &mut String,
    before: &str,
    word: &Word,
    behind: &str,
) -> Result<(), AllocError>
    ensures { OnOk result (string_bytes text.new ≡ string_bytes text.old ++ before.now ++ texts.quoted word.now ++ behind.now) }
{
    text.push_str(before)?;
    push_quoted(alloc, text, word)?;
    text.push_str(behind)
}

// A text of the form, behind another.
fn push_behind(
    alloc: Global,
    text: &mut String,
    before: &str,
    word: &Word,
) -> Result<(), AllocError>
    ensures { OnOk result (string_bytes text.new ≡ string_bytes text.old ++ before.now ++ texts.quoted word.now) }
{
    text.push_str(before)?;
    push_quoted(alloc, text, word)
}

// ---- bytes and elements

fn push_unread(
    alloc: Global,
    text: &mut String,
    line: usize,
    column: usize,
    is_early: bool,
) -> Result<(), AllocError>
    ensures { OnOk result (string_bytes text.new ≡ string_bytes text.old ++ texts.unread_text line column is_early) }
{
    text.push_str(": line ")?;
    push_number(alloc, text, line)?;
    push_column(alloc, text, column, is_early)
}

fn push_column(
    alloc: Global,
    text: &mut String,
    column: usize,
    is_early: bool,
) -> Result<(), AllocError>
    ensures { OnOk result (string_bytes text.new ≡ string_bytes text.old ++ texts.column_text column is_early) }
{
    if is_early {
        return text.push_str(": the bytes end within a value");
    }
    text.push_str(", column ")?;
    push_number(alloc, text, column)?;
    text.push_str(": no JSON, or nested more than 127 deep")
}

fn push_misplaced(alloc: Global, text: &mut String, around: &Word) -> Result<(), AllocError>
    ensures { OnOk result (string_bytes text.new ≡ string_bytes text.old ++ texts.misplaced_text around.now) }
{
    if around.is_empty() {
        return text.push_str(": it may not stand around all others");
    }
    push_behind(alloc, text, ": it may not stand in ", around)
}

fn push_count(alloc: Global, text: &mut String, count: usize) -> Result<(), AllocError>
    ensures { OnOk result (string_bytes text.new ≡ string_bytes text.old ++ texts.count_text count) }
{
    text.push_str(": it has ")?;
    push_number(alloc, text, count)?;
    text.push_str(" elements, and needs one")
}

fn push_limit(text: &mut String, word: &Word) -> Result<(), AllocError>
    ensures { OnOk result (string_bytes text.new ≡ string_bytes text.old ++ texts.passed_text word.now) }
{
    text.push_str(": ")?;
    text.push_str(limit_text(word.as_str()))
}

// ---- attributes

fn push_unknown_prefix(alloc: Global, text: &mut String, name: &Word) -> Result<(), AllocError>
    ensures { OnOk result (string_bytes text.new ≡ string_bytes text.old ++ texts.unknown_prefix_text name.now) }
{
    push_about(alloc, text, ": ", name, " has a prefix without a namespace")
}

fn push_name(text: &mut String, code: u16) -> Result<(), AllocError>
    ensures { OnOk result (string_bytes text.new ≡ string_bytes text.old ++ texts.name_text code) }
{
    text.push_str(": ")?;
    text.push_str(attribute_name(code))
}

// The character of an expression, counted from 1, and what is wrong there.
fn push_fault(
    alloc: Global,
    text: &mut String,
    code: u16,
    expression: &Word,
    place: u32,
    fault: &str,
) -> Result<(), AllocError>
    ensures { OnOk result (string_bytes text.new ≡ string_bytes text.old ++ texts.fault_text code expression.now place fault.now) }
{
    push_name(text, code)?;
    text.push_str(", character ")?;
    push_number(
        alloc,
        text,
        characters_before(expression.as_bytes(), place) + 1,
    )?;
    text.push_str(": ")?;
    text.push_str(fault)
}

fn push_bad_text(
    alloc: Global,
    text: &mut String,
    code: u16,
    written: &Word,
    choice: Choice,
) -> Result<(), AllocError>
    ensures { OnOk result (string_bytes text.new ≡ string_bytes text.old ++ texts.choice_fault code written.now choice) }
{
    push_name(text, code)?;
    push_about(alloc, text, ": ", written, " is not ")?;
    text.push_str(choice_text(choice))
}

fn push_need(text: &mut String, need: Need) -> Result<(), AllocError>
    ensures { OnOk result (string_bytes text.new ≡ string_bytes text.old ++ texts.lacks_text need) }
{
    text.push_str(": it needs ")?;
    text.push_str(need_text(need))
}

fn push_double(alloc: Global, text: &mut String, id: &Word, count: usize) -> Result<(), AllocError>
    ensures { OnOk result (string_bytes text.new ≡ string_bytes text.old ++ texts.double_text id.now count) }
{
    text.push_str(": ")?;
    push_number(alloc, text, count)?;
    push_behind(alloc, text, " elements have the id ", id)
}

fn push_no_such_id(
    alloc: Global,
    text: &mut String,
    code: u16,
    id: &Word,
    wanted: Wanted,
) -> Result<(), AllocError>
    ensures { OnOk result (string_bytes text.new ≡ string_bytes text.old ++ texts.no_id_text code id.now wanted) }
{
    push_name(text, code)?;
    text.push_str(": no ")?;
    text.push_str(wanted_text(wanted))?;
    push_behind(alloc, text, " has the id ", id)
}

// ---- expressions

// The expression at fault, and a caret below the place.
fn push_where(text: &mut String, detail: &Detail) -> Result<(), AllocError>
    ensures { OnOk result (string_bytes text.new ≡ string_bytes text.old ++ texts.where_text detail.now) }
{
    match detail {
        Detail::BadExpression(_, expression, place, _) => {
            push_expression(text, expression.as_str(), *place)
        }
        Detail::Moving(_, expression, place) => {
            push_expression(text, expression.as_str(), *place)
        }
        _ => Ok(()),
    }
}
