//! The faults of an element's attributes that it has by itself.

ghost use Rattle.std.specs.Prelude.{◌≡◌, IfOk, map};
ghost use Rattle.std.specs.List.{list_any};
ghost use Rattle.xf_form_vocabulary.specs.Attributes.{shown};
ghost use Rattle.xf_form_vocabulary.specs.Faults as faults;

use crate::attribute as at;
use crate::attribute::Known;
use crate::classes::has_properties;
use crate::rules::{choice_of, is_computed, is_expression};
use crate::tag::Tag;
use crate::texts::allows;
use std::alloc::{AllocError, Global};
use xf_name::{NameFault, Prefixes};
use xf_num::Decimals;
use xf_path::{ParseFault, parse, static_fault};
use xf_schema::{NamedType, TypeName, type_called};

// ---- expressions

fn is_readable(
    alloc: Global,
    prefixes: &Prefixes,
    text: &str,
    decimals: Decimals,
) -> Result<bool, AllocError>
    ensures { IfOk result (λ reads. reads ≡ faults.is_readable decimals prefixes.now text.now) }
{
    match parse(alloc, text, prefixes, decimals) {
        Ok(_) => Ok(true),
        Err(ParseFault::Memory) => Err(AllocError),
        Err(ParseFault::Expr(_, _)) => Ok(false),
    }
}

/// Whether one of the attributes is to be an expression and is none.
pub fn has_bad_expression(
    alloc: Global,
    prefixes: &Prefixes,
    tag: Tag,
    known: &[Known<'_>],
    decimals: Decimals,
) -> Result<bool, AllocError>
    ensures { IfOk result (λ found. found ≡ list_any (faults.is_bad_expression decimals prefixes.now tag) (map shown known.now)) }
{
    for one in known {
        if is_expression(tag, one.code) && !is_readable(alloc, prefixes, one.text, decimals)? {
            return Ok(true);
        }
    }
    Ok(false)
}

/// Whether the text is an expression that is not static.
fn is_moving(
    alloc: Global,
    prefixes: &Prefixes,
    text: &str,
    decimals: Decimals,
) -> Result<bool, AllocError>
    ensures { IfOk result (λ found. found ≡ faults.is_moving decimals prefixes.now text.now) }
{
    match parse(alloc, text, prefixes, decimals) {
        Ok(expr) => Ok(static_fault(&expr).is_some()),
        Err(ParseFault::Memory) => Err(AllocError),
        Err(ParseFault::Expr(_, _)) => Ok(false),
    }
}

/// Whether one of the attributes is a computed expression that is not static.
pub fn has_moving_expression(
    alloc: Global,
    prefixes: &Prefixes,
    tag: Tag,
    known: &[Known<'_>],
    decimals: Decimals,
) -> Result<bool, AllocError>
    ensures { IfOk result (λ found. found ≡ list_any (faults.is_moving_expression decimals prefixes.now tag) (map shown known.now)) }
{
    for one in known {
        if is_computed(tag, one.code) && is_moving(alloc, prefixes, one.text, decimals)? {
            return Ok(true);
        }
    }
    Ok(false)
}

// ---- texts

fn is_bad_text(tag: Tag, is_handler: bool, one: Known<'_>) -> bool
    ensures { result ≡ faults.is_bad_text tag is_handler (shown one.entry) }
{
    match choice_of(tag, is_handler, one.code) {
        Some(choice) => !allows(choice, one.text),
        None => false,
    }
}

/// Whether one of the attributes has a text that it may not have.
pub fn has_bad_text(tag: Tag, is_handler: bool, known: &[Known<'_>]) -> bool
    ensures { result ≡ list_any (faults.is_bad_text tag is_handler) (map shown known.now) }
{
    for one in known {
        if is_bad_text(tag, is_handler, *one) {
            return true;
        }
    }
    false
}

// ---- types

/// The simple type that a written name means, where the schemas of the form have types of these names.
pub fn type_of(
    prefixes: &Prefixes,
    names: &[TypeName],
    written: &str,
) -> Result<Option<NamedType>, AllocError>
    ensures { IfOk result (λ named. named ≡ faults.type_of prefixes.now names.now written.now) }
{
    match prefixes.resolve(written, 0) {
        Ok(name) => Ok(type_called(
            names,
            prefixes.space_text(name.space).unwrap_or(""),
            name.local.as_str(),
        )),
        Err(NameFault::Memory) => Err(AllocError),
        Err(_) => Ok(None),
    }
}

fn is_bad_type(
    prefixes: &Prefixes,
    names: &[TypeName],
    tag: Tag,
    one: Known<'_>,
) -> Result<bool, AllocError>
    ensures { IfOk result (λ found. found ≡ faults.is_bad_type prefixes.now names.now tag (shown one.entry)) }
{
    if !has_properties(tag) || one.code != at::TYPE {
        return Ok(false);
    }
    Ok(type_of(prefixes, names, one.text)?.is_none())
}

/// Whether one of the attributes is the type of a bind and names none.
pub fn has_bad_type(
    prefixes: &Prefixes,
    names: &[TypeName],
    tag: Tag,
    known: &[Known<'_>],
) -> Result<bool, AllocError>
    ensures { IfOk result (λ found. found ≡ list_any (faults.is_bad_type prefixes.now names.now tag) (map shown known.now)) }
{
    for one in known {
        if is_bad_type(prefixes, names, tag, *one)? {
            return Ok(true);
        }
    }
    Ok(false)
}
