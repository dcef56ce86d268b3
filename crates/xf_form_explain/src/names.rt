//! What is known of a refusal by names.

ghost use Rattle.std.specs.Prelude.{◌≡◌, [], ◌∷◌, codes, IfOk};
ghost use Rattle.xf_name.specs.Faults.{name_fault};
ghost use Rattle.xf_form_refusals.specs.Rows.{shown};
ghost use Rattle.xf_form_explain.specs.Details as details;

use crate::detail::Detail;
use crate::search::Search;
use std::alloc::{AllocError, Global};
use xf_base::Items;
use xf_form_refusals::Row;
use xf_name::{LitElement, NameFault, Pair, PairList, Prefixes, Word};

/// The name of an element, or of one of its attributes, by which the form is refused.
pub fn name_detail(search: &Search<'_, '_>, row: &Row<'_>) -> Result<Option<Detail>, AllocError>
    ensures { IfOk result (λ found. found ≡ details.name_detail search.now.number search.now.prefixes.now (shown row.now)) }
{
    if search.prefixes.fault_of(row.element)?.is_none() {
        return Ok(None);
    }
    by_names(search, row.element)
}

fn by_names(search: &Search<'_, '_>, element: &LitElement) -> Result<Option<Detail>, AllocError>
    ensures { IfOk result (λ found. found ≡ details.by_names search.now.number search.now.prefixes.now element.now.name element.now.attributes) }
{
    let own = by_name(search, element.name.as_str())?;
    if own.is_some() {
        return Ok(own);
    }
    let found = by_pairs(search, element.attributes.as_slice())?;
    if found.is_some() {
        return Ok(found);
    }
    Ok(or_double(search.number))
}

fn or_double(number: u8) -> Option<Detail>
    ensures { result ≡ details.or_double number }
{
    if number == 4 {
        return Some(Detail::DoubleAttribute);
    }
    None
}

fn by_name(search: &Search<'_, '_>, name: &str) -> Result<Option<Detail>, AllocError>
    ensures { IfOk result (λ found. found ≡ details.by_name search.now.number search.now.prefixes.now name.now) }
{
    let none = Items::new(search.alloc);
    let fault = fault_of(search.alloc, search.prefixes, name, none)?;
    by_fault(search.alloc, search.number, name, fault)
}

fn by_pairs(search: &Search<'_, '_>, attributes: &[Pair]) -> Result<Option<Detail>, AllocError>
    ensures { IfOk result (λ found. found ≡ details.first_found (details.by_pair search.now.number search.now.prefixes.now) attributes.now) }
{
    for attribute in attributes {
        let found = by_pair(search, attribute)?;
        if found.is_some() {
            return Ok(found);
        }
    }
    Ok(None)
}

// An attribute is looked at by itself, at an element whose name has no fault.
fn by_pair(search: &Search<'_, '_>, attribute: &Pair) -> Result<Option<Detail>, AllocError>
    ensures { IfOk result (λ found. found ≡ details.by_pair search.now.number search.now.prefixes.now attribute.now) }
{
    let alone = copied(search.alloc, attribute)?;
    let fault = fault_of(search.alloc, search.prefixes, "x", alone)?;
    by_fault(search.alloc, search.number, attribute.name.as_str(), fault)
}

fn copied(alloc: Global, attribute: &Pair) -> Result<PairList, AllocError>
    ensures { IfOk result (λ pairs. pairs ≡ attribute.now ∷ []) }
{
    let mut pairs = Items::new(alloc);
    pairs.push(Pair {
        name: Word::from_str(alloc, attribute.name.as_str())?,
        text: Word::from_str(alloc, attribute.text.as_str())?,
    })?;
    Ok(pairs)
}

// The fault of the names of an element.
fn fault_of(
    alloc: Global,
    prefixes: &Prefixes,
    name: &str,
    attributes: PairList,
) -> Result<Option<NameFault>, AllocError>
    ensures { IfOk result (λ fault. fault ≡ name_fault prefixes.now name.now attributes) }
{
    let element = LitElement {
        name: Word::from_str(alloc, name)?,
        attributes,
        children: Items::new(alloc),
    };
    prefixes.fault_of(&element)
}

fn by_fault(
    alloc: Global,
    number: u8,
    written: &str,
    fault: Option<NameFault>,
) -> Result<Option<Detail>, AllocError>
    ensures { IfOk result (λ found. found ≡ details.by_fault number written.now fault) }
{
    match fault {
        Some(NameFault::BadName) => {
            if number != 4 {
                return Ok(None);
            }
            Ok(Some(Detail::NoName(Word::from_str(alloc, written)?)))
        }
        Some(NameFault::PrefixUnknown) => {
            if number != 5 {
                return Ok(None);
            }
            Ok(Some(Detail::UnknownPrefix(Word::from_str(alloc, written)?)))
        }
        Some(NameFault::PrefixRebound) => {
            if number != 5 {
                return Ok(None);
            }
            Ok(Some(Detail::Rebound(Word::from_str(alloc, written)?)))
        }
        _ => Ok(None),
    }
}
