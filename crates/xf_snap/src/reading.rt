//! Reading a snapshot.
ghost use Rattle.std.specs.Prelude.{◌≡◌, Some, IfOk, IfSome};
ghost use Rattle.std.specs.Option.{option_map};
ghost use Rattle.xf_def_forest.specs.Limits.{limits};
ghost use Rattle.xf_snap.specs.declared.snap.Snap.{Snap};
ghost use Rattle.xf_snap.specs.Spelling.{bytes_of};
ghost use Rattle.xf_snap.specs.Within.{IsWithin, IsTyped};
ghost use Rattle.xf_snap.specs.Reading.{documents_at, indexes_at, cases_at, text_of, text_at, name_at, attribute_at, several, element_at, tree_at, two_at, four_at, snap_at, snap_in};

use crate::amount::keeps_limits;
use crate::number::{eight_at, four_at, two_at};
use crate::{CountList, Snap};
use std::alloc::{AllocError, Global};
use std::str;
use xf_base::Items;
use xf_base::limits::{DEPTH_LIMIT, TEXT_LIMIT};
use xf_def_forest::{Bare, BareAttribute, BareAttributeList, BareElement, BareList};
use xf_name::{QName, Word};

/// What stands at the front of some bytes, with the bytes behind it, or `None` where they begin with no such thing.
type Front<'a, T> = Result<Option<(T, &'a [u8])>, AllocError>;

/// The snapshot that these bytes are, or `None` where they are no bytes of one that is within the limits.
pub fn decode(alloc: Global, bytes: &[u8]) -> Result<Option<Snap>, AllocError>
    ensures found { IfOk result (λ found. IfSome found (λ snap. (bytes.now ≡ bytes_of snap) × IsWithin snap × IsTyped snap)) }
    ensures only { (snap : Snap) → IsWithin snap → IsTyped snap → bytes.now ≡ bytes_of snap → IfOk result (λ found. found ≡ Some snap) }
    ensures exact { IfOk result (λ found. found ≡ snap_in bytes.now) }
{
    snap_in(alloc, bytes)
}

/// The same, by reading from left to right.
fn snap_in(alloc: Global, bytes: &[u8]) -> Result<Option<Snap>, AllocError>
    ensures { IfOk result (λ found. found ≡ snap_in bytes.now) }
{
    match snap_at(alloc, bytes)? {
        Some(snap) if keeps_limits(&snap) => Ok(Some(snap)),
        _ => Ok(None),
    }
}

/// The snapshot that all of these bytes are, however much it has.
#[tactic(auto, unfolding(crate::specs::Reading::snap_at))]
fn snap_at(alloc: Global, bytes: &[u8]) -> Result<Option<Snap>, AllocError>
    ensures { IfOk result (λ found. found ≡ snap_at bytes.now) }
{
    let Some((accepted, rest)) = eight_at(bytes) else {
        return Ok(None);
    };
    let Some((documents, rest)) = documents_at(alloc, rest)? else {
        return Ok(None);
    };
    let Some((indexes, rest)) = indexes_at(alloc, rest)? else {
        return Ok(None);
    };
    let Some((cases, rest)) = cases_at(alloc, rest)? else {
        return Ok(None);
    };
    if !rest.is_empty() {
        return Ok(None);
    }
    Ok(Some(Snap {
        accepted,
        documents,
        indexes,
        cases,
    }))
}

/// Documents behind their number.
#[tactic(auto, unfolding(crate::specs::Reading::documents_at))]
fn documents_at(alloc: Global, bytes: &[u8]) -> Front<BareList>
    ensures { IfOk result (λ found. option_map (λ front. (front.0, front.1.now)) found ≡ documents_at bytes.now) }
{
    match two_at(bytes) {
        Some((count, rest)) => trees_at(alloc, DEPTH_LIMIT, u32::from(count), rest),
        None => Ok(None),
    }
}

/// Indexes behind their number.
#[tactic(auto, unfolding(crate::specs::Reading::indexes_at))]
fn indexes_at(alloc: Global, bytes: &[u8]) -> Front<CountList>
    ensures { IfOk result (λ found. option_map (λ front. (front.0, front.1.now)) found ≡ indexes_at bytes.now) }
{
    match two_at(bytes) {
        Some((count, rest)) => fours_at(alloc, count, rest),
        None => Ok(None),
    }
}

/// Cases behind their number.
#[tactic(auto, unfolding(crate::specs::Reading::cases_at))]
fn cases_at(alloc: Global, bytes: &[u8]) -> Front<CountList>
    ensures { IfOk result (λ found. option_map (λ front. (front.0, front.1.now)) found ≡ cases_at bytes.now) }
{
    match two_at(bytes) {
        Some((count, rest)) => twos_at(alloc, count, rest),
        None => Ok(None),
    }
}

/// So many numbers of four bytes.
fn fours_at(alloc: Global, count: u16, bytes: &[u8]) -> Front<CountList>
    ensures { IfOk result (λ found. option_map (λ front. (front.0, front.1.now)) found ≡ several four_at count bytes.now) }
{
    let mut numbers = Vec::new(alloc);
    let mut rest = bytes;
    let mut left = count;
    while left > 0 {
        let Some((number, behind)) = four_at(rest) else {
            return Ok(None);
        };
        numbers.push(number)?;
        rest = behind;
        left -= 1;
    }
    Ok(Some((Items::from_vec(numbers), rest)))
}

/// So many numbers of two bytes.
fn twos_at(alloc: Global, count: u16, bytes: &[u8]) -> Front<CountList>
    ensures { IfOk result (λ found. option_map (λ front. (front.0, front.1.now)) found ≡ several two_at count bytes.now) }
{
    let mut numbers = Vec::new(alloc);
    let mut rest = bytes;
    let mut left = count;
    while left > 0 {
        let Some((number, behind)) = two_at(rest) else {
            return Ok(None);
        };
        numbers.push(u32::from(number))?;
        rest = behind;
        left -= 1;
    }
    Ok(Some((Items::from_vec(numbers), rest)))
}

/// So many trees, each at most so many elements deep.
#[cycle(trees)]
fn trees_at(alloc: Global, depth: u32, count: u32, bytes: &[u8]) -> Front<BareList>
    ensures { IfOk result (λ found. option_map (λ front. (front.0, front.1.now)) found ≡ several (tree_at depth) count bytes.now) }
{
    let mut trees = Vec::new(alloc);
    let mut rest = bytes;
    let mut left = count;
    while left > 0 {
        let Some((tree, behind)) = tree_at(alloc, depth, rest)? else {
            return Ok(None);
        };
        trees.push(tree)?;
        rest = behind;
        left -= 1;
    }
    Ok(Some((Items::from_vec(trees), rest)))
}

/// A tree at most so many elements deep: 0 and an element, or 1 and a text.
#[cycle(trees)]
#[tactic(auto, unfolding(crate::specs::Reading::tree_over))]
fn tree_at(alloc: Global, depth: u32, bytes: &[u8]) -> Front<Bare>
    ensures { IfOk result (λ found. option_map (λ front. (front.0, front.1.now)) found ≡ tree_at depth bytes.now) }
{
    match bytes {
        [0, rest @ ..] => match element_at(alloc, depth, rest)? {
            Some((element, rest)) => Ok(Some((Bare::Element(element), rest))),
            None => Ok(None),
        },
        [1, rest @ ..] => match text_at(alloc, rest)? {
            Some((text, rest)) => Ok(Some((Bare::Text(text), rest))),
            None => Ok(None),
        },
        _ => Ok(None),
    }
}

/// An element at most so many elements deep.
#[cycle(trees)]
#[tactic(auto, unfolding(crate::specs::Reading::element_at, crate::specs::Reading::element_over))]
fn element_at(alloc: Global, depth: u32, bytes: &[u8]) -> Front<BareElement>
    ensures { IfOk result (λ found. option_map (λ front. (front.0, front.1.now)) found ≡ element_at depth bytes.now) }
{
    if depth == 0 {
        return Ok(None);
    }
    let Some((name, rest)) = name_at(alloc, bytes)? else {
        return Ok(None);
    };
    let Some((count, rest)) = two_at(rest) else {
        return Ok(None);
    };
    let Some((attributes, rest)) = attributes_at(alloc, count, rest)? else {
        return Ok(None);
    };
    let Some((count, rest)) = four_at(rest) else {
        return Ok(None);
    };
    let Some((children, rest)) = trees_at(alloc, depth - 1, count, rest)? else {
        return Ok(None);
    };
    let element = BareElement {
        name,
        attributes,
        children,
    };
    Ok(Some((element, rest)))
}

/// So many attributes.
fn attributes_at(alloc: Global, count: u16, bytes: &[u8]) -> Front<BareAttributeList>
    ensures { IfOk result (λ found. option_map (λ front. (front.0, front.1.now)) found ≡ several attribute_at count bytes.now) }
{
    let mut attributes = Vec::new(alloc);
    let mut rest = bytes;
    let mut left = count;
    while left > 0 {
        let Some((attribute, behind)) = attribute_at(alloc, rest)? else {
            return Ok(None);
        };
        attributes.push(attribute)?;
        rest = behind;
        left -= 1;
    }
    Ok(Some((Items::from_vec(attributes), rest)))
}

/// An attribute: its name and its text.
#[tactic(auto, unfolding(crate::specs::Reading::attribute_at))]
fn attribute_at(alloc: Global, bytes: &[u8]) -> Front<BareAttribute>
    ensures { IfOk result (λ found. option_map (λ front. (front.0, front.1.now)) found ≡ attribute_at bytes.now) }
{
    let Some((name, rest)) = name_at(alloc, bytes)? else {
        return Ok(None);
    };
    match text_at(alloc, rest)? {
        Some((text, rest)) => Ok(Some((BareAttribute { name, text }, rest))),
        None => Ok(None),
    }
}

/// A name: its namespace, its prefix, and its local part behind its length.
#[tactic(auto, unfolding(crate::specs::Reading::name_at))]
fn name_at(alloc: Global, bytes: &[u8]) -> Front<QName>
    ensures { IfOk result (λ found. option_map (λ front. (front.0, front.1.now)) found ≡ name_at bytes.now) }
{
    let Some((space, rest)) = two_at(bytes) else {
        return Ok(None);
    };
    let Some((prefix, rest)) = two_at(rest) else {
        return Ok(None);
    };
    let Some((size, rest)) = rest.split_first() else {
        return Ok(None);
    };
    match text_of(alloc, usize::from(*size), rest)? {
        Some((local, rest)) => Ok(Some((
            QName {
                space,
                prefix,
                local,
            },
            rest,
        ))),
        None => Ok(None),
    }
}

/// A text behind its length.
#[tactic(auto, unfolding(crate::specs::Reading::text_at))]
fn text_at(alloc: Global, bytes: &[u8]) -> Front<Word>
    ensures { IfOk result (λ found. option_map (λ front. (front.0, front.1.now)) found ≡ text_at bytes.now) }
{
    match four_at(bytes) {
        Some((size, rest)) if size as usize <= TEXT_LIMIT => text_of(alloc, size as usize, rest),
        _ => Ok(None),
    }
}

/// A text of so many bytes.
fn text_of(alloc: Global, size: usize, bytes: &[u8]) -> Front<Word>
    ensures { IfOk result (λ found. option_map (λ front. (front.0, front.1.now)) found ≡ text_of size bytes.now) }
{
    if size > bytes.len() {
        return Ok(None);
    }
    match str::from_utf8(&bytes[..size]) {
        Ok(text) => Ok(Some((Word::from_str(alloc, text)?, &bytes[size..]))),
        Err(_) => Ok(None),
    }
}
