//! What is told of the node under a key.
ghost use Rattle.std.specs.Prelude.{◌≡◌, ◌-◌, ◌≤◌, ◌^◌, ℕ, not, cond, map, option_map, None, IfOk};
ghost use Rattle.slab.specs.Slab.{get, Updates};
ghost use Rattle.xf_def_forest.specs.Limits.{size_of};
ghost use Rattle.xf_def_forest.specs.Forest.{is_root, is_element, is_attribute, is_text, kind_of, name_in, own_text};
ghost use Rattle.xf_def_forest.specs.Plant.{is_less, written_of};
ghost use Rattle.xf_def_forest.specs.StringValue.{characters};
ghost use Rattle.xf_def_forest.specs.WellFormed.{have_same_name};
ghost use Rattle.xf_tree_contents.specs.Seen.{seen_content};
ghost use Rattle.xf_tree_contents.specs.Keys.{number_in, content_in, same_kind, kept_of, KeepsButKept};

use crate::seen::Seen;
use crate::slots::Slots;
use crate::written::written_less;
use std::alloc::{AllocError, Global};
use xf_def_forest::{Content, Kind, Name};
use xf_name::{QName, Word};

#[inline(always)]
pub fn number_of(slots: &Slots, key: usize) -> u128
    ensures { result ≡ number_in (get slots.now key) }
{
    slots.number(key)
}

/// What the node under a key is, where there is one.
pub fn content_of(slots: &Slots, key: usize) -> Option<Seen<'_>>
    ensures { option_map seen_content result ≡ option_map (λ slot. slot.content) (get slots.now key) }
{
    slots.seen(key)
}

pub fn kind(slots: &Slots, key: usize) -> Kind
    ensures { result ≡ kind_of (content_in (get slots.now key)) }
{
    slots.kind(key)
}

/// The text that a node has itself: an attribute's value, or the characters of a text.
#[inline(always)]
pub fn own(slots: &Slots, key: usize) -> &str
    ensures { result.now ≡ own_text (content_in (get slots.now key)) }
{
    slots.own(key)
}

/// What a node adds to the string value of a node above it.
#[inline(always)]
pub fn below(slots: &Slots, key: usize) -> &str
    ensures { result.now ≡ characters (content_in (get slots.now key)) }
{
    slots.below(key)
}

/// The name of an element or attribute, with its prefix as it is written.
pub fn full_name(slots: &Slots, key: usize) -> Option<&Name>
    ensures { option_map (λ name. name.now) result ≡ name_in (content_in (get slots.now key)) }
{
    slots.name(key)
}

/// The name of an element or attribute.
pub fn name(slots: &Slots, key: usize) -> Option<&QName>
    ensures { option_map (λ name. name.now) result ≡ option_map (λ name. name.meaning) (name_in (content_in (get slots.now key))) }
{
    match slots.name(key) {
        Some(name) => Some(&name.meaning),
        None => None,
    }
}

pub fn is_root_at(slots: &Slots, key: usize) -> bool
    ensures { result ≡ is_root (content_in (get slots.now key)) }
{
    match slots.kind(key) {
        Kind::Root => true,
        _ => false,
    }
}

pub fn is_attribute_at(slots: &Slots, key: usize) -> bool
    ensures { result ≡ is_attribute (content_in (get slots.now key)) }
{
    match slots.kind(key) {
        Kind::Attribute => true,
        _ => false,
    }
}

pub fn is_text_at(slots: &Slots, key: usize) -> bool
    ensures { result ≡ is_text (content_in (get slots.now key)) }
{
    match slots.kind(key) {
        Kind::Text => true,
        _ => false,
    }
}

pub fn is_element_at(slots: &Slots, key: usize) -> bool
    ensures { result ≡ is_element (content_in (get slots.now key)) }
{
    match slots.kind(key) {
        Kind::Element => true,
        _ => false,
    }
}

/// Whether both are named, with the same namespace and local name.
pub fn has_same_name(slots: &Slots, first: usize, second: usize) -> bool
    ensures { result ≡ have_same_name (name_in (content_in (get slots.now first))) (name_in (content_in (get slots.now second))) }
{
    slots.has_same_name(first, second)
}

/// Whether the first node's name, as it is written, comes before the second's, by bytes.
pub fn is_less_at(slots: &Slots, first: usize, second: usize) -> bool
    ensures { result ≡ is_less (written_of (content_in (get slots.now first))) (written_of (content_in (get slots.now second))) }
{
    written_less(shown_at(slots, first), shown_at(slots, second))
}

/// What the node under a key is: a root where there is none.
pub fn shown_at(slots: &Slots, key: usize) -> Seen<'_>
    ensures { seen_content result ≡ content_in (get slots.now key) }
{
    match slots.seen(key) {
        Some(content) => content,
        None => Seen::Root,
    }
}

/// Whether it is an attribute, where one is wanted, or is none, where none is.
pub fn is_of_kind(slots: &Slots, key: usize, wanted: bool) -> bool
    ensures { result ≡ same_kind wanted (content_in (get slots.now key)) }
{
    if wanted {
        is_attribute_at(slots, key)
    } else {
        !is_attribute_at(slots, key)
    }
}

/// How many bytes a node's name and text have.
pub fn size_in(content: Seen<'_>) -> u128
    ensures answer { result ≡ size_of (seen_content content.entry) }
    ensures small { size_of (seen_content content.entry) ≤ 2 ^ 66 }
{
    match content {
        Seen::Root => 0,
        Seen::Element(name) => name.prefix.len() as u128 + name.meaning.local.len() as u128,
        Seen::Attribute(name, text) => name.prefix.len() as u128
            + name.meaning.local.len() as u128
            + text.len() as u128,
        Seen::Text(text) => text.len() as u128,
    }
}

/// The bytes of a node's name and text.
pub fn size_at(slots: &Slots, key: usize) -> u128
    ensures answer { result ≡ size_of (content_in (get slots.now key)) }
    ensures small { result ≤ 2 ^ 66 }
{
    size_in(shown_at(slots, key))
}

/// Empties the slot of a node, which counts no more.
pub fn free_node(slots: &mut Slots, key: usize, total: &mut usize, size: &mut u128)
    ensures gone { Updates slots.old slots.new key None }
    ensures total { total.new ≡ total.old - cond (not (is_root (content_in (get slots.old key)))) 1 0 }
    ensures size { size.new ≡ size.old - size_of (content_in (get slots.old key)) }
{
    *size = size.saturating_sub(size_at(slots, key));
    if !is_root_at(slots, key) {
        *total = total.saturating_sub(1);
    }
    slots.remove(key);
}

/// Empties the slots of kept texts.
pub fn free_kept(slots: &mut Slots, keys: &[usize])
    ensures rest { KeepsButKept slots.old slots.new (map (kept_of slots.old) keys.now) }
    ensures less { (key : ℕ) → size_of (content_in (get slots.new key)) ≤ size_of (content_in (get slots.old key)) }
{
    for key in keys {
        let mut total = 0;
        let mut size = 0;
        free_node(slots, *key, &mut total, &mut size);
    }
}

/// A copy of a content.
pub fn duplicate(alloc: Global, content: Seen<'_>) -> Result<Content, AllocError>
    ensures { IfOk result (λ copy. copy ≡ seen_content content.entry) }
{
    Ok(match content {
        Seen::Root => Content::Root,
        Seen::Element(name) => Content::Element(duplicate_name(alloc, name)?),
        Seen::Attribute(name, text) => {
            let name = duplicate_name(alloc, name)?;
            Content::Attribute(name, Word::from_str(alloc, text)?)
        }
        Seen::Text(text) => Content::Text(Word::from_str(alloc, text)?),
    })
}

fn duplicate_name(alloc: Global, name: &Name) -> Result<Name, AllocError>
    ensures { IfOk result (λ copy. copy ≡ name.now) }
{
    let meaning = duplicate_meaning(alloc, &name.meaning)?;
    let prefix = Word::from_str(alloc, name.prefix.as_str())?;
    Ok(Name { meaning, prefix })
}

/// A copy of a resolved name.
pub fn duplicate_meaning(alloc: Global, meaning: &QName) -> Result<QName, AllocError>
    ensures { IfOk result (λ copy. copy ≡ meaning.now) }
{
    Ok(QName {
        space: meaning.space,
        prefix: meaning.prefix,
        local: Word::from_str(alloc, meaning.local.as_str())?,
    })
}
