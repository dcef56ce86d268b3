//! Names of nodes, and their order by the bytes of what is written.
ghost use Rattle.std.specs.Prelude.{◌≡◌, IfOk, length, slice_get};
ghost use Rattle.std.specs.Str.{bytes_eq};
ghost use Rattle.xf_def_forest.specs.Forest.{written};
ghost use Rattle.xf_def_forest.specs.Plant.{is_less, name_for, no_name, written_of};
ghost use Rattle.xf_tree_contents.specs.Seen.{seen_content};

use crate::seen::Seen;
use std::alloc::{AllocError, Global};
use xf_def_forest::Name;
use xf_name::{Prefixes, QName, Word};

/// A resolved name with its prefix as it is written.
pub fn name_for(alloc: Global, prefixes: &Prefixes, meaning: QName) -> Result<Name, AllocError>
    ensures { IfOk result (λ name. name ≡ name_for prefixes.now meaning) }
{
    let prefix = match prefixes.prefix_text(meaning.prefix) {
        Some(text) => Word::from_str(alloc, text)?,
        None => Word::new(alloc),
    };
    Ok(Name { meaning, prefix })
}

/// The name of what has none.
pub fn no_name(alloc: Global, prefixes: &Prefixes) -> Result<Name, AllocError>
    ensures { IfOk result (λ name. name ≡ name_for prefixes.now no_name) }
{
    let meaning = QName {
        space: 0,
        prefix: 0,
        local: Word::new(alloc),
    };
    name_for(alloc, prefixes, meaning)
}

/// Whether the first node's name, as it is written, comes before the second's, by bytes.
pub fn written_less(first: Seen<'_>, second: Seen<'_>) -> bool
    ensures { result ≡ is_less (written_of (seen_content first.entry)) (written_of (seen_content second.entry)) }
{
    for at in 0..written_len(second) {
        let Some(other) = written_byte(second, at) else {
            return false;
        };
        let Some(one) = written_byte(first, at) else {
            return true;
        };
        if one != other {
            return one < other;
        }
    }
    false
}

/// Whether the names of both are written alike: neither comes before the other.
pub fn same_written(first: Seen<'_>, second: Seen<'_>) -> bool
    ensures { result ≡ bytes_eq (written_of (seen_content first.entry)) (written_of (seen_content second.entry)) }
{
    !written_less(first, second) && !written_less(second, first)
}

fn written_len(content: Seen<'_>) -> usize
    ensures { result ≡ length (written_of (seen_content content.entry)) }
{
    match content {
        Seen::Element(name) => len_of(name),
        Seen::Attribute(name, _) => len_of(name),
        _ => 0,
    }
}

fn len_of(name: &Name) -> usize
    ensures { result ≡ length (written name.now) }
{
    let prefix = name.prefix.as_bytes();
    let local = name.meaning.local.as_bytes();
    if prefix.is_empty() {
        return local.len();
    }
    prefix.len() + 1 + local.len()
}

fn written_byte(content: Seen<'_>, at: usize) -> Option<u8>
    ensures { result ≡ slice_get (written_of (seen_content content.entry)) at }
{
    match content {
        Seen::Element(name) => byte_of(name, at),
        Seen::Attribute(name, _) => byte_of(name, at),
        _ => None,
    }
}

/// The byte at a place of a name as it is written.
fn byte_of(name: &Name, at: usize) -> Option<u8>
    ensures { result ≡ slice_get (written name.now) at }
{
    let prefix = name.prefix.as_bytes();
    let local = name.meaning.local.as_bytes();
    if prefix.is_empty() {
        return byte_in(local, at);
    }
    if at < prefix.len() {
        return byte_in(prefix, at);
    }
    if at == prefix.len() {
        return Some(b':');
    }
    byte_in(local, at - prefix.len() - 1)
}

#[inline(always)]
fn byte_in(bytes: &[u8], at: usize) -> Option<u8>
    ensures { result ≡ slice_get bytes.now at }
{
    bytes.get(at).copied()
}
