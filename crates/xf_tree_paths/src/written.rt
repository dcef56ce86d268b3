//! Names as they are written, and how often each is there.
ghost use Rattle.std.specs.Prelude.{◌≡◌, ◌+◌, ◌<◌, ◌^◌, ◌++◌, ℕ, List, IfOk, OnOk, string_bytes, if◌then◌else◌};
ghost use Rattle.std.specs.Str.{bytes_eq};
ghost use Rattle.xf_def_forest.specs.Forest.{written};
ghost use Rattle.xf_tree_paths.specs.Family.{index_text, step_with, tallied};
ghost use Rattle.xf_tree_contents.specs.Seen.{seen_content};

use itoa::Buffer;
use std::alloc::{AllocError, Global};
use std::collections::HashMap;
use xf_def_forest::Name;
use xf_tree::Seen;

/// Room for what a path has for an element, if its name is not long: memory is taken once then.
const STEP: usize = 32;

/// How often each name is there.
pub type Tally = HashMap<String, usize>;

/// A name as it is written.
pub fn written(alloc: Global, name: &Name) -> Result<String, AllocError>
    ensures { IfOk result (λ text. string_bytes text ≡ written name.now) }
{
    let mut text = String::new(alloc);
    push_name(&mut text, name)?;
    Ok(text)
}

/// Appends a name as it is written.
fn push_name(text: &mut String, name: &Name) -> Result<(), AllocError>
    ensures { OnOk result (string_bytes text.new ≡ string_bytes text.old ++ written name.now) }
{
    if !name.prefix.is_empty() {
        text.push_str(name.prefix.as_str())?;
        text.push(':')?;
    }
    text.push_str(name.meaning.local.as_str())
}

/// Appends what a path has for a node, with this in brackets.
pub fn push_step(
    text: &mut String,
    content: Seen<'_>,
    index: Option<usize>,
) -> Result<(), AllocError>
    ensures { OnOk result (string_bytes text.new ≡ string_bytes text.old ++ step_with (seen_content content.entry) (index_text index)) }
{
    match content {
        Seen::Root => Ok(()),
        Seen::Element(name) => {
            text.push('/')?;
            push_name(text, name)?;
            push_index(text, index)
        }
        Seen::Attribute(name, _) => {
            text.push_str("/@")?;
            push_name(text, name)
        }
        Seen::Text(_) => {
            text.push_str("/text()")?;
            push_index(text, index)
        }
    }
}

/// A path with what it has for a node below.
pub fn joined(
    alloc: Global,
    stem: &str,
    content: Seen<'_>,
    index: Option<usize>,
) -> Result<String, AllocError>
    ensures { IfOk result (λ text. string_bytes text ≡ stem.now ++ step_with (seen_content content.entry) (index_text index)) }
{
    let mut text = String::with_capacity(alloc, stem.len().saturating_add(STEP))?;
    text.push_str(stem)?;
    push_step(&mut text, content, index)?;
    Ok(text)
}

/// Appends an index in brackets, where there is one.
fn push_index(text: &mut String, index: Option<usize>) -> Result<(), AllocError>
    ensures { OnOk result (string_bytes text.new ≡ string_bytes text.old ++ index_text index) }
{
    let Some(index) = index else {
        return Ok(());
    };
    let mut buffer = Buffer::new();
    text.push('[')?;
    text.push_str(buffer.format(index))?;
    text.push(']')?;
    Ok(())
}

/// How often a name is there.
pub fn tallied(tally: &Tally, name: &str) -> usize
    ensures { result ≡ tallied tally.now name.now }
{
    tally.get(name).copied().unwrap_or(0)
}

/// Counts a name once more, and tells how often it is there then. Memory is taken for one that comes first.
pub fn add(alloc: Global, tally: &mut Tally, name: &str) -> Result<usize, AllocError>
    requires { tallied tally.old name.now + 1 < 2 ^ 64 }
    ensures count { IfOk result (λ count. count ≡ tallied tally.old name.now + 1) }
    ensures tally { OnOk result ((w : List ℕ) → tallied tally.new w ≡ (if bytes_eq w name.now then 1 else 0) + tallied tally.old w) }
{
    match tally.get_mut(name) {
        Some(count) => {
            *count += 1;
            Ok(*count)
        }
        None => add_first(alloc, tally, name),
    }
}

/// Counts a name that was not there.
fn add_first(alloc: Global, tally: &mut Tally, name: &str) -> Result<usize, AllocError>
    requires { tallied tally.old name.now ≡ 0 }
    ensures count { IfOk result (λ count. count ≡ 1) }
    ensures tally { OnOk result ((w : List ℕ) → tallied tally.new w ≡ (if bytes_eq w name.now then 1 else 0) + tallied tally.old w) }
{
    let name = String::from_str(alloc, name)?;
    tally.insert(name, 1)?;
    Ok(1)
}

/// Counts a name as it is written. One without a prefix is written as it stands in memory.
pub fn add_name(alloc: Global, tally: &mut Tally, name: &Name) -> Result<(), AllocError>
    requires { tallied tally.old (written name.now) + 1 < 2 ^ 64 }
    ensures { OnOk result ((w : List ℕ) → tallied tally.new w ≡ (if bytes_eq w (written name.now) then 1 else 0) + tallied tally.old w) }
{
    if name.prefix.is_empty() {
        add(alloc, tally, name.meaning.local.as_str())?;
        return Ok(());
    }
    let text = written(alloc, name)?;
    add(alloc, tally, text.as_str())?;
    Ok(())
}
