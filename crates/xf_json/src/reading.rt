//! Reading a literal tree.

ghost use Rattle.std.specs.Prelude.{◌≡◌, ◌++◌, [], ◌∷◌, Ok, OnOk, option_map, option_and_then};
ghost use Rattle.serde_json.specs.View.{items_view, members_view};
ghost use Rattle.serde_json.specs.Find.{get_item, as_str, as_object};
ghost use Rattle.xf_base.specs.Gives.{Gives};
ghost use Rattle.xf_name.specs.declared.lit.Lit.TheVariants.{Element};
ghost use Rattle.xf_json.specs.Element.{lit_in, value_in, element_in, attributes_in, after_text};
ghost use Rattle.xf_json.specs.Part.{GivesPart, GivesValue, GivesHead};

use crate::fault::JsonFault;
use serde_json::{Category, Map, Value};
use std::alloc::{AllocError, Global};
use xf_base::Items;
use xf_name::{Lit, LitElement, LitList, Pair, PairList, Word};

/// The literal tree that bytes spell. An empty text is dropped, and texts that stand side by side are joined.
pub fn read(alloc: Global, bytes: &[u8]) -> Result<Lit, JsonFault>
    ensures { Gives JsonFault.Memory (λ lit. lit) result (lit_in bytes.now) }
{
    match value_of(alloc, bytes)? {
        Value::Array(items) => Ok(Lit::Element(element(alloc, &items)?)),
        _ => Err(JsonFault::NotElement),
    }
}

/// The value that bytes spell as JSON. `NotElement` does not come.
pub fn value_of(alloc: Global, bytes: &[u8]) -> Result<Value, JsonFault>
    ensures { GivesValue result (value_in bytes.now) }
{
    match Value::from_slice(alloc, bytes) {
        Ok(value) => Ok(value),
        Err(e) => match e.classify() {
            Category::Memory => Err(JsonFault::Memory),
            _ => Err(JsonFault::NotJson),
        },
    }
}

fn element(alloc: Global, items: &[Value]) -> Result<LitElement, JsonFault>
    ensures { GivesPart result (element_in (items_view items.now)) }
{
    let Head {
        name,
        attributes,
        from,
    } = head_of(alloc, items)?;
    // Room for each item: no more children come, and most lists then have no room left over.
    let mut children = Items::from_vec(Vec::with_capacity(
        alloc,
        items.len().saturating_sub(from),
    )?);
    let mut text = Word::new(alloc);
    for i in from..items.len() {
        match &items[i] {
            Value::String(more) => {
                text.push_str(more.as_str())?;
                continue;
            }
            Value::Array(inner) => {
                let child = match element(alloc, inner) {
                    Ok(child) => child,
                    Err(fault) => return Err(fault),
                };
                push_child(&mut children, text, child)?;
                text = Word::new(alloc);
                continue;
            }
            Value::Null | Value::Bool(_) | Value::Number(_) | Value::Object(_) => {
                return Err(JsonFault::NotElement);
            }
        }
    }
    push_text(&mut children, text)?;
    Ok(LitElement {
        name,
        attributes,
        children,
    })
}

// An element's name and attributes, and the place where its children begin.
#[derive(Drop)]
struct Head {
    name: Word,
    attributes: PairList,
    from: usize,
}

fn head_of(alloc: Global, items: &[Value]) -> Result<Head, JsonFault>
    ensures { GivesHead result (items_view items.now) }
{
    let Some(name) = str_at(items, 0) else {
        return Err(JsonFault::NotElement);
    };
    let name = Word::from_str(alloc, name)?;
    match object_at(items, 1) {
        Some(members) => Ok(Head {
            name,
            attributes: attributes_of(alloc, members)?,
            from: 2,
        }),
        None => Ok(Head {
            name,
            attributes: Items::new(alloc),
            from: 1,
        }),
    }
}

// The text that stands at a place.
fn str_at(items: &[Value], i: usize) -> Option<&str>
    ensures { option_map (λ s. s.now) result ≡ option_and_then as_str (get_item i (items_view items.now)) }
{
    if i < items.len() {
        items[i].as_str()
    } else {
        None
    }
}

// The object that stands at a place.
fn object_at(items: &[Value], i: usize) -> Option<&Map<String, Value>>
    ensures { option_map (λ m. members_view m.now.entries) result ≡ option_and_then as_object (get_item i (items_view items.now)) }
{
    if i < items.len() {
        items[i].as_object()
    } else {
        None
    }
}

// An object's members as attributes.
fn attributes_of(alloc: Global, members: &Map<String, Value>) -> Result<PairList, JsonFault>
    ensures { GivesPart result (attributes_in (members_view members.now.entries)) }
{
    let mut attributes = Items::from_vec(Vec::with_capacity(alloc, members.len())?);
    for (name, value) in members {
        match value {
            Value::String(text) => attributes.push(Pair {
                name: Word::from_str(alloc, name.as_str())?,
                text: Word::from_str(alloc, text.as_str())?,
            })?,
            Value::Null | Value::Bool(_) | Value::Number(_) | Value::Array(_) | Value::Object(_) =>
                return Err(JsonFault::NotElement),
        }
    }
    Ok(attributes)
}

// A text that is not empty goes behind the trees.
fn push_text(children: &mut LitList, text: Word) -> Result<(), AllocError>
    ensures { OnOk result (children.new ≡ children.old ++ after_text text []) }
{
    if !text.is_empty() {
        children.push(Lit::Text(text))?;
    }
    Ok(())
}

// A text that is not empty, and then an element, go behind the trees.
fn push_child(children: &mut LitList, text: Word, child: LitElement) -> Result<(), AllocError>
    ensures { OnOk result (children.new ≡ children.old ++ after_text text [] ++ Element child ∷ []) }
{
    push_text(children, text)?;
    children.push(Lit::Element(child))?;
    Ok(())
}
