//! Trees as tests write them, in parts, and as they are printed.
use std::alloc::{AllocError, Global};
use std::string::ToString;
use xf_base::Items;
use xf_def_forest::NodeId;
use xf_name::{Lit, LitElement, Pair, Word};
use xf_tree::Forest;

/// A part of a tree: an element begins, has an attribute, has a text, or ends.
#[derive(Clone, Copy)]
pub enum Part<'a> {
    Open(&'a str),
    With(&'a str, &'a str),
    Text(&'a str),
    Close,
}

/// The tree of these parts, which begin with an element.
pub fn tree(alloc: Global, parts: &[Part]) -> Result<Lit, AllocError> {
    let mut begun = Vec::new(alloc);
    for part in parts {
        add(alloc, &mut begun, *part)?;
    }
    match begun.pop() {
        Some(top) => Ok(Lit::Element(top)),
        None => Ok(Lit::Text(Word::new(alloc))),
    }
}

/// Adds a part to the elements that have begun. The first of them stays when it has ended.
fn add(alloc: Global, begun: &mut Vec<LitElement>, part: Part) -> Result<(), AllocError> {
    match part {
        Part::Open(name) => begin(begun, element(alloc, name)?),
        Part::With(name, text) => add_attribute(begun, pair(alloc, name, text)?),
        Part::Text(text) => hang(begun, Lit::Text(Word::from_str(alloc, text)?)),
        Part::Close => close(begun),
    }
}

fn element(alloc: Global, name: &str) -> Result<LitElement, AllocError> {
    Ok(LitElement {
        name: Word::from_str(alloc, name)?,
        attributes: Items::new(alloc),
        children: Items::new(alloc),
    })
}

fn pair(alloc: Global, name: &str, text: &str) -> Result<Pair, AllocError> {
    let name = Word::from_str(alloc, name)?;
    let text = Word::from_str(alloc, text)?;
    Ok(Pair { name, text })
}

fn begin(begun: &mut Vec<LitElement>, element: LitElement) -> Result<(), AllocError> {
    begun.push(element)?;
    Ok(())
}

fn add_attribute(begun: &mut Vec<LitElement>, pair: Pair) -> Result<(), AllocError> {
    match begun.last_mut() {
        Some(last) => last.attributes.push(pair),
        None => Ok(()),
    }
}

fn close(begun: &mut Vec<LitElement>) -> Result<(), AllocError> {
    if begun.len() < 2 {
        return Ok(());
    }
    match begun.pop() {
        Some(last) => hang(begun, Lit::Element(last)),
        None => Ok(()),
    }
}

/// Hangs a tree below the element that began last.
fn hang(begun: &mut Vec<LitElement>, lit: Lit) -> Result<(), AllocError> {
    match begun.last_mut() {
        Some(above) => above.children.push(lit),
        None => Ok(()),
    }
}

/// Pushes texts, one behind another.
pub fn push_all(words: &mut String, texts: &[&str]) -> Result<(), AllocError> {
    for text in texts {
        words.push_str(text)?;
    }
    Ok(())
}

pub fn push_number(alloc: Global, words: &mut String, number: u128) -> Result<(), AllocError> {
    let digits = number.to_string(alloc)?;
    words.push_str(digits.as_str())
}

/// An equals sign and the string value of a node that stands, and then a text.
pub fn push_value(
    words: &mut String,
    forest: &Forest,
    node: NodeId,
    behind: &str,
) -> Result<(), AllocError> {
    if !forest.is_live(node) {
        return Ok(());
    }
    match forest.string_value(node, 99)? {
        Some(text) => push_all(words, &["=", text.as_str(), behind]),
        None => push_all(words, &["=", behind]),
    }
}

/// Pushes a tree as it is printed, texts in quotes: `<name name="text">"text"</>`.
#[cycle(writing)]
pub fn push_tree(words: &mut String, tree: &Lit) -> Result<(), AllocError> {
    match tree {
        Lit::Text(text) => push_all(words, &["\"", text.as_str(), "\""]),
        Lit::Element(element) => push_element(words, element),
    }
}

#[cycle(writing)]
fn push_element(words: &mut String, element: &LitElement) -> Result<(), AllocError> {
    push_beginning(words, element)?;
    for child in element.children.as_slice() {
        push_tree(words, child)?;
    }
    words.push_str("</>")
}

fn push_beginning(words: &mut String, element: &LitElement) -> Result<(), AllocError> {
    push_all(words, &["<", element.name.as_str()])?;
    for pair in element.attributes.as_slice() {
        push_attribute(words, pair)?;
    }
    words.push_str(">")
}

fn push_attribute(words: &mut String, pair: &Pair) -> Result<(), AllocError> {
    push_all(
        words,
        &[" ", pair.name.as_str(), "=\"", pair.text.as_str(), "\""],
    )
}
