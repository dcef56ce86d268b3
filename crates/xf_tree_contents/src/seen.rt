//! Contents as they are looked at, without being moved.
ghost use Rattle.std.specs.Prelude.{◌≡◌};
ghost use Rattle.xf_def_forest.specs.Forest.{is_element, is_text};
ghost use Rattle.xf_tree_contents.specs.Seen.{seen_content};

use xf_def_forest::{Content, Name};

/// What a node is, with its name and its own text lent.
#[derive(Clone, Copy, Debug)]
pub enum Seen<'a> {
    Root,
    Element(&'a Name),
    Attribute(&'a Name, &'a str),
    Text(&'a str),
}

/// A content, lent.
pub fn lent(content: &Content) -> Seen<'_>
    ensures { seen_content result ≡ content.now }
{
    match content {
        Content::Root => Seen::Root,
        Content::Element(name) => Seen::Element(name),
        Content::Attribute(name, text) => Seen::Attribute(name, text.as_str()),
        Content::Text(text) => Seen::Text(text.as_str()),
    }
}

pub fn is_element(content: Seen<'_>) -> bool
    ensures { result ≡ is_element (seen_content content.entry) }
{
    match content {
        Seen::Element(_) => true,
        _ => false,
    }
}

pub fn is_text(content: Seen<'_>) -> bool
    ensures { result ≡ is_text (seen_content content.entry) }
{
    match content {
        Seen::Text(_) => true,
        _ => false,
    }
}
