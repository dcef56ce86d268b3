//! The calls of xf_types. `xs` stands for the namespace of XML Schema and `xf` for that of XForms; any other is itself.

use crate::calls::{Answer, told};
use std::alloc::Global;
use xf_name::Word;
use xf_types::{SimpleType, meets, named};

pub fn answer(alloc: Global, call: &str, given: &[Word]) -> Answer {
    let [space, local, rest @ ..] = given else {
        return Ok(None);
    };
    let kind = named(space_of(space.as_str()), local.as_str());
    match (call, rest) {
        ("named", []) => described(alloc, kind),
        ("meets", [text]) => match kind {
            Some(kind) => told(alloc, meets(&kind, text.as_str())),
            None => described(alloc, None),
        },
        _ => Ok(None),
    }
}

pub fn space_of(text: &str) -> &str {
    match text {
        "xs" => "http://www.w3.org/2001/XMLSchema",
        "xf" => "http://www.w3.org/2002/xforms",
        _ => text,
    }
}

/// The kind of a type, and ` or empty` where the empty text meets it too.
fn described(alloc: Global, kind: Option<SimpleType>) -> Answer {
    let Some(kind) = kind else {
        return Ok(Some(String::from_str(alloc, "none")?));
    };
    let name = kind.kind;
    let more = if kind.may_be_empty { " or empty" } else { "" };
    Ok(Some(format!(in alloc; "{name:?}{more}")?))
}
