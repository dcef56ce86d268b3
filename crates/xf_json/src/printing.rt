//! Printing a literal tree.

ghost use Rattle.std.specs.Prelude.{◌≡◌, ◌++◌, ◌∷◌, [], IfOk, OnOk};
ghost use Rattle.json.specs.Token.{end_object};
ghost use Rattle.xf_json.specs.Element.{lit_in};
ghost use Rattle.xf_json.specs.Plain.{IsPlain};
ghost use Rattle.xf_json.specs.Printed.{text_of, are_rising};
ghost use Rattle.xf_json.specs.Tokens.{tokens_of, tokens_of_element, tokens_of_children, tokens_of_object, tokens_of_pairs, tokens_in_order};

use json::Writer;
use std::alloc::{AllocError, Global};
use std::collections::BTreeMap;
use xf_io::Bytes;
use xf_name::{Lit, LitElement, Pair};

/// The JSON text of a tree, without blanks. The attributes of an element stand in the order of the bytes of their written names.
pub fn print(alloc: Global, lit: &Lit) -> Result<Bytes, AllocError>
    ensures text { IfOk result (λ bytes. bytes ≡ text_of lit.now) }
    ensures reads_back { IfOk result (λ bytes. IsPlain lit.now → lit_in bytes ≡ Ok lit.now) }
{
    let mut out = Writer::new(Vec::new(alloc));
    write(alloc, lit, &mut out)?;
    Ok(Bytes::from_vec(out.into_inner()))
}

#[cycle(write)]
fn write(alloc: Global, lit: &Lit, out: &mut Writer) -> Result<(), AllocError>
    ensures ok { OnOk result (out.new.tokens ≡ out.old.tokens ++ tokens_of lit.now) }
    ensures before { out.new.before ≡ out.old.before }
{
    match lit {
        Lit::Text(text) => out.string(text.as_str()),
        Lit::Element(element) => write_element(alloc, element, out),
    }
}

#[cycle(write)]
fn write_element(alloc: Global, element: &LitElement, out: &mut Writer) -> Result<(), AllocError>
    ensures ok { OnOk result (out.new.tokens ≡ out.old.tokens ++ tokens_of_element element.now) }
    ensures before { out.new.before ≡ out.old.before }
{
    out.begin_array()?;
    out.string(element.name.as_str())?;
    write_object(alloc, element.attributes.as_slice(), out)?;
    write_children(alloc, element.children.as_slice(), out)?;
    out.end_array()
}

#[cycle(write)]
fn write_children(alloc: Global, children: &[Lit], out: &mut Writer) -> Result<(), AllocError>
    ensures ok { OnOk result (out.new.tokens ≡ out.old.tokens ++ tokens_of_children children.now) }
    ensures before { out.new.before ≡ out.old.before }
{
    for child in children {
        write(alloc, child, out)?;
    }
    Ok(())
}

// The attributes as an object, where there are some.
fn write_object(alloc: Global, attributes: &[Pair], out: &mut Writer) -> Result<(), AllocError>
    ensures ok { OnOk result (out.new.tokens ≡ out.old.tokens ++ tokens_of_object attributes.now) }
    ensures before { out.new.before ≡ out.old.before }
{
    if attributes.is_empty() {
        return Ok(());
    }
    out.begin_object()?;
    write_members(alloc, attributes, out)?;
    out.end_object()
}

// The attributes as members, which mostly stand in order already.
fn write_members(alloc: Global, attributes: &[Pair], out: &mut Writer) -> Result<(), AllocError>
    ensures ok { OnOk result (out.new.tokens ++ end_object ∷ [] ≡ out.old.tokens ++ tokens_of_pairs attributes.now) }
    ensures before { out.new.before ≡ out.old.before }
{
    if is_in_order(attributes) {
        return write_in_order(attributes, out);
    }
    write_sorted(alloc, attributes, out)
}

// Whether the names rise by their bytes.
fn is_in_order(attributes: &[Pair]) -> bool
    ensures { result ≡ are_rising attributes.now }
{
    let [first, rest @ ..] = attributes else {
        return true;
    };
    let mut last = first;
    for pair in rest {
        if last.name.as_str() >= pair.name.as_str() {
            return false;
        }
        last = pair;
    }
    true
}

fn write_in_order(attributes: &[Pair], out: &mut Writer) -> Result<(), AllocError>
    ensures ok { OnOk result (out.new.tokens ≡ out.old.tokens ++ tokens_in_order attributes.now) }
    ensures before { out.new.before ≡ out.old.before }
{
    for pair in attributes {
        out.key(pair.name.as_str())?;
        out.string(pair.text.as_str())?;
    }
    Ok(())
}

fn write_sorted(alloc: Global, attributes: &[Pair], out: &mut Writer) -> Result<(), AllocError>
    ensures ok { OnOk result (out.new.tokens ++ end_object ∷ [] ≡ out.old.tokens ++ tokens_of_pairs attributes.now) }
    ensures before { out.new.before ≡ out.old.before }
{
    let mut sorted = BTreeMap::new(alloc);
    for pair in attributes {
        sorted.insert(pair.name.as_str(), pair.text.as_str())?;
    }
    for (name, text) in &sorted {
        out.key(name)?;
        out.string(text)?;
    }
    Ok(())
}
