//! Writing a snapshot.
ghost use Rattle.std.specs.Prelude.{◌≡◌, ◌≤◌, ◌<◌, ◌*◌, ◌^◌, ◌++◌, true, Some, length, sum_by, IfOk, OnOk, nat_lt};
ghost use Rattle.xf_base.specs.Limits.{node_limit, depth_limit};
ghost use Rattle.std.specs.List.{flat_map, list_all};
ghost use Rattle.std.specs.Str.{is_utf8};
ghost use Rattle.xf_snap.specs.Numbers.{two, four};
ghost use Rattle.xf_snap.specs.Spelling.{text_bytes, name_bytes, attribute_bytes, tree_bytes, element_bytes, bytes_of};
ghost use Rattle.xf_snap.specs.Within.{is_fit, is_fit_part, is_fit_name, is_fit_attribute, is_typed, is_typed_part, is_typed_name, is_typed_attribute, tree_nodes, element_nodes, IsTyped, IsWithin};
ghost use Rattle.xf_snap.specs.Reading.{snap_in};

use crate::number::{eight, four, two};
use crate::{CountList, Snap};
use std::alloc::{AllocError, Global};
use xf_base::limits::DEPTH_LIMIT;
use xf_def_forest::{Bare, BareAttribute, BareElement};
use xf_io::Bytes;
use xf_name::{QName, Word};

/// The bytes of a snapshot.
pub fn encode(alloc: Global, snap: &Snap) -> Result<Bytes, AllocError>
    requires { IsWithin snap.now }
    ensures bytes { IfOk result (λ bytes. bytes ≡ bytes_of snap.now) }
    ensures again { IfOk result (λ bytes. snap_in bytes ≡ Some snap.now) }
    ensures most { IfOk result (λ bytes. length bytes ≤ 12 * 2 ^ 20) }
{
    let bytes = spelled(alloc, snap)?;
    Ok(bytes)
}

/// The bytes of a snapshot, one part behind the other.
fn spelled(alloc: Global, snap: &Snap) -> Result<Bytes, AllocError>
    requires { IsWithin snap.now }
    ensures bytes { IfOk result (λ bytes. bytes ≡ bytes_of snap.now) }
    ensures typed { IfOk result (λ bytes. IsTyped snap.now) }
{
    let mut bytes = Vec::new(alloc);
    bytes.extend_from_slice(&eight(snap.accepted))?;
    put_documents(&mut bytes, snap.documents.as_slice())?;
    put_indexes(&mut bytes, &snap.indexes)?;
    put_cases(&mut bytes, &snap.cases)?;
    Ok(Bytes::from_vec(bytes))
}

/// Adds the number of the documents, and each in turn.
fn put_documents(bytes: &mut Vec<u8>, documents: &[Bare]) -> Result<(), AllocError>
    requires few { length documents.now < 2 ^ 16 }
    requires fit { list_all (λ tree. is_fit tree depth_limit) documents.now ≡ true }
    requires nodes { sum_by tree_nodes documents.now ≤ node_limit }
    ensures put { OnOk result (bytes.new.items ≡ bytes.old.items ++ (two (length documents.now) ++ flat_map tree_bytes documents.now)) }
    ensures typed { OnOk result (list_all is_typed documents.now ≡ true) }
{
    bytes.extend_from_slice(&two(documents.len() as u16))?;
    for tree in documents {
        put_tree(bytes, tree, DEPTH_LIMIT)?;
    }
    Ok(())
}

/// Adds the number of the indexes, and each in turn.
fn put_indexes(bytes: &mut Vec<u8>, indexes: &CountList) -> Result<(), AllocError>
    requires { length indexes.now < 2 ^ 16 }
    ensures put { OnOk result (bytes.new.items ≡ bytes.old.items ++ (two (length indexes.now) ++ flat_map four indexes.now)) }
    ensures typed { OnOk result (list_all (λ index. nat_lt index (2 ^ 32)) indexes.now ≡ true) }
{
    bytes.extend_from_slice(&two(indexes.len() as u16))?;
    for index in indexes.as_slice() {
        bytes.extend_from_slice(&four(*index))?;
    }
    Ok(())
}

/// Adds the number of the cases, and each in turn.
fn put_cases(bytes: &mut Vec<u8>, cases: &CountList) -> Result<(), AllocError>
    requires few { length cases.now < 2 ^ 16 }
    requires small { list_all (λ place. nat_lt place (2 ^ 16)) cases.now ≡ true }
    ensures { OnOk result (bytes.new.items ≡ bytes.old.items ++ (two (length cases.now) ++ flat_map two cases.now)) }
{
    bytes.extend_from_slice(&two(cases.len() as u16))?;
    for place in cases.as_slice() {
        bytes.extend_from_slice(&two(*place as u16))?;
    }
    Ok(())
}

/// Adds a tree that is at most so many elements deep.
#[cycle(put)]
fn put_tree(bytes: &mut Vec<u8>, tree: &Bare, depth: u32) -> Result<(), AllocError>
    requires fit { is_fit tree.now depth ≡ true }
    requires nodes { tree_nodes tree.now ≤ node_limit }
    ensures put { OnOk result (bytes.new.items ≡ bytes.old.items ++ tree_bytes tree.now) }
    ensures typed { OnOk result (is_typed tree.now ≡ true) }
{
    match tree {
        Bare::Text(text) => {
            bytes.push(1)?;
            put_text(bytes, text)
        }
        Bare::Element(element) => {
            bytes.push(0)?;
            put_element(bytes, element, depth)
        }
    }
}

/// Adds an element that is at most so many elements deep.
#[cycle(put)]
fn put_element(bytes: &mut Vec<u8>, element: &BareElement, depth: u32) -> Result<(), AllocError>
    requires fit { is_fit_part element.now depth ≡ true }
    requires nodes { element_nodes element.now ≤ node_limit }
    ensures put { OnOk result (bytes.new.items ≡ bytes.old.items ++ element_bytes element.now) }
    ensures typed { OnOk result (is_typed_part element.now ≡ true) }
{
    put_name(bytes, &element.name)?;
    put_attributes(bytes, element.attributes.as_slice())?;
    bytes.extend_from_slice(&four(element.children.len() as u32))?;
    for child in element.children.as_slice() {
        put_tree(bytes, child, depth - 1)?;
    }
    Ok(())
}

/// Adds the number of the attributes, and each in turn.
fn put_attributes(bytes: &mut Vec<u8>, attributes: &[BareAttribute]) -> Result<(), AllocError>
    requires few { length attributes.now < 2 ^ 16 }
    requires fit { list_all is_fit_attribute attributes.now ≡ true }
    ensures put { OnOk result (bytes.new.items ≡ bytes.old.items ++ (two (length attributes.now) ++ flat_map attribute_bytes attributes.now)) }
    ensures typed { OnOk result (list_all is_typed_attribute attributes.now ≡ true) }
{
    bytes.extend_from_slice(&two(attributes.len() as u16))?;
    for attribute in attributes {
        put_attribute(bytes, attribute)?;
    }
    Ok(())
}

/// Adds an attribute: its name and its text.
fn put_attribute(bytes: &mut Vec<u8>, attribute: &BareAttribute) -> Result<(), AllocError>
    requires { is_fit_attribute attribute.now ≡ true }
    ensures put { OnOk result (bytes.new.items ≡ bytes.old.items ++ attribute_bytes attribute.now) }
    ensures typed { OnOk result (is_typed_attribute attribute.now ≡ true) }
{
    put_name(bytes, &attribute.name)?;
    put_text(bytes, &attribute.text)
}

/// Adds a name: its namespace, its prefix, and its local part behind its length.
fn put_name(bytes: &mut Vec<u8>, name: &QName) -> Result<(), AllocError>
    requires { is_fit_name name.now ≡ true }
    ensures put { OnOk result (bytes.new.items ≡ bytes.old.items ++ name_bytes name.now) }
    ensures typed { OnOk result (is_typed_name name.now ≡ true) }
{
    let local = name.local.as_str();
    bytes.extend_from_slice(&two(name.space))?;
    bytes.extend_from_slice(&two(name.prefix))?;
    bytes.push(local.len() as u8)?;
    bytes.extend_from_slice(local.as_bytes())?;
    Ok(())
}

/// Adds a text behind its length.
fn put_text(bytes: &mut Vec<u8>, text: &Word) -> Result<(), AllocError>
    requires { length text.now ≤ node_limit }
    ensures put { OnOk result (bytes.new.items ≡ bytes.old.items ++ text_bytes text.now) }
    ensures typed { OnOk result (is_utf8 text.now ≡ true) }
{
    let text = text.as_str();
    bytes.extend_from_slice(&four(text.len() as u32))?;
    bytes.extend_from_slice(text.as_bytes())?;
    Ok(())
}
