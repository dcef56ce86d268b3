//! The nodes that are not valid (XForms 1.1, section 4.3.3).

ghost use Rattle.std.specs.Prelude.{◌≡◌, ◌<◌, ◌==◌, ◌&&◌, ◌++◌, ◌∷◌, [], if◌then◌else◌, length, false, IfOk, OnOk, OnErr, option_map, slice_get};
ghost use Rattle.std.specs.Bool.{OnFalse, OnTrue};
ghost use Rattle.xf_num.specs.Written.{is_empty};
ghost use Rattle.xf_schema.specs.Facets.{is_of_type};
ghost use Rattle.xf_def_values.specs.Functions.{Functions};
ghost use Rattle.xf_def_forest.specs.Changes.{root_of};
ghost use Rattle.xf_def_forest.specs.Forest.{IsLive};
ghost use Rattle.xf_def_forest.specs.StringValue.{string_value};
ghost use Rattle.xf_def_forest.specs.Visit.{visits};
ghost use Rattle.xf_def_xpath.specs.Binding.{as_list};
ghost use Rattle.xf_def_xpath.specs.Given.{Given};
ghost use Rattle.xf_def_model.specs.Properties.{meets_kind};
ghost use Rattle.xf_def_model.specs.Rules.{scope_of};
ghost use Rattle.xf_binds.specs.Held.{AreSingle, entry_of};
ghost use Rattle.xf_binds.specs.Table.{kept_at, with_kept};
ghost use Rattle.xf_valid.specs.Failed.{asks_any, can_fail, failed_among, failed_at, fails_told, is_under, kind_in, roots_from};
ghost use Rattle.xf_valid.specs.Invalid.{revalidated};

use crate::nodes::truth_or;
use std::alloc::{AllocError, Global};
use xf_binds::{Entry, NodeSet, Table};
use xf_def_forest::{NodeId, NodeList};
use xf_def_model::Property;
use xf_def_syntax::{Bind, Instance, Tables};
use xf_schema::{NamedType, is_of_type};
use xf_tree::Forest;

/// Finds the nodes of the model's instances that are not valid, and keeps them in the table. Whether they are those that were found before.
/// Takes no memory where no entry asks anything that a node can fail.
pub fn revalidate(
    alloc: Global,
    tables: &Tables,
    forest: &Forest,
    model: u32,
    table: &mut Table,
) -> Result<bool, AllocError>
    requires { model < length table.old }
    ensures same { IfOk result (λ same. OnTrue same ((kept_at table.new model).invalid ≡ (kept_at table.old model).invalid)) }
    ensures differs { IfOk result (λ same. OnFalse same ((kept_at table.new model).invalid ≡ (kept_at table.old model).invalid → ⊥)) }
    ensures ok { OnOk result ((functions : Functions) (given : Given)
        → table.new ≡ with_kept table.old model (revalidated tables.now.types (scope_of functions given tables.now model) tables.now.instances forest.now.forest.nodes (kept_at table.old model))) }
    ensures err { OnErr result (table.new ≡ table.old) }
{
    let is_asked = asks_any(table, model);
    if !is_asked {
        return Ok(table.set_invalid(model, NodeSet::new(alloc)));
    }
    forest.are_trees();
    let roots = roots_of(alloc, tables.instances.as_slice(), forest, model)?;
    let found = all_failed(alloc, tables, forest, model, table, &roots)?;
    let ordered = forest.in_order(&found)?;
    let invalid = NodeSet::of(alloc, ordered)?;
    Ok(table.set_invalid(model, invalid))
}

/// The nodes of entries that stand in an instance with one of these roots and are not valid.
fn all_failed(
    alloc: Global,
    tables: &Tables,
    forest: &Forest,
    model: u32,
    table: &Table,
    roots: &NodeSet,
) -> Result<NodeList, AllocError>
    ensures { IfOk result (λ found. (functions : Functions) (given : Given)
        → found ≡ failed_among tables.now.types (scope_of functions given tables.now model) forest.now.forest.nodes roots.now (kept_at table.now model) (kept_at table.now model).entries) }
{
    let mut found = NodeList::new(alloc);
    // No property of a node is set twice, so that what an entry says is what its node has.
    table.is_settled(model);
    let count = table.len(model);
    for at in 0..count {
        push_failed(alloc, &mut found, tables, forest, model, table, roots, at)?;
    }
    Ok(found)
}

/// Whether an entry of the model asks something that a node can fail.
fn asks_any(table: &Table, model: u32) -> bool
    ensures { result ≡ asks_any (kept_at table.now model).entries }
{
    table.sets_in(model, Property::Constraint)
        || table.sets_in(model, Property::Required)
        || table.sets_in(model, Property::Kind)
}

/// Adds the node of an entry, where it stands in an instance with one of these roots and does not meet the entry.
fn push_failed(
    alloc: Global,
    found: &mut NodeList,
    tables: &Tables,
    forest: &Forest,
    model: u32,
    table: &Table,
    roots: &NodeSet,
    at: usize,
) -> Result<(), AllocError>
    requires { AreSingle (kept_at table.now model).entries }
    ensures { OnOk result ((functions : Functions) (given : Given) → found.new ≡ found.old
        ++ failed_at tables.now.types (scope_of functions given tables.now model) forest.now.forest.nodes roots.now (kept_at table.now model) (slice_get (kept_at table.now model).entries at)) }
{
    let Some(entry) = table.entry(model, at) else {
        return Ok(());
    };
    let truth = table.truth_at(model, at);
    let failed = is_failed(alloc, tables, forest, roots, &entry, truth)?;
    push_where(found, failed, entry.node)
}

fn push_where(found: &mut NodeList, is_wanted: bool, node: NodeId) -> Result<(), AllocError>
    ensures { OnOk result (found.new ≡ found.old ++ (if is_wanted then node.number ∷ [] else [])) }
{
    if is_wanted {
        found.push(node)?;
    }
    Ok(())
}

/// Whether the node of an entry whose value has this truth stands in an instance with one of these roots and does not meet it.
fn is_failed(
    alloc: Global,
    tables: &Tables,
    forest: &Forest,
    roots: &NodeSet,
    entry: &Entry,
    truth: Option<bool>,
) -> Result<bool, AllocError>
    ensures { IfOk result (λ failed. failed
        ≡ (is_under forest.now.forest.nodes roots.now entry.now.node.number && fails_told tables.now.types tables.now.binds (entry_of entry.now) truth (string_value entry.now.node.number (visits forest.now.forest.nodes)))) }
{
    let can_fail = can_fail(entry.property, truth);
    if !can_fail {
        return Ok(false);
    }
    let stands = forest.is_live(entry.node);
    if !stands {
        return Ok(false);
    }
    let is_under = roots.has(forest.top(entry.node));
    if !is_under {
        return Ok(false);
    }
    fails(alloc, tables, forest, entry, truth)
}

/// Whether there is a string value with which a node may fail an entry of this property whose value has this truth.
fn can_fail(property: Property, truth: Option<bool>) -> bool
    ensures { result ≡ can_fail property truth }
{
    match property {
        Property::Kind => true,
        Property::Required => truth_or(truth, false),
        Property::Constraint => !truth_or(truth, true),
        Property::Calculate => false,
        Property::Relevant => false,
        Property::Readonly => false,
    }
}

/// Whether the node of an entry whose value has this truth does not meet it.
fn fails(
    alloc: Global,
    tables: &Tables,
    forest: &Forest,
    entry: &Entry,
    truth: Option<bool>,
) -> Result<bool, AllocError>
    requires { IsLive entry.now.node.number forest.now.forest }
    ensures { IfOk result (λ failed. failed ≡ fails_told tables.now.types tables.now.binds (entry_of entry.now) truth (string_value entry.now.node.number (visits forest.now.forest.nodes))) }
{
    match entry.property {
        Property::Kind => {
            let fits = is_of_kind(alloc, tables, forest, entry)?;
            Ok(!fits)
        }
        Property::Required => Ok(is_missing(truth_or(truth, false), forest, entry.node)),
        Property::Constraint => Ok(!truth_or(truth, true)),
        Property::Calculate => Ok(false),
        Property::Relevant => Ok(false),
        Property::Readonly => Ok(false),
    }
}

/// Whether a node is required and empty.
fn is_missing(is_required: bool, forest: &Forest, node: NodeId) -> bool
    requires { IsLive node.number forest.now.forest }
    ensures { result ≡ (is_required && is_empty (string_value node.number (visits forest.now.forest.nodes))) }
{
    is_required && is_empty(forest, node)
}

/// Whether the string value of a node meets the type that an entry gives.
fn is_of_kind(
    alloc: Global,
    tables: &Tables,
    forest: &Forest,
    entry: &Entry,
) -> Result<bool, AllocError>
    requires { IsLive entry.now.node.number forest.now.forest }
    ensures { IfOk result (λ met. met ≡ meets_kind (is_of_type tables.now.types) (kind_in tables.now.binds entry.now.bind) (string_value entry.now.node.number (visits forest.now.forest.nodes))) }
{
    match kind_in(tables.binds.as_slice(), entry.bind) {
        Some(named) => meets_at(alloc, tables, forest, named, entry.node),
        None => Ok(true),
    }
}

/// The roots of the model's instances.
fn roots_of(
    alloc: Global,
    instances: &[Instance],
    forest: &Forest,
    model: u32,
) -> Result<NodeSet, AllocError>
    ensures { IfOk result (λ roots. roots ≡ roots_from model forest.now.forest.nodes 0 instances.now) }
{
    let mut roots = NodeList::new(alloc);
    for place in 0..instances.len() {
        push_root(&mut roots, forest, &instances[place], model, place)?;
    }
    NodeSet::of(alloc, roots)
}

/// Adds the root of an instance of the model. One past those that 32 bits count is told as want of memory: no memory holds so many.
fn push_root(
    roots: &mut NodeList,
    forest: &Forest,
    instance: &Instance,
    model: u32,
    place: usize,
) -> Result<(), AllocError>
    ensures { OnOk result (roots.new ≡ roots.old ++ (if instance.now.model == model then as_list (root_of place forest.now.forest.nodes) else [])) }
{
    if instance.model != model {
        return Ok(());
    }
    if place > u32::MAX as usize {
        return Err(AllocError);
    }
    match forest.root(place as u32) {
        Some(root) => roots.push(root),
        None => Ok(()),
    }
}

/// The type that a bind gives.
fn kind_in(binds: &[Bind], bind: u32) -> Option<&NamedType>
    ensures { option_map (λ kind. kind.now) result ≡ kind_in binds.now bind }
{
    match binds.get(bind as usize) {
        Some(bind) => bind.properties.kind.as_ref(),
        None => None,
    }
}

/// Whether the string value of a node is empty.
fn is_empty(forest: &Forest, node: NodeId) -> bool
    requires { IsLive node.number forest.now.forest }
    ensures { result ≡ is_empty (string_value node.number (visits forest.now.forest.nodes)) }
{
    match forest.whole_value(node) {
        Some(text) => is_empty_text(text),
        None => false,
    }
}

fn is_empty_text(text: &str) -> bool
    ensures { result ≡ is_empty text.now }
{
    text.is_empty()
}

/// Whether the string value of a node meets a type that is named. One with more bytes than any memory has is told as want of memory.
fn meets_at(
    alloc: Global,
    tables: &Tables,
    forest: &Forest,
    named: &NamedType,
    node: NodeId,
) -> Result<bool, AllocError>
    requires { IsLive node.number forest.now.forest }
    ensures { IfOk result (λ met. met ≡ is_of_type tables.now.types named.now (string_value node.number (visits forest.now.forest.nodes))) }
{
    let types = tables.types.as_slice();
    if let Some(text) = forest.whole_value(node) {
        return is_of_type(alloc, types, named, text);
    }
    match forest.string_value(node, u32::MAX)? {
        Some(text) => is_of_type(alloc, types, named, text.as_str()),
        None => Err(AllocError),
    }
}
