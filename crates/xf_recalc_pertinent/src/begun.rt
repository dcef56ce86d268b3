//! The entries that a change concerns by itself.

ghost use Rattle.std.specs.Bool.{OnFalse};
ghost use Rattle.std.specs.Prelude.{◌≡◌, ◌==◌, ◌&&◌, ◌∷◌, ℕ, [], List, true, filter, length, map, option_map, IfOk};
ghost use Rattle.std.specs.List.{list_any};
ghost use Rattle.xf_def_forest.specs.Visit.{has};
ghost use Rattle.xf_def_model.specs.Rules.{Rule, rule_of};
ghost use Rattle.xf_def_model.specs.Applied.{is_property};
ghost use Rattle.xf_def_model.specs.Entries.{is_computed};
ghost use Rattle.xf_def_model.specs.Pertinent.{stands_as};
ghost use Rattle.xf_binds.specs.declared.web.Asks as web;
ghost use Rattle.xf_binds.specs.Held.{AreSingle, entry_of, place_on};
ghost use Rattle.xf_binds.specs.Kept.{entries_of};
ghost use Rattle.xf_binds.specs.Table.{kept_at, nodes_or};
ghost use Rattle.xf_binds_rebuild.specs.Found.{asks_or};
ghost use Rattle.xf_recalc_pertinent.specs.Begun.{AreBegun, AreCalculated, asking_with, is_begun_at};

use crate::marks::{MarkList, none_marked};
use crate::numbers::Numbers;
use crate::placed::is_placed;
use std::alloc::{AllocError, Global};
use xf_binds::{Asks, Entry, Table};
use xf_def_forest::{NodeId, NodeList};
use xf_def_model::Property;
use xf_def_syntax::Tables;

/// The marks of a change: the nodes with another text, and those at whose list one came or went.
#[derive(Drop)]
struct Marked {
    texts: Numbers,
    lists: Numbers,
}

/// Marks the entries that a change concerns by itself. The cost follows the change where it is one of texts alone.
pub(crate) fn begun(
    alloc: Global,
    tables: &Tables,
    table: &Table,
    model: u32,
) -> Result<MarkList, AllocError>
    ensures { IfOk result (AreBegun (map rule_of tables.now.binds) (kept_at table.now model)) }
{
    if table.is_settled(model) && !has_lists(table, model) {
        return begun_by_texts(alloc, table, model);
    }
    begun_by_each(alloc, tables, table, model)
}

/// Whether one came or went in a list.
fn has_lists(table: &Table, model: u32) -> bool
    ensures { OnFalse result ((kept_at table.now model).lists ≡ []) }
{
    match table.lists(model) {
        Some(lists) => !lists.is_empty(),
        None => false,
    }
}

/// The same, where texts alone changed: those entries begin that are the calculates of the nodes.
fn begun_by_texts(alloc: Global, table: &Table, model: u32) -> Result<MarkList, AllocError>
    requires settled { entries_of (kept_at table.now model).stood ≡ filter is_computed (kept_at table.now model).entries }
    requires single { AreSingle (kept_at table.now model).entries }
    requires lists { (kept_at table.now model).lists ≡ [] }
    ensures { (rules : List Rule) → IfOk result (AreBegun rules (kept_at table.now model)) }
{
    let mut marks = none_marked(alloc, table.len(model))?;
    match table.texts(model) {
        Some(texts) => {
            mark_calculates(table, model, texts.as_slice(), &mut marks);
            Ok(marks)
        }
        None => Ok(marks),
    }
}

/// Marks the calculates of these nodes.
fn mark_calculates(table: &Table, model: u32, nodes: &[NodeId], marks: &mut MarkList)
    requires size { length marks.old ≡ length (kept_at table.now model).entries }
    requires single { AreSingle (kept_at table.now model).entries }
    ensures { AreCalculated (kept_at table.now model).entries (map (λ i. i.number) nodes.now) marks.old marks.new }
{
    for node in nodes {
        mark_calculate(table, model, *node, marks);
    }
}

/// Marks the calculate of a node, where it has one.
fn mark_calculate(table: &Table, model: u32, node: NodeId, marks: &mut MarkList)
    requires size { length marks.old ≡ length (kept_at table.now model).entries }
    requires single { AreSingle (kept_at table.now model).entries }
    ensures { AreCalculated (kept_at table.now model).entries (node.number ∷ []) marks.old marks.new }
{
    match calculate_on(table, model, node) {
        Some(place) => marks.set(place, true),
        None => {}
    }
}

/// The place of the calculate of a node.
fn calculate_on(table: &Table, model: u32, node: NodeId) -> Option<usize>
    ensures { result ≡ place_on (kept_at table.now model).entries node.number Property.Calculate }
{
    match table.present(model) {
        Some(applied) => applied.place(node, Property::Calculate),
        None => None,
    }
}

/// The same, where each entry is looked at.
fn begun_by_each(
    alloc: Global,
    tables: &Tables,
    table: &Table,
    model: u32,
) -> Result<MarkList, AllocError>
    ensures { IfOk result (AreBegun (map rule_of tables.now.binds) (kept_at table.now model)) }
{
    let marked = Marked {
        texts: gathered(alloc, table.texts(model))?,
        lists: gathered(alloc, table.lists(model))?,
    };
    let mut marks = MarkList::new(alloc);
    for place in 0..table.len(model) {
        let is_begun = is_begun(tables, table, model, &marked, place);
        marks.push(is_begun)?;
    }
    Ok(marks)
}

/// The numbers of these nodes.
fn gathered(alloc: Global, nodes: Option<&NodeList>) -> Result<Numbers, AllocError>
    ensures { IfOk result (λ numbers. (n : ℕ) → has n numbers ≡ has n (nodes_or (option_map (λ l. l.now) nodes.entry))) }
{
    let mut numbers = Numbers::new(alloc);
    match nodes {
        Some(nodes) => numbers.add_all(nodes.as_slice())?,
        None => {}
    }
    Ok(numbers)
}

/// Whether a change concerns the entry at a place.
fn is_begun(tables: &Tables, table: &Table, model: u32, marked: &Marked, place: usize) -> bool
    requires texts { (n : ℕ) → has n marked.now.texts ≡ has n (kept_at table.now model).texts }
    requires lists { (n : ℕ) → has n marked.now.lists ≡ has n (kept_at table.now model).lists }
    ensures { result ≡ is_begun_at (map rule_of tables.now.binds) (kept_at table.now model) place }
{
    match table.entry(model, place) {
        Some(entry) => {
            if is_type(entry.property) {
                return false;
            }
            if !is_standing(tables, table, model, &entry) {
                return true;
            }
            if is_calculate(entry.property) && marked.texts.has(entry.node.number) {
                return true;
            }
            looks_any(table.asks(model, place), &marked.lists)
        }
        None => false,
    }
}

fn is_type(property: Property) -> bool
    ensures { result ≡ is_property property Property.Kind }
{
    property == Property::Kind
}

fn is_calculate(property: Property) -> bool
    ensures { result ≡ is_property property Property.Calculate }
{
    property == Property::Calculate
}

/// Whether an entry stood at the last recalculation, at the same place where it asks for that.
fn is_standing(tables: &Tables, table: &Table, model: u32, entry: &Entry) -> bool
    requires { is_computed (entry_of entry.now) ≡ true }
    ensures { (asks : web.Asks) → result
        ≡ list_any (stands_as (asking_with (map rule_of tables.now.binds) (entry_of entry.now) asks)) (entries_of (kept_at table.now model).stood) }
{
    match table.stood(model, entry) {
        Some(old) => is_at(entry, &old) || !is_placed(tables.binds.as_slice(), entry),
        None => false,
    }
}

/// Whether both stand at the same place.
fn is_at(entry: &Entry, old: &Entry) -> bool
    ensures { result ≡ ((entry.now.position == old.now.position) && (entry.now.size == old.now.size)) }
{
    entry.position == old.position && entry.size == old.size
}

/// Whether an entry looks at one of these lists.
fn looks_any(asks: Option<&Asks>, lists: &Numbers) -> bool
    ensures { result ≡ list_any (λ n. has n lists.now) (asks_or (option_map (λ a. a.now) asks.entry)).looks }
{
    if lists.is_empty() {
        return false;
    }
    match asks {
        Some(asks) => has_any(asks.looks.as_slice(), lists),
        None => false,
    }
}

fn has_any(nodes: &[NodeId], numbers: &Numbers) -> bool
    ensures { result ≡ list_any (λ n. has n numbers.now) (map (λ i. i.number) nodes.now) }
{
    for node in nodes {
        if numbers.has(node.number) {
            return true;
        }
    }
    false
}
