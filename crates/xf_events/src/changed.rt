//! What an insert and a delete tell an instance (XForms 1.1, sections 4.4.5 and 4.4.6).

ghost use Rattle.std.specs.Prelude.{◌≡◌, ◌++◌, ◌∷◌, [], true, IfOk, OnOk, codes, map};
ghost use Rattle.xf_def_forest.specs.Visit.{visits};
ghost use Rattle.xf_def_values.specs.Conversions.{whole};
ghost use Rattle.xf_def_machine.specs.Delete.{location_of};
ghost use Rattle.xf_def_machine.specs.Events as events;
ghost use Rattle.xf_actions.specs.Seen.{fired_of, place_of, told_of};
ghost use Rattle.xf_events.specs.Changed.{deleted_told, inserted_told};

use crate::telling::made;
use std::alloc::{AllocError, Global};
use xf_actions::{Fired, Inserting, Place, Property, PropertyList};
use xf_base::Items;
use xf_def_forest::NodeList;
use xf_def_xpath::Value;
use xf_eval::append;
use xf_insert::held;
use xf_name::Word;
use xf_num::{Decimals, Num};
use xf_tree::Forest;

/// The copy of an instance that is told, over the data.
#[derive(Clone, Copy)]
pub struct ToInstance<'a> {
    pub alloc: Global,
    pub forest: &'a Forest,
    /// The element of the instance.
    pub target: u32,
    /// The rows of the repeats around it.
    pub rows: &'a NodeList,
}

/// The event that an insert tells an instance.
pub fn insert_event(
    to: &ToInstance<'_>,
    inserting: &Inserting,
    tops: &NodeList,
) -> Result<Fired, AllocError>
    ensures { IfOk result (λ e. fired_of e ≡ events.fired (codes "xforms-insert") true true (inserted_told (visits to.now.forest.now.forest.nodes) inserting.now.is_before tops.now (map (λ q. q.origin) (map place_of inserting.now.places)) inserting.now.location) to.now.target to.now.rows.now) }
{
    let told = told_insert(to.alloc, to.forest, inserting, tops)?;
    made(
        to.alloc,
        "xforms-insert",
        true,
        true,
        to.target,
        to.rows,
        told,
    )
}

/// The event that a delete of nodes of a set tells an instance.
pub fn delete_event(
    to: &ToInstance<'_>,
    decimals: Decimals,
    nodes: &NodeList,
    set: &NodeList,
    at: Option<i64>,
) -> Result<Fired, AllocError>
    ensures { IfOk result (λ e. fired_of e ≡ events.fired (codes "xforms-delete") true true (deleted_told (visits to.now.forest.now.forest.nodes) nodes.now (location_of decimals set.now at)) to.now.target to.now.rows.now) }
{
    let location = delete_location(set, at, decimals);
    let told = told_delete(to.alloc, to.forest, nodes, location)?;
    made(
        to.alloc,
        "xforms-delete",
        true,
        true,
        to.target,
        to.rows,
        told,
    )
}

// ---- of an insert

fn told_insert(
    alloc: Global,
    forest: &Forest,
    inserting: &Inserting,
    tops: &NodeList,
) -> Result<PropertyList, AllocError>
    ensures { IfOk result (λ told. told_of told ≡ inserted_told (visits forest.now.forest.nodes) inserting.now.is_before tops.now (map (λ q. q.origin) (map place_of inserting.now.places)) inserting.now.location) }
{
    let mut told = Items::new(alloc);
    let origins = origins_of(alloc, inserting.places.as_slice())?;
    push_nodes(alloc, "inserted-nodes", forest.in_order(tops)?, &mut told)?;
    push_nodes(alloc, "origin-nodes", forest.in_order(&origins)?, &mut told)?;
    let mut location = NodeList::new(alloc);
    append(&mut location, &inserting.location)?;
    push_nodes(alloc, "insert-location-node", location, &mut told)?;
    let side = if inserting.is_before {
        "before"
    } else {
        "after"
    };
    let text = Value::Text(Word::from_str(alloc, side)?);
    push_property(alloc, "position", text, &mut told)?;
    Ok(told)
}

fn origins_of(alloc: Global, places: &[Place]) -> Result<NodeList, AllocError>
    ensures { IfOk result (λ ns. ns ≡ map (λ q. q.origin) (map place_of places.now)) }
{
    let mut origins = NodeList::new(alloc);
    for place in places {
        origins.push(place.origin)?;
    }
    Ok(origins)
}

// ---- of a delete

fn told_delete(
    alloc: Global,
    forest: &Forest,
    nodes: &NodeList,
    location: Num,
) -> Result<PropertyList, AllocError>
    ensures { IfOk result (λ told. told_of told ≡ deleted_told (visits forest.now.forest.nodes) nodes.now location) }
{
    let mut told = Items::new(alloc);
    push_nodes(alloc, "deleted-nodes", forest.in_order(nodes)?, &mut told)?;
    push_property(alloc, "delete-location", Value::Number(location), &mut told)?;
    Ok(told)
}

/// The place that `at` names in a set, or NaN where it is not written.
fn delete_location(set: &NodeList, at: Option<i64>, decimals: Decimals) -> Num
    ensures { result ≡ location_of decimals set.now at }
{
    match at {
        Some(at) => whole(held(set.len(), at), decimals),
        None => Num::nan(),
    }
}

/// A whole number.
#[tactic(auto, unfolding(xf_num::specs::Number::scale))]
fn whole(count: usize, decimals: Decimals) -> Num
    ensures { result ≡ whole decimals count }
{
    Num::of_units(i128::from(count as u64) * i128::from(decimals.units_in_one()))
}

// ---- properties

fn push_nodes(
    alloc: Global,
    name: &str,
    nodes: NodeList,
    told: &mut PropertyList,
) -> Result<(), AllocError>
    ensures { OnOk result (told_of told.new ≡ told_of told.old ++ (name.now, Value.Nodes nodes) ∷ []) }
{
    push_property(alloc, name, Value::Nodes(nodes), told)
}

fn push_property(
    alloc: Global,
    name: &str,
    value: Value,
    told: &mut PropertyList,
) -> Result<(), AllocError>
    ensures { OnOk result (told_of told.new ≡ told_of told.old ++ (name.now, value) ∷ []) }
{
    let name = Word::from_str(alloc, name)?;
    told.push(Property { name, value })
}
