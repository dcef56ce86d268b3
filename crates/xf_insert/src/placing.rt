//! Where the copies of an insert go (XForms 1.1, section 10.3).

ghost use Rattle.std.specs.Prelude.{◌≡◌, ◌++◌, ◌+◌, ◌<◌, ◌∷◌, [], IfOk, Ok, OnOk, Option, map, option_map};
ghost use Rattle.xf_def_forest.specs.Changes.{place_among};
ghost use Rattle.xf_def_forest.specs.Forest.{IsLive};
ghost use Rattle.xf_def_forest.specs.Forest as forest_specs;
ghost use Rattle.xf_def_forest.specs.Visit.{children_of, visits};
ghost use Rattle.xf_def_model.specs.Places as model;
ghost use Rattle.xf_def_machine.specs.Tables.{insert_by};
ghost use Rattle.xf_actions.specs.Seen.{place_of};
ghost use Rattle.xf_insert.specs.Closed.{closed_by, insert_asked};
ghost use Rattle.xf_insert.specs.Closed as closed;
ghost use Rattle.xf_insert.specs.Numbers.{number, numbers};
ghost use Rattle.xf_insert.specs.Placing as placing;

use crate::kinds::{has_same_name, is_attribute, is_element, is_live, is_root};
use crate::named::held_at;
use crate::planning::{Asked, Planning, is_closed};
use crate::walking::listed;
use std::alloc::{AllocError, Global};
use xf_actions::{Place, PlaceList};
use xf_base::Items;
use xf_def_forest::{NodeId, NodeList};
use xf_def_syntax::InsertWork;
use xf_def_ui::NodeMarks;
use xf_name::Axis;
use xf_tree::Forest;

/// Where the copies of an insert go. All of them have one parent, so that one look tells whether it is readonly.
pub fn planned_insert<M: NodeMarks>(
    planning: &Planning<'_, M>,
    work: &InsertWork,
    asked: &Asked<'_>,
) -> Result<PlaceList, AllocError>
    ensures { IfOk result (λ found. map place_of found ≡ model.planned_insert planning.now.forest.now.forest.nodes (insert_asked (closed_by (M.marks_of planning.now.marks.now) planning.now.forest.now.forest.nodes) (insert_by work.now) asked.now.context.number asked.now.set.now asked.now.origin.now asked.now.at)) }
{
    let places = insert_places(planning.alloc, planning.forest, work, asked)?;
    if is_first_closed(planning, places.as_slice()) {
        return Ok(Items::new(planning.alloc));
    }
    Ok(places)
}

/// Whether the first of these places is under a readonly node.
fn is_first_closed<M: NodeMarks>(planning: &Planning<'_, M>, places: &[Place]) -> bool
    ensures { result ≡ closed.is_first_closed (closed_by (M.marks_of planning.now.marks.now) planning.now.forest.now.forest.nodes) (map place_of places.now) }
{
    match places.first() {
        Some(place) => is_closed(planning, place.parent),
        None => false,
    }
}

/// Where the copies of an insert go, were nothing readonly.
fn insert_places(
    alloc: Global,
    forest: &Forest,
    work: &InsertWork,
    asked: &Asked<'_>,
) -> Result<PlaceList, AllocError>
    ensures { IfOk result (λ found. map place_of found ≡ placing.places_in (visits forest.now.forest.nodes) (insert_by work.now) asked.now.context.number asked.now.set.now asked.now.origin.now asked.now.at) }
{
    let count = asked.set.len();
    if count == 0 {
        return inside_context(alloc, forest, work, asked.context, asked.origin);
    }
    let node = asked.set.at(held_at(count, asked.at).saturating_sub(1));
    at_node(alloc, forest, node, !work.is_before, asked.origin)
}

/// Of an empty set: in the context, where it is written and an element, before its first child.
fn inside_context(
    alloc: Global,
    forest: &Forest,
    work: &InsertWork,
    context: NodeId,
    origin: &NodeList,
) -> Result<PlaceList, AllocError>
    ensures { IfOk result (λ found. map place_of found ≡ placing.places_in (visits forest.now.forest.nodes) (insert_by work.now) context.number [] origin.now Option.None) }
{
    match &work.context {
        Some(_) => {
            if is_element(forest, context) {
                within(alloc, forest, context, 0, origin.as_slice())
            } else {
                Ok(Items::new(alloc))
            }
        }
        None => Ok(Items::new(alloc)),
    }
}

/// At a node of the set: beside an element, in place of a document element, or beside an attribute.
fn at_node(
    alloc: Global,
    forest: &Forest,
    node: NodeId,
    after: bool,
    origin: &NodeList,
) -> Result<PlaceList, AllocError>
    ensures { IfOk result (λ found. map place_of found ≡ placing.at_node (visits forest.now.forest.nodes) after origin.now node.number) }
{
    forest.are_trees();
    if !is_live(forest, node) {
        return Ok(Items::new(alloc));
    }
    let Some(parent) = forest.parent(node) else {
        return Ok(Items::new(alloc));
    };
    if is_element(forest, node) {
        let elements = elements_among(alloc, forest, origin.as_slice())?;
        if is_root(forest, parent) {
            return instead(alloc, parent, node, &elements);
        }
        return beside(alloc, forest, after, parent, node, &elements);
    }
    if is_attribute(forest, node) {
        let attributes = attributes_among(alloc, forest, origin.as_slice())?;
        return within(alloc, forest, parent, 0, attributes.as_slice());
    }
    Ok(Items::new(alloc))
}

/// In place of a document element: the first alone.
fn instead(
    alloc: Global,
    root: NodeId,
    node: NodeId,
    elements: &NodeList,
) -> Result<PlaceList, AllocError>
    ensures { IfOk result (λ found. map place_of found ≡ model.instead root.number node.number elements.now) }
{
    let mut all = Items::new(alloc);
    match elements.get(0) {
        Some(first) => {
            all.push(Place {
                origin: first,
                parent: root,
                place: 0,
                replaces: Some(node),
                again: None,
            })?;
            Ok(all)
        }
        None => Ok(all),
    }
}

/// Before or after a child.
fn beside(
    alloc: Global,
    forest: &Forest,
    after: bool,
    parent: NodeId,
    node: NodeId,
    elements: &NodeList,
) -> Result<PlaceList, AllocError>
    requires { IsLive parent.number forest.now.forest }
    ensures { IfOk result (λ found. map place_of found ≡ placing.beside (visits forest.now.forest.nodes) after parent.number node.number elements.now) }
{
    let before = place_of(alloc, forest, parent, node)?;
    if !after {
        return within(alloc, forest, parent, before, elements.as_slice());
    }
    match before.checked_add(1) {
        Some(behind) => within(alloc, forest, parent, behind, elements.as_slice()),
        // No forest has so many nodes.
        None => Err(AllocError),
    }
}

/// How many children of the parent stand before a node.
fn place_of(
    alloc: Global,
    forest: &Forest,
    parent: NodeId,
    node: NodeId,
) -> Result<usize, AllocError>
    requires { IsLive parent.number forest.now.forest }
    ensures { IfOk result (λ place. place ≡ place_among node.number (children_of parent.number (visits forest.now.forest.nodes))) }
{
    let children = listed(alloc, forest, parent, Axis::Child)?;
    match children.position(node) {
        Some(place) => Ok(place),
        None => Ok(children.len()),
    }
}

/// The elements among these nodes.
fn elements_among(alloc: Global, forest: &Forest, nodes: &[NodeId]) -> Result<NodeList, AllocError>
    ensures { IfOk result (λ found. found ≡ placing.among forest_specs.is_element (visits forest.now.forest.nodes) (numbers nodes.now)) }
{
    let mut all = NodeList::new(alloc);
    for node in nodes {
        push_element(forest, *node, &mut all)?;
    }
    Ok(all)
}

fn push_element(forest: &Forest, node: NodeId, all: &mut NodeList) -> Result<(), AllocError>
    ensures { OnOk result (all.new ≡ all.old ++ placing.among forest_specs.is_element (visits forest.now.forest.nodes) (node.number ∷ [])) }
{
    if is_element(forest, node) {
        return all.push(node);
    }
    Ok(())
}

/// The attributes among these nodes.
fn attributes_among(
    alloc: Global,
    forest: &Forest,
    nodes: &[NodeId],
) -> Result<NodeList, AllocError>
    ensures { IfOk result (λ found. found ≡ placing.among forest_specs.is_attribute (visits forest.now.forest.nodes) (numbers nodes.now)) }
{
    let mut all = NodeList::new(alloc);
    for node in nodes {
        push_attribute(forest, *node, &mut all)?;
    }
    Ok(all)
}

fn push_attribute(forest: &Forest, node: NodeId, all: &mut NodeList) -> Result<(), AllocError>
    ensures { OnOk result (all.new ≡ all.old ++ placing.among forest_specs.is_attribute (visits forest.now.forest.nodes) (node.number ∷ [])) }
{
    if is_attribute(forest, node) {
        return all.push(node);
    }
    Ok(())
}

// ---- copies within a parent

/// A parent, and how many of its children come before the next copy of an element.
#[derive(Clone, Copy)]
struct Row {
    parent: NodeId,
    before: usize,
}

/// Elements one behind the other, behind so many children; attributes by their names; no others.
fn within(
    alloc: Global,
    forest: &Forest,
    parent: NodeId,
    before: usize,
    nodes: &[NodeId],
) -> Result<PlaceList, AllocError>
    ensures { IfOk result (λ found. map place_of found ≡ model.within (visits forest.now.forest.nodes) parent.number before [] (numbers nodes.now)) }
{
    let mut all = Items::new(alloc);
    let mut next = before;
    for node in nodes {
        let row = Row {
            parent,
            before: next,
        };
        next = push_copy(alloc, forest, row, *node, &mut all)?;
    }
    Ok(all)
}

/// The place of the copy of a node, where it has one. The answer is how many children come before the next one.
fn push_copy(
    alloc: Global,
    forest: &Forest,
    row: Row,
    node: NodeId,
    all: &mut PlaceList,
) -> Result<usize, AllocError>
    ensures next { IfOk result (λ next. next ≡ placing.next_of (visits forest.now.forest.nodes) row.before node.number) }
    ensures places { OnOk result (map place_of all.new ≡ map place_of all.old ++ placing.copy_of (visits forest.now.forest.nodes) row.parent.number row.before (map place_of all.old) node.number) }
{
    if is_element(forest, node) {
        push_row(row, node, all)?;
        // No forest has so many nodes.
        return match row.before.checked_add(1) {
            Some(next) => Ok(next),
            None => Err(AllocError),
        };
    }
    if is_attribute(forest, node) {
        push_named(alloc, forest, row.parent, node, all)?;
    }
    Ok(row.before)
}

fn push_row(row: Row, node: NodeId, all: &mut PlaceList) -> Result<(), AllocError>
    ensures { OnOk result (map place_of all.new ≡ map place_of all.old ++ model.row_place row.parent.number row.before node.number ∷ []) }
{
    all.push(Place {
        origin: node,
        parent: row.parent,
        place: row.before,
        replaces: None,
        again: None,
    })
}

/// An attribute takes the place of the one of its name.
fn push_named(
    alloc: Global,
    forest: &Forest,
    parent: NodeId,
    node: NodeId,
    all: &mut PlaceList,
) -> Result<(), AllocError>
    ensures { OnOk result (map place_of all.new ≡ map place_of all.old ++ model.named_place (visits forest.now.forest.nodes) parent.number (map place_of all.old) node.number ∷ []) }
{
    let again = last_alike(forest, node, all.as_slice());
    let replaces = match again {
        Some(_) => None,
        None => namesake(alloc, forest, parent, node)?,
    };
    all.push(Place {
        origin: node,
        parent,
        place: 0,
        replaces,
        again,
    })
}

/// Of places the last with an attribute of the name of this one.
fn last_alike(forest: &Forest, node: NodeId, places: &[Place]) -> Option<usize>
    ensures { result ≡ model.last_alike (visits forest.now.forest.nodes) node.number 0 (map place_of places.now) }
{
    let mut at = places.len();
    while at > 0 {
        at -= 1;
        if is_alike(forest, node, &places[at]) {
            return Some(at);
        }
    }
    None
}

fn is_alike(forest: &Forest, node: NodeId, place: &Place) -> bool
    ensures { result ≡ placing.is_alike (visits forest.now.forest.nodes) node.number place.now.origin.number }
{
    is_attribute(forest, place.origin) && has_same_name(forest, node, place.origin)
}

/// The attribute of the parent with the name of this one.
fn namesake(
    alloc: Global,
    forest: &Forest,
    parent: NodeId,
    node: NodeId,
) -> Result<Option<NodeId>, AllocError>
    ensures { IfOk result (λ found. option_map number found ≡ model.namesake (visits forest.now.forest.nodes) parent.number node.number) }
{
    if !is_live(forest, parent) {
        return Ok(None);
    }
    forest.are_trees();
    let attributes = listed(alloc, forest, parent, Axis::Attribute)?;
    Ok(first_named(forest, node, attributes.as_slice()))
}

/// The first of these with the name of this one.
fn first_named(forest: &Forest, node: NodeId, nodes: &[NodeId]) -> Option<NodeId>
    ensures { option_map number result ≡ placing.first_named (visits forest.now.forest.nodes) node.number (numbers nodes.now) }
{
    for other in nodes {
        if has_same_name(forest, node, *other) {
            return Some(*other);
        }
    }
    None
}
