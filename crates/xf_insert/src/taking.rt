//! Which nodes a delete takes (XForms 1.1, section 10.4).

ghost use Rattle.std.specs.Prelude.{◌≡◌, ◌==◌, ◌++◌, [], ◌∷◌, IfOk, OnOk, Some, if◌then◌else◌};
ghost use Rattle.std.specs.List.{list_any};
ghost use Rattle.indexmap.specs.IndexSet.{insert_key};
ghost use Rattle.xf_def_forest.specs.Visit.{has, visits};
ghost use Rattle.xf_def_xpath.specs.Binding.{as_list};
ghost use Rattle.xf_def_model.specs.Places.{named_by};
ghost use Rattle.xf_def_model.specs.Taken as model;
ghost use Rattle.xf_def_model.specs.Taken.{taken_from};
ghost use Rattle.xf_insert.specs.Closed.{closed_by, delete_asked};
ghost use Rattle.xf_insert.specs.Numbers.{numbers};
ghost use Rattle.xf_insert.specs.Taking.{may_take};

use crate::kinds::{is_live, is_root};
use crate::named::held;
use crate::planning::{Planning, is_closed};
use crate::walking::listed;
use indexmap::IndexSet;
use std::alloc::{AllocError, Global};
use xf_def_forest::{NodeId, NodeList};
use xf_def_ui::NodeMarks;
use xf_name::Axis;

/// The nodes that a delete takes, of a set or of the one node of it that a place names.
pub fn planned_delete<M: NodeMarks>(
    planning: &Planning<'_, M>,
    set: &NodeList,
    at: Option<i64>,
) -> Result<NodeList, AllocError>
    ensures { IfOk result (λ all. all ≡ model.planned_delete planning.now.forest.now.forest.nodes (delete_asked (closed_by (M.marks_of planning.now.marks.now) planning.now.forest.now.forest.nodes) set.now at)) }
{
    match at {
        Some(at) => {
            let one = one_named(planning.alloc, set, at)?;
            taken(planning, one.as_slice())
        }
        None => taken(planning, set.as_slice()),
    }
}

/// The node of a set that a place names, as a list.
fn one_named(alloc: Global, set: &NodeList, at: i64) -> Result<NodeList, AllocError>
    ensures { IfOk result (λ one. one ≡ as_list (named_by (Some at) set.now)) }
{
    let mut one = NodeList::new(alloc);
    match set.get(held(set.len(), at).saturating_sub(1)) {
        Some(node) => {
            one.push(node)?;
            Ok(one)
        }
        None => Ok(one),
    }
}

/// Those of these nodes that may be taken and stand in none that is taken itself.
fn taken<M: NodeMarks>(planning: &Planning<'_, M>, nodes: &[NodeId]) -> Result<NodeList, AllocError>
    ensures { IfOk result (λ all. all ≡ taken_from (visits planning.now.forest.now.forest.nodes) (closed_by (M.marks_of planning.now.marks.now) planning.now.forest.now.forest.nodes) [] (numbers nodes.now)) }
{
    let mut all = NodeList::new(planning.alloc);
    let mut known = IndexSet::new(planning.alloc);
    for node in nodes {
        take_node(planning, *node, &mut known, &mut all)?;
    }
    Ok(all)
}

/// Takes a node, where it may be taken and stands in none of those that are known, and knows it then.
fn take_node<M: NodeMarks>(
    planning: &Planning<'_, M>,
    node: NodeId,
    known: &mut IndexSet<u128>,
    all: &mut NodeList,
) -> Result<(), AllocError>
    ensures all { OnOk result (all.new ≡ all.old ++ (if may_take (visits planning.now.forest.now.forest.nodes) (closed_by (M.marks_of planning.now.marks.now) planning.now.forest.now.forest.nodes) known.old.keys node.number then node.number ∷ [] else [])) }
    ensures known { OnOk result (known.new.keys ≡ (if may_take (visits planning.now.forest.now.forest.nodes) (closed_by (M.marks_of planning.now.marks.now) planning.now.forest.now.forest.nodes) known.old.keys node.number then insert_key (λ x y. x == y) known.old.keys node.number else known.old.keys)) }
{
    if !is_taken(planning, node, known)? {
        return Ok(());
    }
    known.insert(node.number)?;
    all.push(node)
}

/// Whether a node may be taken and stands in none of these.
fn is_taken<M: NodeMarks>(
    planning: &Planning<'_, M>,
    node: NodeId,
    known: &IndexSet<u128>,
) -> Result<bool, AllocError>
    ensures { IfOk result (λ taken. taken ≡ may_take (visits planning.now.forest.now.forest.nodes) (closed_by (M.marks_of planning.now.marks.now) planning.now.forest.now.forest.nodes) known.now.keys node.number) }
{
    if !is_live(planning.forest, node) {
        return Ok(false);
    }
    let Some(parent) = planning.forest.parent(node) else {
        return Ok(false);
    };
    if is_root(planning.forest, parent) {
        return Ok(false);
    }
    if is_closed(planning, parent) {
        return Ok(false);
    }
    let around = listed(planning.alloc, planning.forest, node, Axis::Ancestor)?;
    Ok(!is_some_known(around.as_slice(), known))
}

/// Whether one of these nodes is known.
fn is_some_known(nodes: &[NodeId], known: &IndexSet<u128>) -> bool
    ensures { result ≡ list_any (λ m. has m known.now.keys) (numbers nodes.now) }
{
    if nodes.is_empty() {
        return false;
    }
    if known.contains(&nodes[0].number) {
        return true;
    }
    is_some_known(&nodes[1..], known)
}
