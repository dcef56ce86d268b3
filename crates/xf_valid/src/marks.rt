//! The properties of many nodes in one pass.

ghost use Rattle.std.specs.Prelude.{◌≡◌, ◌&&◌, ◌||◌, true, map, IfOk};
ghost use Rattle.std.specs.List.{list_all};
ghost use Rattle.xf_def_forest.specs.Forest.{IsLive, has_number};
ghost use Rattle.xf_valid.specs.Chain.{AreTold};
ghost use Rattle.xf_valid.specs.Nodes.{marks_in, readonly_in, relevant_in};

use crate::above::inherited_by;
use crate::nodes::{is_required, is_valid, own, own_readonly};
use std::alloc::{AllocError, Global};
use xf_binds::Table;
use xf_def_forest::{NodeId, NodeList};
use xf_def_model::Property;
use xf_def_ui::Marks;
use xf_tree::Forest;

/// A node that was passed, with what those below it have from it.
#[derive(Clone, Copy, Debug)]
pub(crate) struct Passed {
    pub node: NodeId,
    pub relevant: bool,
    pub readonly: bool,
}

/// The properties of these nodes. It is one pass where they stand in document order with their ancestors.
pub fn marks_of(
    alloc: Global,
    forest: &Forest,
    table: &Table,
    nodes: &NodeList,
) -> Result<Vec<Marks>, AllocError>
    requires { list_all (λ n. has_number n forest.now.forest.nodes) nodes.now ≡ true }
    ensures { IfOk result (λ marks. marks.items ≡ map (marks_in table.now forest.now.forest.nodes) nodes.now) }
{
    let mut marks = Vec::with_capacity(alloc, nodes.len())?;
    let mut chain = Vec::new(alloc);
    for node in nodes.as_slice() {
        let passed = pass(forest, table, *node, &mut chain);
        chain.push(passed)?;
        marks.push(Marks {
            relevant: passed.relevant,
            readonly: passed.readonly,
            required: is_required(table, *node),
            valid: is_valid(table, *node),
        })?;
    }
    Ok(marks)
}

/// What a node has, by what its parent has: those that were passed are left where its parent is the last one.
fn pass(forest: &Forest, table: &Table, node: NodeId, chain: &mut Vec<Passed>) -> Passed
    requires live { IsLive node.number forest.now.forest }
    requires told { AreTold table.now forest.now.forest.nodes chain.old.items }
    ensures told { AreTold table.now forest.now.forest.nodes chain.new.items }
    ensures node { result.node ≡ node }
    ensures relevant { result.relevant ≡ relevant_in table.now forest.now.forest.nodes node.number }
    ensures readonly { result.readonly ≡ readonly_in table.now forest.now.forest.nodes node.number }
{
    forest.are_trees();
    let relevant = own(table, node, Property::Relevant, true);
    let readonly = own_readonly(table, node);
    match forest.parent(node) {
        Some(parent) => {
            let above = passed_at(forest, table, parent, chain);
            Passed {
                node,
                relevant: both(relevant, above.relevant),
                readonly: either(readonly, above.readonly),
            }
        }
        None => Passed {
            node,
            relevant,
            readonly,
        },
    }
}

fn both(one: bool, other: bool) -> bool
    ensures { result ≡ (one && other) }
{
    if one { other } else { false }
}

fn either(one: bool, other: bool) -> bool
    ensures { result ≡ (one || other) }
{
    if one { true } else { other }
}

/// What is known of a node: it is left the last of those that were passed, where it is one of them, and else none are left.
fn passed_at(forest: &Forest, table: &Table, node: NodeId, chain: &mut Vec<Passed>) -> Passed
    requires live { IsLive node.number forest.now.forest }
    requires told { AreTold table.now forest.now.forest.nodes chain.old.items }
    ensures told { AreTold table.now forest.now.forest.nodes chain.new.items }
    ensures relevant { result.relevant ≡ relevant_in table.now forest.now.forest.nodes node.number }
    ensures readonly { result.readonly ≡ readonly_in table.now forest.now.forest.nodes node.number }
{
    let mut at = chain.len();
    while at > 0 {
        at -= 1;
        let passed = chain[at];
        if passed.node.number == node.number {
            chain.truncate(at + 1);
            return passed;
        }
    }
    chain.clear();
    let inherited = inherited_by(forest, table, node);
    Passed {
        node,
        relevant: inherited.relevant,
        readonly: inherited.readonly,
    }
}
