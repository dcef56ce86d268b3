//! What a binding selects (XForms 1.1, sections 3.2.3 and 3.2.4): a text stands for its parent, and a root for its document element.

ghost use Rattle.std.specs.Prelude.{◌≡◌, ◌++◌, IfOk, OnOk};
ghost use Rattle.xf_name.specs.declared.axis.Axis.TheVariants.{Child};
ghost use Rattle.xf_def_forest.specs.Forest.{IsLive};
ghost use Rattle.xf_def_forest.specs.Axis.{axis_of};
ghost use Rattle.xf_def_forest.specs.Visit.{visits};
ghost use Rattle.xf_def_xpath.specs.Binding.{bound_nodes};
ghost use Rattle.xf_eval.specs.Live.{AllLive};
ghost use Rattle.xf_eval_context.specs.Nested.StandIns.{stand_ins_of};

use std::alloc::{AllocError, Global};
use xf_def_forest::{Kind, NodeId, NodeList};
use xf_name::Axis;
use xf_tree::Forest;

/// What these nodes stand for, in document order, each once.
pub fn bound_nodes(alloc: Global, forest: &Forest, nodes: &NodeList) -> Result<NodeList, AllocError>
    requires { AllLive nodes.now forest.now.forest.nodes }
    ensures value { IfOk result (λ found. found ≡ bound_nodes (visits forest.now.forest.nodes) nodes.now) }
    ensures live { IfOk result (λ found. AllLive found forest.now.forest.nodes) }
{
    let mut found = NodeList::new(alloc);
    for node in nodes.as_slice() {
        push_stand_ins(forest, *node, &mut found)?;
    }
    forest.in_order(&found)
}

/// Puts what a node stands for behind others.
fn push_stand_ins(forest: &Forest, node: NodeId, found: &mut NodeList) -> Result<(), AllocError>
    requires { IsLive node.number forest.now.forest }
    ensures { OnOk result (found.new ≡ found.old ++ stand_ins_of (visits forest.now.forest.nodes) node.number) }
{
    match forest.kind(node) {
        Kind::Root => push_children(forest, node, found),
        Kind::Text => match forest.parent(node) {
            Some(parent) => found.push(parent),
            None => Ok(()),
        },
        Kind::Element | Kind::Attribute => found.push(node),
    }
}

/// Puts the children of a node behind others.
fn push_children(forest: &Forest, node: NodeId, found: &mut NodeList) -> Result<(), AllocError>
    requires { IsLive node.number forest.now.forest }
    ensures { OnOk result (found.new ≡ found.old ++ axis_of Child node.number (visits forest.now.forest.nodes)) }
{
    for child in forest.axis(node, Axis::Child) {
        found.push(child)?;
    }
    Ok(())
}
