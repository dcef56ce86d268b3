//! The nodes of the value of an expression over the shape, and those that a bind selects (XForms 1.1, sections 3.3.4 and 7.2).

ghost use Rattle.std.specs.Prelude.{◌≡◌, true, List, map, option_map, Some, IfOk};
ghost use Rattle.std.specs.List.{list_all};
ghost use Rattle.xf_def_forest.specs.declared.content.Node.{Node};
ghost use Rattle.xf_def_forest.specs.Forest.{IsLive, content_at};
ghost use Rattle.xf_def_forest.specs.Visit.{children_of, parent_of, visits};
ghost use Rattle.xf_def_xpath.specs.declared.value.Value.{Value};
ghost use Rattle.xf_def_xpath.specs.Binding.{as_list};
ghost use Rattle.xf_def_xpath.specs.Conversions.{nodes_of};
ghost use Rattle.xf_def_xpath.specs.Meaning.{focus_of, meaning, meaning_of_link};
ghost use Rattle.xf_def_xpath.specs.Operators.{chained, linked};
ghost use Rattle.xf_eval.specs.Live.{AllLive, AroundStands, IsReady};
ghost use Rattle.xf_eval_shape.specs.Bound.{CallGives, Gives, IsDocument, bound_at, is_root_in};
ghost use Rattle.xf_eval_shape.specs.Fixed.{is_fixed, is_fixed_link};
ghost use Rattle.xf_eval_shape.specs.Over.{nodes_at, set_over, shape_at};
ghost use Rattle.xf_eval_shape.specs.Spots.{AreSpots, is_spot, number_at, numbers_at, shaped};
ghost use Rattle.xf_eval_shape.specs.Woven.{is_shown};

use crate::leaf::{entered, has_elements, is_sound, is_text};
use crate::order::in_order;
use crate::predicates::kept_by_all;
use crate::spot::Spot;
use crate::steps::{begun, walked};
use std::alloc::{AllocError, Global};
use xf_def_forest::{NodeId, NodeList};
use xf_def_syntax::{Expr, Link, Operator, Test};
use xf_def_xpath::Context;
use xf_eval::{Around, Kind, append, kind_of, single};
use xf_name::Axis;
use xf_tree::{Forest, Seen};

/// The nodes that the node set of a bind selects from the context node over the shape, in document order, each once: a text stands for its
/// parent, and a root for its children. A plain value selects none.
pub fn selected<A: Around>(
    alloc: Global,
    forest: &Forest,
    expr: &Expr,
    context: &Context,
    around: &A,
) -> Result<NodeList, AllocError>
    requires fixed { is_fixed expr.now ≡ true }
    requires ready { IsReady (A.given around.now) forest.now.forest.nodes context.now }
    ensures value { IfOk result (λ nodes. set_over (A.given around.now) forest.now.forest.nodes expr.now context.now ≡ Some nodes) }
    ensures live { IfOk result (λ nodes. AllLive nodes forest.now.forest.nodes) }
{
    is_sound(forest);
    let spots = nodes_at(alloc, forest, around, expr, context)?;
    let mut found = NodeList::new(alloc);
    for spot in &spots {
        append(&mut found, &bound(alloc, forest, *spot)?)?;
    }
    forest.in_order(&found)
}

/// What a binding takes in place of a node.
fn bound(alloc: Global, forest: &Forest, spot: Spot) -> Result<NodeList, AllocError>
    requires { is_spot forest.now.forest.nodes spot ≡ true }
    ensures value { IfOk result (λ nodes. nodes ≡ bound_at forest.now.forest.nodes (number_at spot)) }
    ensures shown { IfOk result (λ nodes. list_all (is_shown forest.now.forest.nodes) nodes ≡ true) }
{
    is_sound(forest);
    match spot {
        Spot::Outside(_) => Ok(NodeList::new(alloc)),
        Spot::TextOf(owner) => single(alloc, owner),
        Spot::Node(node) => bound_node(alloc, forest, node),
    }
}

fn bound_node(alloc: Global, forest: &Forest, node: NodeId) -> Result<NodeList, AllocError>
    requires { is_spot forest.now.forest.nodes (Spot.Node node) ≡ true }
    ensures value { IfOk result (λ nodes. nodes ≡ bound_at forest.now.forest.nodes node.number) }
    ensures shown { IfOk result (λ nodes. list_all (is_shown forest.now.forest.nodes) nodes ≡ true) }
{
    is_sound(forest);
    if is_root(forest, node) {
        return children(alloc, forest, node);
    }
    if is_text(forest, node) {
        return parent_of(alloc, forest, node);
    }
    single(alloc, node)
}

fn is_root(forest: &Forest, node: NodeId) -> bool
    ensures { result ≡ is_root_in (content_at node.number forest.now.forest.nodes) }
{
    match forest.content(node) {
        Some(Seen::Root) => true,
        _ => false,
    }
}

/// The parent, where there is one.
fn parent_of(alloc: Global, forest: &Forest, node: NodeId) -> Result<NodeList, AllocError>
    requires { IsLive node.number forest.now.forest }
    ensures value { IfOk result (λ nodes. nodes ≡ as_list (parent_of node.number (visits forest.now.forest.nodes))) }
    ensures shown { IfOk result (λ nodes. list_all (is_shown forest.now.forest.nodes) nodes ≡ true) }
{
    is_sound(forest);
    match forest.parent(node) {
        Some(parent) => single(alloc, parent),
        None => Ok(NodeList::new(alloc)),
    }
}

/// The children of a root in the shape.
fn children(alloc: Global, forest: &Forest, root: NodeId) -> Result<NodeList, AllocError>
    requires spot { is_spot forest.now.forest.nodes (Spot.Node root) ≡ true }
    requires root { is_root_in (content_at root.number forest.now.forest.nodes) ≡ true }
    ensures value { IfOk result (λ nodes. nodes ≡ children_of root.number (shaped forest.now.forest.nodes)) }
    ensures shown { IfOk result (λ nodes. list_all (is_shown forest.now.forest.nodes) nodes ≡ true) }
{
    is_sound(forest);
    if has_elements(forest, root) {
        xf_eval::reached(alloc, forest, root, Axis::Child, &Test::Node)
    } else {
        Ok(NodeList::new(alloc))
    }
}

/// The nodes of the value: a plain value has none.
#[cycle(nodes)]
pub(crate) fn nodes_at<A: Around>(
    alloc: Global,
    forest: &Forest,
    around: &A,
    expr: &Expr,
    context: &Context,
) -> Result<Vec<Spot>, AllocError>
    requires fixed { is_fixed expr.now ≡ true }
    requires ready { IsReady (A.given around.now) forest.now.forest.nodes context.now }
    ensures value { IfOk result (λ spots. nodes_at (A.given around.now) forest.now.forest.nodes expr.now context.now ≡ Some (numbers_at spots.items)) }
    ensures spots { IfOk result (λ spots. AreSpots forest.now.forest.nodes spots.items) }
{
    match expr {
        Expr::Number(_, _) | Expr::Literal(_, _) | Expr::Negated(_, _, _) => Ok(Vec::new(alloc)),
        Expr::Call(_, code, arguments) => {
            let kind = kind_of(*code);
            call_nodes(alloc, forest, around, kind, arguments.as_slice(), context)
        }
        Expr::Chain(first, links) => {
            let left = nodes_at(alloc, forest, around, first.get(), context)?;
            chained(alloc, forest, around, links.as_slice(), left, context)
        }
        Expr::Filter(first, predicates) => {
            let nodes = nodes_at(alloc, forest, around, first.get(), context)?;
            kept_by_all(alloc, forest, around, predicates.as_slice(), nodes, context)
        }
        Expr::Path(_, start, steps) => {
            let from = begun(alloc, forest, *start, context)?;
            walked(alloc, forest, around, steps.as_slice(), from, context)
        }
        Expr::From(first, steps) => {
            let from = nodes_at(alloc, forest, around, first.get(), context)?;
            walked(alloc, forest, around, steps.as_slice(), from, context)
        }
    }
}

/// The nodes of a chain of operators: `|` gives those of both sides, the others none.
#[cycle(nodes)]
fn chained<A: Around>(
    alloc: Global,
    forest: &Forest,
    around: &A,
    links: &[Link],
    left: Vec<Spot>,
    context: &Context,
) -> Result<Vec<Spot>, AllocError>
    requires fixed { list_all is_fixed_link links.now ≡ true }
    requires ready { IsReady (A.given around.now) forest.now.forest.nodes context.now }
    requires spots { AreSpots forest.now.forest.nodes left.items }
    ensures value { IfOk result (λ spots. (v : Value) → nodes_of v ≡ numbers_at left.items → Gives (numbers_at spots.items) (chained (map meaning_of_link links.now) v (shape_at (A.given around.now) forest.now.forest.nodes context.now) (focus_of context.now))) }
    ensures spots { IfOk result (λ spots. AreSpots forest.now.forest.nodes spots.items) }
{
    let mut nodes = left;
    for link in links {
        nodes = linked(alloc, forest, around, link, nodes, context)?;
    }
    Ok(nodes)
}

#[cycle(nodes)]
fn linked<A: Around>(
    alloc: Global,
    forest: &Forest,
    around: &A,
    link: &Link,
    left: Vec<Spot>,
    context: &Context,
) -> Result<Vec<Spot>, AllocError>
    requires fixed { is_fixed_link link.now ≡ true }
    requires ready { IsReady (A.given around.now) forest.now.forest.nodes context.now }
    requires spots { AreSpots forest.now.forest.nodes left.items }
    ensures value { IfOk result (λ spots. (v : Value) → nodes_of v ≡ numbers_at left.items → Gives (numbers_at spots.items) (linked link.now.operator v (meaning_of_link link.now).right (shape_at (A.given around.now) forest.now.forest.nodes context.now) (focus_of context.now))) }
    ensures spots { IfOk result (λ spots. AreSpots forest.now.forest.nodes spots.items) }
{
    if link.operator != Operator::Union {
        return Ok(Vec::new(alloc));
    }
    let mut both = left;
    let right = nodes_at(alloc, forest, around, &link.right, context)?;
    both.extend_from_slice(&right)?;
    in_order(alloc, forest, &both)
}

/// The nodes of a call: only `current` and `instance` give some, where no event is asked.
fn call_nodes<A: Around>(
    alloc: Global,
    forest: &Forest,
    around: &A,
    kind: Kind,
    arguments: &[Expr],
    context: &Context,
) -> Result<Vec<Spot>, AllocError>
    requires { IsReady (A.given around.now) forest.now.forest.nodes context.now }
    ensures value { IfOk result (λ spots. CallGives kind (A.given around.now) arguments.now context.now (numbers_at spots.items)) }
    ensures spots { IfOk result (λ spots. AreSpots forest.now.forest.nodes spots.items) }
{
    match kind {
        Kind::Current => alone(alloc, forest, Some(context.current)),
        Kind::Instance => {
            let element = document(around, arguments, context);
            alone(alloc, forest, element)
        }
        _ => Ok(Vec::new(alloc)),
    }
}

/// The document element of the instance that a literal names: the first where none is written.
pub fn document<A: Around>(around: &A, arguments: &[Expr], context: &Context) -> Option<NodeId>
    ensures value { IsDocument (A.given around.now) arguments.now context.now.model (option_map (λ n. n.number) result) }
    ensures live { (nodes : List Node) → AroundStands (A.given around.now) nodes → AllLive (as_list (option_map (λ n. n.number) result)) nodes }
{
    match arguments.first() {
        None => around.instance(context.model, ""),
        Some(Expr::Literal(_, id)) => around.instance(context.model, id.as_str()),
        Some(_) => None,
    }
}

/// The node alone, where there is one.
pub fn alone(alloc: Global, forest: &Forest, node: Option<NodeId>) -> Result<Vec<Spot>, AllocError>
    requires { AllLive (as_list (option_map (λ n. n.number) node)) forest.now.forest.nodes }
    ensures value { IfOk result (λ spots. numbers_at spots.items ≡ as_list (option_map (λ n. n.number) node)) }
    ensures spots { IfOk result (λ spots. AreSpots forest.now.forest.nodes spots.items) }
{
    let mut found = Vec::new(alloc);
    if let Some(node) = node {
        found.push(entered(forest, node))?;
    }
    Ok(found)
}
