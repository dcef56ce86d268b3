//! The node sets of binds over the shape of the data (XForms 1.1, sections 3.3.4 and 7.2): one for each node of the bind around.

ghost use Rattle.std.specs.Prelude.{◌≡◌, ◌<◌, [], Some, None, slice_get, option_map, true, IfOk, IfSome};
ghost use Rattle.std.specs.List.{list_all};
ghost use Rattle.xf_def_forest.specs.Forest.{IsLive};
ghost use Rattle.xf_eval.specs.Live.{AllLive, AroundStands};
ghost use Rattle.xf_def_forest.specs.Shape.{shape_of};
ghost use Rattle.xf_def_xpath.specs.Agree.{are_apart};
ghost use Rattle.xf_def_xpath.specs.Reads.{trace};
ghost use Rattle.xf_def_model.specs.Nested.{begun, set_from};
ghost use Rattle.xf_eval_shape.specs.Fixed.{is_fixed};
ghost use Rattle.xf_eval_shape.specs.Woven.{is_shown};
ghost use Rattle.xf_binds_apply.specs.Standing.{AreSets};
ghost use Rattle.xf_binds_apply.specs.Reached.{AreKept, kept_in, is_regular, outer_in, scope_in, sets_at, sets_in, through};

use crate::standings::Standings;
use std::alloc::{AllocError, Global};
use xf_def_forest::{NodeId, NodeList};
use xf_def_syntax::{Bind, Expr};
use xf_eval::{Around, Context, single};
use xf_eval_shape::{is_sound, selected};
use xf_tree::Forest;

/// The node sets of a bind, where the nodes of some binds are kept by their numbers.
pub(crate) fn sets_of<A: Around>(
    alloc: Global,
    forest: &Forest,
    around: &A,
    binds: &[Bind],
    model: u32,
    reached: &[Option<NodeList>],
    bind: &Bind,
) -> Result<Standings, AllocError>
    requires fixed { list_all (λ b. is_fixed b.node_set) binds.now ≡ true }
    requires own { is_fixed bind.now.node_set ≡ true }
    requires around { AroundStands (A.given around.now) forest.now.forest.nodes }
    requires kept { AreKept (A.given around.now) binds.now model forest.now.forest.nodes reached.now }
    ensures sets { IfOk result (λ s. AreSets s.nodes s.places (sets_in (A.given around.now) binds.now model forest.now.forest.nodes bind.now)) }
    ensures shown { IfOk result (λ s. list_all (is_shown forest.now.forest.nodes) s.nodes ≡ true) }
{
    match bind.around {
        None => {
            let from = document(alloc, forest, around, model)?;
            sets_at(alloc, forest, around, &bind.node_set, model, &from)
        }
        Some(outer) => match kept_at(reached, outer) {
            Some(from) => sets_at(alloc, forest, around, &bind.node_set, model, from),
            None => {
                let from = through(alloc, forest, around, binds, model, outer)?;
                sets_at(alloc, forest, around, &bind.node_set, model, &from)
            }
        },
    }
}

/// The nodes that are kept of a bind.
fn kept_at(reached: &[Option<NodeList>], bind: u32) -> Option<&NodeList>
    ensures { option_map (λ n. n.now) result ≡ kept_in (slice_get reached.now bind) }
{
    match reached.get(bind as usize) {
        Some(Some(nodes)) => Some(nodes),
        _ => None,
    }
}

/// Whether the bind around a bind of this number stands before it, where there is one.
pub(crate) fn is_regular(around: Option<u32>, number: usize) -> bool
    ensures { result ≡ is_regular around number }
{
    match around {
        Some(outer) => (outer as usize) < number,
        None => true,
    }
}

/// The nodes of a bind.
fn through<A: Around>(
    alloc: Global,
    forest: &Forest,
    around: &A,
    binds: &[Bind],
    model: u32,
    bind: u32,
) -> Result<NodeList, AllocError>
    requires fixed { list_all (λ b. is_fixed b.node_set) binds.now ≡ true }
    requires around { AroundStands (A.given around.now) forest.now.forest.nodes }
    ensures value { IfOk result (λ found. through (A.given around.now) binds.now model forest.now.forest.nodes bind ≡ Some found) }
    ensures live { IfOk result (λ found. AllLive found forest.now.forest.nodes) }
{
    is_sound(forest);
    let Some(here) = binds.get(bind as usize) else {
        return document(alloc, forest, around, model);
    };
    let from = match outer_of(here, bind) {
        Some(outer) => through(alloc, forest, around, binds, model, outer)?,
        None => document(alloc, forest, around, model)?,
    };
    let sets = sets_at(alloc, forest, around, &here.node_set, model, &from)?;
    forest.in_order(&sets.nodes)
}

/// The bind around a bind of this number: it stands before it.
fn outer_of(bind: &Bind, number: u32) -> Option<u32>
    ensures value { result ≡ outer_in bind.now.around number }
    ensures before { IfSome result (λ outer. outer < number) }
{
    match bind.around {
        Some(outer) => { if outer < number { Some(outer) } else { None } }
        None => None,
    }
}

/// The document element of a model's first instance, alone, or none.
fn document<A: Around>(
    alloc: Global,
    forest: &Forest,
    around: &A,
    model: u32,
) -> Result<NodeList, AllocError>
    requires { AroundStands (A.given around.now) forest.now.forest.nodes }
    ensures value { IfOk result (λ found. found ≡ begun (scope_in (A.given around.now) [] model)) }
    ensures live { IfOk result (λ found. AllLive found forest.now.forest.nodes) }
{
    match around.instance(model, "") {
        Some(node) => single(alloc, node),
        None => Ok(NodeList::new(alloc)),
    }
}

/// The sets of a node set, one from each of these nodes.
fn sets_at<A: Around>(
    alloc: Global,
    forest: &Forest,
    around: &A,
    node_set: &Expr,
    model: u32,
    from: &NodeList,
) -> Result<Standings, AllocError>
    requires fixed { is_fixed node_set.now ≡ true }
    requires around { AroundStands (A.given around.now) forest.now.forest.nodes }
    requires from { AllLive from.now forest.now.forest.nodes }
    ensures sets { IfOk result (λ s. AreSets s.nodes s.places (sets_at (A.given around.now) forest.now.forest.nodes model node_set.now from.now)) }
    ensures shown { IfOk result (λ s. list_all (is_shown forest.now.forest.nodes) s.nodes ≡ true) }
{
    is_sound(forest);
    let mut sets = Standings::new(alloc);
    for node in from.as_slice() {
        let set = set_at(alloc, forest, around, node_set, model, *node)?;
        sets.add(&set)?;
    }
    Ok(sets)
}

/// The set from one node, which is the context node.
fn set_at<A: Around>(
    alloc: Global,
    forest: &Forest,
    around: &A,
    node_set: &Expr,
    model: u32,
    node: NodeId,
) -> Result<NodeList, AllocError>
    requires fixed { is_fixed node_set.now ≡ true }
    requires around { AroundStands (A.given around.now) forest.now.forest.nodes }
    requires live { IsLive node.number forest.now.forest }
    ensures value { IfOk result (λ set. set_from None (scope_in (A.given around.now) [] model) (shape_of forest.now.forest.nodes) (trace node_set.now) node.number ≡ Some set) }
    ensures shown { IfOk result (λ set. list_all (is_shown forest.now.forest.nodes) set ≡ true) }
    ensures apart { IfOk result (λ set. are_apart set ≡ true) }
{
    is_sound(forest);
    let context = Context {
        model,
        node,
        position: 1,
        size: 1,
        current: node,
    };
    selected(alloc, forest, node_set, &context, around)
}
