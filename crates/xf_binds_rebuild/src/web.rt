//! What the entries of a model ask of the data (XForms 1.1, section 4.3.1 and appendix C).

ghost use Rattle.std.specs.Prelude.{◌≡◌, ◌++◌, ◌<◌, ◌^◌, true, map, slice_get, IfOk, OnOk};
ghost use Rattle.std.specs.List.{list_all};
ghost use Rattle.xf_def_forest.specs.Forest.{IsLive};
ghost use Rattle.xf_def_forest.specs.Shape.{shape_of};
ghost use Rattle.xf_def_forest.specs.Visit.{ancestors_of, visits};
ghost use Rattle.xf_funcs.specs.Called.{called};
ghost use Rattle.xf_def_model.specs.Applied.{is_property};
ghost use Rattle.xf_def_model.specs.Rules.{scope_of};
ghost use Rattle.xf_eval.specs.Live.{AroundStands};
ghost use Rattle.xf_binds.specs.Held.{entries_in, entry_of};
ghost use Rattle.xf_binds_rebuild.specs.Found.{asks_at, holds_at, is_small, is_there};
ghost use Rattle.xf_binds_rebuild.specs.Static.{AreFixed};
ghost use Rattle.xf_binds_rebuild.specs.Web.{asks_of, no_asks};

use crate::expression::expression_of;
use std::alloc::{AllocError, Global};
use xf_binds::{Applied, Asks, Entry, Web};
use xf_def_forest::{NodeId, NodeList};
use xf_def_model::Property;
use xf_def_syntax::Tables;
use xf_eval::{Around, Context};
use xf_eval_dependencies::asks;
use xf_eval_shape::is_sound;
use xf_tree::Forest;

/// What each entry asks, in their order.
pub(crate) fn web_of<A: Around>(
    alloc: Global,
    tables: &Tables,
    forest: &Forest,
    model: u32,
    applied: &Applied,
    around: &A,
) -> Result<Web, AllocError>
    requires fixed { AreFixed tables.now.binds }
    requires stands { AroundStands (A.given around.now) forest.now.forest.nodes }
    requires there { list_all (is_there forest.now.forest.nodes) (entries_in applied.now) ≡ true }
    ensures web { IfOk result (λ web. web ≡ map (asks_of (scope_of called (A.given around.now) tables.now model) (shape_of forest.now.forest.nodes)) (entries_in applied.now)) }
    ensures small { OnOk result (list_all is_small (entries_in applied.now) ≡ true) }
{
    let mut web = Web::new(alloc);
    for at in 0..applied.len() {
        push_asks(alloc, tables, forest, model, applied, at, around, &mut web)?;
    }
    Ok(web)
}

/// Adds what the entry at a place asks.
fn push_asks<A: Around>(
    alloc: Global,
    tables: &Tables,
    forest: &Forest,
    model: u32,
    applied: &Applied,
    at: usize,
    around: &A,
    web: &mut Web,
) -> Result<(), AllocError>
    requires fixed { AreFixed tables.now.binds }
    requires stands { AroundStands (A.given around.now) forest.now.forest.nodes }
    requires there { holds_at (is_there forest.now.forest.nodes) (slice_get (entries_in applied.now) at) ≡ true }
    ensures web { OnOk result (web.new ≡ web.old ++ asks_at (scope_of called (A.given around.now) tables.now model) (shape_of forest.now.forest.nodes) (slice_get (entries_in applied.now) at)) }
    ensures small { holds_at is_small (slice_get (entries_in applied.now) at) ≡ true }
{
    match applied.entry(at) {
        Some(entry) => {
            fits(entry.node.number);
            let asks = asks_of(alloc, tables, forest, model, entry, around)?;
            web.push(asks)
        }
        None => Ok(()),
    }
}

/// A number of the machine is less than those of texts of a shape. This tells contracts so, and does nothing.
fn fits(number: u128)
    ensures { number < 2 ^ 128 }
{
    let _ = number;
}

/// What an entry asks; a type asks nothing.
fn asks_of<A: Around>(
    alloc: Global,
    tables: &Tables,
    forest: &Forest,
    model: u32,
    entry: Entry,
    around: &A,
) -> Result<Asks, AllocError>
    requires fixed { AreFixed tables.now.binds }
    requires stands { AroundStands (A.given around.now) forest.now.forest.nodes }
    requires there { is_there forest.now.forest.nodes (entry_of entry) ≡ true }
    ensures { IfOk result (λ asks. asks ≡ asks_of (scope_of called (A.given around.now) tables.now model) (shape_of forest.now.forest.nodes) (entry_of entry)) }
{
    is_sound(forest);
    fits(entry.node.number);
    if is_type(entry.property) {
        return Ok(nothing(alloc));
    }
    let above = above(alloc, forest, entry.node)?;
    match expression_of(tables.binds.as_slice(), entry) {
        Some(expr) => {
            let context = Context {
                model,
                node: entry.node,
                position: entry.position,
                size: entry.size,
                current: entry.node,
            };
            let (reads, looks) = asks(alloc, forest, expr, &context, around)?;
            Ok(Asks {
                reads,
                looks,
                above,
            })
        }
        None => Ok(Asks {
            reads: NodeList::new(alloc),
            looks: NodeList::new(alloc),
            above,
        }),
    }
}

fn is_type(property: Property) -> bool
    ensures { result ≡ is_property property Property.Kind }
{
    property == Property::Kind
}

fn nothing(alloc: Global) -> Asks
    ensures { result ≡ no_asks }
{
    Asks {
        reads: NodeList::new(alloc),
        looks: NodeList::new(alloc),
        above: NodeList::new(alloc),
    }
}

/// The ancestors of a node, the nearest first.
fn above(alloc: Global, forest: &Forest, node: NodeId) -> Result<NodeList, AllocError>
    requires { IsLive node.number forest.now.forest }
    ensures { IfOk result (λ nodes. nodes ≡ ancestors_of node.number (visits forest.now.forest.nodes)) }
{
    is_sound(forest);
    let mut above = NodeList::new(alloc);
    let mut next = forest.parent(node);
    while let Some(ancestor) = next {
        above.push(ancestor)?;
        next = forest.parent(ancestor);
    }
    Ok(above)
}
