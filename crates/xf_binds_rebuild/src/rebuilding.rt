//! The rebuild of a model (XForms 1.1, section 4.3.1).

ghost use Rattle.std.specs.Prelude.{◌≡◌, ◌<◌, true, map, length, Ok, IfOk, OnErr};
ghost use Rattle.std.specs.List.{list_all};
ghost use Rattle.xf_def_forest.specs.Shape.{shape_of};
ghost use Rattle.xf_funcs.specs.Called.{called};
ghost use Rattle.xf_def_model.specs.Applied as defined;
ghost use Rattle.xf_def_model.specs.Rules.{Scope, scope_of};
ghost use Rattle.xf_eval.specs.Live.{AroundStands};
ghost use Rattle.xf_binds.specs.Held.{entries_in};
ghost use Rattle.xf_binds.specs.Turns.{AreInTurn};
ghost use Rattle.xf_binds_rebuild.specs.Found.{is_small, is_there};
ghost use Rattle.xf_binds_rebuild.specs.Rebuilt.{IsRebuilt, fault_of, rebuilt, table_with};
ghost use Rattle.xf_binds_rebuild.specs.Web.{asks_of};
ghost use Rattle.xf_binds_rebuild.specs.Static.{AreFixed};

use crate::fault::RebuildFault;
use crate::ring::{Sorting, sort_nodes};
use crate::web::web_of;
use std::alloc::Global;
use xf_base::limits::EDGE_LIMIT;
use xf_binds::{Applied, Ordered, Table, Web};
use xf_binds_apply::{BindFault, apply};
use xf_def_forest::NodeList;
use xf_def_syntax::Tables;
use xf_eval::Around;
use xf_eval_shape::is_sound;
use xf_tree::Forest;

/// Applies the binds of a model, and keeps its entries and what they ask in the table. After an `Err` the table is as it was.
pub fn rebuild<A: Around>(
    alloc: Global,
    tables: &Tables,
    forest: &Forest,
    model: u32,
    table: &mut Table,
    around: &A,
) -> Result<(), RebuildFault>
    requires model { model < length table.old }
    requires fixed { AreFixed tables.now.binds }
    requires stands { AroundStands (A.given around.now) forest.now.forest.nodes }
    ensures answer { IsRebuilt table.new result (rebuilt (scope_of called (A.given around.now) tables.now model) forest.now.forest.nodes table.old) }
    ensures err { OnErr result (table.new ≡ table.old) }
{
    let applied = match apply(alloc, tables, forest, model, around) {
        Ok(applied) => applied,
        Err(fault) => return Err(fault_of(fault)),
    };
    let web = web_of(alloc, tables, forest, model, &applied, around)?;
    match checked(alloc, forest, model, table, &applied, &web) {
        Ok(order) => {
            let present = Ordered::of(alloc, applied, web, order)?;
            table.rebuild(model, present);
            Ok(())
        }
        Err(fault) => Err(fault),
    }
}

/// Whether these entries of a model may stand: all entries do not ask too much, and no calculates depend on each other in a ring. The answer is
/// the nodes of the calculates, none before one that its calculate reads.
fn checked(
    alloc: Global,
    forest: &Forest,
    model: u32,
    table: &Table,
    applied: &Applied,
    web: &Web,
) -> Result<NodeList, RebuildFault>
    requires there { list_all (is_there forest.now.forest.nodes) (entries_in applied.now) ≡ true }
    requires small { list_all is_small (entries_in applied.now) ≡ true }
    ensures answer { (scope : Scope) → scope.model ≡ model → defined.applied scope forest.now.forest.nodes ≡ Ok (entries_in applied.now)
        → web.now ≡ map (asks_of scope (shape_of forest.now.forest.nodes)) (entries_in applied.now) → list_all is_small (entries_in applied.now) ≡ true
        → IsRebuilt (table_with table.now model (entries_in applied.now) web.now) result (rebuilt scope forest.now.forest.nodes table.now) }
    ensures turns { IfOk result (AreInTurn (entries_in applied.now) web.now) }
{
    is_sound(forest);
    if table.asked_with(model, web) > EDGE_LIMIT {
        return Err(RebuildFault::Edges);
    }
    let sorting = sort_nodes(alloc, forest, applied, web)?;
    match sorting {
        Sorting::Ring(nodes) => Err(RebuildFault::Circular(nodes)),
        Sorting::InTurn(nodes) => Ok(nodes),
    }
}

/// Why the binds are not applied, as it is told of the rebuild.
fn fault_of(fault: BindFault) -> RebuildFault
    ensures { result ≡ fault_of fault }
{
    match fault {
        BindFault::Twice(node) => RebuildFault::Twice(node),
        BindFault::OnParent(node) => RebuildFault::OnParent(node),
        BindFault::Memory => RebuildFault::Memory,
    }
}
