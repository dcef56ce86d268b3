//! What the binds of a model set (XForms 1.1, sections 3.3.4 and 4.3.1): their node sets are selected over the shape of the data.

ghost use Rattle.std.specs.Prelude.{◌≡◌, ◌<◌, ◌+◌, ◌^◌, ◌∷◌, ◌++◌, [], true, length, slice_get, Some, OnOk};
ghost use Rattle.std.specs.List.{list_all};
ghost use Rattle.xf_def_forest.specs.Shape.{shape_of};
ghost use Rattle.xf_funcs.specs.Called.{called};
ghost use Rattle.xf_eval.specs.Live.{AroundStands};
ghost use Rattle.xf_eval_shape.specs.Fixed.{is_fixed};
ghost use Rattle.xf_def_model.specs.Applied.{applied, entries_by};
ghost use Rattle.xf_def_model.specs.Rules.{rule_of, scope_of};
ghost use Rattle.xf_binds.specs.Held.{entries_in};
ghost use Rattle.xf_binds_apply.specs.Adding.{Adds};
ghost use Rattle.xf_binds_apply.specs.Fault.{IsApplied};
ghost use Rattle.xf_binds_apply.specs.Reached.{AreKept, kept_if, scope_in};

use crate::adding::add_bind;
use crate::fault::BindFault;
use crate::sets::{is_regular, sets_of};
use std::alloc::{AllocError, Global};
use xf_binds::Applied;
use xf_def_forest::NodeList;
use xf_def_syntax::{Bind, Tables};
use xf_eval::Around;
use xf_eval_shape::is_sound;
use xf_tree::Forest;

/// The entries and types that the binds of the model set, in the order of the binds, or the first exception. The node sets of a model's
/// binds are selected once each, though other binds stand in them.
pub fn apply<A: Around>(
    alloc: Global,
    tables: &Tables,
    forest: &Forest,
    model: u32,
    around: &A,
) -> Result<Applied, BindFault>
    requires fixed { list_all (λ b. is_fixed b.node_set) tables.now.binds ≡ true }
    requires stands { AroundStands (A.given around.now) forest.now.forest.nodes }
    ensures { IsApplied result (applied (scope_of called (A.given around.now) tables.now model) forest.now.forest.nodes) }
{
    let binds = tables.binds.as_slice();
    if binds.len() > u32::MAX as usize {
        return Err(BindFault::Memory);
    }
    let mut reached = Vec::with_capacity(alloc, binds.len())?;
    let mut applied = Applied::new(alloc);
    for bind in binds {
        if bind.model != model {
            keep(&mut reached, false, NodeList::new(alloc))?;
            continue;
        }
        match apply_bind(
            alloc,
            forest,
            around,
            binds,
            model,
            &mut reached,
            &mut applied,
            bind,
        ) {
            Ok(()) => continue,
            Err(e) => return Err(e),
        }
    }
    Ok(applied)
}

/// Adds what the next bind sets, and keeps the nodes that it reached.
fn apply_bind<A: Around>(
    alloc: Global,
    forest: &Forest,
    around: &A,
    binds: &[Bind],
    model: u32,
    reached: &mut Vec<Option<NodeList>>,
    applied: &mut Applied,
    bind: &Bind,
) -> Result<(), BindFault>
    requires fixed { list_all (λ b. is_fixed b.node_set) binds.now ≡ true }
    requires stands { AroundStands (A.given around.now) forest.now.forest.nodes }
    requires short { length binds.now < 2 ^ 32 }
    requires here { slice_get binds.now (length reached.old.items) ≡ Some bind.now }
    requires kept { AreKept (A.given around.now) binds.now model forest.now.forest.nodes reached.old.items }
    ensures added { Adds (shape_of forest.now.forest.nodes) (entries_in applied.old) (entries_by (scope_in (A.given around.now) binds.now model) (shape_of forest.now.forest.nodes) (length reached.old.items) (rule_of bind.now)) (entries_in applied.new) result }
    ensures next { OnOk result (length reached.new.items ≡ length reached.old.items + 1) }
    ensures kept { OnOk result (AreKept (A.given around.now) binds.now model forest.now.forest.nodes reached.new.items) }
{
    is_sound(forest);
    let place = reached.len();
    let sets = sets_of(alloc, forest, around, binds, model, reached, bind)?;
    let nodes = forest.in_order(&sets.nodes)?;
    match add_bind(alloc, applied, forest, bind, place as u32, &sets, &nodes) {
        Ok(()) => {}
        Err(e) => return Err(e),
    }
    keep(reached, is_regular(bind.around, place), nodes)?;
    Ok(())
}

/// Goes on to the next bind. Its nodes are kept where they are those of its bind.
fn keep(
    reached: &mut Vec<Option<NodeList>>,
    is_kept: bool,
    nodes: NodeList,
) -> Result<(), AllocError>
    ensures { OnOk result (reached.new.items ≡ reached.old.items ++ kept_if is_kept nodes ∷ []) }
{
    if is_kept {
        reached.push(Some(nodes))?;
        return Ok(());
    }
    reached.push(None)?;
    Ok(())
}
