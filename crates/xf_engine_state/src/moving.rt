//! Trees that come and go in the data (XForms 1.1, sections 10.3 and 10.4), over the parts that an engine keeps.

ghost use Rattle.std.specs.Prelude.{◌≡◌, ◌<◌, ◌^◌, length, None, IfOk, IsTrue, OnOk, OnErr};
ghost use Rattle.xf_def_forest.specs.Changes.{copied};
ghost use Rattle.xf_def_forest.specs.Forest.{tree_of};
ghost use Rattle.xf_def_forest.specs.Limits.{limits};
ghost use Rattle.xf_def_forest.specs.Needs.{MayAttach, MayCopy};
ghost use Rattle.xf_def_forest.specs.Plant.{contents_of};
ghost use Rattle.xf_def_forest.specs.Planted.{contents_of_bare, lit_fault, with_tree};
ghost use Rattle.xf_def_forest.specs.WellFormed.{HasTrees};
ghost use Rattle.xf_engine_state.specs.Moving.{AreListed, IsBetween, IsCopyable, IsGrownBy, IsMovable, IsPlaced, MayCome, MayGo};

use crate::fault::WorkFault;
use crate::flags::Flags;
use crate::growing::{NUMBERS, grown};
use crate::planting::fault_of;
use crate::setting::holder;
use crate::tally::Tally;
use std::alloc::AllocError;
use xf_binds::Table;
use xf_def_forest::{Bare, Kind, NodeId};
use xf_def_syntax::Instance;
use xf_name::{Lit, Prefixes};
use xf_tree::Forest;
use xf_undo::Draft;

/// The data are trees, and their numbers have 128 bits. This tells contracts so, and does nothing.
pub(crate) fn are_counted(forest: &Forest)
    ensures trees { HasTrees forest.now.forest }
    ensures few { forest.now.forest.next < 2 ^ 128 }
{
    forest.are_trees();
    let _ = forest.next_number();
}

/// Whether a copy of the tree of a node may be made: an insert copies elements and attributes.
pub(crate) fn is_copyable(forest: &Forest, node: NodeId) -> bool
    ensures { IsTrue result → IsCopyable node.number forest.now.forest }
{
    forest.may_copy(node) && is_movable(forest, node)
}

fn is_movable(forest: &Forest, node: NodeId) -> bool
    ensures { IsTrue result → IsMovable node.number forest.now.forest }
{
    if !forest.is_live(node) {
        return false;
    }
    match forest.kind(node) {
        Kind::Element => true,
        Kind::Attribute => true,
        Kind::Root => false,
        Kind::Text => false,
    }
}

/// The model that holds a parent, below which a detached tree may come.
pub(crate) fn parent_to_come(
    instances: &[Instance],
    forest: &Forest,
    node: NodeId,
    parent: NodeId,
    place: u32,
) -> Result<Option<u32>, AllocError>
    ensures { IfOk result (λ holder. MayCome instances.now node.number parent.number place forest.now.forest holder) }
{
    if !forest.may_attach(node, parent, place) {
        // A tree goes where it was found that it may.
        return Err(AllocError);
    }
    holder(instances, forest, parent)
}

/// The parent of a tree that may be cut off, and the model that holds it.
pub(crate) fn parent_to_leave(
    instances: &[Instance],
    forest: &Forest,
    node: NodeId,
) -> Result<(NodeId, Option<u32>), AllocError>
    ensures { IfOk result (λ found. MayGo instances.now node.number forest.now.forest found.0.number found.1) }
{
    if !forest.may_detach(node) {
        // A tree is cut off where it was found that it may.
        return Err(AllocError);
    }
    let Some(parent) = forest.parent(node) else {
        unreachable!();
    };
    match holder(instances, forest, parent) {
        Ok(holder) => Ok((parent, holder)),
        Err(fault) => Err(fault),
    }
}

/// Marks a parent whose list of attributes and children is another one, and flags all behaviours of the model that holds it: before the list
/// changes, so that nothing is promised of what is built where the change fails.
pub(crate) fn mark_list(
    table: &mut Table,
    flags: &mut [Flags],
    holder: Option<u32>,
    parent: NodeId,
) -> Result<(), AllocError>
    requires { length table.old ≡ length flags.old }
    ensures ok { OnOk result (AreListed holder parent.number table.old table.new flags.old flags.new) }
    ensures table { OnErr result (table.new ≡ table.old) }
    ensures flags { OnErr result (flags.new ≡ flags.old) }
{
    let Some(model) = holder else {
        return Ok(());
    };
    let at = model as usize;
    if at >= flags.len() {
        // An instance is one of a model of the form.
        return Err(AllocError);
    }
    table.mark_list(model, parent)?;
    flags[at] = Flags {
        rebuild: true,
        recalculate: true,
        revalidate: true,
        refresh: true,
    };
    Ok(())
}

/// A copy of the tree of a node comes as a detached one, and is counted. The answer is its top.
pub(crate) fn copy_in(
    draft: &mut Draft,
    tally: &mut Tally,
    node: NodeId,
) -> Result<NodeId, WorkFault>
    requires { MayCopy node.number draft.old.now }
    ensures done { IsGrownBy result (length (tree_of node.number draft.old.now.nodes)) (copied limits node.number draft.old.now) draft.new tally.old tally.new }
    ensures between { IsBetween draft.old draft.new (copied limits node.number draft.old.now) }
    ensures tally { OnErr result (tally.new ≡ tally.old) }
{
    let before = draft.forest().next_number();
    if before > NUMBERS {
        return Err(WorkFault::Memory);
    }
    match draft.copy(node) {
        Ok(top) => {
            let made = draft.forest().next_number() - before;
            *tally = grown(*tally, made, 0)?;
            Ok(top)
        }
        Err(fault) => Err(fault_of(fault)),
    }
}

/// A tree with resolved names comes as a detached one, and is counted. The answer is its top.
pub(crate) fn plant_in(
    draft: &mut Draft,
    tally: &mut Tally,
    tree: &Bare,
    prefixes: &Prefixes,
) -> Result<NodeId, WorkFault>
    ensures done { IsGrownBy result (length (contents_of_bare prefixes.now tree.now 0 0)) (with_tree limits (contents_of_bare prefixes.now tree.now 0 0) draft.old.now) draft.new tally.old tally.new }
    ensures between { IsBetween draft.old draft.new (with_tree limits (contents_of_bare prefixes.now tree.now 0 0) draft.old.now) }
    ensures tally { OnErr result (tally.new ≡ tally.old) }
{
    let before = draft.forest().next_number();
    if before > NUMBERS {
        return Err(WorkFault::Memory);
    }
    match draft.plant_bare(tree, prefixes) {
        Ok(top) => {
            let made = draft.forest().next_number() - before;
            *tally = grown(*tally, made, 0)?;
            Ok(top)
        }
        Err(fault) => Err(fault_of(fault)),
    }
}

/// A literal tree, whose names have no fault, comes as a detached one, and is counted. The answer is its top.
pub(crate) fn plant_literal_in(
    draft: &mut Draft,
    tally: &mut Tally,
    lit: &Lit,
    prefixes: &Prefixes,
) -> Result<NodeId, WorkFault>
    requires { lit_fault prefixes.now lit.now ≡ None }
    ensures done { IsGrownBy result (length (contents_of prefixes.now lit.now 0 0)) (with_tree limits (contents_of prefixes.now lit.now 0 0) draft.old.now) draft.new tally.old tally.new }
    ensures between { IsBetween draft.old draft.new (with_tree limits (contents_of prefixes.now lit.now 0 0) draft.old.now) }
    ensures tally { OnErr result (tally.new ≡ tally.old) }
{
    let before = draft.forest().next_number();
    if before > NUMBERS {
        return Err(WorkFault::Memory);
    }
    match draft.plant(lit, prefixes, 0) {
        Ok(top) => {
            let made = draft.forest().next_number() - before;
            *tally = grown(*tally, made, 0)?;
            Ok(top)
        }
        Err(fault) => Err(fault_of(fault)),
    }
}

/// A detached tree comes below a parent.
pub(crate) fn attach_in(
    draft: &mut Draft,
    node: NodeId,
    parent: NodeId,
    place: u32,
) -> Result<(), WorkFault>
    requires { MayAttach node.number parent.number place draft.old.now }
    ensures done { IsPlaced result node.number parent.number place draft.old draft.new }
    ensures err { OnErr result (draft.new ≡ draft.old) }
{
    match draft.attach(node, parent, place) {
        Ok(()) => Ok(()),
        Err(fault) => Err(fault_of(fault)),
    }
}
