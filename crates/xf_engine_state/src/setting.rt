//! A text that is set at a node (XForms 1.1, section 10.2), and what its refusals mean.

ghost use Rattle.std.specs.Prelude.{◌≡◌, ◌<◌, ◌^◌, bytes_eq, length, nat_lt, IfOk, OnOk, OnErr};
ghost use Rattle.xf_def_forest.specs.Forest.{IsLive};
ghost use Rattle.xf_def_forest.specs.Needs.{IsSettable};
ghost use Rattle.xf_def_forest.specs.StringValue.{string_value};
ghost use Rattle.xf_def_forest.specs.Visit.{children_of, visits};
ghost use Rattle.xf_engine_state.specs.Setting.{AreMarked, IsBound, IsSet, MayBeSet, holder_of, is_other};

use crate::fault::WorkFault;
use crate::flags::{Flags, set_texts};
use crate::growing::NUMBERS;
use crate::planting::fault_of;
use std::alloc::{AllocError, Global};
use xf_binds::Table;
use xf_def_forest::{Kind, NodeId};
use xf_def_machine::Refusal;
use xf_def_syntax::Instance;
use xf_name::Axis;
use xf_tree::Forest;
use xf_tree_paths::{instance_holding, path_in};
use xf_undo::Draft;

/// Whether the text of a node may be set. An element with elements in it has none of its own: a binding exception (section 4.5.1). A binding
/// gives elements and attributes alone.
pub(crate) fn may_set(
    alloc: Global,
    instances: &[Instance],
    forest: &Forest,
    node: NodeId,
) -> Result<(), WorkFault>
    ensures { MayBeSet instances.now forest.now.forest node.number result }
{
    if forest.may_set_text(node) {
        return Ok(());
    }
    if !forest.is_live(node) {
        return Err(WorkFault::Memory);
    }
    match forest.kind(node) {
        Kind::Element => Err(bound(alloc, instances, forest, node)),
        Kind::Attribute => Err(bound(alloc, instances, forest, node)),
        Kind::Root => Err(WorkFault::Memory),
        Kind::Text => Err(WorkFault::Memory),
    }
}

fn bound(alloc: Global, instances: &[Instance], forest: &Forest, node: NodeId) -> WorkFault
    ensures { IsBound instances.now forest.now.forest node.number result }
{
    match path_in(alloc, instances, forest, node) {
        Ok(path) => WorkFault::Refused(Refusal::Binding(path)),
        Err(_) => WorkFault::Memory,
    }
}

/// Whether a text is another one than that of the node, or the node has several.
pub(crate) fn is_other(forest: &Forest, node: NodeId, text: &str) -> Result<bool, AllocError>
    requires { IsLive node.number forest.now.forest }
    ensures { IfOk result (λ other. other ≡ is_other (visits forest.now.forest.nodes) node.number text.now) }
{
    let is_same = is_value(forest, node, text)?;
    Ok(!is_same || has_children(forest, node))
}

/// Whether a text is the string value of a node: one of several pieces is put together.
fn is_value(forest: &Forest, node: NodeId, text: &str) -> Result<bool, AllocError>
    requires { IsLive node.number forest.now.forest }
    ensures { IfOk result (λ same. same ≡ bytes_eq (string_value node.number (visits forest.now.forest.nodes)) text.now) }
{
    if let Some(value) = forest.whole_value(node) {
        return Ok(value == text);
    }
    if text.len() > u32::MAX as usize {
        // No memory holds so many.
        return Err(AllocError);
    }
    match forest.string_value(node, text.len() as u32)? {
        Some(value) => Ok(value.is(text)),
        None => Ok(false),
    }
}

/// Whether a node has more than one child.
fn has_children(forest: &Forest, node: NodeId) -> bool
    requires { IsLive node.number forest.now.forest }
    ensures { result ≡ nat_lt 1 (length (children_of node.number (visits forest.now.forest.nodes))) }
{
    let mut walk = forest.axis(node, Axis::Child);
    match walk.next() {
        Some(_) => match walk.next() {
            Some(_) => true,
            None => false,
        },
        None => false,
    }
}

/// The model whose instance holds a node.
pub(crate) fn holder(
    instances: &[Instance],
    forest: &Forest,
    node: NodeId,
) -> Result<Option<u32>, AllocError>
    requires { IsLive node.number forest.now.forest }
    ensures { IfOk result (λ holder. holder ≡ holder_of instances.now forest.now.forest node.number) }
{
    if instances.len() > u32::MAX as usize {
        // No memory holds so many.
        return Err(AllocError);
    }
    match instance_holding(forest, instances.len() as u32, node) {
        Some(place) => Ok(Some(instances[place as usize].model)),
        None => Ok(None),
    }
}

/// Sets the text of a node. The answer is how many nodes were made.
pub(crate) fn set_text(draft: &mut Draft, node: NodeId, text: &str) -> Result<u128, WorkFault>
    requires { IsSettable node.number draft.old.now }
    ensures done { IsSet result node.number text.now draft.old draft.new }
    ensures few { OnOk result (draft.old.now.next < 2 ^ 126) }
    ensures err { OnErr result (draft.new ≡ draft.old) }
{
    let before = draft.forest().next_number();
    if before > NUMBERS {
        return Err(WorkFault::Memory);
    }
    match draft.set_text(node, text) {
        Ok(()) => Ok(draft.forest().next_number() - before),
        Err(fault) => Err(fault_of(fault)),
    }
}

/// Marks a node whose text was set, and flags what follows in the model that holds it.
pub(crate) fn mark(
    table: &mut Table,
    flags: &mut [Flags],
    holder: Option<u32>,
    node: NodeId,
    is_other: bool,
) -> Result<(), AllocError>
    requires { length table.old ≡ length flags.old }
    ensures ok { OnOk result (AreMarked holder is_other node.number table.old table.new flags.old flags.new) }
    ensures table { OnErr result (table.new ≡ table.old) }
    ensures flags { OnErr result (flags.new ≡ flags.old) }
{
    let Some(model) = holder else {
        return Ok(());
    };
    if model as usize >= flags.len() {
        return Ok(());
    }
    if is_other {
        table.mark_text(model, node)?;
    }
    set_texts(flags, model);
    Ok(())
}
