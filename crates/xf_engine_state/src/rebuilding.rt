//! The rebuild of a model (XForms 1.1, section 4.3.1), and what its refusals mean.

ghost use Rattle.std.specs.Prelude.{◌≡◌, ◌<◌, length, IfOk, OnErr, OnOk};
ghost use Rattle.xf_binds.specs.Table.{all_rolled_back};
ghost use Rattle.xf_engine_state.specs.Built.{IsRenewed, scope_at};
ghost use Rattle.xf_engine_state.specs.Calls.{Rebuilds};
ghost use Rattle.xf_engine_state.specs.Known.{KeepsMarks};
ghost use Rattle.xf_engine_state.specs.Parts.{IsLoaded};
ghost use Rattle.xf_engine_state.specs.Told.{ArePaths, IsTold, numbers};

use crate::around::{Quiet, documents};
use crate::fault::WorkFault;
use std::alloc::{AllocError, Global};
use xf_base::Items;
use xf_binds::Table;
use xf_binds_rebuild::{RebuildFault, rebuild as rebuild_table};
use xf_def_forest::NodeId;
use xf_def_machine::{LimitWord, PathList, Refusal};
use xf_def_syntax::Instance;
use xf_form::Loaded;
use xf_tree::Forest;
use xf_tree_paths::path_in;

/// Applies the binds of a model, and keeps what they set.
pub(crate) fn rebuild(
    alloc: Global,
    loaded: &Loaded,
    forest: &Forest,
    model: u32,
    table: &mut Table,
) -> Result<(), WorkFault>
    requires loaded { IsLoaded loaded.now }
    requires model { model < length table.old }
    ensures done { Rebuilds loaded.now forest.now.forest model table.old table.new result }
    ensures built { OnOk result (IsRenewed (scope_at loaded.now forest.now.forest model) forest.now.forest.nodes table.old table.new) }
    ensures marks { OnOk result (KeepsMarks table.old table.new) }
    ensures err { OnErr result (table.new ≡ table.old) }
    ensures kept { all_rolled_back table.new ≡ all_rolled_back table.old }
    ensures models { length table.new ≡ length table.old }
{
    let instances = loaded.form.tables.instances.as_slice();
    let documents = documents(alloc, instances, forest)?;
    let around = Quiet {
        instances,
        prefixes: &loaded.prefixes,
        decimals: loaded.form.decimals,
        documents: documents.as_slice(),
    };
    match rebuild_table(alloc, &loaded.form.tables, forest, model, table, &around) {
        Ok(()) => Ok(()),
        Err(fault) => Err(told(alloc, instances, forest, fault)),
    }
}

/// Why a model is not rebuilt.
fn told(alloc: Global, instances: &[Instance], forest: &Forest, fault: RebuildFault) -> WorkFault
    ensures { IsTold instances.now forest.now.forest fault result }
{
    match fault {
        RebuildFault::Twice(node) => match path_in(alloc, instances, forest, node) {
            Ok(path) => WorkFault::Refused(Refusal::PropertyTwice(path)),
            Err(_) => WorkFault::Memory,
        },
        RebuildFault::OnParent(node) => match path_in(alloc, instances, forest, node) {
            Ok(path) => WorkFault::Refused(Refusal::CalculateOnParent(path)),
            Err(_) => WorkFault::Memory,
        },
        RebuildFault::Edges => WorkFault::Refused(Refusal::Limit(LimitWord::Edges)),
        RebuildFault::Circular(nodes) => match paths_in(
            alloc,
            instances,
            forest,
            nodes.as_slice(),
        ) {
            Ok(paths) => WorkFault::Refused(Refusal::Circular(paths)),
            Err(_) => WorkFault::Memory,
        },
        RebuildFault::Memory => WorkFault::Memory,
    }
}

/// The paths of nodes.
fn paths_in(
    alloc: Global,
    instances: &[Instance],
    forest: &Forest,
    nodes: &[NodeId],
) -> Result<PathList, AllocError>
    ensures { IfOk result (λ paths. ArePaths instances.now forest.now.forest (numbers nodes.now) paths) }
{
    let mut paths = Items::new(alloc);
    for node in nodes {
        paths.push(path_in(alloc, instances, forest, *node)?)?;
    }
    Ok(paths)
}
