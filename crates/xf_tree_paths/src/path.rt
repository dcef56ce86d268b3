//! The paths of nodes with their instances.
ghost use Rattle.std.specs.Prelude.{◌≡◌, ◌++◌, IfOk};
ghost use Rattle.xf_def_forest.specs.Forest.{IsLive};
ghost use Rattle.xf_def_forest.specs.Visit.{visits};
ghost use Rattle.xf_def_forest.specs.Path.{path_of};
ghost use Rattle.xf_def_machine.specs.Properties.{braced};
ghost use Rattle.xf_tree_paths.specs.Holding.{IsPath};

use crate::holding::instance_holding;
use crate::pair::{braces_of, pair_among};
use std::alloc::{AllocError, Global};
use xf_def_forest::NodeId;
use xf_def_syntax::Instance;
use xf_name::Word;
use xf_tree::Forest;

/// The path of a node, with its instance before it where that is another than the first of the first model. A node that does not stand in
/// the forest has that of a root.
pub fn path_in(
    alloc: Global,
    instances: &[Instance],
    forest: &Forest,
    node: NodeId,
) -> Result<Word, AllocError>
    ensures { IfOk result (λ path. IsPath instances.now forest.now.forest node.number path) }
{
    if !forest.is_live(node) {
        return Word::from_str(alloc, "/");
    }
    if instances.len() > u32::MAX as usize {
        // No memory holds so many.
        return Err(AllocError);
    }
    match instance_holding(forest, instances.len() as u32, node) {
        Some(place) => path_with(alloc, pair_among(instances, place as usize), forest, node),
        None => forest.path(node),
    }
}

/// The path of a node, with the instance that has these numbers before it.
fn path_with(
    alloc: Global,
    pair: (u64, u64),
    forest: &Forest,
    node: NodeId,
) -> Result<Word, AllocError>
    requires { IsLive node.number forest.now.forest }
    ensures { IfOk result (λ path. path ≡ braced pair ++ path_of node.number (visits forest.now.forest.nodes)) }
{
    let mut text = braces_of(alloc, pair)?;
    let path = forest.path(node)?;
    text.push_str(path.as_str())?;
    Ok(Word::from_string(text))
}
