//! Why a model is not rebuilt.

use std::alloc::AllocError;
use xf_def_forest::{NodeId, NodeList};

/// Why a model is not rebuilt.
#[derive(Debug, Drop)]
pub enum RebuildFault {
    /// A property is set on a node that has it already.
    Twice(NodeId),
    /// A calculate is set on a node with element children.
    OnParent(NodeId),
    /// All entries read and look at more than 8,388,608 nodes.
    Edges,
    /// Calculates depend on each other in a ring: their nodes, each of which reads the next, and the last the first.
    Circular(NodeList),
    Memory,
}

impl From<AllocError> for RebuildFault {
    ghost use Rattle.std.specs.Prelude.{◌≡◌};
    ghost use Rattle.xf_binds_rebuild.specs.declared.fault.RebuildFault.TheVariants.{Memory};

    ghost from_gives = { λ _ e. e ≡ Memory };

    fn from(_: AllocError) -> Self {
        RebuildFault::Memory
    }
}
