//! Why the binds of a model are not applied.

use std::alloc::AllocError;
use xf_def_forest::NodeId;

/// Why the binds of a model are not applied (XForms 1.1, sections 4.5.1 and 6.1).
#[derive(Clone, Copy, Debug)]
pub enum BindFault {
    /// A property is set on a node that has it already.
    Twice(NodeId),
    /// A calculate is set on a node with element children.
    OnParent(NodeId),
    Memory,
}

impl From<AllocError> for BindFault {
    ghost use Rattle.std.specs.Prelude.{◌≡◌};
    ghost use Rattle.xf_binds_apply.specs.declared.fault.BindFault.TheVariants.{Memory};

    ghost from_gives = { λ _ e. e ≡ Memory };

    fn from(_: AllocError) -> Self {
        BindFault::Memory
    }
}
