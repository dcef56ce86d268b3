//! Why a change of a forest was refused.

use std::alloc::{AllocError, AllocFailed};

/// Why a change of a forest was refused. The forest is then as it was.
#[derive(Clone, Copy, Debug, PartialEq, Eq)]
pub enum TreeFault {
    /// A name is none, or two attributes of an element have the same one.
    BadName,
    /// The form has no such prefix or default namespace, or the prefix means another.
    Prefix,
    /// The forest would have more than 65,536 elements, attributes and texts.
    Nodes,
    /// A text or attribute would have more than 65,536 bytes.
    NodeText,
    /// Texts, attributes, prefixes and local names would have more than 4 MiB together.
    AllText,
    /// An element would stand more than 100 elements deep.
    Depth,
    Memory,
}

impl From<AllocError> for TreeFault {
    ghost use Rattle.std.specs.Prelude.{◌≡◌};
    ghost use Rattle.xf_def_forest.specs.declared.fault.TreeFault.TheVariants.{Memory};

    ghost from_gives = { λ _ e. e ≡ Memory };

    fn from(_: AllocError) -> Self {
        TreeFault::Memory
    }
}

impl<T: Drop> From<AllocFailed<T>> for TreeFault {
    ghost use Rattle.std.specs.Prelude.{◌≡◌};
    ghost use Rattle.xf_def_forest.specs.declared.fault.TreeFault.TheVariants.{Memory};

    ghost from_gives = { λ _ e. e ≡ Memory };

    fn from(_: AllocFailed<T>) -> Self {
        TreeFault::Memory
    }
}
