//! What is known of the nodes that elements bind.

ghost use Rattle.std.specs.Prelude.{◌≡◌, None, Some};
ghost use Rattle.xf_controls.specs.Known as spec;

use xf_base::Items;
use xf_def_forest::NodeId;

/// What is known of the node that an element binds.
#[derive(Clone, Copy, Debug)]
pub enum Known {
    Unknown,
    /// It binds this node, or none.
    Is(Option<NodeId>),
}

/// What is known of each element, at the place of its number. Of those past the end nothing is known.
pub type KnownList = Items<Known>;

/// What is known of the node of an element. Nothing is asked but of controls and containers.
pub(crate) fn known_for(known: &[Known], element: u32, is_control: bool) -> Option<Option<NodeId>>
    ensures { result ≡ spec.known_for known.now element is_control }
{
    if !is_control {
        return None;
    }
    match known.get(element as usize) {
        Some(known) => known_as(*known),
        None => None,
    }
}

fn known_as(known: Known) -> Option<Option<NodeId>>
    ensures { result ≡ spec.known_if (Some known) }
{
    match known {
        Known::Unknown => None,
        Known::Is(node) => Some(node),
    }
}
