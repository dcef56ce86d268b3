//! Sets of nodes in document order.
ghost use Rattle.std.specs.Prelude.{◌≡◌, IfOk};
ghost use Rattle.xf_def_forest.specs.Order.{in_order};
ghost use Rattle.xf_def_forest.specs.Visit.{visits};

use crate::forest::Forest;
use std::alloc::AllocError;
use xf_def_forest::NodeList;
use xf_tree_walks::{copied, goes_up, sorted};

impl Forest {
    /// A set of nodes in document order, each once; one that is not live is not in it. It costs one pass where they stand in
    /// order already, else a sort.
    pub fn in_order(&self, nodes: &NodeList) -> Result<NodeList, AllocError>
        ensures { IfOk result (λ list. list ≡ in_order (visits self.now.forest.nodes) nodes.now) }
    {
        if goes_up(&self.rows, &self.slots, &self.hints, nodes.as_slice()) {
            return copied(self.alloc, nodes.as_slice());
        }
        sorted(
            self.alloc,
            &self.rows,
            &self.slots,
            &self.hints,
            nodes.as_slice(),
        )
    }

    /// The same of a list that is given away: where it is in document order already, each node once, it comes back itself, and no
    /// memory is taken.
    pub fn put_in_order(&self, nodes: NodeList) -> Result<NodeList, AllocError>
        ensures { IfOk result (λ list. list ≡ in_order (visits self.now.forest.nodes) nodes) }
    {
        if goes_up(&self.rows, &self.slots, &self.hints, nodes.as_slice()) {
            return Ok(nodes);
        }
        sorted(
            self.alloc,
            &self.rows,
            &self.slots,
            &self.hints,
            nodes.as_slice(),
        )
    }
}
