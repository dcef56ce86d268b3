//! What is read of a node: what it is, its texts, where it stands, the top of its tree, its path.
ghost use Rattle.std.specs.Prelude.{◌≡◌, option_map, IfOk};
ghost use Rattle.xf_def_forest.specs.Changes.{standing};
ghost use Rattle.xf_def_forest.specs.Forest.{IsLive, content_at};
ghost use Rattle.xf_def_forest.specs.Order.{rank_of};
ghost use Rattle.xf_def_forest.specs.StringValue.{pieces, whole};
ghost use Rattle.xf_def_forest.specs.Visit.{visits, top_of};
ghost use Rattle.xf_def_forest.specs.Path.{path_of};
ghost use Rattle.xf_tree_contents.specs.Seen.{seen_content};

use crate::forest::Forest;
use std::alloc::AllocError;
use xf_def_forest::NodeId;
use xf_name::Word;
use xf_tree_contents::{Seen, content_of, number_of};
use xf_tree_rows::parent_row;
use xf_tree_walks::{Pieces, no_pieces, path_at, pieces_at, place_of, row_of, top_row, whole_at};

impl Forest {
    /// What the node is: its kind, its name as it is resolved and as it is written, its own text. `None` where it is not live.
    pub fn content(&self, node: NodeId) -> Option<Seen<'_>>
        ensures { option_map seen_content result ≡ content_at node.number self.now.forest.nodes }
    {
        match row_of(&self.rows, &self.slots, &self.hints, node) {
            Some(at) => content_of(&self.slots, self.rows.at(at).key),
            None => None,
        }
    }

    /// The texts that make the string value up, one by one: none is empty. Takes no memory.
    pub fn pieces(&self, node: NodeId) -> Pieces<'_>
        ensures { result ≡ pieces node.number (visits self.now.forest.nodes) }
    {
        match row_of(&self.rows, &self.slots, &self.hints, node) {
            Some(at) => pieces_at(&self.rows, &self.slots, at),
            None => no_pieces(&self.rows, &self.slots),
        }
    }

    /// The string value where it is one text of the forest, or empty: `None` where it has several pieces. Takes no memory.
    pub fn whole_value(&self, node: NodeId) -> Option<&str>
        ensures { option_map (λ text. text.now) result ≡ whole (pieces node.number (visits self.now.forest.nodes)) }
    {
        match row_of(&self.rows, &self.slots, &self.hints, node) {
            Some(at) => whole_at(&self.rows, &self.slots, at),
            None => Some(""),
        }
    }

    /// How many nodes stand before it. It holds until the forest changes.
    pub fn rank(&self, node: NodeId) -> usize
        requires { IsLive node.number self.now.forest }
        ensures { result ≡ rank_of node.number self.now.forest.nodes }
    {
        match row_of(&self.rows, &self.slots, &self.hints, node) {
            Some(at) => at,
            None => 0,
        }
    }

    /// The parent of a node and its place there: how many children stand before it, or for an attribute how many attributes.
    pub fn standing(&self, node: NodeId) -> Option<(NodeId, u32)>
        ensures { option_map (λ r. (r.0.number, r.1)) result ≡ standing node.number self.now.forest.nodes }
    {
        let at = row_of(&self.rows, &self.slots, &self.hints, node)?;
        let above = parent_row(&self.rows, &self.hints, at)?;
        let key = self.rows.at(above).key;
        let number = number_of(&self.slots, key);
        let place = place_of(&self.rows, &self.slots, above, at);
        Some((NodeId { number, place: key }, place))
    }

    /// The path of a node, from the top of its tree: a location path (XPath 1.0, section 2.5) where prefixes are known.
    pub fn path(&self, node: NodeId) -> Result<Word, AllocError>
        requires { IsLive node.number self.now.forest }
        ensures { IfOk result (λ text. text ≡ path_of node.number (visits self.now.forest.nodes)) }
    {
        match row_of(&self.rows, &self.slots, &self.hints, node) {
            Some(at) => path_at(self.alloc, &self.rows, &self.slots, &self.hints, at),
            None => Ok(Word::new(self.alloc)),
        }
    }

    /// The top of a node's tree: the root of its instance, or the top of a detached tree.
    pub fn top(&self, node: NodeId) -> NodeId
        requires { IsLive node.number self.now.forest }
        ensures { result.number ≡ top_of node.number (visits self.now.forest.nodes) }
    {
        match row_of(&self.rows, &self.slots, &self.hints, node) {
            Some(at) => {
                let top = top_row(&self.rows, &self.hints, at);
                let place = self.rows.at(top).key;
                NodeId {
                    number: number_of(&self.slots, place),
                    place,
                }
            }
            None => node,
        }
    }
}
