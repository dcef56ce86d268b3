//! Whether what a change needs holds, for a caller who cannot know it. A node that does not stand in the forest may nothing.
ghost use Rattle.std.specs.Prelude.{◌≡◌, ◌↔◌, Some, IsTrue, is_some, length, nat_le};
ghost use Rattle.xf_def_forest.specs.Forest.{has_number, kind_at, tree_of};
ghost use Rattle.xf_def_forest.specs.Needs.{MayCopy, MayRoot, MayDetach, MayAttach, MayStand, MayDropFrom, IsSettable, is_top, lacks_name};
ghost use Rattle.xf_def_forest.specs.Shape.{has_elements};
ghost use Rattle.xf_def_forest.specs.Visit.{visits, parent_of, children_of};

use crate::forest::Forest;
use xf_def_forest::{Kind, NodeId};
use xf_tree_changes::are_whole;
use xf_tree_contents::{is_root_at, kind};
use xf_tree_rows::{end_of, parent_row};
use xf_tree_walks::{has_attribute, has_children, has_element, row_of};

impl Forest {
    /// Whether a copy can be made of the node's tree.
    pub fn may_copy(&self, node: NodeId) -> bool
        ensures { IsTrue result ↔ MayCopy node.number self.now.forest }
    {
        match row_of(&self.rows, &self.slots, &self.hints, node) {
            Some(at) => !is_root_at(&self.slots, self.rows.at(at).key),
            None => false,
        }
    }

    /// Whether a root can come over the node's tree.
    pub fn may_root(&self, top: NodeId) -> bool
        ensures { IsTrue result ↔ MayRoot top.number self.now.forest }
    {
        self.is_top(top) && self.is_of_kind(top, Kind::Element)
    }

    /// Whether the node's tree can be cut off.
    pub fn may_detach(&self, node: NodeId) -> bool
        ensures { IsTrue result ↔ MayDetach node.number self.now.forest }
    {
        self.has_parent(node)
            && (self.is_of_kind(node, Kind::Element) || self.is_of_kind(node, Kind::Attribute))
    }

    /// Whether the node's tree can come below a parent, at this place.
    pub fn may_attach(&self, node: NodeId, parent: NodeId, place: u32) -> bool
        ensures { IsTrue result ↔ MayAttach node.number parent.number place self.now.forest }
    {
        self.is_top(node) && !self.is_inside(node, parent) && self.may_stand(node, parent, place)
    }

    /// Whether the node's text can be set.
    pub fn may_set_text(&self, node: NodeId) -> bool
        ensures { IsTrue result ↔ IsSettable node.number self.now.forest }
    {
        (self.is_of_kind(node, Kind::Attribute) || self.is_of_kind(node, Kind::Element))
            && !self.has_elements(node)
    }

    /// Whether the nodes with this number or a later one stand in trees of their own, so that they can be dropped.
    pub fn may_drop_from(&self, number: u128) -> bool
        ensures { IsTrue result ↔ MayDropFrom number self.now.forest }
    {
        number <= self.next && are_whole(&self.rows, &self.slots, number)
    }

    /// Whether the kinds of both let the node stand below a parent, at this place.
    fn may_stand(&self, node: NodeId, parent: NodeId, place: u32) -> bool
        ensures { IsTrue result ↔ MayStand node.number parent.number place self.now.forest }
    {
        if self.is_of_kind(node, Kind::Attribute) {
            return self.is_of_kind(parent, Kind::Element) && self.lacks_name(node, parent);
        }
        if !self.is_of_kind(node, Kind::Element) {
            return false;
        }
        if self.is_of_kind(parent, Kind::Element) {
            return self.has_children(parent, place);
        }
        place == 0 && self.is_of_kind(parent, Kind::Root) && !self.has_children(parent, 1)
    }

    /// Whether the node stands in the forest and is of this kind.
    fn is_of_kind(&self, node: NodeId, wanted: Kind) -> bool
        ensures { IsTrue result ↔ (kind_at node.number self.now.forest.nodes ≡ Some wanted) }
    {
        match row_of(&self.rows, &self.slots, &self.hints, node) {
            Some(at) => kind(&self.slots, self.rows.at(at).key) == wanted,
            None => false,
        }
    }

    /// Whether the node is the top of a tree.
    fn is_top(&self, node: NodeId) -> bool
        ensures { result ≡ is_top node.number self.now.forest.nodes }
    {
        match row_of(&self.rows, &self.slots, &self.hints, node) {
            Some(at) => self.rows.at(at).depth == 0,
            None => false,
        }
    }

    fn has_parent(&self, node: NodeId) -> bool
        ensures { result ≡ is_some (parent_of node.number (visits self.now.forest.nodes)) }
    {
        match row_of(&self.rows, &self.slots, &self.hints, node) {
            Some(at) => parent_row(&self.rows, &self.hints, at).is_some(),
            None => false,
        }
    }

    /// Whether the second node stands in the tree of the first one.
    fn is_inside(&self, node: NodeId, other: NodeId) -> bool
        ensures { result ≡ has_number other.number (tree_of node.number self.now.forest.nodes) }
    {
        let Some(at) = row_of(&self.rows, &self.slots, &self.hints, node) else {
            return false;
        };
        match row_of(&self.rows, &self.slots, &self.hints, other) {
            Some(to) => at <= to && to < end_of(&self.rows, at),
            None => false,
        }
    }

    /// Whether the node has so many children at least.
    fn has_children(&self, node: NodeId, least: u32) -> bool
        ensures { result ≡ nat_le least (length (children_of node.number (visits self.now.forest.nodes))) }
    {
        match row_of(&self.rows, &self.slots, &self.hints, node) {
            Some(at) => has_children(&self.rows, &self.slots, at, least),
            None => least == 0,
        }
    }

    /// Whether the node has an element child.
    fn has_elements(&self, node: NodeId) -> bool
        ensures { result ≡ has_elements (visits self.now.forest.nodes) node.number }
    {
        match row_of(&self.rows, &self.slots, &self.hints, node) {
            Some(at) => has_element(&self.rows, &self.slots, at),
            None => false,
        }
    }

    /// Whether the second node has no attribute of the first one's name.
    fn lacks_name(&self, node: NodeId, parent: NodeId) -> bool
        ensures { result ≡ lacks_name node.number parent.number self.now.forest }
    {
        let Some(at) = row_of(&self.rows, &self.slots, &self.hints, node) else {
            return true;
        };
        match row_of(&self.rows, &self.slots, &self.hints, parent) {
            Some(above) => !has_attribute(&self.rows, &self.slots, above, self.rows.at(at).key),
            None => true,
        }
    }
}
