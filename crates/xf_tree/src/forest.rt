//! The forest of instance data, and what is read of it.
ghost use Rattle.std.specs.Prelude.{◌≡◌, ◌↔◌, false, Some, IsTrue, IfOk, IfSome, MatchOption, option_map};
ghost use Rattle.xf_def_forest.specs.Forest.{IsLive, has_number, kind_at, name_at};
ghost use Rattle.xf_def_forest.specs.Changes.{root_of};
ghost use Rattle.xf_def_forest.specs.Order.{is_before};
ghost use Rattle.xf_def_forest.specs.StringValue.{string_value_within};
ghost use Rattle.xf_def_forest.specs.Visit.{visits, parent_of};

use std::alloc::{AllocError, Global};
use std::marker::Model;
use xf_def_forest::{Kind, NodeId};
use xf_name::{QName, Word};
use xf_tree_contents::{Slots, number_of};
use xf_tree_rows::{Hints, Rows, parent_row};
use xf_tree_walks::{root_row, row_of, text_at};

/// A forest: rows in document order, and beside them what each node is. Contracts see it as the list of its nodes, and the
/// texts that are kept beside them.
#[derive(Drop)]
pub struct Forest {
    pub(crate) alloc: Global,
    pub(crate) rows: Rows,
    pub(crate) slots: Slots,
    // By key. What they say is tested where it is used, and owes nothing.
    pub(crate) hints: Hints,
    // The keys of kept texts.
    pub(crate) kept: Vec<usize>,
    pub(crate) next: u128,
    // How many nodes but roots there are, and the bytes of their names and texts.
    pub(crate) count: usize,
    pub(crate) bytes: u128,
}

impl Model for Forest {
    ghost use Rattle.xf_def_forest.specs.Texts.{Keeping};

    ghost Value = { Keeping };

    ghost use Rattle.xf_tree.specs.State.{keeping_of, IsState};

    ghost view = { λ f. keeping_of f.slots f.rows.items f.kept.items f.next };

    ghost invariant = { λ f. IsState f.slots f.rows.items f.kept.items f.next f.count f.bytes f.rows.capacity };
}

impl Forest {
    ghost use Rattle.xf_tree.specs.Calls.{nothing};

    /// The empty forest. Takes no memory.
    pub fn new(alloc: Global) -> Self
        ensures { result ≡ nothing }
    {
        Forest {
            alloc,
            rows: Rows::new(alloc),
            slots: Slots::new(alloc),
            hints: Hints::new(alloc),
            kept: Vec::new(alloc),
            next: 0,
            count: 0,
            bytes: 0,
        }
    }

    /// The number that the next new node takes.
    pub fn next_number(&self) -> u128
        ensures { result ≡ self.now.forest.next }
    {
        self.next
    }

    /// The node with a number, where it stands in the forest. Looks through all rows: with a `NodeId` at hand, `is_live` is quicker.
    pub fn find(&self, number: u128) -> Option<NodeId>
        ensures number { IfSome result (λ n. n.number ≡ number) }
        ensures live { MatchOption result (has_number number self.now.forest.nodes ≡ false) (λ n. IsLive n.number self.now.forest) }
    {
        let node = NodeId {
            number,
            place: usize::MAX,
        };
        match row_of(&self.rows, &self.slots, &self.hints, node) {
            Some(at) => Some(NodeId {
                number,
                place: self.rows.at(at).key,
            }),
            None => None,
        }
    }

    /// Whether the node stands in the forest.
    pub fn is_live(&self, node: NodeId) -> bool
        ensures { IsTrue result ↔ IsLive node.number self.now.forest }
    {
        match row_of(&self.rows, &self.slots, &self.hints, node) {
            Some(_) => true,
            None => false,
        }
    }

    /// What kind of node it is.
    pub fn kind(&self, node: NodeId) -> Kind
        requires live { IsLive node.number self.now.forest }
        ensures { Some result ≡ kind_at node.number self.now.forest.nodes }
    {
        match row_of(&self.rows, &self.slots, &self.hints, node) {
            Some(at) => xf_tree_contents::kind(&self.slots, self.rows.at(at).key),
            None => Kind::Root,
        }
    }

    /// The name of an element or attribute, as it is resolved.
    pub fn name(&self, node: NodeId) -> Option<&QName>
        requires live { IsLive node.number self.now.forest }
        ensures { option_map (λ name. name.now) result ≡ name_at node.number self.now.forest.nodes }
    {
        match row_of(&self.rows, &self.slots, &self.hints, node) {
            Some(at) => xf_tree_contents::name(&self.slots, self.rows.at(at).key),
            None => None,
        }
    }

    /// The root with this place among the roots, from 0.
    pub fn root(&self, instance: u32) -> Option<NodeId>
        ensures { option_map (λ n. n.number) result ≡ root_of instance self.now.forest.nodes }
    {
        let at = root_row(&self.rows, &self.slots, instance)?;
        let place = self.rows.at(at).key;
        Some(NodeId {
            number: number_of(&self.slots, place),
            place,
        })
    }

    /// The parent. The top of a tree has none.
    pub fn parent(&self, node: NodeId) -> Option<NodeId>
        requires live { IsLive node.number self.now.forest }
        ensures { option_map (λ n. n.number) result ≡ parent_of node.number (visits self.now.forest.nodes) }
    {
        let at = row_of(&self.rows, &self.slots, &self.hints, node)?;
        let above = parent_row(&self.rows, &self.hints, at)?;
        let place = self.rows.at(above).key;
        Some(NodeId {
            number: number_of(&self.slots, place),
            place,
        })
    }

    /// Whether the first node stands before the second one in document order.
    pub fn before(&self, first: NodeId, second: NodeId) -> bool
        requires first { IsLive first.number self.now.forest }
        requires second { IsLive second.number self.now.forest }
        ensures { result ≡ is_before first.number second.number self.now.forest.nodes }
    {
        match (
            row_of(&self.rows, &self.slots, &self.hints, first),
            row_of(&self.rows, &self.slots, &self.hints, second),
        ) {
            (Some(one), Some(other)) => one < other,
            _ => false,
        }
    }

    /// The string value (XPath 1.0, section 5), or `None` where it has more bytes than the most that are wanted.
    pub fn string_value(&self, node: NodeId, most: u32) -> Result<Option<Word>, AllocError>
        requires live { IsLive node.number self.now.forest }
        ensures { IfOk result (λ text. text ≡ string_value_within most node.number (visits self.now.forest.nodes)) }
    {
        match row_of(&self.rows, &self.slots, &self.hints, node) {
            Some(at) => text_at(self.alloc, &self.rows, &self.slots, at, most as usize),
            None => Ok(None),
        }
    }
}
