//! A detached tree comes into place below a parent.
ghost use Rattle.std.specs.Prelude.{◌≡◌, ◌⊎◌, false, map, IfNone, IfSome, OnErr};
ghost use Rattle.std.specs.Result.{result_map_both};
ghost use Rattle.xf_def_forest.specs.Forest.{IsLive, has_number, content_at, tree_of};
ghost use Rattle.xf_def_forest.specs.Changes.{placed, place_of, attached, elements_above};
ghost use Rattle.xf_def_forest.specs.Limits.{limits, is_too_deep};
ghost use Rattle.xf_def_forest.specs.Needs.{MayAttach, MayPlace};
ghost use Rattle.xf_def_forest.specs.Visit.{visits};
ghost use Rattle.xf_tree_walks.specs.Nodes.{StandsAt, node_of};

use crate::forest::Forest;
use xf_def_forest::{NodeId, TreeFault};
use xf_tree_changes::{elements_over, has_deep, place_tree};
use xf_tree_contents::{Slots, is_attribute_at};
use xf_tree_rows::{Hints, Rows, end_of, slice};
use xf_tree_walks::{count_lesser, row_of};

impl Forest {
    /// Puts a detached tree below a parent: before the child with this place, or behind them all, and an attribute so among the
    /// attributes. Takes no memory.
    pub fn place(&mut self, node: NodeId, parent: NodeId, place: u32)
        requires { MayPlace node.number parent.number self.old.forest }
        ensures { self.new ≡ record self.old { forest = placed node.number parent.number place self.old.forest } }
    {
        let Some((at, above)) = rows_of(&self.rows, &self.slots, &self.hints, node, parent) else {
            return;
        };
        place_tree(
            &mut self.rows,
            &self.slots,
            &mut self.hints,
            at,
            above,
            place,
        );
    }

    /// Puts a detached tree below a parent, unless an element would stand too deep: an element before the child with this
    /// place, or behind them all, and an attribute by its written name. Takes no memory.
    pub fn attach(&mut self, node: NodeId, parent: NodeId, place: u32) -> Result<(), TreeFault>
        requires { MayAttach node.number parent.number place self.old.forest }
        ensures answer { result_map_both (λ u. self.new.forest) (λ e. e) result ≡ attached limits node.number parent.number place self.old.forest }
        ensures kept { self.new.kept ≡ self.old.kept }
        ensures err { OnErr result (self.new ≡ self.old) }
    {
        if self.is_too_deep(node, parent) {
            return Err(TreeFault::Depth);
        }
        let place = self.place_of(node, parent, place);
        self.place(node, parent, place);
        Ok(())
    }

    /// Where a node comes below a parent: at a place that is given, or as an attribute by its written name.
    fn place_of(&self, node: NodeId, parent: NodeId, place: u32) -> u32
        requires node { IsLive node.number self.now.forest }
        requires parent { IsLive parent.number self.now.forest }
        ensures { result ≡ place_of parent.number place (visits self.now.forest.nodes) (content_at node.number self.now.forest.nodes) }
    {
        match (
            row_of(&self.rows, &self.slots, &self.hints, node),
            row_of(&self.rows, &self.slots, &self.hints, parent),
        ) {
            (Some(at), Some(above)) => {
                let key = self.rows.at(at).key;
                if is_attribute_at(&self.slots, key) {
                    count_lesser(&self.rows, &self.slots, above, key)
                } else {
                    place
                }
            }
            _ => place,
        }
    }

    /// Whether an element of a detached tree would stand too deep below a parent.
    fn is_too_deep(&self, node: NodeId, parent: NodeId) -> bool
        requires node { IsLive node.number self.now.forest }
        requires parent { IsLive parent.number self.now.forest }
        ensures { result ≡ is_too_deep limits.depth (elements_above parent.number (visits self.now.forest.nodes)) (tree_of node.number self.now.forest.nodes) }
    {
        match (
            row_of(&self.rows, &self.slots, &self.hints, node),
            row_of(&self.rows, &self.slots, &self.hints, parent),
        ) {
            (Some(at), Some(above)) => {
                let elements = elements_over(&self.rows, &self.slots, &self.hints, above);
                let end = end_of(&self.rows, at);
                has_deep(&slice(&self.rows, at, end), &self.slots, elements)
            }
            _ => false,
        }
    }
}

/// Where two nodes stand, if both do.
fn rows_of(
    rows: &Rows,
    slots: &Slots,
    hints: &Hints,
    node: NodeId,
    parent: NodeId,
) -> Option<(usize, usize)>
    ensures none { IfNone result ((has_number node.number (map (node_of slots.now) rows.now.items) ≡ false) ⊎ (has_number parent.number (map (node_of slots.now) rows.now.items) ≡ false)) }
    ensures node { IfSome result (λ found. StandsAt slots.now rows.now.items node.number found.0) }
    ensures parent { IfSome result (λ found. StandsAt slots.now rows.now.items parent.number found.1) }
{
    let at = row_of(rows, slots, hints, node)?;
    let above = row_of(rows, slots, hints, parent)?;
    Some((at, above))
}
