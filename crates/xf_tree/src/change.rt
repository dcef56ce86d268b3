//! Changes of a forest: trees that come and move.
ghost use Rattle.std.specs.Prelude.{◌≡◌, ◌<◌, ◌≤◌, ◌+◌, ◌^◌, ◌++◌, ◌⊎◌, ℕ, Some, None, length, IfOk, IfErr, OnOk, OnErr};
ghost use Rattle.slab.specs.Slab.{get, HasRoomFor};
ghost use Rattle.xf_base.specs.Gives.{Gives};
ghost use Rattle.xf_def_forest.specs.Forest.{tree_of};
ghost use Rattle.xf_def_forest.specs.Changes.{detached, standing, copied, contents_in, with_root};
ghost use Rattle.xf_def_forest.specs.Limits.{limits, passed_by_all, passed_by_tree};
ghost use Rattle.xf_def_forest.specs.Needs.{MayCopy, MayDetach, MayRoot};
ghost use Rattle.xf_def_forest.specs.Plant.{numbered_from};
ghost use Rattle.xf_def_forest.specs.Planted.{planted, planted_bare};

use crate::forest::Forest;
use std::alloc::{AllocError, Global};
use xf_base::limits::{ALL_LIMIT, NODE_LIMIT};
use xf_def_forest::{Bare, NodeId, TreeFault};
use xf_name::{Lit, Prefixes};
use xf_tree_changes::{contents_of, push_tree, root_over, size_of_tree};
use xf_tree_contents::{Part, ROW_LIMIT, Slots, number_of};
use xf_tree_literals::{
    contents_of_bare, contents_of_lit, fault_of_bare, has_deep, has_long, lit_fault,
};
use xf_tree_rows::{Rows, cut, end_of, parent_row, slice};
use xf_tree_walks::{place_of, row_of};

impl Forest {
    ghost use Rattle.xf_tree.specs.Calls.{added_unless};
    ghost use Rattle.xf_tree_walks.specs.Nodes.{IsTree};

    /// Cuts a node's tree off: it stands behind all other trees. The answer is the parent that the node had, and its
    /// place there. Takes no memory.
    pub fn detach(&mut self, node: NodeId) -> (NodeId, u32)
        requires { MayDetach node.number self.old.forest }
        ensures moved { self.new ≡ record self.old { forest = detached node.number self.old.forest } }
        ensures stood { Some (result.0.number, result.1) ≡ standing node.number self.old.forest.nodes }
    {
        let Some(at) = row_of(&self.rows, &self.slots, &self.hints, node) else {
            return (node, 0);
        };
        let Some(above) = parent_row(&self.rows, &self.hints, at) else {
            return (node, 0);
        };
        let key = self.rows.at(above).key;
        let number = number_of(&self.slots, key);
        let place = place_of(&self.rows, &self.slots, above, at);
        cut(&mut self.rows, &self.hints, at);
        // It went to the end, so all rows from its old place on have moved.
        self.hints.note_rows(&self.rows, at, self.rows.len());
        (NodeId { number, place: key }, place)
    }

    /// A copy of a node's tree, as a detached one. A refusal leaves the forest as it was.
    pub fn copy(&mut self, node: NodeId) -> Result<NodeId, TreeFault>
        requires may { MayCopy node.number self.old.forest }
        requires number { self.old.forest.next < 2 ^ 126 }
        ensures answer { Gives TreeFault.Memory (λ n. (n.number, self.new.forest)) result (copied limits node.number self.old.forest) }
        ensures kept { self.new.kept ≡ self.old.kept }
        ensures err { OnErr result (self.new ≡ self.old) }
    {
        let tree = self.contents_at(node)?;
        let passed = self.passed_by_all(&tree);
        self.add(tree, passed)
    }

    /// A literal tree as a detached one, where a name without a prefix has the namespace `space`. Texts that stand side by
    /// side stay two. A refusal leaves the forest as it was.
    pub fn plant(&mut self, lit: &Lit, prefixes: &Prefixes, space: u16) -> Result<NodeId, TreeFault>
        requires { self.old.forest.next < 2 ^ 126 }
        ensures answer { Gives TreeFault.Memory (λ n. (n.number, self.new.forest)) result (planted limits prefixes.now space lit.now self.old.forest) }
        ensures kept { self.new.kept ≡ self.old.kept }
        ensures err { OnErr result (self.new ≡ self.old) }
    {
        if let Some(fault) = lit_fault(prefixes, lit)? {
            return Err(fault);
        }
        let tree = contents_of_lit(self.alloc, prefixes, space, lit)?;
        let passed = self.passed_by_tree(&tree);
        self.add(tree, passed)
    }

    /// The limit that is passed with this tree as a detached one.
    pub(crate) fn passed_by_tree(&self, tree: &[Part]) -> Option<TreeFault>
        requires { IsTree tree.now }
        ensures { result ≡ passed_by_tree limits (numbered_from self.now.forest.next tree.now) (self.now.forest.nodes ++ numbered_from self.now.forest.next tree.now) }
    {
        if self.count + tree.len() > NODE_LIMIT {
            return Some(TreeFault::Nodes);
        }
        if has_long(tree) {
            return Some(TreeFault::NodeText);
        }
        if self.bytes.saturating_add(size_of_tree(tree)) > ALL_LIMIT {
            return Some(TreeFault::AllText);
        }
        if has_deep(tree) {
            return Some(TreeFault::Depth);
        }
        None
    }

    /// The contents of a node's tree.
    fn contents_at(&self, node: NodeId) -> Result<Vec<Part>, AllocError>
        requires { MayCopy node.number self.now.forest }
        ensures answer { IfOk result (λ tree. tree.items ≡ contents_in (tree_of node.number self.now.forest.nodes)) }
        ensures tree { IfOk result (λ tree. IsTree tree.items) }
    {
        match row_of(&self.rows, &self.slots, &self.hints, node) {
            Some(at) => {
                let end = end_of(&self.rows, at);
                contents_of(
                    self.alloc,
                    &self.slots,
                    &slice(&self.rows, at, end),
                    self.rows.at(at).depth,
                )
            }
            None => Ok(Vec::new(self.alloc)),
        }
    }

    /// The limit of nodes or of bytes that is passed with this tree.
    fn passed_by_all(&self, tree: &[Part]) -> Option<TreeFault>
        requires { IsTree tree.now }
        ensures { result ≡ passed_by_all limits (self.now.forest.nodes ++ numbered_from self.now.forest.next tree.now) }
    {
        if self.count + tree.len() > NODE_LIMIT {
            return Some(TreeFault::Nodes);
        }
        if self.bytes.saturating_add(size_of_tree(tree)) > ALL_LIMIT {
            return Some(TreeFault::AllText);
        }
        None
    }

    /// Puts a tree behind all others, unless a limit is passed.
    fn add(&mut self, tree: Vec<Part>, passed: Option<TreeFault>) -> Result<NodeId, TreeFault>
        requires tree { IsTree tree.items }
        requires number { self.old.forest.next < 2 ^ 126 }
        ensures answer { Gives TreeFault.Memory (λ n. (n.number, self.new.forest)) result (added_unless passed tree.items self.old) }
        ensures kept { self.new.kept ≡ self.old.kept }
        ensures err { OnErr result (self.new ≡ self.old) }
    {
        let more = tree.len();
        let kept = self.kept.len();
        admit(&mut self.rows, &mut self.slots, more, kept, passed)?;
        let size = size_of_tree(&tree);
        let first = self.next;
        let place = self.slots.vacant_key();
        push_tree(
            &mut self.rows,
            &mut self.slots,
            &mut self.hints,
            first,
            tree,
        );
        self.next = first + more as u128;
        self.count += more;
        self.bytes += size;
        Ok(NodeId {
            number: first,
            place,
        })
    }

    /// A new root behind the others, over the tree of a detached element.
    pub fn add_root(&mut self, top: NodeId) -> Result<NodeId, AllocError>
        requires may { MayRoot top.number self.old.forest }
        requires number { self.old.forest.next < 2 ^ 126 }
        ensures ok { IfOk result (λ root. (root.number, self.new.forest) ≡ with_root top.number self.old.forest) }
        ensures kept { self.new.kept ≡ self.old.kept }
        ensures err { OnErr result (self.new ≡ self.old) }
    {
        let Some(at) = row_of(&self.rows, &self.slots, &self.hints, top) else {
            return Err(AllocError);
        };
        let kept = self.kept.len();
        make_way(&mut self.rows, &mut self.slots, 1, kept)?;
        let number = self.next;
        let place = root_over(&mut self.rows, &mut self.slots, &mut self.hints, at, number);
        self.next = number + 1;
        Ok(NodeId { number, place })
    }

    /// A literal tree with resolved names as a detached one. A refusal leaves the forest as it was.
    pub fn plant_bare(&mut self, tree: &Bare, prefixes: &Prefixes) -> Result<NodeId, TreeFault>
        requires { self.old.forest.next < 2 ^ 126 }
        ensures answer { Gives TreeFault.Memory (λ n. (n.number, self.new.forest)) result (planted_bare limits prefixes.now tree.now self.old.forest) }
        ensures kept { self.new.kept ≡ self.old.kept }
        ensures err { OnErr result (self.new ≡ self.old) }
    {
        if let Some(fault) = fault_of_bare(self.alloc, prefixes, tree)? {
            return Err(fault);
        }
        let contents = contents_of_bare(self.alloc, prefixes, tree)?;
        let passed = self.passed_by_tree(&contents);
        self.add(contents, passed)
    }
}

/// Makes room for so many nodes more, beside so many kept texts, unless a limit is passed.
fn admit(
    rows: &mut Rows,
    slots: &mut Slots,
    more: usize,
    kept: usize,
    passed: Option<TreeFault>,
) -> Result<(), TreeFault>
    requires { length rows.old.items + kept < 2 ^ 31 }
    ensures items { rows.new.items ≡ rows.old.items }
    ensures same { (key : ℕ) → get slots.new key ≡ get slots.old key }
    ensures spare { rows.old.capacity ≤ rows.new.capacity }
    ensures slot { OnOk result (HasRoomFor slots.new more) }
    ensures row { OnOk result (length rows.old.items + (more + kept) ≤ rows.new.capacity) }
    ensures few { OnOk result (length rows.old.items + (more + kept) < 2 ^ 31) }
    ensures none { OnOk result (passed ≡ None) }
    ensures fault { IfErr result (λ e. (e ≡ TreeFault.Memory) ⊎ (passed ≡ Some e)) }
{
    match passed {
        Some(fault) => Err(fault),
        None => Ok(make_way(rows, slots, more, kept)?),
    }
}

/// Makes room for so many nodes more, beside so many kept texts. An `Err` leaves the nodes as they were.
fn make_way(rows: &mut Rows, slots: &mut Slots, more: usize, kept: usize) -> Result<(), AllocError>
    requires { length rows.old.items + kept < 2 ^ 31 }
    ensures items { rows.new.items ≡ rows.old.items }
    ensures same { (key : ℕ) → get slots.new key ≡ get slots.old key }
    ensures spare { rows.old.capacity ≤ rows.new.capacity }
    ensures slot { OnOk result (HasRoomFor slots.new more) }
    ensures row { OnOk result (length rows.old.items + (more + kept) ≤ rows.new.capacity) }
    ensures few { OnOk result (length rows.old.items + (more + kept) < 2 ^ 31) }
{
    if more >= ROW_LIMIT - rows.len() - kept {
        return Err(AllocError);
    }
    slots.reserve(more)?;
    rows.reserve(more + kept)
}
