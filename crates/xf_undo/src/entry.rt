//! What is noted of a change, and what is known of it.
ghost use Rattle.std.specs.Prelude.{◌≡◌, true, [], option_map};
ghost use Rattle.xf_def_forest.specs.Texts.{is_attribute_at};
ghost use Rattle.xf_def_forest.specs.Undo.{is_of_child, is_set_of, is_known, undone, undone_all};
ghost use Rattle.xf_def_forest.specs.Visit.{visits, has, children_of};
ghost use Rattle.xf_def_forest.specs.WellFormed.{are_apart};
ghost use Rattle.xf_law_forests.specs.Rollback.Back.{CanUndo, CanUndoAll};
ghost use Rattle.xf_undo.specs.Children.{is_number, is_attribute_kind};
ghost use Rattle.xf_undo.specs.Entries.{entry_of, entries_of, placed_entry, attached_entry, text_noted};

use xf_def_forest::{Kind, NodeId};
use xf_tree::{Before, Forest};

/// A change that is about to be made: a text set, a tree attached, a tree detached, each by its node.
#[derive(Clone, Copy, Debug)]
pub enum Change {
    Text(NodeId),
    Attach(NodeId),
    Detach(NodeId),
}

/// What is known of a change.
#[derive(Drop)]
pub enum Entry {
    /// It was noted, and has not been made.
    Noted(Change),
    /// The text of a node was set, which had this before.
    Set(NodeId, Before),
    /// A tree was attached.
    Joined(NodeId),
    /// A tree was detached, which had this parent and place.
    Cut(NodeId, NodeId, u32),
}

/// Whether a child of this node came or went by this change.
pub fn is_of_child(node: NodeId, forest: &Forest, entry: &Entry) -> bool
    requires { are_apart forest.now.forest.nodes ≡ true }
    ensures { result ≡ is_of_child node.number forest.now (entry_of entry.now) }
{
    match entry {
        Entry::Noted(_) => false,
        Entry::Set(_, _) => false,
        Entry::Joined(child) => is_child(node, forest, *child),
        Entry::Cut(child, parent, _) => parent.is_same(node) && !is_attribute(forest, *child),
    }
}

/// Whether what this node had before is known by this change.
pub fn is_set_of(node: NodeId, entry: &Entry) -> bool
    ensures { result ≡ is_set_of node.number (entry_of entry.now) }
{
    match entry {
        Entry::Set(other, _) => other.is_same(node),
        Entry::Noted(_) => false,
        Entry::Joined(_) => false,
        Entry::Cut(_, _, _) => false,
    }
}

/// Whether the second node is a child of the first one: an attribute is none.
fn is_child(node: NodeId, forest: &Forest, child: NodeId) -> bool
    requires { are_apart forest.now.forest.nodes ≡ true }
    ensures { result ≡ has child.number (children_of node.number (visits forest.now.forest.nodes)) }
{
    if is_attribute(forest, child) {
        return false;
    }
    if !forest.is_live(child) {
        return false;
    }
    is_below(node, forest.parent(child))
}

/// Whether the node is this one.
fn is_below(node: NodeId, parent: Option<NodeId>) -> bool
    ensures { result ≡ is_number (option_map (λ n. n.number) parent) node.number }
{
    match parent {
        Some(parent) => parent.is_same(node),
        None => false,
    }
}

/// Whether the node is an attribute that stands in the forest.
fn is_attribute(forest: &Forest, node: NodeId) -> bool
    requires { are_apart forest.now.forest.nodes ≡ true }
    ensures { result ≡ is_attribute_at node.number forest.now.forest.nodes }
{
    if !forest.is_live(node) {
        return false;
    }
    is_attribute_kind(forest.kind(node))
}

/// Whether this is the kind of an attribute.
fn is_attribute_kind(kind: Kind) -> bool
    ensures { result ≡ is_attribute_kind kind }
{
    match kind {
        Kind::Attribute => true,
        Kind::Root => false,
        Kind::Element => false,
        Kind::Text => false,
    }
}

/// Whether what this node had before is known already, and none of its children came or went since.
pub fn is_known(node: NodeId, forest: &Forest, entries: &[Entry]) -> bool
    ensures { result ≡ is_known node.number forest.now (entries_of entries.now) }
{
    forest.are_trees();
    let mut at = entries.len();
    while at > 0 {
        at -= 1;
        if is_of_child(node, forest, &entries[at]) {
            return false;
        }
        if is_set_of(node, &entries[at]) {
            return true;
        }
    }
    false
}

/// The node whose text is noted to be set.
pub fn text_noted(entry: &Entry) -> Option<NodeId>
    ensures { option_map (λ n. n.number) result ≡ text_noted (entry_of entry.now) }
{
    match entry {
        Entry::Noted(change) => match change {
            Change::Text(node) => Some(*node),
            Change::Attach(_) => None,
            Change::Detach(_) => None,
        },
        Entry::Set(_, _) => None,
        Entry::Joined(_) => None,
        Entry::Cut(_, _, _) => None,
    }
}

/// The entry with the parent and the place that the tree had, where it was noted that a tree is detached.
pub fn with_place(entry: Entry, parent: NodeId, place: u32) -> Entry
    ensures { entry_of result ≡ placed_entry parent.number place (entry_of entry) }
{
    match entry {
        Entry::Noted(change) => match change {
            Change::Detach(node) => Entry::Cut(node, parent, place),
            Change::Text(node) => Entry::Noted(Change::Text(node)),
            Change::Attach(node) => Entry::Noted(Change::Attach(node)),
        },
        Entry::Set(node, before) => Entry::Set(node, before),
        Entry::Joined(node) => Entry::Joined(node),
        Entry::Cut(node, above, at) => Entry::Cut(node, above, at),
    }
}

/// The entry as made, where it was noted that a tree is attached.
pub fn with_attach(entry: Entry) -> Entry
    ensures { entry_of result ≡ attached_entry (entry_of entry) }
{
    match entry {
        Entry::Noted(change) => match change {
            Change::Attach(node) => Entry::Joined(node),
            Change::Text(node) => Entry::Noted(Change::Text(node)),
            Change::Detach(node) => Entry::Noted(Change::Detach(node)),
        },
        Entry::Set(node, before) => Entry::Set(node, before),
        Entry::Joined(node) => Entry::Joined(node),
        Entry::Cut(node, above, at) => Entry::Cut(node, above, at),
    }
}

/// Undoes the changes from the last one to the first.
pub fn undo_all(entries: &mut Vec<Entry>, forest: &mut Forest)
    requires { CanUndoAll (entries_of entries.old.items) forest.old }
    ensures back { forest.new ≡ undone_all (entries_of entries.old.items) forest.old }
    ensures none { entries.new.items ≡ [] }
{
    while let Some(entry) = entries.pop() {
        undo(forest, entry);
    }
}

/// Undoes a change.
fn undo(forest: &mut Forest, entry: Entry)
    requires { CanUndo (entry_of entry) forest.old }
    ensures { forest.new ≡ undone (entry_of entry) forest.old }
{
    match entry {
        Entry::Noted(_) => {}
        Entry::Set(node, before) => forest.put_back(node, before),
        Entry::Joined(node) => {
            let _ = forest.detach(node);
        }
        Entry::Cut(node, parent, place) => forest.place(node, parent, place),
    }
}
