//! The index of a repeat after its rows may have changed (XForms 1.1, section 9.3.1).

ghost use Rattle.std.specs.Prelude.{◌≡◌, length, option_and_then, option_map};
ghost use Rattle.xf_def_ui.specs.Index as ui;
ghost use Rattle.xf_eval_context.specs.Indexes.{seen_index};

use xf_binds::NodeSet;
use xf_def_forest::{NodeId, NodeList};
use xf_eval_context::Index;

/// What is known of a repeat before it has its new index.
#[derive(Clone, Copy)]
pub(crate) struct Before<'a> {
    pub rows: &'a NodeList,
    /// How many rows there are.
    pub count: u32,
    pub old: Index,
    /// A repeat around this one has just started those inside it anew.
    pub begins_anew: bool,
}

/// The new index, and whether the repeats inside start anew.
pub(crate) fn ruled(before: &Before<'_>, added: &NodeSet) -> (u32, bool)
    requires { length before.now.rows.now ≡ before.now.count }
    ensures { result ≡ ui.ruled before.now.begins_anew before.now.rows.now (seen_index before.now.old) added.now }
{
    if before.begins_anew {
        return (1.min(before.count), true);
    }
    index_rule(before, added)
}

/// By the first case that applies: there are no rows, one was just inserted, the kept node is a row still, or else.
fn index_rule(before: &Before<'_>, added: &NodeSet) -> (u32, bool)
    requires { length before.now.rows.now ≡ before.now.count }
    ensures { result ≡ ui.index_rule before.now.rows.now (option_map (λ n. n.number) before.now.old.node) before.now.old.index added.now }
{
    let count = before.count;
    if count == 0 {
        return (0, true);
    }
    if let Some(index) = last_added(before.rows, count, added) {
        return (index, true);
    }
    match kept_index(before.rows, count, before.old.node) {
        Some(index) => (index, false),
        None => (before.old.index.max(1).min(count), true),
    }
}

/// The index of the last row that is among the added nodes.
fn last_added(rows: &NodeList, count: u32, added: &NodeSet) -> Option<u32>
    requires { length rows.now ≡ count }
    ensures { result ≡ ui.last_from 1 added.now rows.now }
{
    let mut found = None;
    let mut index = 0;
    for row in rows.as_slice() {
        index += 1;
        if added.has(*row) {
            found = Some(index);
        }
    }
    found
}

/// The index at which a node stands among the rows.
fn kept_index(rows: &NodeList, count: u32, kept: Option<NodeId>) -> Option<u32>
    requires { length rows.now ≡ count }
    ensures { result ≡ option_and_then (ui.place_in rows.now) (option_map (λ n. n.number) kept) }
{
    match kept {
        Some(node) => match rows.position(node) {
            Some(place) => Some(place as u32 + 1),
            None => None,
        },
        None => None,
    }
}
