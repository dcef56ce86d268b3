//! Indexes in the table of all repeats.

ghost use Rattle.std.specs.Prelude.{◌≡◌, map, option_map};
ghost use Rattle.xf_def_ui.specs.Index as ui;
ghost use Rattle.xf_def_ui.specs.Interface.{interface_of};
ghost use Rattle.xf_eval_context.specs.Indexes.{seen_index};
ghost use Rattle.xf_repeat.specs.Placed.{is_same};

use crate::rows::row_at;
use xf_def_forest::{NodeId, NodeList};
use xf_def_syntax::Form;
use xf_eval_context::{Index, number_of};

/// An index, with the row at it.
pub(crate) fn index_at(rows: &NodeList, index: u32) -> Index
    ensures { seen_index result ≡ ui.index_at rows.now index }
{
    Index {
        index,
        node: row_at(rows, u64::from(index)),
    }
}

/// Gives a repeat this index.
pub(crate) fn put_index(form: &Form, indexes: &mut [Index], repeat: u32, index: Index)
    ensures { map seen_index indexes.new ≡ ui.with_index (interface_of form.now) repeat (seen_index index) (map seen_index indexes.old) }
{
    let number = number_of(form, repeat) as usize;
    if number < indexes.len() {
        indexes[number] = index;
    }
}

/// Whether both are the same node, or none.
pub(crate) fn is_same_node(one: Option<NodeId>, other: Option<NodeId>) -> bool
    ensures { result ≡ ui.same_node (option_map (λ n. n.number) one) (option_map (λ n. n.number) other) }
{
    match one {
        Some(one) => match other {
            Some(other) => one.is_same(other),
            None => false,
        },
        None => other.is_none(),
    }
}

/// Whether no index and no node at one is another.
pub(crate) fn are_same(some: &[Index], others: &[Index]) -> bool
    ensures { result ≡ ui.same_indexes (map seen_index some.now) (map seen_index others.now) }
{
    let mut left = some;
    let mut others_left = others;
    while let (Some((one, more)), Some((other, rest))) = (
        left.split_first(),
        others_left.split_first(),
    ) {
        if !is_same(*one, *other) {
            return false;
        }
        left = more;
        others_left = rest;
    }
    left.is_empty() && others_left.is_empty()
}

fn is_same(one: Index, other: Index) -> bool
    ensures { result ≡ is_same (seen_index one) (seen_index other) }
{
    if one.index != other.index {
        return false;
    }
    is_same_node(one.node, other.node)
}
