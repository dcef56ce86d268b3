//! Sets of nodes in document order.
ghost use Rattle.std.specs.Prelude.{◌≡◌, ◌<◌, ◌≤◌, ℕ, true, length, map, IfOk};
ghost use Rattle.std.specs.List.{All};
ghost use Rattle.xf_def_forest.specs.Order.{in_order};
ghost use Rattle.xf_def_forest.specs.Visit.{visits};
ghost use Rattle.xf_tree_walks.specs.Reads.{AreUp, each_once, is_among, stands_one};
ghost use Rattle.xf_tree_walks.specs.Nodes.{node_of, times};
ghost use Rattle.xf_tree_walks.specs.Walks.{number_of_row};

use crate::lookup::row_of;
use std::alloc::{AllocError, Global};
use xf_def_forest::{NodeId, NodeList};
use xf_tree_contents::{Slots, number_of};
use xf_tree_rows::{Hints, Rows};

/// Whether these nodes are live, and each stands after the one before it: they are in document order then, each once.
pub fn goes_up(rows: &Rows, slots: &Slots, hints: &Hints, nodes: &[NodeId]) -> bool
    requires { (n : ℕ) → times n (map (node_of slots.now) rows.now.items) ≤ 1 }
    ensures { result ≡ true → in_order (visits (map (node_of slots.now) rows.now.items)) (map (λ n. n.number) nodes.now) ≡ map (λ n. n.number) nodes.now }
{
    let mut next = 0;
    for node in nodes {
        let Some(at) = row_of(rows, slots, hints, *node) else {
            return false;
        };
        if at < next {
            return false;
        }
        prove!(at < rows.len());
        next = at + 1;
    }
    true
}

pub fn copied(alloc: Global, nodes: &[NodeId]) -> Result<NodeList, AllocError>
    ensures { IfOk result (λ list. list ≡ map (λ n. n.number) nodes.now) }
{
    let mut list = NodeList::with_capacity(alloc, nodes.len())?;
    for node in nodes {
        list.push(*node)?;
    }
    Ok(list)
}

/// A set of nodes in document order, each once, by a sort.
pub fn sorted(
    alloc: Global,
    rows: &Rows,
    slots: &Slots,
    hints: &Hints,
    nodes: &[NodeId],
) -> Result<NodeList, AllocError>
    requires { (n : ℕ) → times n (map (node_of slots.now) rows.now.items) ≤ 1 }
    ensures { IfOk result (λ list. list ≡ in_order (visits (map (node_of slots.now) rows.now.items)) (map (λ n. n.number) nodes.now)) }
{
    let mut ranks = ranks_of(alloc, rows, slots, hints, nodes)?;
    put_up(&mut ranks);
    nodes_at(alloc, rows, slots, &ranks)
}

/// The places of the rows of these nodes, in their order.
fn ranks_of(
    alloc: Global,
    rows: &Rows,
    slots: &Slots,
    hints: &Hints,
    nodes: &[NodeId],
) -> Result<Vec<usize>, AllocError>
    requires { (n : ℕ) → times n (map (node_of slots.now) rows.now.items) ≤ 1 }
    ensures { IfOk result (λ ranks. (at : ℕ) → is_among at ranks.items ≡ stands_one slots.now rows.now.items (map (λ n. n.number) nodes.now) at) }
{
    let mut ranks = Vec::with_capacity(alloc, nodes.len())?;
    for node in nodes {
        match row_of(rows, slots, hints, *node) {
            Some(at) => {
                ranks.push(at)?;
                continue;
            }
            None => continue,
        }
    }
    Ok(ranks)
}

/// Sorts places, unless they are.
fn put_up(ranks: &mut Vec<usize>)
    ensures up { AreUp 0 ranks.new.items }
    ensures same { (at : ℕ) → is_among at ranks.new.items ≡ is_among at ranks.old.items }
{
    if !ranks.is_sorted() {
        ranks.sort_unstable();
    }
}

/// The nodes whose rows stand at these places, which go up: each once.
fn nodes_at(
    alloc: Global,
    rows: &Rows,
    slots: &Slots,
    ranks: &[usize],
) -> Result<NodeList, AllocError>
    requires { All (λ rank. rank < length rows.now.items) ranks.now }
    ensures { IfOk result (λ list. list ≡ map (number_of_row slots.now rows.now.items) (each_once 0 ranks.now)) }
{
    let mut list = NodeList::with_capacity(alloc, ranks.len())?;
    let mut next = 0;
    for rank in ranks {
        if *rank < next {
            continue;
        }
        prove!(*rank < rows.len());
        let place = rows.at(*rank).key;
        let number = number_of(slots, place);
        list.push(NodeId { number, place })?;
        next = *rank + 1;
    }
    Ok(list)
}
