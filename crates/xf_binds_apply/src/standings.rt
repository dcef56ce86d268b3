//! Where nodes stand in the node sets of a bind.

ghost use Rattle.std.specs.Prelude.{◌≡◌, ℕ, nat_eq, cond, true, [], ◌∷◌, ◌++◌, List, Some, OnOk};
ghost use Rattle.xf_def_xpath.specs.Agree.{are_apart};
ghost use Rattle.indexmap.specs.IndexMap.{get};
ghost use Rattle.xf_binds_apply.specs.Standing.{AreStandings, once_more};

use indexmap::IndexMap;
use std::alloc::{AllocError, Global};
use xf_def_forest::NodeList;

/// Where a node stands in the first set that holds it, from 1, how many nodes that has, and whether another set holds it too.
#[derive(Clone, Copy, Debug)]
pub(crate) struct Standing {
    pub position: u32,
    pub size: u32,
    pub is_double: bool,
}

/// The node sets of a bind: the nodes of all, one set behind the other, and where each stands.
#[derive(Drop)]
pub(crate) struct Standings {
    pub nodes: NodeList,
    pub places: IndexMap<u128, Standing>,
}

impl Standings {
    pub(crate) fn new(alloc: Global) -> Self
        ensures { AreStandings result.nodes result.places [] }
    {
        Standings {
            nodes: NodeList::new(alloc),
            places: IndexMap::new(alloc),
        }
    }

    /// Adds a set. One of more nodes than 32 bits count is told as want of memory: no memory holds it.
    pub(crate) fn add(&mut self, set: &NodeList) -> Result<(), AllocError>
        requires { are_apart set.now ≡ true }
        ensures nodes { OnOk result (self.new.nodes ≡ self.old.nodes ++ set.now) }
        ensures sets { OnOk result ((sets : List (List ℕ)) → AreStandings self.old.nodes self.old.places sets → AreStandings self.new.nodes self.new.places (sets ++ set.now ∷ [])) }
    {
        if set.len() > u32::MAX as usize {
            return Err(AllocError);
        }
        let size = set.len() as u32;
        let mut position = 0;
        for node in set.as_slice() {
            position += 1;
            self.nodes.push(*node)?;
            place(&mut self.places, node.number, position, size)?;
        }
        Ok(())
    }
}

/// Keeps where a node stands in a set, unless an earlier set holds it.
fn place(
    places: &mut IndexMap<u128, Standing>,
    number: u128,
    position: u32,
    size: u32,
) -> Result<(), AllocError>
    ensures { OnOk result ((n : ℕ) → get nat_eq places.new n ≡ cond (nat_eq number n) (Some (once_more position size (get nat_eq places.old number))) (get nat_eq places.old n)) }
{
    let standing = match standing_in(places, number) {
        Some(first) => Standing {
            position: first.position,
            size: first.size,
            is_double: true,
        },
        None => Standing {
            position,
            size,
            is_double: false,
        },
    };
    match places.insert(number, standing) {
        Ok(_) => Ok(()),
        Err(_) => Err(AllocError),
    }
}

/// Where a node stands.
pub(crate) fn standing_in(places: &IndexMap<u128, Standing>, number: u128) -> Option<Standing>
    ensures { result ≡ get nat_eq places.now number }
{
    match places.get(&number) {
        Some(standing) => Some(*standing),
        None => None,
    }
}
