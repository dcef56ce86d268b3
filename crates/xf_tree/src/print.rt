//! The literal trees of a node: as it is printed, and with resolved names.
ghost use Rattle.std.specs.Prelude.{◌≡◌, Some, IfOk};
ghost use Rattle.xf_def_forest.specs.Printed.{lit_of};
ghost use Rattle.xf_def_forest.specs.Literal.{bare_of};
ghost use Rattle.xf_tree_literals.specs.Print.{MayPrint};

use crate::forest::Forest;
use std::alloc::AllocError;
use xf_def_forest::{Bare, NodeId, NodeList};
use xf_name::{Lit, Prefixes, Word};
use xf_tree_literals::{bare_of_rows, lit_of_rows, numbers_of, printed_rows};
use xf_tree_rows::{end_of, slice};
use xf_tree_walks::row_of;

impl Forest {
    /// The tree of an element or text as it is printed, with the nodes below it that are kept and the declarations that it
    /// needs.
    pub fn to_lit(
        &self,
        node: NodeId,
        prefixes: &Prefixes,
        kept: &NodeList,
    ) -> Result<Lit, AllocError>
        requires { MayPrint node.number self.now.forest }
        ensures { IfOk result (λ lit. Some lit ≡ lit_of prefixes.now kept.now node.number self.now.forest.nodes) }
    {
        match row_of(&self.rows, &self.slots, &self.hints, node) {
            Some(at) => {
                let end = end_of(&self.rows, at);
                let numbers = numbers_of(self.alloc, kept)?;
                let left = printed_rows(
                    self.alloc,
                    &self.slots,
                    &slice(&self.rows, at, end),
                    &numbers,
                )?;
                lit_of_rows(self.alloc, &self.slots, prefixes, &left)
            }
            None => Ok(Lit::Text(Word::new(self.alloc))),
        }
    }

    /// The tree of an element or text, with resolved names.
    pub fn to_bare(&self, node: NodeId) -> Result<Bare, AllocError>
        requires { MayPrint node.number self.now.forest }
        ensures { IfOk result (λ tree. Some tree ≡ bare_of node.number self.now.forest.nodes) }
    {
        match row_of(&self.rows, &self.slots, &self.hints, node) {
            Some(at) => {
                let end = end_of(&self.rows, at);
                bare_of_rows(self.alloc, &self.slots, &slice(&self.rows, at, end))
            }
            None => Ok(Bare::Text(Word::new(self.alloc))),
        }
    }
}
