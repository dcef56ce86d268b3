//! Texts that are settled, with numbers that were reserved.
ghost use Rattle.std.specs.Prelude.{◌≡◌, ◌<◌, ◌^◌, ℕ, Some, false, IfOk, OnErr};
ghost use Rattle.xf_def_forest.specs.declared.content.Kind.TheVariants.{Attribute, Element};
ghost use Rattle.xf_def_forest.specs.Forest.{kind_at};
ghost use Rattle.xf_def_forest.specs.Visit.{visits};
ghost use Rattle.xf_def_forest.specs.Shape.{has_elements};
ghost use Rattle.xf_def_forest.specs.Limits.{limits, passed_by_all};
ghost use Rattle.xf_def_forest.specs.Needs.{IsSettable};
ghost use Rattle.xf_def_forest.specs.Settle.{reserved, IsFree, numbered_text_set, has_text};
ghost use Rattle.xf_tree.specs.Settled.{text_written, IsSpare};

use crate::before::{Before, Had};
use crate::forest::Forest;
use crate::texts::{sums_of, swap_texts};
use std::alloc::AllocError;
use xf_def_forest::{Kind, NodeId, TreeFault};
use xf_name::Word;
use xf_tree_changes::{change_value, passed};
use xf_tree_contents::{is_attribute_at, own};
use xf_tree_rows::{end_of, slice};
use xf_tree_walks::{are_texts, row_of};

impl Forest {
    /// Reserves so many numbers: no new node takes them.
    pub fn reserve_numbers(&mut self, count: u32)
        requires { self.old.forest.next < 2 ^ 126 }
        ensures { self.new ≡ record self.old { forest = reserved count self.old.forest } }
    {
        self.next += count as u128;
    }

    /// Sets a text as `set_text` does; one that comes into an element has this number. No limit is asked, since a limit may
    /// be passed before the last of several texts stands: `passed` tells it. An `Err` leaves the forest as it was.
    pub fn settle_text(
        &mut self,
        node: NodeId,
        text: &str,
        number: u128,
    ) -> Result<Before, AllocError>
        requires may { IsSettable node.number self.old.forest }
        requires number { IsFree number self.old }
        ensures ok { IfOk result (λ before. (before, self.new) ≡ numbered_text_set number node.number text.now self.old) }
        ensures err { OnErr result (self.new ≡ self.old) }
    {
        match self.kind(node) {
            Kind::Attribute => self.write_value(node, text),
            _ => {
                let next = self.next;
                self.write_content(node, text, number, next)
            }
        }
    }

    /// Whether a text stands at a node: an attribute has it, or an element has it as its only text, or none where it is empty.
    pub fn has_text(&self, node: NodeId, text: &str) -> bool
        ensures { result ≡ has_text node.number text.now self.now.forest.nodes }
    {
        let Some(at) = row_of(&self.rows, &self.slots, &self.hints, node) else {
            return text.is_empty();
        };
        let key = self.rows.at(at).key;
        if is_attribute_at(&self.slots, key) {
            return own(&self.slots, key) == text;
        }
        are_texts(
            &slice(&self.rows, at, end_of(&self.rows, at)),
            &self.slots,
            text,
        )
    }

    /// Which of the limits of nodes and of all texts is passed, where one is.
    pub fn passed(&self) -> Option<TreeFault>
        ensures { result ≡ passed_by_all limits self.now.forest.nodes }
    {
        passed(self.count, 0, self.bytes)
    }

    /// Writes the text of an attribute.
    fn write_value(&mut self, node: NodeId, text: &str) -> Result<Before, AllocError>
        requires { kind_at node.number self.old.forest.nodes ≡ Some Attribute }
        ensures ok { IfOk result (λ before. (number : ℕ) → (before, self.new) ≡ numbered_text_set number node.number text.now self.old) }
        ensures err { OnErr result (self.new ≡ self.old) }
    {
        let Some(at) = row_of(&self.rows, &self.slots, &self.hints, node) else {
            return Err(AllocError);
        };
        let key = self.rows.at(at).key;
        let word = Word::from_str(self.alloc, text)?;
        let before = change_value(&mut self.slots, key, word, &mut self.bytes);
        Ok(Before {
            had: Had::Text(before),
        })
    }

    /// Writes the text of an element with a number; another one is next then.
    fn write_content(
        &mut self,
        node: NodeId,
        text: &str,
        number: u128,
        next: u128,
    ) -> Result<Before, AllocError>
        requires kind { kind_at node.number self.old.forest.nodes ≡ Some Element }
        requires childless { has_elements (visits self.old.forest.nodes) node.number ≡ false }
        requires number { IsSpare number next text.now self.old }
        ensures ok { IfOk result (λ before. (before, self.new) ≡ text_written number next node.number text.now self.old) }
        ensures err { OnErr result (self.new ≡ self.old) }
    {
        let Some(at) = row_of(&self.rows, &self.slots, &self.hints, node) else {
            return Err(AllocError);
        };
        let sums = sums_of(&self.rows, &self.slots, at, text, self.count, self.bytes);
        let had = swap_texts(
            self.alloc,
            &mut self.rows,
            &mut self.slots,
            &mut self.hints,
            &mut self.kept,
            node.number,
            number,
            text,
            sums,
        )?;
        self.next = next;
        self.count = sums.count;
        self.bytes = sums.bytes;
        Ok(Before {
            had: Had::Texts(had),
        })
    }
}
