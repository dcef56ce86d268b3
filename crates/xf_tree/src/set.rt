//! Texts that are set, and put back.
ghost use Rattle.std.specs.Prelude.{◌≡◌, ◌<◌, ◌^◌, Some, false, OnErr};
ghost use Rattle.xf_base.specs.Gives.{Gives};
ghost use Rattle.xf_def_forest.specs.declared.content.Kind.TheVariants.{Attribute, Element};
ghost use Rattle.xf_def_forest.specs.Forest.{kind_at};
ghost use Rattle.xf_def_forest.specs.Visit.{visits};
ghost use Rattle.xf_def_forest.specs.Shape.{has_elements};
ghost use Rattle.xf_def_forest.specs.Limits.{limits};
ghost use Rattle.xf_def_forest.specs.Needs.{IsSettable, MayPutBack, MayGiveUp};
ghost use Rattle.xf_def_forest.specs.Texts.{text_set, put_back, given_up, attribute_text, element_texts};
ghost use Rattle.xf_tree_changes.specs.Texts.{numbers_in};

use crate::before::{Before, Had};
use crate::forest::Forest;
use crate::texts::{sums_of, swap_back, swap_texts};
use xf_def_forest::{Kind, NodeId, TreeFault};
use xf_name::Word;
use xf_tree_changes::{change_value, free_all, passed, take_kept};
use xf_tree_contents::own;
use xf_tree_walks::row_of;

impl Forest {
    /// Sets the text of an attribute, or of an element without element children. The texts that an element had are kept
    /// beside the forest. A refusal leaves the forest as it was.
    pub fn set_text(&mut self, node: NodeId, text: &str) -> Result<Before, TreeFault>
        requires may { IsSettable node.number self.old.forest }
        requires number { self.old.forest.next < 2 ^ 126 }
        ensures answer { Gives TreeFault.Memory (λ before. (before, self.new)) result (text_set limits node.number text.now self.old) }
        ensures err { OnErr result (self.new ≡ self.old) }
    {
        match self.kind(node) {
            Kind::Attribute => self.set_value(node, text),
            _ => self.set_content(node, text),
        }
    }

    /// Sets the text of an attribute.
    fn set_value(&mut self, node: NodeId, text: &str) -> Result<Before, TreeFault>
        requires { kind_at node.number self.old.forest.nodes ≡ Some Attribute }
        ensures answer { Gives TreeFault.Memory (λ before. (before, self.new)) result (text_set limits node.number text.now self.old) }
        ensures err { OnErr result (self.new ≡ self.old) }
    {
        let Some(at) = row_of(&self.rows, &self.slots, &self.hints, node) else {
            return Err(TreeFault::Memory);
        };
        let key = self.rows.at(at).key;
        let had = own(&self.slots, key).len() as u128;
        let rest = self.bytes.saturating_sub(had);
        let bytes = rest.saturating_add(text.len() as u128);
        if let Some(fault) = passed(self.count, text.len(), bytes) {
            return Err(fault);
        }
        let word = Word::from_str(self.alloc, text)?;
        let before = change_value(&mut self.slots, key, word, &mut self.bytes);
        Ok(Before {
            had: Had::Text(before),
        })
    }

    /// Sets the text of an element.
    fn set_content(&mut self, node: NodeId, text: &str) -> Result<Before, TreeFault>
        requires kind { kind_at node.number self.old.forest.nodes ≡ Some Element }
        requires childless { has_elements (visits self.old.forest.nodes) node.number ≡ false }
        requires number { self.old.forest.next < 2 ^ 126 }
        ensures answer { Gives TreeFault.Memory (λ before. (before, self.new)) result (text_set limits node.number text.now self.old) }
        ensures err { OnErr result (self.new ≡ self.old) }
    {
        let Some(at) = row_of(&self.rows, &self.slots, &self.hints, node) else {
            return Err(TreeFault::Memory);
        };
        let sums = sums_of(&self.rows, &self.slots, at, text, self.count, self.bytes);
        if let Some(fault) = passed(sums.count, text.len(), sums.bytes) {
            return Err(fault);
        }
        let number = self.next;
        let had = swap_texts(
            self.alloc,
            &mut self.rows,
            &mut self.slots,
            &mut self.hints,
            &mut self.kept,
            node.number,
            number,
            text,
            sums,
        )?;
        self.next = number + sums.more as u128;
        self.count = sums.count;
        self.bytes = sums.bytes;
        Ok(Before {
            had: Had::Texts(had),
        })
    }

    /// Gives a node back what it had: the kept texts with their numbers, or the attribute's text. Takes no memory.
    pub fn put_back(&mut self, node: NodeId, before: Before)
        requires { MayPutBack node.number before self.old }
        ensures { self.new ≡ put_back node.number before self.old }
    {
        match before.had {
            Had::Text(text) => self.put_value(node, text),
            Had::Texts(texts) => self.put_texts(node, texts),
        }
    }

    /// Gives an attribute back its text.
    fn put_value(&mut self, node: NodeId, text: Word)
        requires { kind_at node.number self.old.forest.nodes ≡ Some Attribute }
        ensures { self.new ≡ put_back node.number (attribute_text text) self.old }
    {
        let Some(at) = row_of(&self.rows, &self.slots, &self.hints, node) else {
            return;
        };
        let key = self.rows.at(at).key;
        drop(change_value(&mut self.slots, key, text, &mut self.bytes));
    }

    /// Gives an element back its kept texts.
    fn put_texts(&mut self, node: NodeId, mut texts: Vec<NodeId>)
        requires kind { kind_at node.number self.old.forest.nodes ≡ Some Element }
        requires childless { has_elements (visits self.old.forest.nodes) node.number ≡ false }
        ensures { self.new ≡ put_back node.number (element_texts (numbers_in texts.items)) self.old }
    {
        let Some(at) = row_of(&self.rows, &self.slots, &self.hints, node) else {
            return;
        };
        let first = take_kept(&mut self.kept, &self.slots, &mut texts);
        swap_back(
            &mut self.rows,
            &mut self.slots,
            &mut self.hints,
            at,
            &texts[first..],
            &mut self.count,
            &mut self.bytes,
        );
    }

    /// Keeps these texts no more. Takes no memory.
    pub fn give_up(&mut self, before: Before)
        requires { MayGiveUp before self.old }
        ensures { self.new ≡ given_up before self.old }
    {
        match before.had {
            Had::Text(_) => {}
            Had::Texts(texts) => self.drop_kept(texts),
        }
    }

    /// Keeps these texts no more.
    fn drop_kept(&mut self, mut texts: Vec<NodeId>)
        ensures { self.new ≡ given_up (element_texts (numbers_in texts.items)) self.old }
    {
        let first = take_kept(&mut self.kept, &self.slots, &mut texts);
        free_all(&mut self.slots, &texts[first..]);
    }
}
