//! A forest that can be given back: it and the ledger of its changes.
ghost use Rattle.std.specs.Prelude.{◌≡◌, ◌<◌, ◌^◌, [], OnOk, OnErr};
ghost use Rattle.xf_base.specs.Gives.{Gives};
ghost use Rattle.xf_def_forest.specs.Changes.{attached, copied, detached};
ghost use Rattle.xf_def_forest.specs.Limits.{limits};
ghost use Rattle.xf_def_forest.specs.Needs.{IsSettable, MayAttach, MayCopy, MayDetach};
ghost use Rattle.xf_def_forest.specs.Planted.{planted, planted_bare};
ghost use Rattle.xf_def_forest.specs.Texts.{text_set, without_detached};
ghost use Rattle.xf_law_forests.specs.Root.Roots.{AreAhead};
ghost use Rattle.xf_undo.specs.Draft.{kept_as, alone, changed, with_text, with_forest, with_tree, with_reserved, IsUnused, with_settled};

use crate::entry::Change;
use crate::ledger::Ledger;
use std::alloc::{AllocError, Global};
use std::marker::Model;
use xf_def_forest::{Bare, NodeId, TreeFault};
use xf_name::{Lit, Prefixes};
use xf_tree::Forest;

/// A forest with the ledger of its changes. Contracts see the forest as it was kept, and as it stands.
#[derive(Drop)]
pub struct Draft {
    forest: Forest,
    ledger: Ledger,
    // The first of the numbers that were reserved, and those of them that were used: they are kept so that a number that is
    // neither a node's nor a kept text's is known as such.
    first: u128,
    used: Vec<u128>,
}

impl Model for Draft {
    ghost use Rattle.xf_undo.specs.Draft.{Draft as Drafted};

    ghost Value = { Drafted };

    ghost use Rattle.xf_undo.specs.Draft.{draft_of, IsDraft};

    ghost view = { λ d. draft_of d.ledger d.forest d.first d.used.items };

    ghost invariant = { λ d. IsDraft d.ledger d.forest d.first d.used.items };
}

impl Draft {
    /// Keeps a forest as its instances stand: detached trees are dropped. Takes no memory.
    pub fn new(alloc: Global, forest: Forest) -> Self
        ensures { result ≡ kept_as (without_detached forest).forest }
    {
        let mut forest = forest;
        forest.drop_detached();
        forest.are_trees();
        let ledger = Ledger::new(alloc, &forest);
        let first = forest.next_number();
        let used = Vec::new(alloc);
        Draft {
            forest,
            ledger,
            first,
            used,
        }
    }

    /// The forest as it stands.
    pub fn forest(&self) -> &Forest
        ensures { result.now.forest ≡ self.now.now }
    {
        &self.forest
    }

    /// No root stands behind the instances. This tells contracts so, and does nothing.
    pub fn are_ahead(&self)
        ensures { AreAhead self.now.now.nodes }
    {
        let _ = &self.forest;
    }

    /// Sets the text of an attribute, or of an element without element children.
    pub fn set_text(&mut self, node: NodeId, text: &str) -> Result<(), TreeFault>
        requires may { IsSettable node.number self.old.now }
        requires number { self.old.now.next < 2 ^ 126 }
        ensures answer { Gives TreeFault.Memory (λ u. self.new) result (with_text self.old (text_set limits node.number text.now (alone self.old.now))) }
        ensures err { OnErr result (self.new ≡ self.old) }
    {
        self.forest.are_trees();
        self.ledger.note(Change::Text(node))?;
        let before = self.forest.set_text(node, text)?;
        self.ledger.fill_text(&mut self.forest, before);
        self.forest.are_trees();
        give_up_numbers(&mut self.first, &mut self.used, &self.forest);
        Ok(())
    }

    /// Reserves so many numbers for texts that are settled: no other new node takes them. Those that were reserved before are
    /// given up, and so are these by any other change than a settling.
    pub fn reserve_numbers(&mut self, count: u32)
        requires { self.old.now.next < 2 ^ 126 }
        ensures { self.new ≡ with_reserved count self.old }
    {
        self.forest.are_trees();
        give_up_numbers(&mut self.first, &mut self.used, &self.forest);
        self.forest.reserve_numbers(count);
        self.forest.are_trees();
    }

    /// Sets the text of an attribute, or of an element without element children: there it has this number. No limit is asked.
    pub fn settle_text(&mut self, node: NodeId, text: &str, number: u128) -> Result<(), AllocError>
        requires may { IsSettable node.number self.old.now }
        requires number { IsUnused number self.old }
        ensures ok { OnOk result (self.new ≡ with_settled number node.number text.now self.old) }
        ensures err { OnErr result (self.new ≡ self.old) }
    {
        self.forest.are_trees();
        self.used.reserve(1)?;
        self.ledger.note(Change::Text(node))?;
        let before = self.forest.settle_text(node, text, number)?;
        self.ledger.fill_text(&mut self.forest, before);
        self.forest.are_trees();
        self.used.push_reserved(number);
        Ok(())
    }

    /// Puts a detached tree below a parent: an element before the child with this place, or behind them all, and an attribute
    /// by its written name.
    pub fn attach(&mut self, node: NodeId, parent: NodeId, place: u32) -> Result<(), TreeFault>
        requires { MayAttach node.number parent.number place self.old.now }
        ensures answer { Gives TreeFault.Memory (λ u. self.new) result (with_forest self.old (attached limits node.number parent.number place self.old.now)) }
        ensures err { OnErr result (self.new ≡ self.old) }
    {
        self.forest.are_trees();
        self.ledger.note(Change::Attach(node))?;
        self.forest.attach(node, parent, place)?;
        self.ledger.fill_attach();
        self.forest.are_trees();
        give_up_numbers(&mut self.first, &mut self.used, &self.forest);
        Ok(())
    }

    /// Cuts off a tree that has a parent: it stands last then.
    pub fn detach(&mut self, node: NodeId) -> Result<(), AllocError>
        requires { MayDetach node.number self.old.now }
        ensures ok { OnOk result (self.new ≡ changed self.old (detached node.number self.old.now)) }
        ensures err { OnErr result (self.new ≡ self.old) }
    {
        self.forest.are_trees();
        self.ledger.note(Change::Detach(node))?;
        let (parent, place) = self.forest.detach(node);
        self.ledger.fill_place(parent, place);
        self.forest.are_trees();
        give_up_numbers(&mut self.first, &mut self.used, &self.forest);
        Ok(())
    }

    /// Makes a detached copy of a tree. The answer is its top.
    pub fn copy(&mut self, node: NodeId) -> Result<NodeId, TreeFault>
        requires may { MayCopy node.number self.old.now }
        requires number { self.old.now.next < 2 ^ 126 }
        ensures answer { Gives TreeFault.Memory (λ n. (n.number, self.new)) result (with_tree self.old (copied limits node.number self.old.now)) }
        ensures err { OnErr result (self.new ≡ self.old) }
    {
        self.forest.are_trees();
        let copied = self.forest.copy(node)?;
        self.forest.are_trees();
        give_up_numbers(&mut self.first, &mut self.used, &self.forest);
        Ok(copied)
    }

    /// Plants a literal tree as a detached one. The answer is its top.
    pub fn plant(&mut self, lit: &Lit, prefixes: &Prefixes, space: u16) -> Result<NodeId, TreeFault>
        requires { self.old.now.next < 2 ^ 126 }
        ensures answer { Gives TreeFault.Memory (λ n. (n.number, self.new)) result (with_tree self.old (planted limits prefixes.now space lit.now self.old.now)) }
        ensures err { OnErr result (self.new ≡ self.old) }
    {
        self.forest.are_trees();
        let top = self.forest.plant(lit, prefixes, space)?;
        self.forest.are_trees();
        give_up_numbers(&mut self.first, &mut self.used, &self.forest);
        Ok(top)
    }

    /// Plants a tree with resolved names as a detached one. The answer is its top.
    pub fn plant_bare(&mut self, tree: &Bare, prefixes: &Prefixes) -> Result<NodeId, TreeFault>
        requires { self.old.now.next < 2 ^ 126 }
        ensures answer { Gives TreeFault.Memory (λ n. (n.number, self.new)) result (with_tree self.old (planted_bare limits prefixes.now tree.now self.old.now)) }
        ensures err { OnErr result (self.new ≡ self.old) }
    {
        self.forest.are_trees();
        let top = self.forest.plant_bare(tree, prefixes)?;
        self.forest.are_trees();
        give_up_numbers(&mut self.first, &mut self.used, &self.forest);
        Ok(top)
    }

    /// Keeps the forest as its instances stand now, in place of the one that was kept: detached trees are dropped. Takes no
    /// memory.
    pub fn commit(&mut self)
        ensures { self.new ≡ kept_as (without_detached (alone self.old.now)).forest }
    {
        self.forest.drop_detached();
        self.forest.are_trees();
        self.ledger.commit(&self.forest);
        give_up_numbers(&mut self.first, &mut self.used, &self.forest);
    }

    /// Gives the forest back that was kept, with the number that was next. Takes no memory.
    pub fn roll_back(&mut self)
        ensures { self.new ≡ kept_as self.old.kept }
    {
        self.forest.are_trees();
        self.ledger.roll_back(&mut self.forest);
        self.forest.are_trees();
        give_up_numbers(&mut self.first, &mut self.used, &self.forest);
    }
}

/// No number is reserved any more.
fn give_up_numbers(first: &mut u128, used: &mut Vec<u128>, forest: &Forest)
    ensures first { first.new ≡ forest.now.forest.next }
    ensures used { used.new.items ≡ [] }
{
    *first = forest.next_number();
    used.clear();
}
