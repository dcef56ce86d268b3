//! What the entries of a model ask of the data.

ghost use Rattle.std.specs.Prelude.{◌≡◌, ◌-◌, ◌^◌, [], ◌∷◌, ◌++◌, length, min, option_map, slice_get, OnOk, OnErr};
ghost use Rattle.xf_binds.specs.Asked.{asked_of};

use std::alloc::{AllocError, Global};
use std::marker::Model;
use xf_def_forest::NodeList;

/// What an entry asks: the nodes that it reads, those at whose list it looks, and the ancestors of its own node. A type asks nothing.
#[derive(Drop)]
pub struct Asks {
    pub reads: NodeList,
    pub looks: NodeList,
    pub above: NodeList,
}

/// What each entry of a model asks, by the entry's place. Contracts see the list of that.
#[derive(Drop)]
pub struct Web {
    asks: Vec<Asks>,
    // How much they read and look at together.
    asked: u64,
}

impl Model for Web {
    ghost use Rattle.std.specs.Prelude.{List};
    ghost use Rattle.xf_binds.specs.declared.web.Asks.{Asks};

    ghost Value = { List Asks };

    ghost use Rattle.xf_binds.specs.Asked.{IsCounted};

    ghost view = { λ w. w.asks.items };

    ghost invariant = { λ w. IsCounted w.asks.items w.asked };
}

impl Web {
    pub fn new(alloc: Global) -> Self
        ensures { result ≡ [] }
    {
        Web {
            asks: Vec::new(alloc),
            asked: 0,
        }
    }

    pub fn len(&self) -> usize
        ensures { result ≡ length self.now }
    {
        self.asks.len()
    }

    /// How many nodes the entries read and look at together, at most as many as 64 bits count.
    pub fn asked(&self) -> u64
        ensures { result ≡ min (asked_of self.now) (2 ^ 64 - 1) }
    {
        self.asked
    }

    /// What the entry at a place asks.
    pub fn get(&self, at: usize) -> Option<&Asks>
        ensures { option_map (λ a. a.now) result ≡ slice_get self.now at }
    {
        self.asks.get(at)
    }

    /// Adds what the next entry asks.
    pub fn push(&mut self, asks: Asks) -> Result<(), AllocError>
        ensures ok { OnOk result (self.new ≡ self.old ++ asks ∷ []) }
        ensures err { OnErr result (self.new ≡ self.old) }
    {
        let more = (asks.reads.len() as u64).saturating_add(asks.looks.len() as u64);
        self.asks.push(asks)?;
        self.asked = self.asked.saturating_add(more);
        Ok(())
    }
}
