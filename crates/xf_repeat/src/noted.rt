//! The repeats in which those inside start anew.

ghost use Rattle.std.specs.Prelude.{◌≡◌, ℕ, ◌==◌, ◌||◌, [], OnOk};
ghost use Rattle.xf_graph.specs.Edges.{has};

use std::alloc::{AllocError, Global};
use std::collections::BTreeSet;
use std::marker::Model;

/// The repeats in which those inside start anew, which contracts see as a list.
#[derive(Drop)]
pub(crate) struct Noted {
    repeats: BTreeSet<u32>,
}

impl Model for Noted {
    ghost use Rattle.std.specs.Prelude.{ℕ, List};

    ghost Value = { List ℕ };

    ghost view = { λ s. s.repeats.keys };
}

impl Noted {
    pub(crate) fn new(alloc: Global) -> Noted
        ensures { result ≡ [] }
    {
        Noted {
            repeats: BTreeSet::new(alloc),
        }
    }

    pub(crate) fn has(&self, element: u32) -> bool
        ensures { result ≡ has self.now element }
    {
        self.repeats.contains(&element)
    }

    pub(crate) fn add(&mut self, repeat: u32) -> Result<(), AllocError>
        ensures { OnOk result ((n : ℕ) → has self.new n ≡ ((repeat == n) || has self.old n)) }
    {
        self.repeats.insert(repeat)?;
        Ok(())
    }
}
