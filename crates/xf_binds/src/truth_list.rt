//! What a recalculation found.

ghost use Rattle.std.specs.Prelude.{◌≡◌, ◌∷◌, ◌++◌, [], None, get_or, IfOk, OnOk, OnErr};

use std::alloc::{AllocError, Global};
use std::marker::Model;

/// The truths of the values of entries, by the places of these: none where an entry has none, or is a type.
#[derive(Debug, Drop)]
pub struct TruthList {
    truths: Vec<Option<bool>>,
}

impl Model for TruthList {
    ghost use Rattle.std.specs.Prelude.{Bool, List, Option};

    ghost Value = { List (Option Bool) };

    ghost view = { λ t. t.truths.items };
}

impl TruthList {
    /// None yet, with room for those of so many entries.
    pub fn with_capacity(alloc: Global, count: usize) -> Result<Self, AllocError>
        ensures { IfOk result (λ truths. truths ≡ []) }
    {
        Ok(TruthList {
            truths: Vec::with_capacity(alloc, count)?,
        })
    }

    /// Adds that of the next entry.
    pub fn push(&mut self, truth: Option<bool>) -> Result<(), AllocError>
        ensures ok { OnOk result (self.new ≡ self.old ++ truth ∷ []) }
        ensures err { OnErr result (self.new ≡ self.old) }
    {
        self.truths.push(truth)?;
        Ok(())
    }

    /// The truth at a place: past them there is none.
    pub(crate) fn at(&self, at: usize) -> Option<bool>
        ensures { result ≡ get_or self.now at None }
    {
        truth_at(&self.truths, at)
    }
}

fn truth_at(truths: &[Option<bool>], at: usize) -> Option<bool>
    ensures { result ≡ get_or truths.now at None }
{
    match truths.get(at) {
        Some(truth) => *truth,
        None => None,
    }
}
