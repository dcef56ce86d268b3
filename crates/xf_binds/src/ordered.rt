//! The entries of a model with what they ask, and an order of their calculates (XForms 1.1, section 4.3.2 and appendix C).

ghost use Rattle.std.specs.Prelude.{◌≡◌, [], IfOk, option_map};
ghost use Rattle.xf_binds.specs.Held.{entries_in};
ghost use Rattle.xf_binds.specs.Turns.{AreInTurn};
ghost use Rattle.xf_binds.specs.Kept.{Entered, told_of};
ghost use Rattle.xf_binds.specs.Placed.{AreInOrder};
ghost use Rattle.xf_binds.specs.Readers.{AreReaders, list_or};

use crate::applied::Applied;
use crate::readers::{PlaceList, Readers, readers_of};
use crate::truth_list::TruthList;
use crate::turns::{Turn, turns_on};
use crate::web::Web;
use indexmap::IndexMap;
use std::alloc::{AllocError, Global};
use std::marker::Model;
use xf_def_forest::NodeList;

/// What a rebuild gave: entries, what each of them asks of the data, and the calculates, none before one that it reads. Contracts see no
/// order, since there may be others. Who reads a node is found by the node: so a change costs what it reaches.
#[derive(Drop)]
pub struct Ordered {
    applied: Applied,
    web: Web,
    // The calculates, none before one that it reads.
    turns: Vec<Turn>,
    readers: Readers,
}

impl Model for Ordered {
    ghost use Rattle.xf_binds.specs.Held.{entries_in};
    ghost use Rattle.xf_binds.specs.Kept.{Entered};
    ghost use Rattle.xf_binds.specs.Placed.{AreInOrder};
    ghost use Rattle.xf_binds.specs.Readers.{TellsReaders};

    ghost Value = { Entered };

    ghost view = { λ o. record { held = o.applied; asks = o.web } };

    ghost invariant = { λ o. (AreInOrder (entries_in o.applied) o.web o.turns.items) × (TellsReaders (entries_in o.applied) o.web o.readers) };
}

impl Ordered {
    /// No entries.
    pub(crate) fn new(alloc: Global) -> Self
        ensures { result ≡ record { held = []; asks = [] } }
    {
        Ordered {
            applied: Applied::new(alloc),
            web: Web::new(alloc),
            turns: Vec::new(alloc),
            readers: IndexMap::new(alloc),
        }
    }

    /// These entries, which ask this, with the nodes of the calculates, none before one that its calculate reads.
    pub fn of(
        alloc: Global,
        applied: Applied,
        web: Web,
        order: NodeList,
    ) -> Result<Self, AllocError>
        requires { AreInTurn (entries_in applied) web order }
        ensures { IfOk result (λ ordered. ordered ≡ record { held = applied; asks = web }) }
    {
        let mut applied = applied;
        applied.bring_near(alloc)?;
        let turns = turns_on(alloc, &applied, &order)?;
        let readers = readers_of(alloc, &applied, &web)?;
        Ok(Ordered {
            applied,
            web,
            turns,
            readers,
        })
    }

    pub(crate) fn applied(&self) -> &Applied
        ensures { result.now ≡ self.now.held }
    {
        &self.applied
    }

    pub(crate) fn web(&self) -> &Web
        ensures { result.now ≡ self.now.asks }
    {
        &self.web
    }

    /// The calculates, none before one that it reads.
    pub(crate) fn turns(&self) -> &[Turn]
        ensures { AreInOrder (entries_in self.now.held) self.now.asks result.now }
    {
        self.turns.as_slice()
    }

    /// The places of the entries that read a node.
    pub(crate) fn readers(&self, number: u128) -> Option<&PlaceList>
        ensures { AreReaders (entries_in self.now.held) self.now.asks number (list_or (option_map (λ p. p.now) result)) }
    {
        match self.readers.get(&number) {
            Some(places) => Some(places),
            None => None,
        }
    }

    /// Gives the entries these truths, by their places. Takes no memory.
    pub(crate) fn tell(&mut self, truths: &TruthList)
        ensures { self.new ≡ told_of truths.now self.old }
    {
        self.applied.tell(truths);
    }

    /// The entries alone.
    pub(crate) fn into_applied(self) -> Applied
        ensures { result ≡ self.held }
    {
        self.applied
    }
}
