//! The names of nodes, each kept once and told by a number.
ghost use Rattle.std.specs.Prelude.{◌≡◌, ◌≤◌, ◌<◌, ◌+◌, ◌++◌, [], Some, slice_get, option_map, OnOk};
ghost use Rattle.std.specs.Cmp.Rules.{comparing, hashing};
ghost use Rattle.std.proofs.Common.{rules};
ghost use Rattle.xf_def_forest.specs.WellFormed.{have_same_name};
ghost use Rattle.xf_tree_contents.specs.Names.{named, KeepsNames};
ghost use Rattle.xf_tree_contents.specs.Sought.{has_name, is_in_space};
ghost use Rattle.std.specs.Hash as fed;

use indexmap::IndexSet;
use std::alloc::{AllocError, Global};
use std::hash::{Hash, Hasher};
use std::marker::Model;
use xf_def_forest::Name;
use xf_name::QName;

// A name is told by a number of 32 bits.
const NAME_LIMIT: usize = 4294967296;

/// A name in a table: its numbers, its local part and its prefix as it is written tell it from others.
#[derive(Drop)]
pub struct Known {
    pub name: Name,
}

impl PartialEq for Known {
    ghost use Rattle.xf_tree_contents.specs.Names.{same_known};

    ghost eq = { same_known };

    ghost laws = { Prim.search (comparing, rules) };

    fn eq(&self, other: &Known) -> bool {
        self.name.meaning.space == other.name.meaning.space
            && self.name.meaning.prefix == other.name.meaning.prefix
            && self.name.meaning.local.as_str() == other.name.meaning.local.as_str()
            && self.name.prefix.as_str() == other.name.prefix.as_str()
    }
}

impl Eq for Known {
    ghost laws = { Prim.search (comparing, rules) };
}

impl Hash for Known {
    ghost hash_input = { λ k. fed.u16 k.name.meaning.space ++ fed.str k.name.meaning.local };

    ghost respects_eq = { Prim.search (hashing, rules) };

    fn hash<H: Hasher>(&self, state: &mut H) {
        state.write_u16(self.name.meaning.space);
        self.name.meaning.local.as_str().hash(state);
    }
}

/// The names of a forest's nodes. A name that came in stays as long as the forest, also when its last node is gone: a form and
/// its data have few different names.
#[derive(Drop)]
pub struct Names {
    names: IndexSet<Known>,
}

impl Model for Names {
    ghost use Rattle.xf_tree_contents.specs.Names.{NameTable, room_of};
    ghost use Rattle.indexmap.specs.IndexSet.{spare};

    ghost Value = { NameTable };

    ghost view = { λ n. record { names = n.names.keys; room = room_of n.names.keys (spare n.names) } };
}

impl Names {
    /// No names. Takes no memory.
    pub fn new(alloc: Global) -> Self
        ensures { result.names ≡ [] }
    {
        Names {
            names: IndexSet::new(alloc),
        }
    }

    /// The name with a number.
    pub fn get(&self, number: u32) -> Option<&Name>
        ensures { option_map (λ name. name.now) result ≡ option_map (λ known. known.name) (slice_get self.now.names number) }
    {
        match self.names.get_index(number as usize) {
            Some(known) => Some(&known.name),
            None => None,
        }
    }

    /// Makes room for so many names more, so that none of these needs memory.
    pub fn reserve(&mut self, more: usize) -> Result<(), AllocError>
        ensures names { self.new.names ≡ self.old.names }
        ensures room { OnOk result (more ≤ self.new.room) }
        ensures spare { self.old.room ≤ self.new.room }
    {
        if NAME_LIMIT.saturating_sub(self.names.len()) < more {
            return Err(AllocError);
        }
        self.names.reserve(more)
    }

    /// Gives back room, where there is far more than the names may soon need.
    pub fn give_back(&mut self)
        ensures { self.new.names ≡ self.old.names }
    {
        let count = self.names.len();
        if self.names.capacity() / 4 > count + 16 {
            self.names.shrink_to(count * 2);
        }
    }

    /// Whether two numbers are of names with the same namespace and local part.
    pub fn is_same(&self, one: u32, other: u32) -> bool
        ensures { result ≡ have_same_name (named self.now.names (Some one)) (named self.now.names (Some other)) }
    {
        match (self.get(one), self.get(other)) {
            (Some(first), Some(second)) => one == other || means_same(first, second),
            _ => false,
        }
    }

    /// Whether a number is of a name with this namespace and local part.
    #[inline(always)]
    pub fn has_name(&self, number: u32, asked: &QName) -> bool
        ensures { result ≡ has_name asked.now (named self.now.names (Some number)) }
    {
        match self.get(number) {
            Some(name) => {
                asked.space == name.meaning.space
                    && asked.local.len() == name.meaning.local.len()
                    && asked.local.is(name.meaning.local.as_str())
            }
            None => false,
        }
    }

    /// Whether a number is of a name in a namespace.
    #[inline(always)]
    pub fn is_in_space(&self, number: u32, space: u16) -> bool
        ensures { result ≡ is_in_space space (named self.now.names (Some number)) }
    {
        match self.get(number) {
            Some(name) => space == name.meaning.space,
            None => false,
        }
    }

    /// The number of a name, which comes into the table where it is not there yet.
    pub fn number_of(&mut self, name: Name) -> u32
        requires { 0 < self.old.room }
        ensures found { slice_get self.new.names result ≡ Some (record { name = name }) }
        ensures kept { KeepsNames self.old.names self.new.names }
        ensures room { self.old.room ≤ self.new.room + 1 }
    {
        match self.names.insert_full(Known { name }) {
            Ok((at, _)) => at as u32,
            Err(_) => unreachable!(),
        }
    }
}

/// Whether both have the same namespace and local part.
fn means_same(first: &Name, second: &Name) -> bool
    ensures { result ≡ have_same_name (Some first.now) (Some second.now) }
{
    first.meaning.space == second.meaning.space
        && first.meaning.local.is(second.meaning.local.as_str())
}
