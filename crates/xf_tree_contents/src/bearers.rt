//! Local names that one element at most has, so that it is found without a walk.
ghost use Rattle.std.specs.Prelude.{◌≡◌, ℕ, List, true, Some};
ghost use Rattle.std.specs.Map.{update};
ghost use Rattle.std.specs.Str.{bytes_eq};
ghost use Rattle.indexmap.specs.IndexMap.{get_by_text};
ghost use Rattle.xf_tree_contents.specs.Bearers.{may_stand, may_bear, IsBearer};

use indexmap::IndexMap;
use std::alloc::Global;

/// Which key an element of a local name may stand under.
#[derive(Clone, Copy, Debug)]
pub enum Bearer {
    Nobody,
    /// This one alone.
    One(usize),
    Anybody,
}

/// What is known of the local names of elements: of each the key under which one came, or that several came. So it stays when they go. Where
/// there was no memory to note a name, nothing is known of any.
#[derive(Drop)]
pub struct Bearers {
    alloc: Global,
    keys: IndexMap<String, Option<usize>>,
    is_whole: bool,
}

impl Bearers {
    /// No names. Takes no memory.
    pub fn new(alloc: Global) -> Self {
        Bearers {
            alloc,
            keys: IndexMap::new(alloc),
            is_whole: true,
        }
    }

    /// Notes that an element of this local name comes under a key.
    pub fn note(&mut self, local: &str, key: usize)
        ensures here { may_bear self.new local.now key ≡ true }
        ensures rest { (name : List ℕ) (other : ℕ) → may_bear self.old name other ≡ true → may_bear self.new name other ≡ true }
    {
        if self.is_whole {
            self.is_whole = note_in(self.alloc, &mut self.keys, local, key);
        }
    }

    /// Which key an element of a local name may stand under.
    pub fn of(&self, local: &str) -> Bearer
        ensures all { (key : ℕ) → may_bear self.now local.now key ≡ true → IsBearer result key }
        ensures only { (key : ℕ) → IsBearer result key → may_bear self.now local.now key ≡ true }
    {
        if !self.is_whole {
            return Bearer::Anybody;
        }
        match self.keys.get(local) {
            None => Bearer::Nobody,
            Some(Some(key)) => Bearer::One(*key),
            Some(None) => Bearer::Anybody,
        }
    }
}

/// Notes the same in what is known of each name. The answer is whether there was memory.
fn note_in(
    alloc: Global,
    keys: &mut IndexMap<String, Option<usize>>,
    local: &str,
    key: usize,
) -> bool
    ensures here { result ≡ true → may_stand true (get_by_text keys.new local.now) key ≡ true }
    ensures rest { result ≡ true → (name : List ℕ) (other : ℕ) → may_stand true (get_by_text keys.old name) other ≡ true → may_stand true (get_by_text keys.new name) other ≡ true }
{
    match keys.get(local) {
        None => put(alloc, keys, local, Some(key)),
        Some(Some(_)) => put(alloc, keys, local, None),
        Some(None) => true,
    }
}

/// Puts what is known of a name in the place of what was. The answer is whether there was memory.
fn put(
    alloc: Global,
    keys: &mut IndexMap<String, Option<usize>>,
    local: &str,
    one: Option<usize>,
) -> bool
    ensures { result ≡ true → (name : List ℕ) → get_by_text keys.new name ≡ update bytes_eq (get_by_text keys.old) local.now (Some one) name }
{
    match String::from_str(alloc, local) {
        Ok(name) => keys.insert(name, one).is_ok(),
        Err(_) => false,
    }
}
