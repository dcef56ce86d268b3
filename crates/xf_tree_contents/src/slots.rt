//! What each node is, under a key that it keeps for life.
ghost use Rattle.std.specs.Prelude.{◌≡◌, ℕ, ◌≤◌, ◌<◌, ◌+◌, ◌&&◌, List, not, true, [], None, Some, IsSome, option_map, slice_get, OnOk};
ghost use Rattle.slab.specs.Slab.{get, slab_len, Updates, HasRoomFor};
ghost use Rattle.xf_def_forest.specs.declared.content.Content.TheVariants.{Root};
ghost use Rattle.xf_def_forest.specs.Forest.{is_attribute, is_element, kind_of, name_in, own_text};
ghost use Rattle.xf_def_forest.specs.StringValue.{characters};
ghost use Rattle.xf_def_forest.specs.WellFormed.{have_same_name};
ghost use Rattle.xf_tree_contents.specs.Seen.{seen_content};
ghost use Rattle.xf_tree_contents.specs.Names.{named, KeepsNames};
ghost use Rattle.xf_tree_contents.specs.Slots.{name_number, number_where, is_of_kind, slot_of, IsNamed, valued_slot, owned_slot};
ghost use Rattle.xf_tree_contents.specs.Bearers.{may_bear, IsBearer, IsNoted};
ghost use Rattle.xf_tree_contents.specs.Sought.{has_name, is_sought};
ghost use Rattle.xf_tree_contents.specs.Keys.{number_in, content_in};

use crate::bearers::{Bearer, Bearers};
use crate::names::Names;
use crate::seen::Seen;
use crate::sought::{Principal, Sought};
use slab::Slab;
use std::alloc::{AllocError, Global};
use std::marker::Model;
use std::mem;
use xf_def_forest::{Content, Kind, Name};
use xf_name::{QName, Word};

/// A node or a kept text, with the number of its name. What has no name or no text of its own has 0 or an empty one there.
#[derive(Drop)]
struct Entry {
    number: u128,
    /// Of a kept text, the number of the element that it was taken from.
    owner: u128,
    text: Word,
    name: u32,
    kind: Kind,
}

/// Nodes and kept texts by their keys. A name that many nodes have stands once.
#[derive(Drop)]
pub struct Slots {
    alloc: Global,
    slab: Slab<Entry>,
    names: Names,
    bearers: Bearers,
}

impl Model for Slots {
    ghost use Rattle.slab.specs.Slab.{Slab};
    ghost use Rattle.xf_tree_contents.specs.Slot.{Slot};

    ghost Value = { Slab Slot };

    ghost use Rattle.xf_tree_contents.specs.Slots.{slots_of, AreHeld};

    ghost view = { λ s. slots_of s.slab s.names };

    ghost invariant = { λ s. AreHeld s.slab s.names s.bearers };
}

impl Slots {
    /// No nodes. Takes no memory.
    pub fn new(alloc: Global) -> Self
        ensures { result.slots ≡ [] }
    {
        Slots {
            alloc,
            slab: Slab::new(alloc),
            names: Names::new(alloc),
            bearers: Bearers::new(alloc),
        }
    }

    #[inline(always)]
    pub fn number(&self, key: usize) -> u128
        ensures { result ≡ number_in (get self.now key) }
    {
        match self.slab.get(key) {
            Some(entry) => entry.number,
            None => 0,
        }
    }

    /// The kind of what is under a key: a root where nothing is.
    #[inline(always)]
    pub fn kind(&self, key: usize) -> Kind
        ensures { result ≡ kind_of (content_in (get self.now key)) }
    {
        match self.slab.get(key) {
            Some(entry) => entry.kind,
            None => Kind::Root,
        }
    }

    /// The text that a node has itself: an attribute's value, or the characters of a text.
    #[inline(always)]
    pub fn own(&self, key: usize) -> &str
        ensures { result.now ≡ own_text (content_in (get self.now key)) }
    {
        match self.slab.get(key) {
            Some(entry) => match entry.kind {
                Kind::Attribute => entry.text.as_str(),
                Kind::Text => entry.text.as_str(),
                _ => "",
            },
            None => "",
        }
    }

    /// What a node adds to the string value of a node above it.
    #[inline(always)]
    pub fn below(&self, key: usize) -> &str
        ensures { result.now ≡ characters (content_in (get self.now key)) }
    {
        match self.slab.get(key) {
            Some(entry) => match entry.kind {
                Kind::Text => entry.text.as_str(),
                _ => "",
            },
            None => "",
        }
    }

    /// The name of an element or attribute.
    pub fn name(&self, key: usize) -> Option<&Name>
        ensures { option_map (λ name. name.now) result ≡ name_in (content_in (get self.now key)) }
    {
        match name_number(&self.slab, key) {
            Some(number) => self.names.get(number),
            None => None,
        }
    }

    /// Whether both are named, with the same namespace and local part.
    pub fn has_same_name(&self, first: usize, second: usize) -> bool
        ensures { result ≡ have_same_name (name_in (content_in (get self.now first))) (name_in (content_in (get self.now second))) }
    {
        let Some(one) = name_number(&self.slab, first) else {
            return false;
        };
        let Some(other) = name_number(&self.slab, second) else {
            return false;
        };
        self.names.is_same(one, other)
    }

    /// What is under a key, where there is something.
    pub fn seen(&self, key: usize) -> Option<Seen<'_>>
        ensures { option_map seen_content result ≡ option_map (λ slot. slot.content) (get self.now key) }
    {
        match self.slab.get(key) {
            Some(entry) => Some(seen_entry(&self.names, entry)),
            None => None,
        }
    }

    /// Whether what is under a key is sought. No name is fetched where only the kind is asked.
    #[inline(always)]
    pub fn is_sought(&self, key: usize, sought: Sought<'_>) -> bool
        ensures { result ≡ is_sought sought.entry (content_in (get self.now key)) }
    {
        match self.slab.get(key) {
            Some(entry) => is_entry_sought(&self.names, entry, sought),
            None => is_root_sought(sought),
        }
    }

    /// Whether what is under a key is no attribute, and is sought. It is looked up once.
    #[inline(always)]
    pub fn is_plain_sought(&self, key: usize, sought: Sought<'_>) -> bool
        ensures { result ≡ (not (is_attribute (content_in (get self.now key))) && is_sought sought.entry (content_in (get self.now key))) }
    {
        match self.slab.get(key) {
            Some(entry) => is_plain_entry_sought(&self.names, entry, sought),
            None => is_root_sought(sought),
        }
    }

    /// The number of what is under a key, where that is sought. It is looked up once.
    #[inline(always)]
    pub fn sought_number(&self, key: usize, sought: Sought<'_>) -> Option<u128>
        ensures { result ≡ number_where (is_sought sought.entry (content_in (get self.now key))) (number_in (get self.now key)) }
    {
        match self.slab.get(key) {
            Some(entry) => number_where(is_entry_sought(&self.names, entry, sought), entry.number),
            None => number_where(is_root_sought(sought), 0),
        }
    }

    /// The same, where it is no attribute either.
    #[inline(always)]
    pub fn plain_sought_number(&self, key: usize, sought: Sought<'_>) -> Option<u128>
        ensures { result ≡ number_where (not (is_attribute (content_in (get self.now key))) && is_sought sought.entry (content_in (get self.now key))) (number_in (get self.now key)) }
    {
        match self.slab.get(key) {
            Some(entry) => number_where(
                is_plain_entry_sought(&self.names, entry, sought),
                entry.number,
            ),
            None => number_where(is_root_sought(sought), 0),
        }
    }

    /// Which key an element of a name may stand under.
    pub fn bearer_of(&self, asked: &QName) -> Bearer
        ensures { (key : ℕ) → is_element (content_in (get self.now key)) ≡ true → has_name asked.now (name_in (content_in (get self.now key))) ≡ true → IsBearer result key }
    {
        self.bearers.of(asked.local.as_str())
    }

    /// The key that the next node takes.
    pub fn vacant_key(&self) -> usize
        ensures value { result ≡ self.now.vacant_key }
        ensures vacant { get self.now result ≡ None }
    {
        self.slab.vacant_key()
    }

    /// Makes room for so many nodes more, whatever their names.
    pub fn reserve(&mut self, more: usize) -> Result<(), AllocError>
        ensures room { OnOk result (HasRoomFor self.new more) }
        ensures same { (key : ℕ) → get self.new key ≡ get self.old key }
        ensures vacant { self.new.vacant_key ≡ self.old.vacant_key }
    {
        self.slab.reserve(more)?;
        self.names.reserve(more)
    }

    /// Puts a node under the next key, which is answered.
    pub fn insert(&mut self, number: u128, content: Content) -> usize
        requires { HasRoomFor self.old 1 }
        ensures key { result ≡ self.old.vacant_key }
        ensures vacant { get self.old result ≡ None }
        ensures slot { Updates self.old self.new result (Some (record { number = number; owner = 0; content = content })) }
        ensures count { slab_len self.new ≡ slab_len self.old + 1 }
        ensures room { self.old.capacity ≤ self.new.capacity }
    {
        let key = self.slab.vacant_key();
        let entry = entry_for(
            self.alloc,
            &mut self.names,
            &mut self.bearers,
            key,
            number,
            content,
        );
        self.slab.insert_reserved(entry)
    }

    /// Gives back room for names that none took.
    pub fn give_back(&mut self)
        ensures { self.new ≡ record self.old { capacity = self.new.capacity } }
    {
        self.names.give_back();
    }

    /// Takes out what is under a key.
    pub fn remove(&mut self, key: usize)
        ensures { Updates self.old self.new key None }
    {
        let _ = self.slab.try_remove(key);
    }

    /// Gives an attribute another text. The answer is the one that it had.
    pub fn replace_value(&mut self, key: usize, text: Word) -> Word
        ensures slot { Updates self.old self.new key (option_map (valued_slot text) (get self.old key)) }
        ensures answer { is_attribute (content_in (get self.old key)) ≡ true → result ≡ own_text (content_in (get self.old key)) }
    {
        match self.slab.get_mut(key) {
            Some(entry) => match entry.kind {
                Kind::Attribute => mem::replace(&mut entry.text, text),
                _ => text,
            },
            None => text,
        }
    }

    /// Notes whose text a kept text was.
    pub fn set_owner(&mut self, key: usize, owner: u128)
        ensures { Updates self.old self.new key (option_map (owned_slot owner) (get self.old key)) }
    {
        if let Some(entry) = self.slab.get_mut(key) {
            entry.owner = owner;
        }
    }
}

/// The entry of a node that comes under a key, whose name comes into the table.
#[inline(always)]
fn entry_for(
    alloc: Global,
    names: &mut Names,
    bearers: &mut Bearers,
    key: usize,
    number: u128,
    content: Content,
) -> Entry
    requires { 0 < names.old.room }
    ensures slot { slot_of names.new.names result ≡ record { number = number; owner = 0; content = content } }
    ensures named { IsNamed names.new.names (Some result) }
    ensures noted { IsNoted bearers.new content key }
    ensures kept { KeepsNames names.old.names names.new.names }
    ensures room { names.old.room ≤ names.new.room + 1 }
    ensures rest { (name : List ℕ) (other : ℕ) → may_bear bearers.old name other ≡ true → may_bear bearers.new name other ≡ true }
{
    match content {
        Content::Root => new_entry(number, Kind::Root, 0, Word::new(alloc)),
        Content::Text(text) => new_entry(number, Kind::Text, 0, text),
        Content::Element(name) => {
            bearers.note(name.meaning.local.as_str(), key);
            let name = names.number_of(name);
            new_entry(number, Kind::Element, name, Word::new(alloc))
        }
        Content::Attribute(name, text) => {
            let name = names.number_of(name);
            new_entry(number, Kind::Attribute, name, text)
        }
    }
}

fn new_entry(number: u128, kind: Kind, name: u32, text: Word) -> Entry
    ensures { result ≡ record { number = number; owner = 0; text = text; name = name; kind = kind } }
{
    Entry {
        number,
        owner: 0,
        text,
        name,
        kind,
    }
}

/// What the node of an entry is.
#[inline(always)]
fn seen_entry<'a>(names: &'a Names, entry: &'a Entry) -> Seen<'a>
    requires { IsNamed names.now.names (Some entry.now) }
    ensures { seen_content result ≡ (slot_of names.now.names entry.now).content }
{
    match entry.kind {
        Kind::Root => Seen::Root,
        Kind::Text => Seen::Text(entry.text.as_str()),
        Kind::Element => Seen::Element(name_at(names, entry.name)),
        Kind::Attribute => Seen::Attribute(name_at(names, entry.name), entry.text.as_str()),
    }
}

/// The name with a number that one of the table has.
#[inline(always)]
fn name_at(names: &Names, number: u32) -> &Name
    requires { IsSome (slice_get names.now.names number) }
    ensures { Some result.now ≡ named names.now.names (Some number) }
{
    match names.get(number) {
        Some(name) => name,
        None => unreachable!(),
    }
}

/// The number of the name of an element or attribute.
#[inline(always)]
fn name_number(slab: &Slab<Entry>, key: usize) -> Option<u32>
    ensures { result ≡ name_number (get slab.now key) }
{
    match slab.get(key) {
        Some(entry) => match entry.kind {
            Kind::Element => Some(entry.name),
            Kind::Attribute => Some(entry.name),
            _ => None,
        },
        None => None,
    }
}

/// Whether the node of an entry is sought. No name is fetched where only the kind is asked.
#[inline(always)]
fn is_entry_sought(names: &Names, entry: &Entry, sought: Sought<'_>) -> bool
    requires { IsNamed names.now.names (Some entry.now) }
    ensures { result ≡ is_sought sought.entry (slot_of names.now.names entry.now).content }
{
    match sought {
        Sought::Any => true,
        Sought::Texts => match entry.kind {
            Kind::Text => true,
            _ => false,
        },
        Sought::All(principal) => is_of(principal, entry.kind),
        Sought::InSpace(principal, space) => {
            is_of(principal, entry.kind) && names.is_in_space(entry.name, space)
        }
        Sought::Named(principal, asked) => {
            is_of(principal, entry.kind) && names.has_name(entry.name, asked)
        }
        Sought::Nothing => false,
    }
}

/// Whether the node of an entry is no attribute, and is sought.
#[inline(always)]
fn is_plain_entry_sought(names: &Names, entry: &Entry, sought: Sought<'_>) -> bool
    requires { IsNamed names.now.names (Some entry.now) }
    ensures { result ≡ (not (is_attribute (slot_of names.now.names entry.now).content) && is_sought sought.entry (slot_of names.now.names entry.now).content) }
{
    match entry.kind {
        Kind::Attribute => false,
        _ => is_entry_sought(names, entry, sought),
    }
}

/// Whether a root is sought, for which an empty key stands.
#[inline(always)]
fn is_root_sought(sought: Sought<'_>) -> bool
    ensures { result ≡ is_sought sought.entry Root }
{
    match sought {
        Sought::Any => true,
        _ => false,
    }
}

#[inline(always)]
fn number_where(is: bool, number: u128) -> Option<u128>
    ensures { result ≡ number_where is number }
{
    if is { Some(number) } else { None }
}

/// Whether a kind is the principal one of an axis.
#[inline(always)]
fn is_of(principal: Principal, kind: Kind) -> bool
    ensures { result ≡ is_of_kind principal kind }
{
    match principal {
        Principal::Element => match kind {
            Kind::Element => true,
            _ => false,
        },
        Principal::Attribute => match kind {
            Kind::Attribute => true,
            _ => false,
        },
    }
}
