//! What is kept of one model.

ghost use Rattle.std.specs.Prelude.{◌≡◌, ℕ, List, [], ◌∷◌, ◌++◌, None, Option, Some, false, true, filter, find, is_some, length, option_map, slice_get, unwrap_or, OnOk, OnErr};
ghost use Rattle.std.specs.Bool.{OnFalse, OnTrue};
ghost use Rattle.xf_def_model.specs.Applied.{is_property};
ghost use Rattle.xf_def_model.specs.Entries.{is_computed};
ghost use Rattle.xf_def_model.specs.Properties.{sets_on};
ghost use Rattle.xf_def_model.specs.Applied as applied;
ghost use Rattle.xf_binds.specs.Held.{AreSingle, Held, IsOnly, entries_in, entry_of, is_set};
ghost use Rattle.xf_binds.specs.Kept.{IsAlone, committed, entries_of, no_kept, recalculated, rolled_back, stood_of, told_of, truth_at, truth_from, truth_in};
ghost use Rattle.xf_binds.specs.Placed.{AreInOrder};
ghost use Rattle.xf_binds.specs.Readers.{AreReaders, list_or};
ghost use Rattle.xf_binds.specs.Since.{built_more, is_told, marks_in, present_in, stood_since, told_more};

use crate::applied::Applied;
use crate::entry::Entry;
use crate::node_set::NodeSet;
use crate::ordered::Ordered;
use crate::readers::PlaceList;
use crate::truth_list::TruthList;
use crate::turns::Turn;
use crate::web::Web;
use std::alloc::{AllocError, Global};
use std::marker::Model;
use std::mem::{replace, swap};
use xf_def_forest::{NodeId, NodeList};
use xf_def_model::Property;

/// What came of entries since the last commit.
#[derive(Drop)]
pub(crate) enum Since {
    Nothing,
    /// A recalculation.
    Told(TruthList),
    /// A rebuild.
    Built(Ordered),
    /// A recalculation, and then a rebuild.
    ToldBuilt(TruthList, Ordered),
    /// A rebuild, and then a recalculation, which gave truths to its entries.
    BuiltTold(Ordered),
    /// The same, and then a rebuild: the last entries are those that stood.
    Past(Ordered, Applied),
}

/// What is kept of the binds of one model: as it was at the last commit, and what came since. A change moves nothing that was kept.
#[derive(Drop)]
pub(crate) struct Kept {
    present: Ordered,
    // The entries that stood at the last recalculation, where they are not the present ones.
    stood: Option<Applied>,
    pub(crate) invalid: NodeSet,
    // As many as are kept, and those that came since, unless a recalculation came.
    texts: NodeList,
    lists: NodeList,
    texts_kept: usize,
    lists_kept: usize,
    since: Since,
    pub(crate) checked: Option<NodeSet>,
    // Those that came since a recalculation.
    late_texts: NodeList,
    late_lists: NodeList,
}

impl Model for Kept {
    ghost use Rattle.std.specs.Prelude.{◌≤◌, length};
    ghost use Rattle.xf_binds.specs.Kept as kept;
    ghost use Rattle.xf_binds.specs.Readers.{AreReaders, list_or};
    ghost use Rattle.xf_binds.specs.Since.{kept_of, was_of};

    ghost Value = { kept.Kept };

    ghost view = { λ k. kept_of k.present k.stood k.invalid k.checked k.texts k.lists k.late_texts k.late_lists k.since (was_of k.present k.stood k.invalid k.texts k.texts_kept k.lists k.lists_kept) };

    ghost invariant = { λ k. (k.texts_kept ≤ length k.texts) × (k.lists_kept ≤ length k.lists) };
}

impl Kept {
    pub(crate) fn new(alloc: Global) -> Self
        ensures { result ≡ no_kept }
    {
        Kept {
            present: Ordered::new(alloc),
            stood: None,
            invalid: NodeSet::new(alloc),
            texts: NodeList::new(alloc),
            lists: NodeList::new(alloc),
            texts_kept: 0,
            lists_kept: 0,
            since: Since::Nothing,
            checked: None,
            late_texts: NodeList::new(alloc),
            late_lists: NodeList::new(alloc),
        }
    }

    /// The present entries and types.
    pub(crate) fn present(&self) -> &Applied
        ensures { entries_in result.now ≡ self.now.entries }
    {
        self.ordered().applied()
    }

    /// What the present entries ask of the data.
    pub(crate) fn web(&self) -> &Web
        ensures { result.now ≡ self.now.asks }
    {
        self.ordered().web()
    }

    /// The present calculates, none before one that it reads.
    pub(crate) fn turns(&self) -> &[Turn]
        ensures { AreInOrder self.now.entries self.now.asks result.now }
    {
        self.ordered().turns()
    }

    /// The places of the present entries that read a node.
    pub(crate) fn readers(&self, number: u128) -> Option<&PlaceList>
        ensures { AreReaders self.now.entries self.now.asks number (list_or (option_map (λ p. p.now) result)) }
    {
        self.ordered().readers(number)
    }

    /// The present entries with what they ask.
    fn ordered(&self) -> &Ordered
        ensures entries { entries_in result.now.held ≡ self.now.entries }
        ensures asks { result.now.asks ≡ self.now.asks }
    {
        match &self.since {
            Since::Nothing => &self.present,
            Since::Told(_) => &self.present,
            Since::Built(now) => now,
            Since::ToldBuilt(_, now) => now,
            Since::BuiltTold(now) => now,
            Since::Past(now, _) => now,
        }
    }

    /// The truth that the node's entry of this property has; `None` where it has no such entry, `Some(None)` where that has no value yet.
    pub(crate) fn truth(&self, node: NodeId, property: Property) -> Option<Option<bool>>
        requires { is_property property Property.Kind ≡ false }
        ensures { result ≡ truth_in self.now property node.number }
    {
        match self.present().place(node, property) {
            Some(at) => match self.present().entry(at) {
                Some(entry) => Some(self.truth_of(&entry, at)),
                None => None,
            },
            None => None,
        }
    }

    /// The truth that the entry at a place had at the last recalculation, where it stood then; a type has none. It costs one look where
    /// the entry stood at the same place.
    pub(crate) fn truth_at(&self, at: usize) -> Option<bool>
        ensures truth { result ≡ truth_at self.now at }
        ensures alone { (e : applied.Entry) → slice_get self.now.entries at ≡ Some e → is_computed e ≡ true → IsAlone self.now e }
    {
        self.is_single();
        self.has_only();
        match self.present().entry(at) {
            Some(entry) => {
                if is_type(entry.property) {
                    return None;
                }
                self.truth_of(&entry, at)
            }
            None => None,
        }
    }

    /// No property of a node is set twice by the present entries. This tells contracts so, and does nothing.
    pub(crate) fn is_single(&self)
        ensures { AreSingle self.now.entries }
    {
        self.present().is_single();
    }

    /// One at most of the entries that stood is the same as another. This tells contracts so, and does nothing.
    fn has_only(&self)
        ensures { (e : applied.Entry) → is_computed e ≡ true → (found : Option applied.Entry) × IsOnly (entries_of self.now.stood) e found }
    {
        match &self.since {
            Since::Nothing => stood_in(&self.stood, &self.present).is_single(),
            Since::Told(_) => self.present.applied().is_single(),
            Since::Built(_) => stood_in(&self.stood, &self.present).is_single(),
            Since::ToldBuilt(_, _) => self.present.applied().is_single(),
            Since::BuiltTold(now) => now.applied().is_single(),
            Since::Past(_, stood) => stood.is_single(),
        }
    }

    /// Whether the entries that stood at the last recalculation are the present ones, at the same places. That they may not be
    /// promises nothing.
    pub(crate) fn is_settled(&self) -> bool
        ensures { OnTrue result (entries_of self.now.stood ≡ filter is_computed self.now.entries) }
    {
        match &self.since {
            Since::Nothing => self.stood.is_none(),
            Since::Told(_) => true,
            Since::Built(_) => false,
            Since::ToldBuilt(_, _) => false,
            Since::BuiltTold(_) => true,
            Since::Past(_, _) => false,
        }
    }

    /// The truth that an entry had at the last recalculation, where it stood then. A likely place is looked at first.
    fn truth_of(&self, entry: &Entry, likely: usize) -> Option<bool>
        requires { is_computed (entry_of entry.now) ≡ true }
        ensures { result ≡ truth_from self.now.stood (entry_of entry.now) }
    {
        match &self.since {
            Since::Nothing => stood_in(&self.stood, &self.present).truth(entry, likely),
            Since::Told(truths) => self.present.applied().told(entry, truths, likely),
            Since::Built(_) => stood_in(&self.stood, &self.present).truth(entry, likely),
            Since::ToldBuilt(truths, _) => self.present.applied().told(entry, truths, likely),
            Since::BuiltTold(now) => now.applied().truth(entry, likely),
            Since::Past(_, stood) => stood.truth(entry, likely),
        }
    }

    /// The entry that the same attribute of the same bind gave to the same node at the last recalculation.
    pub(crate) fn stood(&self, entry: &Entry) -> Option<Entry>
        requires { is_computed (entry_of entry.now) ≡ true }
        ensures { IsOnly (entries_of self.now.stood) (entry_of entry.now) (option_map entry_of result) }
    {
        match &self.since {
            Since::Nothing => stood_in(&self.stood, &self.present).only(entry),
            Since::Told(_) => self.present.applied().only(entry),
            Since::Built(_) => stood_in(&self.stood, &self.present).only(entry),
            Since::ToldBuilt(_, _) => self.present.applied().only(entry),
            Since::BuiltTold(now) => now.applied().only(entry),
            Since::Past(_, stood) => stood.only(entry),
        }
    }

    /// The nodes that have another text since the last recalculation.
    pub(crate) fn texts(&self) -> &NodeList
        ensures { result.now ≡ self.now.texts }
    {
        if is_told(&self.since) {
            return &self.late_texts;
        }
        &self.texts
    }

    /// The nodes in whose list of attributes and children one came or went since.
    pub(crate) fn lists(&self) -> &NodeList
        ensures { result.now ≡ self.now.lists }
    {
        if is_told(&self.since) {
            return &self.late_lists;
        }
        &self.lists
    }

    /// The node's entry of this property.
    pub(crate) fn entry_on(&self, node: NodeId, property: Property) -> Option<Entry>
        ensures { option_map entry_of result ≡ find (sets_on node.number property) self.now.entries }
    {
        match self.present().at(node, property) {
            Some(item) => Some(item.entry),
            None => None,
        }
    }

    /// Whether a present entry sets this property on some node.
    pub(crate) fn sets(&self, property: Property) -> bool
        ensures { result ≡ is_set property self.now.entries }
    {
        self.present().sets(property)
    }

    /// Whether the node has an entry of this property.
    pub(crate) fn has(&self, node: NodeId, property: Property) -> bool
        ensures { result ≡ is_some (truth_in self.now property node.number) }
    {
        self.present().has(node, property)
    }

    /// Keeps the entries of a rebuild. Those of the last recalculation are kept beside them.
    pub(crate) fn rebuild(&mut self, present: Ordered)
        ensures { self.new ≡ record self.old { entries = entries_in present.held; asks = present.asks } }
    {
        let since = replace(&mut self.since, Since::Nothing);
        self.since = built(since, present);
    }

    /// Keeps the present entries with these truths as those of the last recalculation, and forgets the marks.
    pub(crate) fn recalculated(&mut self, truths: TruthList)
        ensures { self.new ≡ recalculated truths self.old }
    {
        let since = replace(&mut self.since, Since::Nothing);
        self.since = told(since, truths);
        self.late_texts.clear();
        self.late_lists.clear();
    }

    /// Marks a node that has another text.
    pub(crate) fn mark_text(&mut self, node: NodeId) -> Result<(), AllocError>
        ensures ok { OnOk result (self.new ≡ record self.old { texts = self.old.texts ++ node.number ∷ [] }) }
        ensures err { OnErr result (self.new ≡ self.old) }
    {
        if is_told(&self.since) {
            return self.late_texts.push(node);
        }
        self.texts.push(node)
    }

    /// Marks a node in whose list of attributes and children one came or went.
    pub(crate) fn mark_list(&mut self, node: NodeId) -> Result<(), AllocError>
        ensures ok { OnOk result (self.new ≡ record self.old { lists = self.old.lists ++ node.number ∷ [] }) }
        ensures err { OnErr result (self.new ≡ self.old) }
    {
        if is_told(&self.since) {
            return self.late_lists.push(node);
        }
        self.lists.push(node)
    }

    /// Keeps it as it stands.
    pub(crate) fn commit(&mut self)
        ensures { self.new ≡ committed self.old }
    {
        let is_told = is_told(&self.since);
        self.texts_kept = settle_marks(is_told, &mut self.texts, &mut self.late_texts);
        self.lists_kept = settle_marks(is_told, &mut self.lists, &mut self.late_lists);
        let checked = replace(&mut self.checked, None);
        settle_checked(&mut self.invalid, checked);
        let since = replace(&mut self.since, Since::Nothing);
        settle(&mut self.present, &mut self.stood, since);
    }

    /// Gives it back as it was at the last commit.
    pub(crate) fn roll_back(&mut self)
        ensures { self.new ≡ rolled_back self.old }
    {
        self.since = Since::Nothing;
        self.checked = None;
        self.texts.truncate(self.texts_kept);
        self.lists.truncate(self.lists_kept);
    }
}

fn is_type(property: Property) -> bool
    ensures { result ≡ is_property property Property.Kind }
{
    property == Property::Kind
}

/// The entries that stood, where the present ones may be the same.
fn stood_in<'a>(stood: &'a Option<Applied>, present: &'a Ordered) -> &'a Applied
    ensures { result.now ≡ stood_of present.now.held stood.now }
{
    match stood {
        Some(stood) => stood,
        None => present.applied(),
    }
}

/// Whether a recalculation came.
fn is_told(since: &Since) -> bool
    ensures { result ≡ is_told since.now }
{
    match since {
        Since::Nothing => false,
        Since::Built(_) => false,
        Since::Told(_) => true,
        Since::ToldBuilt(_, _) => true,
        Since::BuiltTold(_) => true,
        Since::Past(_, _) => true,
    }
}

/// With one rebuild more.
fn built(since: Since, present: Ordered) -> Since
    ensures { result ≡ built_more present since }
{
    match since {
        Since::Nothing => Since::Built(present),
        Since::Told(truths) => Since::ToldBuilt(truths, present),
        Since::Built(_old) => Since::Built(present),
        Since::ToldBuilt(truths, _old) => Since::ToldBuilt(truths, present),
        Since::BuiltTold(old) => Since::Past(present, old.into_applied()),
        Since::Past(_old, stood) => Since::Past(present, stood),
    }
}

/// With one recalculation more.
fn told(since: Since, truths: TruthList) -> Since
    ensures { result ≡ told_more truths since }
{
    match since {
        Since::Nothing => Since::Told(truths),
        Since::Told(_old) => Since::Told(truths),
        Since::Built(now) => built_told(now, &truths),
        Since::ToldBuilt(_old, now) => built_told(now, &truths),
        Since::BuiltTold(now) => built_told(now, &truths),
        Since::Past(now, _stood) => built_told(now, &truths),
    }
}

fn built_told(now: Ordered, truths: &TruthList) -> Since
    ensures { result ≡ Since.BuiltTold (told_of truths.now now) }
{
    let mut now = now;
    now.tell(truths);
    Since::BuiltTold(now)
}

/// Keeps the entries as they stand.
fn settle(present: &mut Ordered, stood: &mut Option<Applied>, since: Since)
    ensures entries { entries_in present.new.held ≡ entries_in (present_in present.old since).held }
    ensures asks { present.new.asks ≡ (present_in present.old since).asks }
    ensures stood { stood_of present.new.held stood.new ≡ stood_since present.old.held stood.old since }
{
    match since {
        Since::Nothing => {}
        Since::Told(truths) => {
            present.tell(&truths);
            *stood = None;
        }
        Since::Built(now) => {
            let old = replace(present, now);
            stand(stood, old);
        }
        Since::ToldBuilt(truths, now) => {
            present.tell(&truths);
            let old = replace(present, now);
            *stood = Some(old.into_applied());
        }
        Since::BuiltTold(now) => {
            *present = now;
            *stood = None;
        }
        Since::Past(now, old) => {
            *present = now;
            *stood = Some(old);
        }
    }
}

/// Keeps the entries that were present as those that stood, unless others stand.
fn stand(stood: &mut Option<Applied>, old: Ordered)
    ensures { (other : List Held) → stood_of other stood.new ≡ stood_of old.held stood.old }
{
    if stood.is_none() {
        *stood = Some(old.into_applied());
    }
}

/// Keeps the nodes that were found not valid since, where some were looked for.
fn settle_checked(invalid: &mut NodeSet, checked: Option<NodeSet>)
    ensures { invalid.new ≡ unwrap_or checked invalid.old }
{
    match checked {
        Some(checked) => *invalid = checked,
        None => {}
    }
}

/// Keeps marks as they stand. The answer is how many they are.
fn settle_marks(is_told: bool, kept: &mut NodeList, late: &mut NodeList) -> usize
    ensures kept { kept.new ≡ marks_in is_told kept.old late.old }
    ensures count { result ≡ length kept.new }
{
    if is_told {
        swap(kept, late);
    }
    kept.len()
}
