//! What a revalidation found of one model, and whether a recalculation keeps what nodes show beside it.

ghost use Rattle.std.specs.Prelude.{◌≡◌, None, Some, get_or, slice_get, true};
ghost use Rattle.std.specs.Bool.{OnFalse, OnTrue};
ghost use Rattle.xf_def_forest.specs.Visit.{has};
ghost use Rattle.xf_def_model.specs.Applied as applied;
ghost use Rattle.xf_binds.specs.Alike.{AreAlike, is_shown};
ghost use Rattle.xf_binds.specs.Kept.{recalculated, truth_at, values_of};

use crate::kept::Kept;
use crate::node_set::NodeSet;
use crate::truth_list::TruthList;
use xf_def_forest::NodeId;
use xf_def_model::Property;

impl Kept {
    /// Whether the last revalidation found the node not valid.
    pub(crate) fn is_invalid(&self, node: NodeId) -> bool
        ensures { result ≡ has node.number self.now.invalid }
    {
        match &self.checked {
            Some(checked) => checked.has(node),
            None => self.invalid.has(node),
        }
    }

    /// Keeps the nodes that were found not valid in place of those before. Whether they are the same.
    pub(crate) fn set_invalid(&mut self, invalid: NodeSet) -> bool
        ensures done { self.new ≡ record self.old { invalid = invalid } }
        ensures same { OnTrue result (invalid ≡ self.old.invalid) }
        ensures differs { OnFalse result (invalid ≡ self.old.invalid → ⊥) }
    {
        let is_same = self.is_so(&invalid);
        self.checked = Some(invalid);
        is_same
    }

    /// Whether these are the nodes that are not valid, in the same order.
    fn is_so(&self, invalid: &NodeSet) -> bool
        ensures same { OnTrue result (invalid.now ≡ self.now.invalid) }
        ensures differs { OnFalse result (invalid.now ≡ self.now.invalid → ⊥) }
    {
        match &self.checked {
            Some(checked) => checked.is_same(invalid),
            None => self.invalid.is_same(invalid),
        }
    }

    /// Whether no entry of the properties relevant, readonly and required has another truth, by its place, than at the last recalculation.
    pub(crate) fn keeps_properties(&self, truths: &TruthList) -> bool
        ensures alike { OnTrue result (AreAlike (values_of self.now) (values_of (recalculated truths.now self.now))) }
        ensures differs { OnFalse result (AreAlike (values_of self.now) (values_of (recalculated truths.now self.now)) → ⊥) }
    {
        self.is_single();
        for at in 0..self.present().len() {
            if !self.keeps_property(truths, at) {
                return false;
            }
        }
        true
    }

    /// The same of the entry at a place.
    fn keeps_property(&self, truths: &TruthList, at: usize) -> bool
        ensures alike { OnTrue result ((e : applied.Entry) → slice_get self.now.entries at ≡ Some e → is_shown e.property ≡ true → get_or truths.now at None ≡ truth_at self.now at) }
        ensures differs { OnFalse result (((e : applied.Entry) → slice_get self.now.entries at ≡ Some e → is_shown e.property ≡ true → get_or truths.now at None ≡ truth_at self.now at) → ⊥) }
    {
        match self.present().entry(at) {
            Some(entry) => !is_shown(entry.property) || self.truth_at(at) == truths.at(at),
            None => true,
        }
    }
}

/// Whether it is one of those that are shown beside validity.
fn is_shown(property: Property) -> bool
    ensures { result ≡ is_shown property }
{
    match property {
        Property::Relevant | Property::Readonly | Property::Required => true,
        _ => false,
    }
}
