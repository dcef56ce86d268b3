//! Of which model the last recalculation is known (XForms 1.1, section 4.3.2 and appendix C): so that the next one may pass over what is not
//! pertinent.

ghost use Rattle.std.specs.Prelude.{◌≡◌, ◌&&◌, Some, true, IfSome};
ghost use Rattle.xf_engine_state.specs.Known.{IsKnownStill, is_of, marks_if};
ghost use Rattle.xf_engine_state.specs.Moving.{nothing_known};

use xf_recalc_pertinent::MarkList;

/// What is known of data, of what binds set over them, and of the controls of the last refresh.
#[derive(Clone, Copy, Debug)]
pub struct Knowledge {
    /// The model of which the last recalculation is known: since then its data have changed where they are marked alone.
    pub known: Option<u32>,
    /// Whether the controls differ from those made afresh in the values of their nodes alone: texts alone have changed since the last refresh.
    pub is_steady: bool,
    /// Whether the data have the shape that was planted, and so no tree is detached.
    pub is_planted: bool,
    /// Whether no tree is detached.
    pub is_alone: bool,
}

impl Knowledge {
    /// Nothing is known: trees have come or gone.
    pub(crate) fn nothing() -> Self
        ensures { result ≡ nothing_known }
    {
        Knowledge {
            known: None,
            is_steady: false,
            is_planted: false,
            is_alone: false,
        }
    }
}

/// Whether controls that are made afresh may be steady: the data have the shape that was planted, and all that a plain form shows is bound.
pub(crate) fn may_be_steady(knowledge: Knowledge, is_plain: bool, is_bound: bool) -> bool
    ensures { result ≡ (knowledge.is_planted && (is_plain && is_bound)) }
{
    knowledge.is_planted && (is_plain && is_bound)
}

/// Whether copies may be renewed: the controls are steady, over data of the shape that was planted.
pub(crate) fn may_renew(knowledge: Knowledge) -> bool
    ensures { result ≡ (knowledge.is_steady && knowledge.is_planted) }
{
    knowledge.is_steady && knowledge.is_planted
}

/// The model, where no tree is detached.
pub(crate) fn known_of(is_alone: bool, model: u32) -> Option<u32>
    ensures { IfSome result (λ known. (known ≡ model) × (is_alone ≡ true)) }
{
    if is_alone {
        return Some(model);
    }
    None
}

/// Whether it is this model.
fn is_of(known: Option<u32>, model: u32) -> bool
    ensures { result ≡ is_of known model }
{
    match known {
        Some(known) => known == model,
        None => false,
    }
}

/// The marks of the pertinent entries of a model, where its last recalculation is known; or else none, by which all are evaluated.
pub(crate) fn marks_for<'a>(marks: &'a MarkList, known: Option<u32>, model: u32) -> &'a [bool]
    ensures { result.now ≡ marks_if (is_of known model) marks.now }
{
    let all = marks.as_slice();
    if is_of(known, model) {
        return all;
    }
    &all[..0]
}

/// The model of which it is known still once the text of a node was set: one that holds the node, where a text that is another one is marked; any
/// where the text stood there.
pub(crate) fn known_still(
    known: Option<u32>,
    holder: Option<u32>,
    is_other: bool,
    stood: bool,
) -> Option<u32>
    ensures { IsKnownStill known holder is_other stood result }
{
    if is_other {
        return held_still(known, holder);
    }
    if stood {
        return known;
    }
    None
}

/// The same, where the text is another one.
fn held_still(known: Option<u32>, holder: Option<u32>) -> Option<u32>
    ensures { IsKnownStill known holder true true result }
{
    match known {
        Some(model) => match holder {
            Some(holder) => still_in(model, holder),
            None => None,
        },
        None => None,
    }
}

fn still_in(model: u32, holder: u32) -> Option<u32>
    ensures { IsKnownStill (Some model) (Some holder) true true result }
{
    if holder == model {
        return Some(model);
    }
    None
}
