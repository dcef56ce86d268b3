//! The indexes of repeats, each with the node at it (XForms 1.1, section 9.3.1).

ghost use Rattle.std.specs.Prelude.{◌≡◌, map};
ghost use Rattle.xf_def_xpath.specs.Given.{beside};
ghost use Rattle.xf_def_ui.specs.Elements.{element_at, repeat_number};
ghost use Rattle.xf_def_ui.specs.Index.{index_of, named_indexes, number_of};
ghost use Rattle.xf_def_ui.specs.Interface.{interface_of, sort_of};
ghost use Rattle.xf_eval_context.specs.Indexes.{has_id, named_among, seen_index};

use xf_def_forest::NodeId;
use xf_def_syntax::{Control, Form, Kind};
use xf_form_elements::element_in;

/// The index of a repeat, from 1 or 0 without rows, and the node at it.
#[derive(Clone, Copy, Debug)]
pub struct Index {
    pub index: u32,
    pub node: Option<NodeId>,
}

/// The index of a repeat, among those of all repeats.
pub fn index_of(form: &Form, indexes: &[Index], repeat: u32) -> Index
    ensures { seen_index result ≡ index_of (interface_of form.now) (map seen_index indexes.now) repeat }
{
    match indexes.get(number_of(form, repeat) as usize) {
        Some(index) => *index,
        None => Index {
            index: 0,
            node: None,
        },
    }
}

/// The number of a repeat among the repeats.
pub fn number_of(form: &Form, repeat: u32) -> u32
    ensures { result ≡ number_of (interface_of form.now) repeat }
{
    match element_in(form, repeat) {
        Some(here) => repeat_number(&here.kind),
        None => 0,
    }
}

fn repeat_number(kind: &Kind) -> u32
    ensures { result ≡ repeat_number (sort_of kind.now) }
{
    match kind {
        Kind::Control(_, control) => match control {
            Control::Repeat(number, _) => *number,
            _ => 0,
        },
        _ => 0,
    }
}

/// The index of the repeat with this id.
pub(crate) fn index_named(form: &Form, indexes: &[Index], id: &str) -> Option<u32>
    ensures { result ≡ beside id.now (named_indexes (interface_of form.now) (map seen_index indexes.now)) }
{
    index_among(form, indexes, form.repeats.as_slice(), id)
}

/// Of one of these repeats.
fn index_among(form: &Form, indexes: &[Index], repeats: &[u32], id: &str) -> Option<u32>
    ensures { result ≡ beside id.now (named_among (interface_of form.now) (map seen_index indexes.now) repeats.now) }
{
    for repeat in repeats {
        if has_id(form, *repeat, id) {
            return Some(index_of(form, indexes, *repeat).index);
        }
    }
    None
}

fn has_id(form: &Form, element: u32, id: &str) -> bool
    ensures { result ≡ has_id (element_at (interface_of form.now) element).id id.now }
{
    match element_in(form, element) {
        Some(here) => {
            if here.id.is_empty() {
                return false;
            }
            here.id.is(id)
        }
        None => false,
    }
}
