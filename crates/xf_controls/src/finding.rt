//! The nodes that controls and containers bind by where nodes stand alone: they are the same while texts change.

ghost use Rattle.std.specs.Prelude.{◌≡◌, true, length, slice_get, IfOk, OnOk};
ghost use Rattle.xf_eval.specs.Live.{AroundStands};
ghost use Rattle.xf_def_ui.specs.Interface.{interface_of};
ghost use Rattle.xf_law_bindings.specs.Fixed.{AllFixed};
ghost use Rattle.xf_controls.specs.Known.{AreHeld, AreNoted, IsNoted};
ghost use Rattle.xf_controls.specs.Plain.{is_plain};
ghost use Rattle.xf_controls.specs.Surrounded.{IsQuiet, around_in};

use crate::copy::ControlCopy;
use crate::fixed::is_fixed;
use crate::known::{Known, KnownList};
use crate::walk::controls;
use std::alloc::{AllocError, Global};
use xf_base::Items;
use xf_def_forest::NodeId;
use xf_def_syntax::Form;
use xf_def_ui::{Marks, NodeMarks};
use xf_eval::{Around, EvalFault};
use xf_form_elements::chain;
use xf_tree::Forest;

/// The nodes that the controls and containers of a plain form bind, of those that bind by where nodes stand alone. They are the same over all
/// data that differ in texts from these. An `Err` as of `controls`.
pub fn known_nodes<A: Around>(
    alloc: Global,
    form: &Form,
    forest: &Forest,
    around: &A,
) -> Result<KnownList, EvalFault>
    requires plain { is_plain (interface_of form.now) ≡ true }
    requires around { AroundStands (A.given around.now) forest.now.forest.nodes }
    requires quiet { IsQuiet (A.given around.now) }
    ensures { IfOk result (AreHeld (interface_of form.now) (around_in (A.given around.now) form.now.tables forest.now.forest.nodes)) }
{
    let nothing = Items::new(alloc);
    let copies = controls(alloc, form, forest, around, &Unmarked {}, &nothing)?;
    Ok(noted(alloc, form, copies.as_slice())?)
}

/// Nodes without properties.
struct Unmarked {}

impl NodeMarks for Unmarked {
    ghost use Rattle.xf_def_ui.specs.Copies.{no_marks};

    ghost marks_of = { λ u n. no_marks };

    fn marks(&self, _node: NodeId) -> Marks {
        Marks {
            relevant: true,
            readonly: false,
            required: false,
            valid: true,
        }
    }
}

/// The nodes of copies in no row, where the elements bind by where nodes stand.
fn noted(alloc: Global, form: &Form, copies: &[ControlCopy]) -> Result<KnownList, AllocError>
    requires { is_plain (interface_of form.now) ≡ true }
    ensures { IfOk result (AreNoted (interface_of form.now) copies.now) }
{
    let mut known = vec![in alloc; Known::Unknown; form.elements.len()]?;
    for copy in copies {
        note(alloc, form, copy, known.as_mut_slice())?;
    }
    Ok(Items::from_vec(known))
}

/// Notes the node of a copy.
fn note(
    alloc: Global,
    form: &Form,
    copy: &ControlCopy,
    known: &mut [Known],
) -> Result<(), AllocError>
    requires { is_plain (interface_of form.now) ≡ true }
    ensures { OnOk result (IsNoted (interface_of form.now) copy.now known.old known.new) }
{
    if !copy.rows.is_empty() {
        return Ok(());
    }
    if copy.element as usize >= known.len() {
        return Ok(());
    }
    let around = chain(alloc, form, copy.element)?;
    if !are_fixed(form, around.as_slice()) {
        return Ok(());
    }
    known[copy.element as usize] = Known::Is(copy.node);
    Ok(())
}

/// Whether each of these elements binds by where nodes stand.
fn are_fixed(form: &Form, elements: &[u32]) -> bool
    requires { is_plain (interface_of form.now) ≡ true }
    ensures { result ≡ true → AllFixed (interface_of form.now) elements.now }
{
    for element in elements {
        if !is_fixed(form, *element) {
            return false;
        }
    }
    true
}
