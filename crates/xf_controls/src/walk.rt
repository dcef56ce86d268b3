//! The copies of the controls and containers of a form, made afresh over its data: what surrounds an element is found once and handed down
//! to what stands in it.

ghost use Rattle.std.specs.Prelude.{◌≡◌, ◌++◌, ℕ, List, true, map, option_map};
ghost use Rattle.xf_def_values.specs.Bounded.{GivesBounded};
ghost use Rattle.xf_eval.specs.Live.{AroundStands};
ghost use Rattle.xf_def_ui.specs.Copies as copies;
ghost use Rattle.xf_def_ui.specs.Index.{Index};
ghost use Rattle.xf_def_ui.specs.Interface.{element_of, interface_of, sort_of};
ghost use Rattle.xf_controls.specs.Below as below;
ghost use Rattle.xf_controls.specs.Below.{copies_from, if_control};
ghost use Rattle.xf_controls.specs.Found.{IsFound};
ghost use Rattle.xf_controls.specs.Handed as down;
ghost use Rattle.xf_controls.specs.Known.{AreKnown, IsReached};
ghost use Rattle.xf_controls.specs.Plain.{is_plain};
ghost use Rattle.xf_controls.specs.Seen.{IsThere, node_of_place, number, seen_copy, seen_handed};
ghost use Rattle.xf_controls.specs.Surrounded.{IsQuiet, around_in};
ghost use Rattle.xf_def_ui.specs.Elements.{is_control};

use crate::binding::is_bound;
use crate::copy::{ControlCopy, ControlList};
use crate::element::{is_control, some_shown};
use crate::handed::{Handed, focus_in, nothing_around};
use crate::known::KnownList;
use crate::over::{Found, Over, both, found_at, handed_by};
use crate::value::value_of;
use std::alloc::Global;
use xf_base::Items;
use xf_def_forest::NodeList;
use xf_def_syntax::{Element, Form, Part};
use xf_def_ui::NodeMarks;
use xf_eval::{Around, EvalFault};
use xf_form_elements::{binding_of, element_in, scope_of};
use xf_tree::Forest;

/// The copies of the controls and containers of a plain form, in document order. What is known of the nodes that they bind is not asked. An `Err` is want of memory or, as in `evaluate`, a string
/// that is too long.
pub fn controls<A: Around, M: NodeMarks>(
    alloc: Global,
    form: &Form,
    forest: &Forest,
    around: &A,
    marks: &M,
    known: &KnownList,
) -> Result<ControlList, EvalFault>
    requires plain { is_plain (interface_of form.now) ≡ true }
    requires around { AroundStands (A.given around.now) forest.now.forest.nodes }
    requires quiet { IsQuiet (A.given around.now) }
    requires known { AreKnown (interface_of form.now) (around_in (A.given around.now) form.now.tables forest.now.forest.nodes) forest.now.forest.nodes known.now }
    ensures { (cases : List ℕ) (indexes : List Index) → GivesBounded EvalFault.Memory EvalFault.Long (map seen_copy) result (copies.copies (interface_of form.now) (around_in (A.given around.now) form.now.tables forest.now.forest.nodes) (M.marks_of marks.now) cases indexes) }
{
    let mut copies = ControlList::new(alloc);
    let over = Over {
        form,
        forest,
        around,
        marks,
        known,
    };
    let most = form.elements.len();
    push_copies(alloc, &over, most, 0, &nothing_around(), &mut copies)?;
    Ok(copies)
}

/// Puts the copies of an element and of those in it, of which at most so many are nested, behind others.
fn push_copies<A: Around, M: NodeMarks>(
    alloc: Global,
    over: &Over<'_, A, M>,
    most: usize,
    element: u32,
    handed: &Handed,
    copies: &mut ControlList,
) -> Result<(), EvalFault>
    requires around { AroundStands (A.given over.now.around.now) over.now.forest.now.forest.nodes }
    requires place { IsThere (node_of_place handed.now.place) over.now.forest.now.forest.nodes }
    requires plain { is_plain (interface_of over.now.form.now) ≡ true }
    requires known { AreKnown (interface_of over.now.form.now) (around_in (A.given over.now.around.now) over.now.form.now.tables over.now.forest.now.forest.nodes) over.now.forest.now.forest.nodes over.now.known.now }
    requires reached { IsReached (interface_of over.now.form.now) (around_in (A.given over.now.around.now) over.now.form.now.tables over.now.forest.now.forest.nodes) (seen_handed handed.now) most element }
    ensures { GivesBounded EvalFault.Memory EvalFault.Long (λ _. map seen_copy copies.new) result (option_map (λ more. map seen_copy copies.old ++ more) (copies_from most (interface_of over.now.form.now) (around_in (A.given over.now.around.now) over.now.form.now.tables over.now.forest.now.forest.nodes) (M.marks_of over.now.marks.now) (seen_handed handed.now) element)) }
{
    if most == 0 {
        return Ok(());
    }
    let Some(here) = element_in(over.form, element) else {
        return Ok(());
    };
    if is_passed(over.form, most - 1, here) {
        return Ok(());
    }
    let found = found_at(alloc, over, element, here, handed)?;
    push_own(alloc, over, element, here, handed, &found, copies)?;
    let below = handed_by(over, here, handed, &found);
    for part in here.parts.as_slice() {
        match part {
            Part::Text(_) => continue,
            Part::Element(child) => {
                push_copies(alloc, over, most - 1, *child, &below, copies)?;
                continue;
            }
        }
    }
    Ok(())
}

/// Whether what an element selects is not asked, since neither it nor anything in it is a control or container.
pub fn is_passed(form: &Form, most: usize, here: &Element) -> bool
    ensures { result ≡ below.is_passed most (interface_of form.now) (element_of form.now.tables here.now) }
{
    if !is_bound(binding_of(&form.tables, here)) {
        return false;
    }
    if is_control(&here.kind) {
        return false;
    }
    !some_shown(form, most, here.parts.as_slice())
}

/// Puts the copy of an element behind others, where it is a control or container.
fn push_own<A: Around, M: NodeMarks>(
    alloc: Global,
    over: &Over<'_, A, M>,
    element: u32,
    here: &Element,
    handed: &Handed,
    found: &Found,
    copies: &mut ControlList,
) -> Result<(), EvalFault>
    requires around { AroundStands (A.given over.now.around.now) over.now.forest.now.forest.nodes }
    requires place { IsThere (node_of_place handed.now.place) over.now.forest.now.forest.nodes }
    requires found { IsFound (M.marks_of over.now.marks.now) (element_of over.now.form.now.tables here.now) found.now }
    requires live { IsThere found.now.node over.now.forest.now.forest.nodes }
    ensures { GivesBounded EvalFault.Memory EvalFault.Long (λ _. map seen_copy copies.new) result (option_map (λ own. map seen_copy copies.old ++ own) (if_control (is_control (sort_of here.now.kind)) (down.copy_by (interface_of over.now.form.now) (around_in (A.given over.now.around.now) over.now.form.now.tables over.now.forest.now.forest.nodes) (M.marks_of over.now.marks.now) (seen_handed handed.now) element (element_of over.now.form.now.tables here.now) (option_map number found.now.node)))) }
{
    if !is_control(&here.kind) {
        return Ok(());
    }
    let copy = copy_at(alloc, over, element, here, handed, found)?;
    Ok(copies.push(copy)?)
}

/// The copy of an element that binds a node.
fn copy_at<A: Around, M: NodeMarks>(
    alloc: Global,
    over: &Over<'_, A, M>,
    element: u32,
    here: &Element,
    handed: &Handed,
    found: &Found,
) -> Result<ControlCopy, EvalFault>
    requires around { AroundStands (A.given over.now.around.now) over.now.forest.now.forest.nodes }
    requires place { IsThere (node_of_place handed.now.place) over.now.forest.now.forest.nodes }
    requires found { IsFound (M.marks_of over.now.marks.now) (element_of over.now.form.now.tables here.now) found.now }
    requires live { IsThere found.now.node over.now.forest.now.forest.nodes }
    ensures { GivesBounded EvalFault.Memory EvalFault.Long seen_copy result (down.copy_by (interface_of over.now.form.now) (around_in (A.given over.now.around.now) over.now.form.now.tables over.now.forest.now.forest.nodes) (M.marks_of over.now.marks.now) (seen_handed handed.now) element (element_of over.now.form.now.tables here.now) (option_map number found.now.node)) }
{
    let tables = &over.form.tables;
    let binding = binding_of(tables, here);
    let model = scope_of(over.form, handed.model, binding, here.model);
    let focus = focus_in(over.forest, tables, over.around, model, handed.place);
    let value = value_of(
        alloc,
        over.forest,
        tables,
        over.around,
        model,
        &here.kind,
        binding,
        focus,
        found.node,
    )?;
    Ok(ControlCopy {
        element,
        rows: NodeList::new(alloc),
        node: found.node,
        value,
        enabled: both(found.is_open, handed.is_open),
        readwrite: !found.marks.readonly,
        required: found.marks.required,
        valid: found.marks.valid,
        items: Items::new(alloc),
    })
}
