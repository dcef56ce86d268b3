//! What names nodes by where they stand alone, and so selects the same nodes whatever texts these have.

ghost use Rattle.std.specs.Prelude.{◌≡◌, ◌&&◌, ◌||◌, true};
ghost use Rattle.xf_def_xpath.specs.AskedSteps.{goes_up, is_kind, meets_texts};
ghost use Rattle.xf_def_xpath.specs.Exact.{is_sibling};
ghost use Rattle.xf_def_model.specs.Pertinent.{AllOf};
ghost use Rattle.xf_def_ui.specs.Elements.{element_at};
ghost use Rattle.xf_def_ui.specs.Interface.{interface_of};
ghost use Rattle.xf_form_elements.specs.Bound.{seen_bound};
ghost use Rattle.xf_law_bindings.specs.Fixed.{AllFixed, IsFixed, IsPlace};
ghost use Rattle.xf_controls.specs.Fixed.{IsPlaceStep, IsWritten};

use xf_def_syntax::{Expr, Form, Step, Test};
use xf_form_elements::{Bound, binding_of, element_in};
use xf_name::Axis;

/// The code of the function `instance`.
const INSTANCE: u16 = 18;

/// Whether what an element binds is told by where nodes stand.
pub(crate) fn is_fixed(form: &Form, element: u32) -> bool
    ensures { result ≡ true → IsFixed (element_at (interface_of form.now) element).binding }
{
    match element_in(form, element) {
        Some(here) => is_fixed_bound(binding_of(&form.tables, here)),
        None => false,
    }
}

fn is_fixed_bound(binding: Bound<'_>) -> bool
    ensures { result ≡ true → IsFixed (seen_bound binding.entry) }
{
    match binding {
        Bound::Unbound => true,
        Bound::Nodes(expr) => is_place(expr),
        Bound::ByBind(_) => false,
    }
}

/// Whether an expression names nodes by where they stand: a path, from a named instance too.
fn is_place(expr: &Expr) -> bool
    ensures { result ≡ true → IsPlace expr.now }
{
    match expr {
        Expr::Path(_, _, steps) => are_place_steps(steps.as_slice()),
        Expr::From(first, steps) => {
            if !is_instance(first.get()) {
                return false;
            }
            are_place_steps(steps.as_slice())
        }
        _ => false,
    }
}

/// Whether an expression is an instance that is named.
fn is_instance(expr: &Expr) -> bool
    ensures { result ≡ true → IsPlace expr.now }
{
    match expr {
        Expr::Call(_, code, arguments) => {
            if *code != INSTANCE {
                return false;
            }
            are_written(arguments.as_slice())
        }
        _ => false,
    }
}

fn are_place_steps(steps: &[Step]) -> bool
    ensures { result ≡ true → AllOf IsPlaceStep steps.now }
{
    for step in steps {
        if !is_place_step(step) {
            return false;
        }
    }
    true
}

/// Whether a step tells no texts apart and goes by positions alone.
fn is_place_step(step: &Step) -> bool
    ensures { result ≡ true → IsPlaceStep step.now }
{
    if meets_texts(&step.test, step.axis) {
        return false;
    }
    if comes_back(step.is_below, step.axis) {
        return false;
    }
    are_written(step.predicates.as_slice())
}

/// Whether the test may meet texts on the axis.
fn meets_texts(test: &Test, axis: Axis) -> bool
    ensures { result ≡ (is_kind test.now && meets_texts axis) }
{
    match test {
        Test::Text | Test::Node => match axis {
            Axis::Child
            | Axis::Descendant
            | Axis::DescendantOrSelf
            | Axis::FollowingSibling
            | Axis::PrecedingSibling => true,
            _ => false,
        },
        _ => false,
    }
}

/// Whether a step after `//` does not go down.
fn comes_back(is_below: bool, axis: Axis) -> bool
    ensures { result ≡ (is_below && (goes_up axis || is_sibling axis)) }
{
    if !is_below {
        return false;
    }
    match axis {
        Axis::Child | Axis::Attribute | Axis::Descendant | Axis::DescendantOrSelf => false,
        _ => true,
    }
}

fn are_written(exprs: &[Expr]) -> bool
    ensures { result ≡ true → AllOf IsWritten exprs.now }
{
    for expr in exprs {
        if !is_written(expr) {
            return false;
        }
    }
    true
}

/// Whether an expression is a number or a text that is written out.
fn is_written(expr: &Expr) -> bool
    ensures { result ≡ true → IsWritten expr.now }
{
    match expr {
        Expr::Number(_, _) | Expr::Literal(_, _) => true,
        _ => false,
    }
}
