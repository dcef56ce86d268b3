//! The elements of a form.

ghost use Rattle.std.specs.Prelude.{◌≡◌, ◌++◌, IfOk, OnOk, map, option_map, slice_get};
ghost use Rattle.xf_form_refusals.specs.Rows.{shown};
ghost use Rattle.xf_form_refusals.specs.declared.classes.Class.TheVariants as class;
ghost use Rattle.xf_form_vocabulary.specs.Attributes as attributes;
ghost use Rattle.xf_form.specs.Elements as elements;
ghost use Rattle.xf_form.specs.Numbers as numbers;
ghost use Rattle.xf_form.specs.Plan.{IsPlan};
ghost use Rattle.xf_form.specs.Written.{id_at as id_in};
ghost use Rattle.xf_form_vocabulary.specs.declared.attribute.TheConstants as attribute;

use crate::actions::{number_of_parent, or_else};
use crate::bindings::binding_of;
use crate::kinds::kind_of;
use crate::models::id_of;
use crate::plan::{Plan, counts_named, number_of};
use crate::scopes::own_model;
use crate::written::id_at;
use std::alloc::AllocError;
use xf_base::Items;
use xf_def_syntax::{Element, Part, PartList};
use xf_form_refusals::{Row, is_numbered};
use xf_form_vocabulary::{Known, Tag, attribute as at, known_of};
use xf_name::Word;

/// The element at a place, by the first submission of its model in scope.
pub fn element_of(
    plan: &Plan<'_, '_>,
    first: Option<u32>,
    place: u32,
    row: &Row<'_>,
) -> Result<Element, AllocError>
    requires { IsPlan plan.now }
    ensures { IfOk result (λ element. element ≡ elements.element_of plan.now.decimals plan.now.prefixes.now (map shown plan.now.rows.now) first place (shown row.now)) }
{
    let element = row.element;
    let known = known_of(plan.alloc, plan.prefixes, element.attributes.as_slice())?;
    element_by(plan, place, row, first, &known)
}

fn element_by(
    plan: &Plan<'_, '_>,
    place: u32,
    row: &Row<'_>,
    first: Option<u32>,
    known: &[Known<'_>],
) -> Result<Element, AllocError>
    requires { IsPlan plan.now }
    ensures { IfOk result (λ element. element ≡ elements.element_by plan.now.decimals plan.now.prefixes.now (map shown plan.now.rows.now) place (shown row.now) first (map attributes.shown known.now)) }
{
    let own = own_model(plan.numbers, plan.rows, place, row);
    Ok(Element {
        id: id_of(plan.alloc, row)?,
        parent: number_of_parent(plan, row.standing.parent),
        parts: parts_of(plan, &row.parts)?,
        model: or_else(own, named_model(plan, row.tag, known)),
        binding: binding_of(plan, row.tag, known)?,
        kind: kind_of(plan, place, row, first, known)?,
    })
}

// The model that the element names.
fn named_model(plan: &Plan<'_, '_>, tag: Tag, known: &[Known<'_>]) -> Option<u32>
    requires { IsPlan plan.now }
    ensures { result ≡ option_map (numbers.named class.Model (map shown plan.now.rows.now)) (id_in tag (map attributes.shown known.now) attribute.MODEL) }
{
    match id_at(tag, known, at::MODEL) {
        Some(id) => Some(counts_named(plan, id).models),
        None => None,
    }
}

// ---- what stands in it

// What stands in an element, by numbers.
fn parts_of(plan: &Plan<'_, '_>, parts: &[Part]) -> Result<PartList, AllocError>
    requires { IsPlan plan.now }
    ensures { IfOk result (λ all. all ≡ elements.parts_of (map shown plan.now.rows.now) parts.now) }
{
    let mut all = Items::new(plan.alloc);
    for part in parts {
        push_part(plan, part, &mut all)?;
    }
    Ok(all)
}

fn push_part(plan: &Plan<'_, '_>, part: &Part, all: &mut PartList) -> Result<(), AllocError>
    requires { IsPlan plan.now }
    ensures { OnOk result (all.new ≡ all.old ++ elements.part_of (map shown plan.now.rows.now) part.now) }
{
    match part {
        Part::Text(text) => all.push(Part::Text(Word::from_str(plan.alloc, text.as_str())?)),
        Part::Element(place) => {
            if !has_number(plan.rows, *place) {
                return Ok(());
            }
            all.push(Part::Element(number_of(plan, *place)))
        }
    }
}

fn has_number(rows: &[Row<'_>], place: u32) -> bool
    ensures { result ≡ elements.has_number (slice_get (map shown rows.now) place) }
{
    match rows.get(place as usize) {
        Some(row) => is_numbered(row),
        None => false,
    }
}
