//! The instances and binds of a form.

ghost use Rattle.std.specs.Prelude.{◌≡◌, ◌++◌, IfOk, OnOk, map, option_and_then, option_map, slice_get};
ghost use Rattle.xf_form_refusals.specs.Rows.{shown};
ghost use Rattle.xf_form_vocabulary.specs.Attributes as attributes;
ghost use Rattle.xf_form_vocabulary.specs.Faults as faults;
ghost use Rattle.xf_form.specs.Models as models;
ghost use Rattle.xf_form.specs.Plan.{IsPlan};

use crate::plan::{Plan, counts_before, model_around};
use crate::written::{expr_at, expr_of};
use std::alloc::{AllocError, Global};
use xf_base::Items;
use xf_def_syntax::{Bind, Expr, Instance, NamedType, Part, PlaceList, Properties};
use xf_form_refusals::{Row, id_in, small};
use xf_form_vocabulary::{Known, Tag, attribute as at, known_of, text_of, type_of};
use xf_name::Word;

/// A copy of the id of an element: empty where it has none.
pub fn id_of(alloc: Global, row: &Row<'_>) -> Result<Word, AllocError>
    ensures { IfOk result (λ id. id ≡ models.id_of (shown row.now)) }
{
    let element = row.element;
    match id_in(element.attributes.as_slice()) {
        Some(id) => Word::from_str(alloc, id),
        None => Ok(Word::new(alloc)),
    }
}

// ---- instances

/// The instance that the element at a place is.
pub fn instance_of(plan: &Plan<'_, '_>, place: u32, row: &Row<'_>) -> Result<Instance, AllocError>
    requires { IsPlan plan.now }
    ensures { IfOk result (λ instance. instance ≡ models.instance_of (map shown plan.now.rows.now) place (shown row.now)) }
{
    let model = model_around(plan, place);
    let id = id_of(plan.alloc, row)?;
    let mut place = Items::new(plan.alloc);
    let Some(document) = document_in(&row.parts) else {
        return Ok(Instance {
            model,
            id,
            place,
            space: 0,
        });
    };
    // Each element stands later than the one around it.
    push_places(
        plan.rows,
        document,
        small(document as usize + 1)?,
        &mut place,
    )?;
    let space = space_at(plan.rows, document);
    Ok(Instance {
        model,
        id,
        place,
        space,
    })
}

fn document_in(parts: &[Part]) -> Option<u32>
    ensures { result ≡ models.document_in parts.now }
{
    for part in parts {
        if let Part::Element(place) = part {
            return Some(*place);
        }
    }
    None
}

// The element at a place.
fn row_at<'s, 'a>(rows: &'s [Row<'a>], place: u32) -> Option<&'s Row<'a>>
    ensures { option_map (λ row. shown row.now) result ≡ slice_get (map shown rows.now) place }
{
    rows.get(place as usize)
}

fn space_at(rows: &[Row<'_>], place: u32) -> u16
    ensures { result ≡ models.space_at (slice_get (map shown rows.now) place) }
{
    match row_at(rows, place) {
        Some(row) => row.standing.space,
        None => 0,
    }
}

#[tactic(auto, unfolding(crate::specs::Models::places_to))]
fn push_places(
    rows: &[Row<'_>],
    place: u32,
    depth: u32,
    places: &mut PlaceList,
) -> Result<(), AllocError>
    ensures { OnOk result (places.new ≡ places.old ++ models.places_to depth (map shown rows.now) place) }
{
    if depth == 0 {
        return Ok(());
    }
    let Some(row) = row_at(rows, place) else {
        return Ok(());
    };
    let Some(parent) = row.standing.parent else {
        return Ok(());
    };
    push_places(rows, parent, depth - 1, places)?;
    places.push(row.at)?;
    Ok(())
}

// ---- binds

/// The bind that the element at a place is.
pub fn bind_of(plan: &Plan<'_, '_>, place: u32, row: &Row<'_>) -> Result<Bind, AllocError>
    requires { IsPlan plan.now }
    ensures { IfOk result (λ bind. bind ≡ models.bind_of plan.now.decimals plan.now.prefixes.now (map shown plan.now.rows.now) place (shown row.now)) }
{
    let element = row.element;
    let known = known_of(plan.alloc, plan.prefixes, element.attributes.as_slice())?;
    bind_by(plan, place, row, &known)
}

fn bind_by(
    plan: &Plan<'_, '_>,
    place: u32,
    row: &Row<'_>,
    known: &[Known<'_>],
) -> Result<Bind, AllocError>
    requires { IsPlan plan.now }
    ensures { IfOk result (λ bind. bind ≡ models.bind_by plan.now.decimals plan.now.prefixes.now (map shown plan.now.rows.now) place (shown row.now) (map attributes.shown known.now)) }
{
    Ok(Bind {
        model: model_around(plan, place),
        id: id_of(plan.alloc, row)?,
        around: bind_around(plan, row.standing.around, row.standing.parent),
        node_set: expr_of(plan, text_of(known, at::NODESET).unwrap_or("."))?,
        properties: properties_of(plan, known)?,
    })
}

fn bind_around(plan: &Plan<'_, '_>, around: Tag, parent: Option<u32>) -> Option<u32>
    requires { IsPlan plan.now }
    ensures { result ≡ models.bind_around (map shown plan.now.rows.now) around parent }
{
    match around {
        Tag::Bind => match parent {
            Some(parent) => Some(counts_before(plan, parent).binds),
            None => None,
        },
        _ => None,
    }
}

fn properties_of(plan: &Plan<'_, '_>, known: &[Known<'_>]) -> Result<Properties, AllocError>
    ensures { IfOk result (λ properties. properties ≡ models.properties_of plan.now.decimals plan.now.prefixes.now plan.now.names.now (map attributes.shown known.now)) }
{
    Ok(Properties {
        kind: type_at(plan, text_of(known, at::TYPE))?,
        calculate: expr_at(plan, known, at::CALCULATE)?,
        relevant: expr_at(plan, known, at::RELEVANT)?,
        readonly: expr_at(plan, known, at::READONLY)?,
        required: expr_at(plan, known, at::REQUIRED)?,
        constraint: expr_at(plan, known, at::CONSTRAINT)?,
    })
}

fn type_at(plan: &Plan<'_, '_>, text: Option<&str>) -> Result<Option<NamedType>, AllocError>
    ensures { IfOk result (λ kind. kind ≡ option_and_then (λ t. faults.type_of plan.now.prefixes.now plan.now.names.now t.now) text.entry) }
{
    match text {
        Some(text) => type_of(plan.prefixes, plan.names, text),
        None => Ok(None),
    }
}
