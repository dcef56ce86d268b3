//! What the tables of a form are made from.

ghost use Rattle.std.specs.Prelude.{◌≡◌, map, take};
ghost use Rattle.xf_form_refusals.specs.Rows.{shown};
ghost use Rattle.xf_form_refusals.specs.declared.classes.Class.TheVariants as class;
ghost use Rattle.xf_form_vocabulary.specs.Attributes as attributes;
ghost use Rattle.xf_form.specs.Counts.{counted};
ghost use Rattle.xf_form.specs.Numbers as numbers;
ghost use Rattle.xf_form.specs.Plan.{IsPlan};
ghost use Rattle.xf_form.specs.Scopes as scopes;

use crate::counts::{Counts, Numbers, counts_at};
use crate::scopes::model_at;
use crate::targets::{Targets, place_named};
use std::alloc::Global;
use xf_form_refusals::Row;
use xf_form_vocabulary::{Known, text_of};
use xf_name::Prefixes;
use xf_num::Decimals;
use xf_schema::TypeName;

/// The elements of a form that is not refused, with their numbers, their ids, and the nearest model of each.
#[derive(Clone, Copy)]
pub struct Plan<'s, 'a> {
    pub alloc: Global,
    pub prefixes: &'s Prefixes,
    pub rows: &'s [Row<'a>],
    pub numbers: &'s Numbers,
    pub targets: &'s Targets<'a>,
    pub models: &'s [u32],
    pub decimals: Decimals,
    /// Those of the types of all schemas.
    pub names: &'s [TypeName],
}

/// The counts before the element at a place.
pub fn counts_before(plan: &Plan<'_, '_>, place: u32) -> Counts
    requires { IsPlan plan.now }
    ensures { result ≡ counted (take place (map shown plan.now.rows.now)) }
{
    counts_at(plan.numbers, place)
}

/// The counts before the element with an id.
pub fn counts_named(plan: &Plan<'_, '_>, id: &str) -> Counts
    requires { IsPlan plan.now }
    ensures { result ≡ counted (take (numbers.place_named (map shown plan.now.rows.now) id.now) (map shown plan.now.rows.now)) }
{
    counts_before(plan, place_named(plan.targets, id))
}

/// The number of the element at a place.
pub fn number_of(plan: &Plan<'_, '_>, place: u32) -> u32
    requires { IsPlan plan.now }
    ensures { result ≡ numbers.number_of (map shown plan.now.rows.now) place }
{
    counts_before(plan, place).elements
}

/// The model around the element at a place.
pub fn model_around(plan: &Plan<'_, '_>, place: u32) -> u32
    requires { IsPlan plan.now }
    ensures { result ≡ scopes.model_around (map shown plan.now.rows.now) place }
{
    model_at(plan.models, place)
}

// ---- what an attribute names, where it is written

/// The element that it names.
pub fn element_at(plan: &Plan<'_, '_>, known: &[Known<'_>], code: u16) -> Option<u32>
    requires { IsPlan plan.now }
    ensures { result ≡ numbers.named_at class.Numbered (map shown plan.now.rows.now) (map attributes.shown known.now) code }
{
    match text_of(known, code) {
        Some(id) => Some(counts_named(plan, id).elements),
        None => None,
    }
}

/// The instance that it names.
pub fn instance_at(plan: &Plan<'_, '_>, known: &[Known<'_>], code: u16) -> Option<u32>
    requires { IsPlan plan.now }
    ensures { result ≡ numbers.named_at class.Instance (map shown plan.now.rows.now) (map attributes.shown known.now) code }
{
    match text_of(known, code) {
        Some(id) => Some(counts_named(plan, id).instances),
        None => None,
    }
}

/// The submission that it names.
pub fn submission_at(plan: &Plan<'_, '_>, known: &[Known<'_>], code: u16) -> Option<u32>
    requires { IsPlan plan.now }
    ensures { result ≡ numbers.named_at class.Submission (map shown plan.now.rows.now) (map attributes.shown known.now) code }
{
    match text_of(known, code) {
        Some(id) => Some(counts_named(plan, id).submissions),
        None => None,
    }
}

/// The repeat that it names.
pub fn repeat_at(plan: &Plan<'_, '_>, known: &[Known<'_>], code: u16) -> Option<u32>
    requires { IsPlan plan.now }
    ensures { result ≡ numbers.named_at class.Repeat (map shown plan.now.rows.now) (map attributes.shown known.now) code }
{
    match text_of(known, code) {
        Some(id) => Some(counts_named(plan, id).repeats),
        None => None,
    }
}
