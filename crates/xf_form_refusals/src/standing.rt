//! In which surroundings an element stands.

ghost use Rattle.std.specs.Prelude.{◌≡◌};
ghost use Rattle.xf_form_refusals.specs.Standing as standing;

use xf_base::limits::DEPTH_LIMIT;
use xf_form_vocabulary::{Tag, is_action, is_passed_over};

/// In which part of a form an element stands.
#[derive(Clone, Copy, Debug, PartialEq, Eq)]
pub enum Zone {
    /// Outside instances.
    Outside,
    /// In an instance.
    Data,
    /// In a schema.
    Schema,
    /// In help, a hint, an alert, an extension or an annotation of a schema.
    Passed,
}

/// The surroundings of an element.
#[derive(Clone, Copy, Debug)]
pub struct Standing {
    pub zone: Zone,
    /// The element in which it stands: a host element around the root.
    pub around: Tag,
    /// The nearest element around it that is no host element.
    pub nearest: Tag,
    /// Whether an action is around it.
    pub in_action: bool,
    /// How many elements of an instance are around it, itself included; past the greatest depth they are no longer counted.
    pub depth: u8,
    /// The default namespace that is in force above it.
    pub space: u16,
    /// The place of the element in which it stands.
    pub parent: Option<u32>,
}

/// Around the root of a form.
pub fn at_root() -> Standing
    ensures { result ≡ standing.at_root }
{
    Standing {
        zone: Zone::Outside,
        around: Tag::Host,
        nearest: Tag::Host,
        in_action: false,
        depth: 0,
        space: 0,
        parent: None,
    }
}

pub fn is_outside(zone: Zone) -> bool
    ensures { result ≡ standing.is_outside zone }
{
    match zone {
        Zone::Outside => true,
        Zone::Data => false,
        Zone::Schema => false,
        Zone::Passed => false,
    }
}

pub fn is_data(zone: Zone) -> bool
    ensures { result ≡ standing.is_data zone }
{
    match zone {
        Zone::Outside => false,
        Zone::Data => true,
        Zone::Schema => false,
        Zone::Passed => false,
    }
}

pub fn is_instance(tag: Tag) -> bool
    ensures { result ≡ standing.is_instance tag }
{
    match tag {
        Tag::Instance => true,
        _ => false,
    }
}

pub(crate) fn is_in_schema(zone: Zone) -> bool
    ensures { result ≡ standing.is_in_schema zone }
{
    match zone {
        Zone::Outside => false,
        Zone::Data => false,
        Zone::Schema => true,
        Zone::Passed => false,
    }
}

pub(crate) fn is_schema(tag: Tag) -> bool
    ensures { result ≡ standing.is_schema tag }
{
    match tag {
        Tag::Schema => true,
        _ => false,
    }
}

fn is_annotation(tag: Tag) -> bool
    ensures { result ≡ standing.is_annotation tag }
{
    match tag {
        Tag::Annotation => true,
        _ => false,
    }
}

/// The part of a form in an element.
pub fn zone_below(zone: Zone, tag: Tag) -> Zone
    ensures { result ≡ standing.zone_below zone tag }
{
    match zone {
        Zone::Outside => zone_in(tag),
        Zone::Data => Zone::Data,
        Zone::Schema => zone_in_schema(tag),
        Zone::Passed => Zone::Passed,
    }
}

fn zone_in(tag: Tag) -> Zone
    ensures { result ≡ standing.zone_in tag }
{
    if is_instance(tag) {
        return Zone::Data;
    }
    if is_schema(tag) {
        return Zone::Schema;
    }
    if is_passed_over(tag) {
        return Zone::Passed;
    }
    Zone::Outside
}

fn zone_in_schema(tag: Tag) -> Zone
    ensures { result ≡ standing.zone_in_schema tag }
{
    if !is_annotation(tag) {
        return Zone::Schema;
    }
    Zone::Passed
}

fn deeper(zone: Zone, depth: u8) -> u8
    ensures { result ≡ standing.deeper zone depth }
{
    if is_data(zone) && depth <= DEPTH_LIMIT as u8 {
        return depth + 1;
    }
    depth
}

fn nearest_below(tag: Tag, nearest: Tag) -> Tag
    ensures { result ≡ standing.nearest_below tag nearest }
{
    match tag {
        Tag::Host => nearest,
        _ => tag,
    }
}

/// The surroundings of what stands in an element, which has the default namespace and the place.
pub fn below(above: Standing, tag: Tag, space: u16, place: u32) -> Standing
    ensures { result ≡ standing.below above tag space place }
{
    let zone = zone_below(above.zone, tag);
    Standing {
        zone,
        around: tag,
        nearest: nearest_below(tag, above.nearest),
        in_action: above.in_action || is_action(tag),
        depth: deeper(zone, above.depth),
        space,
        parent: Some(place),
    }
}
