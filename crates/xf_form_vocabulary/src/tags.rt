//! Elements by their names.

ghost use Rattle.std.specs.Prelude.{◌≡◌, IfOk};
ghost use Rattle.xf_form_vocabulary.specs.Tags as tags;
ghost use Rattle.xf_form_vocabulary.specs.Tags.{is_space, tag_named, tag_of};

use crate::tag::Tag;
use std::alloc::AllocError;
use xf_name::{NameFault, Prefixes};
use xf_schema::FacetKind;
use xf_table::elements::rows;
use xf_table::find;

const FORMS_URI: &str = "http://www.w3.org/2002/xforms";

const SCHEMA_URI: &str = "http://www.w3.org/2001/XMLSchema";

/// The elements in the order of the table of elements.
const TAGS: [Tag; 41] = [
    Tag::Action,
    Tag::Alert,
    Tag::Bind,
    Tag::Case,
    Tag::Choices,
    Tag::Delete,
    Tag::Dispatch,
    Tag::Extension,
    Tag::Group,
    Tag::Help,
    Tag::Hint,
    Tag::Input,
    Tag::Insert,
    Tag::Instance,
    Tag::Item,
    Tag::Itemset,
    Tag::Label,
    Tag::Load,
    Tag::Message,
    Tag::Model,
    Tag::Output,
    Tag::Rebuild,
    Tag::Recalculate,
    Tag::Refresh,
    Tag::Repeat,
    Tag::Reset,
    Tag::Revalidate,
    Tag::Secret,
    Tag::Select,
    Tag::SelectOne,
    Tag::Send,
    Tag::SetFocus,
    Tag::SetIndex,
    Tag::SetValue,
    Tag::Submission,
    Tag::Submit,
    Tag::Switch,
    Tag::Textarea,
    Tag::Toggle,
    Tag::Trigger,
    Tag::Value,
];

/// Whether a number is that of a namespace.
pub fn is_space(prefixes: &Prefixes, number: u16, uri: &str) -> bool
    ensures { result ≡ is_space prefixes.now number uri.now }
{
    match prefixes.space_of(uri) {
        Some(own) => own == number,
        None => false,
    }
}

/// What an element of XForms is by its local name.
fn tag_named(local: &str) -> Tag
    ensures { result ≡ tag_named local.now }
{
    match find(rows(), local) {
        Some(code) => TAGS[code as usize],
        None => Tag::Unknown,
    }
}

/// What an element is by its written name, where one without a prefix has the namespace `space`. What is no name, or has an unknown
/// prefix, is in no namespace with a meaning.
pub fn tag_of(prefixes: &Prefixes, written: &str, space: u16) -> Result<Tag, AllocError>
    ensures { IfOk result (λ tag. tag ≡ tag_of prefixes.now written.now space) }
{
    match prefixes.resolve(written, space) {
        Ok(name) => {
            if is_space(prefixes, name.space, FORMS_URI) {
                return Ok(tag_named(name.local.as_str()));
            }
            if is_space(prefixes, name.space, SCHEMA_URI) && name.local.is("schema") {
                return Ok(Tag::Schema);
            }
            Ok(Tag::Host)
        }
        Err(NameFault::Memory) => Err(AllocError),
        Err(_) => Ok(Tag::Host),
    }
}

// ---- in a schema

/// Which facet has the name.
fn facet_named(local: &str) -> Option<FacetKind>
    ensures { result ≡ tags.facet_named local.now }
{
    match length_named(local) {
        Some(kind) => Some(kind),
        None => match bound_named(local) {
            Some(kind) => Some(kind),
            None => other_named(local),
        },
    }
}

fn length_named(local: &str) -> Option<FacetKind>
    ensures { result ≡ tags.length_named local.now }
{
    if local == "length" {
        return Some(FacetKind::Length);
    }
    if local == "minLength" {
        return Some(FacetKind::MinLength);
    }
    if local == "maxLength" {
        return Some(FacetKind::MaxLength);
    }
    None
}

fn bound_named(local: &str) -> Option<FacetKind>
    ensures { result ≡ tags.bound_named local.now }
{
    if local == "minInclusive" {
        return Some(FacetKind::MinInclusive);
    }
    if local == "maxInclusive" {
        return Some(FacetKind::MaxInclusive);
    }
    if local == "minExclusive" {
        return Some(FacetKind::MinExclusive);
    }
    if local == "maxExclusive" {
        return Some(FacetKind::MaxExclusive);
    }
    None
}

fn other_named(local: &str) -> Option<FacetKind>
    ensures { result ≡ tags.other_named local.now }
{
    if local == "enumeration" {
        return Some(FacetKind::Enumeration);
    }
    if local == "totalDigits" {
        return Some(FacetKind::TotalDigits);
    }
    if local == "fractionDigits" {
        return Some(FacetKind::FractionDigits);
    }
    if local == "whiteSpace" {
        return Some(FacetKind::WhiteSpace);
    }
    None
}

/// What an element of XML Schema is in a schema, by its local name.
fn schema_tag_named(local: &str) -> Tag
    ensures { result ≡ tags.schema_tag_named local.now }
{
    if local == "simpleType" {
        return Tag::SimpleType;
    }
    if local == "restriction" {
        return Tag::Restriction;
    }
    if local == "annotation" {
        return Tag::Annotation;
    }
    match facet_named(local) {
        Some(kind) => Tag::Facet(kind),
        None => Tag::Unknown,
    }
}

/// What an element in a schema is by its written name, where one without a prefix has the namespace `space`.
pub fn schema_tag_of(prefixes: &Prefixes, written: &str, space: u16) -> Result<Tag, AllocError>
    ensures { IfOk result (λ tag. tag ≡ tags.schema_tag_of prefixes.now written.now space) }
{
    match prefixes.resolve(written, space) {
        Ok(name) => {
            if is_space(prefixes, name.space, SCHEMA_URI) {
                return Ok(schema_tag_named(name.local.as_str()));
            }
            Ok(Tag::Unknown)
        }
        Err(NameFault::Memory) => Err(AllocError),
        Err(_) => Ok(Tag::Unknown),
    }
}
