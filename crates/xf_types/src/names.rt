//! The types by their names.

ghost use Rattle.std.specs.Prelude.{◌≡◌, slice_get};
ghost use Rattle.xf_table.specs.Contents.{type_entries};
ghost use Rattle.xf_types.specs.Named.{marks_in, is_in_schema, is_in_forms, type_in, type_named};

use crate::kind::{BuiltIn, SimpleType};
use xf_table::find;
use xf_table::types::rows;

/// The types in the order of the table of types.
const KINDS: [BuiltIn; 36] = [
    BuiltIn::NCName,
    BuiltIn::Name,
    BuiltIn::QName,
    BuiltIn::AnyUri,
    BuiltIn::Boolean,
    BuiltIn::Byte,
    BuiltIn::Date,
    BuiltIn::DateTime,
    BuiltIn::DayTimeDuration,
    BuiltIn::Decimal,
    BuiltIn::Duration,
    BuiltIn::GDay,
    BuiltIn::GMonth,
    BuiltIn::GMonthDay,
    BuiltIn::GYear,
    BuiltIn::GYearMonth,
    BuiltIn::HexBinary,
    BuiltIn::Int,
    BuiltIn::Integer,
    BuiltIn::ListItem,
    BuiltIn::ListItems,
    BuiltIn::Long,
    BuiltIn::NegativeInteger,
    BuiltIn::NonNegativeInteger,
    BuiltIn::NonPositiveInteger,
    BuiltIn::NormalizedString,
    BuiltIn::PositiveInteger,
    BuiltIn::Short,
    BuiltIn::Text,
    BuiltIn::Time,
    BuiltIn::Token,
    BuiltIn::UnsignedByte,
    BuiltIn::UnsignedInt,
    BuiltIn::UnsignedLong,
    BuiltIn::UnsignedShort,
    BuiltIn::YearMonthDuration,
];

const SCHEMA_URI: &str = "http://www.w3.org/2001/XMLSchema";

const FORMS_URI: &str = "http://www.w3.org/2002/xforms";

/// The type that a namespace and a local name mean; a name without a namespace is one of XForms.
pub fn named(uri: &str, local: &str) -> Option<SimpleType>
    ensures { result ≡ type_named uri.now local.now }
{
    match find(rows(), local) {
        Some(code) => type_in(uri, marks_of(code), KINDS[code as usize]),
        None => None,
    }
}

/// The marks of the row with this code.
fn marks_of(code: u16) -> u8
    ensures { result ≡ marks_in (slice_get type_entries code) }
{
    match rows().get(code as usize) {
        Some(row) => row.marks,
        None => 0,
    }
}

/// The type of a row in a namespace, by its marks.
fn type_in(uri: &str, marks: u8, kind: BuiltIn) -> Option<SimpleType>
    ensures { result ≡ type_in uri.now marks kind }
{
    if uri == SCHEMA_URI {
        if !is_in_schema(marks) {
            return None;
        }
        return Some(SimpleType {
            kind,
            may_be_empty: false,
        });
    }
    if uri != FORMS_URI && !uri.is_empty() {
        return None;
    }
    if !is_in_forms(marks) {
        return None;
    }
    Some(SimpleType {
        kind,
        may_be_empty: true,
    })
}

/// Whether XML Schema has a type of this name.
fn is_in_schema(marks: u8) -> bool
    ensures { result ≡ is_in_schema marks }
{
    marks % 2 == 1
}

/// Whether XForms has a type of this name.
fn is_in_forms(marks: u8) -> bool
    ensures { result ≡ is_in_forms marks }
{
    marks / 2 % 2 == 1
}
