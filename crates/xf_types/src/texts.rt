//! Which texts meet a simple type.

ghost use Rattle.std.specs.Prelude.{◌≡◌};
ghost use Rattle.xf_types.specs.Meets.{is_boolean, meets_integer, meets_kind, meets_type};

use crate::durations::{is_day_time_duration, is_duration, is_year_month_duration};
use crate::kind::{BuiltIn, SimpleType};
use crate::numerals::{is_between, is_decimal};
use crate::parts::{is_name, is_name_part, is_q_name};
use crate::shapes::{has_space, is_hex};
use crate::times::{
    is_date, is_date_time, is_g_day, is_g_month, is_g_month_day, is_g_year, is_g_year_month,
    is_time,
};
use xf_num::trimmed;

/// Whether a text meets a type. White space at its ends is dropped first; it makes no difference to the string types,
/// which any text meets.
pub fn meets(kind: &SimpleType, text: &str) -> bool
    ensures { result ≡ meets_type kind.now text.now }
{
    let bare = trimmed(text.as_bytes());
    (kind.may_be_empty && bare.is_empty()) || meets_kind(kind.kind, bare)
}

fn is_boolean(text: &[u8]) -> bool
    ensures { result ≡ is_boolean text.now }
{
    text == b"true".as_slice()
        || text == b"false".as_slice()
        || text == b"1".as_slice()
        || text == b"0".as_slice()
}

fn meets_kind(kind: BuiltIn, text: &[u8]) -> bool
    ensures { result ≡ meets_kind kind text.now }
{
    match kind {
        BuiltIn::Text => true,
        BuiltIn::NormalizedString => true,
        BuiltIn::Token => true,
        BuiltIn::AnyUri => true,
        BuiltIn::ListItems => true,
        BuiltIn::ListItem => !text.is_empty() && !has_space(text),
        BuiltIn::Boolean => is_boolean(text),
        BuiltIn::Decimal => is_decimal(text),
        BuiltIn::Date => is_date(text),
        BuiltIn::Time => is_time(text),
        BuiltIn::DateTime => is_date_time(text),
        BuiltIn::GYear => is_g_year(text),
        BuiltIn::GYearMonth => is_g_year_month(text),
        BuiltIn::GMonth => is_g_month(text),
        BuiltIn::GMonthDay => is_g_month_day(text),
        BuiltIn::GDay => is_g_day(text),
        BuiltIn::Duration => is_duration(text),
        BuiltIn::DayTimeDuration => is_day_time_duration(text),
        BuiltIn::YearMonthDuration => is_year_month_duration(text),
        BuiltIn::HexBinary => is_hex(text),
        BuiltIn::NCName => is_name_part(text),
        BuiltIn::Name => is_name(text),
        BuiltIn::QName => is_q_name(text),
        _ => meets_integer(kind, text),
    }
}

/// Whether a text meets a type of integers.
fn meets_integer(kind: BuiltIn, text: &[u8]) -> bool
    ensures { result ≡ meets_integer kind text.now }
{
    match kind {
        BuiltIn::Integer => is_between(None, None, text),
        BuiltIn::NonPositiveInteger => is_between(None, Some(0), text),
        BuiltIn::NegativeInteger => is_between(None, Some(-1), text),
        BuiltIn::NonNegativeInteger => is_between(Some(0), None, text),
        BuiltIn::PositiveInteger => is_between(Some(1), None, text),
        BuiltIn::Long => is_between(
            Some(-0x8000_0000_0000_0000),
            Some(0x7fff_ffff_ffff_ffff),
            text,
        ),
        BuiltIn::Int => is_between(Some(-0x8000_0000), Some(0x7fff_ffff), text),
        BuiltIn::Short => is_between(Some(-0x8000), Some(0x7fff), text),
        BuiltIn::Byte => is_between(Some(-0x80), Some(0x7f), text),
        BuiltIn::UnsignedLong => is_between(Some(0), Some(0xffff_ffff_ffff_ffff), text),
        BuiltIn::UnsignedInt => is_between(Some(0), Some(0xffff_ffff), text),
        BuiltIn::UnsignedShort => is_between(Some(0), Some(0xffff), text),
        BuiltIn::UnsignedByte => is_between(Some(0), Some(0xff), text),
        _ => false,
    }
}
