//! Numbers in facets.

ghost use Rattle.std.specs.Prelude.{◌≡◌, ◌≤◌, true, length};
ghost use Rattle.std.specs.Str.Parse.{digits_value};
ghost use Rattle.xf_num.specs.Written.{after_digits, is_empty};
ghost use Rattle.xf_schema.specs.Facets.{count_of, is_decimal_kind, length_of};

use xf_num::{all_digits, digits_onto};
use xf_types::{BuiltIn, char_count};

/// A whole number of one to five digits.
pub(crate) fn count_of(text: &[u8]) -> Option<u64>
    ensures { result ≡ count_of text.now }
{
    if !all_digits(text) || text.is_empty() || text.len() > 5 {
        return None;
    }
    Some(value_of(text))
}

fn value_of(digits: &[u8]) -> u64
    requires digits { is_empty (after_digits digits.now) ≡ true }
    requires short { length digits.now ≤ 5 }
    ensures { result ≡ digits_value 10 digits.now }
{
    let (value, _) = digits_onto(0, digits);
    value
}

/// How long a text is: in characters, and of hexadecimal digits in octets.
pub(crate) fn length_of(kind: BuiltIn, text: &str) -> usize
    ensures { result ≡ length_of kind text.now }
{
    match kind {
        BuiltIn::HexBinary => text.len() / 2,
        _ => char_count(text),
    }
}

/// Whether the built-in type is a decimal, or one of the integers.
pub(crate) fn is_decimal_kind(kind: BuiltIn) -> bool
    ensures { result ≡ is_decimal_kind kind }
{
    match kind {
        BuiltIn::Decimal => true,
        BuiltIn::Integer => true,
        BuiltIn::NonPositiveInteger => true,
        BuiltIn::NegativeInteger => true,
        BuiltIn::NonNegativeInteger => true,
        BuiltIn::PositiveInteger => true,
        BuiltIn::Long => true,
        BuiltIn::Int => true,
        BuiltIn::Short => true,
        BuiltIn::Byte => true,
        BuiltIn::UnsignedLong => true,
        BuiltIn::UnsignedInt => true,
        BuiltIn::UnsignedShort => true,
        BuiltIn::UnsignedByte => true,
        _ => false,
    }
}
