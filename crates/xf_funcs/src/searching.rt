//! Parts of texts, and their order.

ghost use Rattle.std.specs.Prelude.{◌≡◌};
ghost use Rattle.xf_funcs.specs.Numbers.{order_number};
ghost use Rattle.xf_funcs.specs.Searching.{begins_with, contains, before, after, order_of_texts, is_true_text};

use crate::conversions::whole;
use std::cmp::Ordering;
use xf_num::{Decimals, Num};

pub fn begins_with(text: &str, front: &str) -> bool
    ensures { result ≡ begins_with text.now front.now }
{
    text.starts_with(front)
}

pub fn contains(text: &str, part: &str) -> bool
    ensures { result ≡ contains text.now part.now }
{
    text.contains(part)
}

/// What stands before the first place of the part, nothing where it stands nowhere.
pub fn before<'a>(text: &'a str, part: &str) -> &'a str
    ensures { result.now ≡ before text.now part.now }
{
    match text.split_once(part) {
        Some((before, _)) => before,
        None => "",
    }
}

/// What stands after the first place of the part, nothing where it stands nowhere.
pub fn after<'a>(text: &'a str, part: &str) -> &'a str
    ensures { result.now ≡ after text.now part.now }
{
    match text.split_once(part) {
        Some((_, after)) => after,
        None => "",
    }
}

/// How two texts stand, by the codes of their characters: -1, 0 or 1.
pub fn compared(left: &str, right: &str, decimals: Decimals) -> Num
    ensures { result ≡ order_number decimals (order_of_texts left.now right.now) }
{
    match order_of_texts(left, right) {
        Ordering::Less => Num::of_whole(-1, decimals),
        Ordering::Equal => whole(0, decimals),
        Ordering::Greater => whole(1, decimals),
    }
}

fn order_of_texts(left: &str, right: &str) -> Ordering
    ensures { result ≡ order_of_texts left.now right.now }
{
    left.chars().cmp(right.chars())
}

/// Whether a text says true.
pub fn is_true_text(text: &str) -> bool
    ensures { result ≡ is_true_text text.now }
{
    text.eq_ignore_ascii_case("true") || text == "1"
}
