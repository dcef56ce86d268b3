//! The texts that an attribute may have.

ghost use Rattle.std.specs.Prelude.{◌≡◌};
ghost use Rattle.std.specs.List.{list_all};
ghost use Rattle.xf_form_vocabulary.specs.Texts as texts;

use xf_num::Decimals;

/// The texts of an attribute that may not have any.
#[derive(Clone, Copy, Debug, PartialEq, Eq)]
pub enum Choice {
    /// `true` or `false`.
    Truth,
    /// `put`, `post` or `get`.
    Method,
    /// `all`, `instance`, `text` or `none`.
    Replace,
    /// `open` or `closed`.
    Selection,
    /// `before` or `after`.
    Position,
    /// `capture` or `default`.
    Phase,
    /// `stop` or `continue`.
    Propagation,
    /// `cancel` or `perform`.
    DefaultAction,
    /// `0`.
    Delay,
    /// One to nine digits.
    Count,
    /// One digit.
    Decimals,
}

/// Whether it is one of the texts.
pub fn allows(choice: Choice, text: &str) -> bool
    ensures { result ≡ texts.allows choice text.now }
{
    match choice {
        Choice::Truth => text == "true" || text == "false",
        Choice::Method => text == "put" || text == "post" || text == "get",
        Choice::Replace => text == "all" || text == "instance" || text == "text" || text == "none",
        Choice::Selection => text == "open" || text == "closed",
        Choice::Position => text == "before" || text == "after",
        Choice::Phase => text == "capture" || text == "default",
        Choice::Propagation => text == "stop" || text == "continue",
        Choice::DefaultAction => text == "cancel" || text == "perform",
        Choice::Delay => text == "0",
        Choice::Count => is_count(text),
        Choice::Decimals => decimals_in(text).is_some(),
    }
}

/// Whether it is one to nine digits.
pub fn is_count(text: &str) -> bool
    ensures { result ≡ texts.is_count text.now }
{
    !text.is_empty() && text.len() <= 9 && are_digits(text.as_bytes())
}

/// How many decimals a text chooses, which is one digit.
pub fn decimals_in(text: &str) -> Option<Decimals>
    ensures { result ≡ texts.decimals_in text.now }
{
    match text.as_bytes() {
        [byte] => decimals_of_byte(*byte),
        _ => None,
    }
}

fn decimals_of_byte(byte: u8) -> Option<Decimals>
    ensures { result ≡ texts.decimals_of_byte byte }
{
    match byte.checked_sub(b'0') {
        Some(count) => Decimals::new(count),
        None => None,
    }
}

fn are_digits(bytes: &[u8]) -> bool
    ensures { result ≡ list_all texts.is_digit bytes.now }
{
    bytes.iter().all(|b| *b >= b'0' && *b <= b'9')
}
