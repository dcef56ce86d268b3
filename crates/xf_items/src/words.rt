//! The texts that items allow, and the items that a text chooses (XForms 1.1, sections 8.1.10 and 8.1.11).

ghost use Rattle.std.specs.Prelude.{◌≡◌, bytes_eq, not};
ghost use Rattle.std.specs.List.{list_any};
ghost use Rattle.xf_def_ui.specs.Items.{allows, has_value, is_chosen, may_be_set, words};
ghost use Rattle.xf_items.specs.Words.{is_other, is_word};

use xf_def_ui::Item;
use xf_num::is_space;

/// Whether a text may be set: other texts are allowed, or the items allow it.
pub fn may_be_set(many: bool, is_free: bool, items: &[Item], text: &str) -> bool
    ensures { result ≡ may_be_set many is_free items.now text.now }
{
    is_free || allows(many, items, text.as_bytes())
}

/// Whether the items allow a text: where many may be chosen each of its words, else the whole text, which may be empty.
fn allows(many: bool, items: &[Item], text: &[u8]) -> bool
    ensures { result ≡ allows many items.now text.now }
{
    if many {
        return !has_other(items, text);
    }
    text.is_empty() || has_value(items, text)
}

/// Whether a text chooses an item.
pub fn is_chosen(many: bool, text: &str, item: &Item) -> bool
    ensures { result ≡ is_chosen many text.now item.now }
{
    let value = item.value.as_bytes();
    if many {
        return has_word(value, text.as_bytes());
    }
    text.as_bytes() == value
}

/// Whether one of the items has this value.
fn has_value(items: &[Item], text: &[u8]) -> bool
    ensures { result ≡ has_value items.now text.now }
{
    for item in items {
        if item.value.as_bytes() == text {
            return true;
        }
    }
    false
}

/// Whether a word of a text is the value of no item.
fn has_other(items: &[Item], text: &[u8]) -> bool
    ensures { result ≡ list_any (is_other items.now) (words text.now) }
{
    let mut start = 0;
    for at in 0..text.len() {
        if is_space(text[at]) {
            if is_other(items, &text[start..at]) {
                return true;
            }
            start = at + 1;
        }
    }
    is_other(items, &text[start..])
}

/// Whether a part between white space is a word, and the value of no item.
fn is_other(items: &[Item], part: &[u8]) -> bool
    ensures { result ≡ is_word (is_other items.now) part.now }
{
    !part.is_empty() && !has_value(items, part)
}

/// Whether a value is one of the words of a text.
fn has_word(value: &[u8], text: &[u8]) -> bool
    ensures { result ≡ list_any (bytes_eq value.now) (words text.now) }
{
    let mut start = 0;
    for at in 0..text.len() {
        if is_space(text[at]) {
            if is_this(value, &text[start..at]) {
                return true;
            }
            start = at + 1;
        }
    }
    is_this(value, &text[start..])
}

/// Whether a part between white space is a word, and this value.
fn is_this(value: &[u8], part: &[u8]) -> bool
    ensures { result ≡ is_word (bytes_eq value.now) part.now }
{
    !part.is_empty() && value == part
}
