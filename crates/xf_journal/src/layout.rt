//! The layout of a slot, by its tag.
ghost use Rattle.std.specs.Prelude.{◌≡◌, ◌≤◌, ◌<◌, ◌^◌, ◌∷◌, [], length, drop};
ghost use Rattle.xf_journal.specs.Layout.{begins_with, header_length, format_in, epoch_in, form_length, base_length, base_at, entries_at, adoptions_in, do_adoptions_stand, first_fault, open_epoch};

use crate::number::{from_eight, from_four};
use xf_base::limits::{ADOPTION_LIMIT, FORM_LIMIT};

/// A format of slots.
#[derive(Clone, Copy, Debug, PartialEq, Eq)]
pub enum Format {
    /// Read, and appended to; it tells of no changes of the form.
    First,
    /// That of each new slot.
    Second,
}

impl Format {
    /// Where the form begins.
    pub(crate) fn header_length(self) -> usize
        ensures value { result ≡ header_length self }
        ensures small { result ≤ 25 }
    {
        match self {
            Format::First => 21,
            Format::Second => 25,
        }
    }
}

/// The fewest bytes of an open slot.
pub(crate) const OPEN_LEAST: usize = 22;

/// The format that a slot's tag names.
pub(crate) fn format_in(bytes: &[u8]) -> Option<Format>
    requires { 22 ≤ length bytes.now }
    ensures { result ≡ format_in bytes.now }
{
    if has_tag(bytes, b'1') {
        Some(Format::First)
    } else if has_tag(bytes, b'2') {
        Some(Format::Second)
    } else {
        None
    }
}

/// Whether behind the gate stands a tag that ends with this byte.
fn has_tag(bytes: &[u8], last: u8) -> bool
    requires { 22 ≤ length bytes.now }
    ensures { result ≡ begins_with (88 ∷ 70 ∷ 83 ∷ last ∷ []) (drop 1 bytes.now) }
{
    bytes[1] == b'X' && bytes[2] == b'F' && bytes[3] == b'S' && bytes[4] == last
}

/// The epoch that a slot tells.
pub(crate) fn epoch_in(bytes: &[u8]) -> u64
    requires { 22 ≤ length bytes.now }
    ensures { result ≡ epoch_in bytes.now }
{
    from_eight(&bytes[5..])
}

/// The length that a slot tells of its form.
fn form_length(bytes: &[u8]) -> usize
    requires { 22 ≤ length bytes.now }
    ensures value { result ≡ form_length bytes.now }
    ensures small { result < 2 ^ 32 }
{
    from_four(&bytes[13..]) as usize
}

/// The length that a slot tells of its base.
fn base_length(bytes: &[u8]) -> usize
    requires { 22 ≤ length bytes.now }
    ensures value { result ≡ base_length bytes.now }
    ensures small { result < 2 ^ 32 }
{
    from_four(&bytes[17..]) as usize
}

/// Where the base begins.
pub(crate) fn base_at(format: Format, bytes: &[u8]) -> usize
    requires { 22 ≤ length bytes.now }
    ensures value { result ≡ base_at format bytes.now }
    ensures small { result < 2 ^ 33 }
{
    format.header_length() + form_length(bytes)
}

/// Where the entries begin.
pub(crate) fn entries_at(format: Format, bytes: &[u8]) -> usize
    requires { 22 ≤ length bytes.now }
    ensures { result ≡ entries_at format bytes.now }
{
    base_at(format, bytes) + base_length(bytes)
}

/// The epoch of an open slot, by its first bytes.
pub(crate) fn open_epoch(bytes: &[u8]) -> Option<u64>
    ensures { result ≡ open_epoch bytes.now }
{
    if bytes.len() >= OPEN_LEAST && bytes[0] == 1 {
        Some(epoch_in(bytes))
    } else {
        None
    }
}

/// The offset of the first field behind the tag that fails.
pub(crate) fn first_fault(format: Format, bytes: &[u8]) -> Option<u64>
    requires { 22 ≤ length bytes.now }
    ensures { result ≡ first_fault format bytes.now }
{
    let epoch = epoch_in(bytes);
    if epoch < 1 || epoch >= 1 << 62 {
        return Some(5);
    }
    if form_length(bytes) > FORM_LIMIT || base_at(format, bytes) > bytes.len() {
        return Some(13);
    }
    if entries_at(format, bytes) > bytes.len() {
        return Some(17);
    }
    if !do_adoptions_stand(format, bytes) {
        return Some(21);
    }
    None
}

/// Whether the number of changes of the form stands, and the gate behind it, and it is below its limit.
fn do_adoptions_stand(format: Format, bytes: &[u8]) -> bool
    ensures { result ≡ do_adoptions_stand format bytes.now }
{
    match format {
        Format::First => true,
        Format::Second => bytes.len() >= 26 && from_four(&bytes[21..]) < ADOPTION_LIMIT,
    }
}

/// The number of changes of the form that a slot tells of.
pub(crate) fn adoptions_in(format: Format, bytes: &[u8]) -> u32
    requires { header_length format ≤ length bytes.now }
    ensures { result ≡ adoptions_in format bytes.now }
{
    match format {
        Format::First => 0,
        Format::Second => from_four(&bytes[21..]),
    }
}
