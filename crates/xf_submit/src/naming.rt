//! Names of a store.

ghost use Rattle.std.specs.Prelude.{◌≡◌};
ghost use Rattle.std.specs.List.{list_all};
ghost use Rattle.xf_def_machine.specs.Exchange as exchange;

use xf_base::limits::STORE_NAME_LIMIT;

/// Whether a text is a name of a store: 1 to 64 ASCII letters, digits, `.`, `_` or `-`, not beginning with `.`.
pub fn is_store_name(name: &str) -> bool
    ensures { result ≡ exchange.is_store_name name.now }
{
    let bytes = name.as_bytes();
    if !begins_well(bytes) {
        return false;
    }
    if bytes.len() > STORE_NAME_LIMIT {
        return false;
    }
    are_name_bytes(bytes)
}

fn begins_well(name: &[u8]) -> bool
    ensures { result ≡ exchange.begins_well name.now }
{
    match name.first() {
        Some(byte) => *byte != b'.',
        None => false,
    }
}

fn are_name_bytes(name: &[u8]) -> bool
    ensures { result ≡ list_all exchange.is_name_byte name.now }
{
    if name.is_empty() {
        return true;
    }
    if !is_name_byte(name[0]) {
        return false;
    }
    are_name_bytes(&name[1..])
}

fn is_name_byte(byte: u8) -> bool
    ensures { result ≡ exchange.is_name_byte byte }
{
    if is_between(b'A', b'Z', byte) || is_between(b'a', b'z', byte) {
        return true;
    }
    if is_between(b'0', b'9', byte) {
        return true;
    }
    byte == b'.' || byte == b'_' || byte == b'-'
}

fn is_between(least: u8, most: u8, byte: u8) -> bool
    ensures { result ≡ exchange.is_between least most byte }
{
    if byte < least {
        return false;
    }
    byte <= most
}
