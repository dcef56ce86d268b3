//! What an event tells beside its name.

use xf_base::Items;
use xf_def_xpath::Value;
use xf_name::Word;

/// A property of an event.
#[derive(Drop)]
pub struct Property {
    pub name: Word,
    pub value: Value,
}

/// The properties of an event.
pub type PropertyList = Items<Property>;
