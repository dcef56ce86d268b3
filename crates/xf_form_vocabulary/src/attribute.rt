//! The attributes that an element may have, by their numbers.

/// An attribute of XForms or of XML Events, with its text.
#[derive(Clone, Copy, Debug)]
pub struct Known<'a> {
    /// Its code in the table of attributes; one in the namespace of XML Events has `EVENTS` more.
    pub code: u16,
    pub text: &'a str,
}

/// What an attribute of XML Events has beyond its code.
pub const EVENTS: u16 = 64;

pub const ACTION: u16 = 0;

pub const AT: u16 = 1;

pub const BIND: u16 = 2;

pub const BUBBLES: u16 = 3;

pub const CALCULATE: u16 = 4;

pub const CANCELABLE: u16 = 5;

pub const CASE: u16 = 6;

pub const CONSTRAINT: u16 = 7;

pub const CONTEXT: u16 = 8;

pub const CONTROL: u16 = 9;

pub const DECIMALS: u16 = 10;

pub const DEFAULT_ACTION: u16 = 75;

pub const DELAY: u16 = 12;

pub const EVENT: u16 = 77;

pub const ID: u16 = 14;

pub const IF: u16 = 15;

pub const INDEX: u16 = 16;

pub const INSTANCE: u16 = 17;

pub const METHOD: u16 = 18;

pub const MODEL: u16 = 19;

pub const NAME: u16 = 20;

pub const NODESET: u16 = 21;

pub const OBSERVER: u16 = 86;

pub const ORIGIN: u16 = 23;

pub const PHASE: u16 = 88;

pub const POSITION: u16 = 25;

pub const PROPAGATE: u16 = 90;

pub const READONLY: u16 = 27;

pub const REF: u16 = 28;

pub const RELEVANT: u16 = 29;

pub const REPEAT: u16 = 30;

pub const REPLACE: u16 = 31;

pub const REQUIRED: u16 = 32;

pub const RESOURCE: u16 = 33;

pub const SELECTED: u16 = 34;

pub const SELECTION: u16 = 35;

pub const SERIALIZATION: u16 = 36;

pub const START_INDEX: u16 = 37;

pub const SUBMISSION: u16 = 38;

pub const TARGET: u16 = 39;

/// The `target` of XML Events.
pub const EVENT_TARGET: u16 = 103;

pub const TARGET_ID: u16 = 40;

pub const TARGET_REF: u16 = 41;

pub const TYPE: u16 = 42;

pub const VALIDATE: u16 = 43;

pub const VALUE: u16 = 44;

pub const WHILE: u16 = 45;
