//! The attributes of a form (XForms 1.1; XML Events).

ghost use Rattle.std.specs.Prelude.{◌≡◌, true};
ghost use Rattle.xf_table.specs.Rows.{entries_of, rises, counts_from};
ghost use Rattle.xf_table.specs.Contents.{attribute_entries};

use crate::row::Row;

/// The mark of an attribute without a namespace.
pub const IN_NO_SPACE: u8 = 1;

/// The mark of an attribute in the namespace of XML Events.
pub const IN_EVENTS: u8 = 2;

/// The mark of an attribute that is an expression wherever it stands.
pub const EXPRESSION: u8 = 4;

/// The rows of the attributes that a form may hold.
pub fn rows() -> &'static [Row; 46]
    ensures rows { entries_of result.now ≡ attribute_entries }
    ensures ordered { rises (entries_of result.now) ≡ true }
    ensures codes { counts_from 0 (entries_of result.now) ≡ true }
{
    static ROWS: [Row; 46] = table![
        0 "action" 0 0 1;
        1 "at" 0 0 5;
        2 "bind" 0 0 1;
        3 "bubbles" 0 0 1;
        4 "calculate" 0 0 1;
        5 "cancelable" 0 0 1;
        6 "case" 0 0 1;
        7 "constraint" 0 0 1;
        8 "context" 0 0 5;
        9 "control" 0 0 1;
        10 "decimals" 0 0 1;
        11 "defaultAction" 0 0 2;
        12 "delay" 0 0 1;
        13 "event" 0 0 2;
        14 "id" 0 0 1;
        15 "if" 0 0 5;
        16 "index" 0 0 5;
        17 "instance" 0 0 1;
        18 "method" 0 0 1;
        19 "model" 0 0 1;
        20 "name" 0 0 1;
        21 "nodeset" 0 0 5;
        22 "observer" 0 0 2;
        23 "origin" 0 0 5;
        24 "phase" 0 0 2;
        25 "position" 0 0 1;
        26 "propagate" 0 0 2;
        27 "readonly" 0 0 1;
        28 "ref" 0 0 5;
        29 "relevant" 0 0 1;
        30 "repeat" 0 0 1;
        31 "replace" 0 0 1;
        32 "required" 0 0 1;
        33 "resource" 0 0 1;
        34 "selected" 0 0 1;
        35 "selection" 0 0 1;
        36 "serialization" 0 0 1;
        37 "startindex" 0 0 1;
        38 "submission" 0 0 1;
        39 "target" 0 0 3;
        40 "targetid" 0 0 1;
        41 "targetref" 0 0 5;
        42 "type" 0 0 1;
        43 "validate" 0 0 1;
        44 "value" 0 0 5;
        45 "while" 0 0 5;
    ];
    &ROWS
}
