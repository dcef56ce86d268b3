//! The elements of a form (XForms 1.1).

ghost use Rattle.std.specs.Prelude.{◌≡◌, true};
ghost use Rattle.xf_table.specs.Rows.{entries_of, rises, counts_from};
ghost use Rattle.xf_table.specs.Contents.{element_entries};

use crate::row::Row;

/// The mark of an element that controls may stand in, as the host may.
pub const CONTAINER: u8 = 1;

/// The mark of a control.
pub const CONTROL: u8 = 2;

/// The mark of an action.
pub const ACTION: u8 = 4;

/// The rows of the elements that a form may hold.
pub fn rows() -> &'static [Row; 41]
    ensures rows { entries_of result.now ≡ element_entries }
    ensures ordered { rises (entries_of result.now) ≡ true }
    ensures codes { counts_from 0 (entries_of result.now) ≡ true }
{
    static ROWS: [Row; 41] = table![
        0 "action" 0 0 4;
        1 "alert" 0 0 0;
        2 "bind" 0 0 0;
        3 "case" 0 0 1;
        4 "choices" 0 0 0;
        5 "delete" 0 0 4;
        6 "dispatch" 0 0 4;
        7 "extension" 0 0 0;
        8 "group" 0 0 1;
        9 "help" 0 0 0;
        10 "hint" 0 0 0;
        11 "input" 0 0 2;
        12 "insert" 0 0 4;
        13 "instance" 0 0 0;
        14 "item" 0 0 0;
        15 "itemset" 0 0 0;
        16 "label" 0 0 0;
        17 "load" 0 0 4;
        18 "message" 0 0 4;
        19 "model" 0 0 0;
        20 "output" 0 0 2;
        21 "rebuild" 0 0 4;
        22 "recalculate" 0 0 4;
        23 "refresh" 0 0 4;
        24 "repeat" 0 0 1;
        25 "reset" 0 0 4;
        26 "revalidate" 0 0 4;
        27 "secret" 0 0 2;
        28 "select" 0 0 2;
        29 "select1" 0 0 2;
        30 "send" 0 0 4;
        31 "setfocus" 0 0 4;
        32 "setindex" 0 0 4;
        33 "setvalue" 0 0 4;
        34 "submission" 0 0 0;
        35 "submit" 0 0 2;
        36 "switch" 0 0 0;
        37 "textarea" 0 0 2;
        38 "toggle" 0 0 4;
        39 "trigger" 0 0 2;
        40 "value" 0 0 0;
    ];
    &ROWS
}
