//! The functions (XPath 1.0, section 4; XForms 1.1, section 7).

ghost use Rattle.std.specs.Prelude.{◌≡◌, true};
ghost use Rattle.xf_table.specs.Rows.{entries_of, rises, counts_from};
ghost use Rattle.xf_table.specs.Contents.{function_entries};

use crate::row::Row;

/// The mark of a function whose argument is a node set.
pub const TAKES_NODES: u8 = 1;

/// The mark of a function that may give nodes.
pub const GIVES_NODES: u8 = 2;

/// The rows of the functions, with the least and the greatest number of their arguments.
pub fn rows() -> &'static [Row; 45]
    ensures rows { entries_of result.now ≡ function_entries }
    ensures ordered { rises (entries_of result.now) ≡ true }
    ensures codes { counts_from 0 (entries_of result.now) ≡ true }
{
    static ROWS: [Row; 45] = table![
        0 "avg" 1 1 1;
        1 "boolean" 1 1 0;
        2 "boolean-from-string" 1 1 0;
        3 "ceiling" 1 1 0;
        4 "choose" 3 3 2;
        5 "compare" 2 2 0;
        6 "concat" 2 255 0;
        7 "contains" 2 2 0;
        8 "count" 1 1 1;
        9 "count-non-empty" 1 1 1;
        10 "current" 0 0 2;
        11 "days-from-date" 1 1 0;
        12 "days-to-date" 1 1 0;
        13 "event" 1 1 2;
        14 "false" 0 0 0;
        15 "floor" 1 1 0;
        16 "if" 3 3 0;
        17 "index" 1 1 0;
        18 "instance" 0 1 2;
        19 "last" 0 0 0;
        20 "local-name" 0 1 1;
        21 "max" 1 1 1;
        22 "min" 1 1 1;
        23 "months" 1 1 0;
        24 "name" 0 1 1;
        25 "namespace-uri" 0 1 1;
        26 "normalize-space" 0 1 0;
        27 "not" 1 1 0;
        28 "number" 0 1 0;
        29 "position" 0 0 0;
        30 "power" 2 2 0;
        31 "property" 1 1 0;
        32 "round" 1 1 0;
        33 "seconds" 1 1 0;
        34 "seconds-from-dateTime" 1 1 0;
        35 "seconds-to-dateTime" 1 1 0;
        36 "starts-with" 2 2 0;
        37 "string" 0 1 0;
        38 "string-length" 0 1 0;
        39 "substring" 2 3 0;
        40 "substring-after" 2 2 0;
        41 "substring-before" 2 2 0;
        42 "sum" 1 1 1;
        43 "translate" 3 3 0;
        44 "true" 0 0 0;
    ];
    &ROWS
}
