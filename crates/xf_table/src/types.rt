//! The simple types (XML Schema part 2, section 3; XForms 1.1, section 5).

ghost use Rattle.std.specs.Prelude.{◌≡◌, true};
ghost use Rattle.xf_table.specs.Rows.{entries_of, rises, counts_from};
ghost use Rattle.xf_table.specs.Contents.{type_entries};

use crate::row::Row;

/// The mark of a type with a name of XML Schema.
pub const IN_SCHEMA: u8 = 1;

/// The mark of a type with a name of XForms.
pub const IN_FORMS: u8 = 2;

/// The mark of a type whose texts keep their white space.
pub const KEEPS_SPACE: u8 = 4;

/// The rows of the simple types.
pub fn rows() -> &'static [Row; 36]
    ensures rows { entries_of result.now ≡ type_entries }
    ensures ordered { rises (entries_of result.now) ≡ true }
    ensures codes { counts_from 0 (entries_of result.now) ≡ true }
{
    static ROWS: [Row; 36] = table![
        0 "NCName" 0 0 3;
        1 "Name" 0 0 3;
        2 "QName" 0 0 3;
        3 "anyURI" 0 0 3;
        4 "boolean" 0 0 3;
        5 "byte" 0 0 3;
        6 "date" 0 0 3;
        7 "dateTime" 0 0 3;
        8 "dayTimeDuration" 0 0 2;
        9 "decimal" 0 0 3;
        10 "duration" 0 0 1;
        11 "gDay" 0 0 3;
        12 "gMonth" 0 0 3;
        13 "gMonthDay" 0 0 3;
        14 "gYear" 0 0 3;
        15 "gYearMonth" 0 0 3;
        16 "hexBinary" 0 0 3;
        17 "int" 0 0 3;
        18 "integer" 0 0 3;
        19 "listItem" 0 0 2;
        20 "listItems" 0 0 2;
        21 "long" 0 0 3;
        22 "negativeInteger" 0 0 3;
        23 "nonNegativeInteger" 0 0 3;
        24 "nonPositiveInteger" 0 0 3;
        25 "normalizedString" 0 0 7;
        26 "positiveInteger" 0 0 3;
        27 "short" 0 0 3;
        28 "string" 0 0 7;
        29 "time" 0 0 3;
        30 "token" 0 0 7;
        31 "unsignedByte" 0 0 3;
        32 "unsignedInt" 0 0 3;
        33 "unsignedLong" 0 0 3;
        34 "unsignedShort" 0 0 3;
        35 "yearMonthDuration" 0 0 2;
    ];
    &ROWS
}
