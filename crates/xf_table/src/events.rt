//! The events (XForms 1.1, section 4).

ghost use Rattle.std.specs.Prelude.{◌≡◌, true};
ghost use Rattle.xf_table.specs.Rows.{entries_of, rises, counts_from};
ghost use Rattle.xf_table.specs.Contents.{event_entries};

use crate::row::Row;

/// The mark of an event whose default can be cancelled.
pub const CANCELABLE: u8 = 1;

/// The mark of an event that has a default at some target.
pub const HAS_DEFAULT: u8 = 2;

/// The rows of the events that the processor fires. All of them bubble.
pub fn rows() -> &'static [Row; 25]
    ensures rows { entries_of result.now ≡ event_entries }
    ensures ordered { rises (entries_of result.now) ≡ true }
    ensures codes { counts_from 0 (entries_of result.now) ≡ true }
{
    static ROWS: [Row; 25] = table![
        0 "DOMActivate" 0 0 3;
        1 "xforms-delete" 0 0 0;
        2 "xforms-deselect" 0 0 0;
        3 "xforms-disabled" 0 0 0;
        4 "xforms-enabled" 0 0 0;
        5 "xforms-insert" 0 0 0;
        6 "xforms-invalid" 0 0 0;
        7 "xforms-model-construct" 0 0 0;
        8 "xforms-model-construct-done" 0 0 0;
        9 "xforms-optional" 0 0 0;
        10 "xforms-readonly" 0 0 0;
        11 "xforms-readwrite" 0 0 0;
        12 "xforms-ready" 0 0 0;
        13 "xforms-rebuild" 0 0 3;
        14 "xforms-recalculate" 0 0 3;
        15 "xforms-refresh" 0 0 3;
        16 "xforms-required" 0 0 0;
        17 "xforms-reset" 0 0 3;
        18 "xforms-revalidate" 0 0 3;
        19 "xforms-select" 0 0 0;
        20 "xforms-submit" 0 0 3;
        21 "xforms-submit-done" 0 0 0;
        22 "xforms-submit-error" 0 0 0;
        23 "xforms-valid" 0 0 0;
        24 "xforms-value-changed" 0 0 0;
    ];
    &ROWS
}
