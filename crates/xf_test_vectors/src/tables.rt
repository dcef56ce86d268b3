//! The calls of xf_table. Rows of a table of its own are given by their names, which are some of a few.

use crate::calls::{Answer, counted, told};
use std::alloc::{AllocError, Global};
use xf_name::Word;
use xf_table::{Row, attributes, elements, events, find, functions, is_ordered, types};

pub fn answer(alloc: Global, call: &str, given: &[Word]) -> Answer {
    match (call, given) {
        ("find", [table, name]) => look_up(alloc, table.as_str(), name.as_str()),
        ("is_ordered", [names]) => are_ordered(alloc, names.as_str()),
        ("find_among", [names, name]) => find_among(alloc, names.as_str(), name.as_str()),
        _ => Ok(None),
    }
}

fn are_ordered(alloc: Global, names: &str) -> Answer {
    let rows = rows_of(alloc, names)?;
    told(alloc, is_ordered(&rows))
}

fn find_among(alloc: Global, names: &str, name: &str) -> Answer {
    let rows = rows_of(alloc, names)?;
    place_in(alloc, &rows, name)
}

/// The place of a name in rows that are in order.
fn place_in(alloc: Global, rows: &[Row], name: &str) -> Answer {
    if !is_ordered(rows) {
        return Ok(None);
    }
    counted(alloc, find(rows, name).map(i128::from))
}

/// What a table says of a name: its code, its least and most arguments and its marks.
fn look_up(alloc: Global, table: &str, name: &str) -> Answer {
    match table_of(table) {
        Some(rows) => row_in(alloc, rows, name),
        None => Ok(None),
    }
}

fn table_of(name: &str) -> Option<&'static [Row]> {
    let rows: &[Row] = match name {
        "functions" => functions::rows(),
        "events" => events::rows(),
        "types" => types::rows(),
        "elements" => elements::rows(),
        "attributes" => attributes::rows(),
        _ => return None,
    };
    Some(rows)
}

fn row_in(alloc: Global, rows: &[Row], name: &str) -> Answer {
    if !is_ordered(rows) {
        return Ok(None);
    }
    match find(rows, name).and_then(|code| rows.get(code as usize)) {
        Some(row) => described(alloc, row),
        None => Ok(Some(String::from_str(alloc, "none")?)),
    }
}

fn described(alloc: Global, row: &Row) -> Answer {
    let Row {
        name: _,
        code,
        least,
        most,
        marks,
    } = *row;
    Ok(Some(format!(in alloc; "{code} {least} {most} {marks}")?))
}

/// The names of rows in a table of its own.
const NAMES: [&str; 7] = ["a", "aa", "ab", "abc", "b", "c", "d"];

/// The rows of the names that stand between blanks; another word has no row.
fn rows_of(alloc: Global, names: &str) -> Result<Vec<Row>, AllocError> {
    let mut rows = Vec::new(alloc);
    push_rows(&mut rows, names)?;
    Ok(rows)
}

fn push_rows(rows: &mut Vec<Row>, names: &str) -> Result<(), AllocError> {
    let mut code = 0u16;
    for word in names.split_whitespace() {
        push_row(rows, word, code)?;
        code = code.saturating_add(1);
    }
    Ok(())
}

fn push_row(rows: &mut Vec<Row>, word: &str, code: u16) -> Result<(), AllocError> {
    for name in NAMES.iter() {
        if word == *name {
            rows.push(Row {
                name: *name,
                code,
                least: 0,
                most: 0,
                marks: 0,
            })?;
        }
    }
    Ok(())
}
