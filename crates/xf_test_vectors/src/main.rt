//! Reads cases from standard input, calls what they name, and prints which answers are not what was wanted, and how many.
//!
//! A line that begins with `#` is a comment. Any other line is a case: a JSON array of the crate, the call, the arguments and what
//! must come, each a text; docs/CONTRIBUTING.md has the calls. A text of many letters may be an array of texts and counts in turns,
//! as `["a","4096"]`, each text so many times.
#![tactic(auto)]

mod calls;
mod dates;
mod explanations;
mod functions;
mod graphs;
mod journals;
mod json;
mod names;
mod numbers;
mod report;
mod schemas;
mod sheet;
mod snaps;
mod tables;
mod trees;
mod types;

use std::alloc::{AllocError, Global};
use std::io;

/// The crates that are called, in the order of the report.
const NAMES: [&str; 14] = [
    "xf_num",
    "xf_types",
    "xf_dates",
    "xf_funcs",
    "xf_path",
    "xf_json",
    "xf_name",
    "xf_table",
    "xf_line",
    "xf_graph",
    "xf_snap",
    "xf_journal",
    "xf_schema",
    "xf_form_explain",
];

fn main(rt: HostRuntime) -> anyhow::Result<()> {
    let alloc = rt.alloc();
    let text = io::read_to_string(alloc, rt.reader())?;
    let report = report_on(alloc, text.as_str())?;
    print!(rt; "{report}")?;
    Ok(())
}

/// The report of a sheet.
fn report_on(alloc: Global, sheet: &str) -> Result<String, AllocError> {
    let outcomes = sheet::outcomes_of(alloc, sheet)?;
    report::report_of(alloc, &NAMES, &outcomes)
}
