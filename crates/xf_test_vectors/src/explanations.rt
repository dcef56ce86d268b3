//! The calls of xf_form_explain: a form by its text, or as hexadecimal digits where it may be no text.

use crate::calls::{Answer, bytes_of};
use std::alloc::Global;
use xf_form_explain::explain;
use xf_name::Word;

pub fn answer(alloc: Global, call: &str, given: &[Word]) -> Answer {
    match (call, given) {
        ("explain", [form]) => explained(alloc, form.as_bytes()),
        ("explain_bytes", [digits]) => explained_of(alloc, digits.as_str()),
        _ => Ok(None),
    }
}

fn explained_of(alloc: Global, digits: &str) -> Answer {
    match bytes_of(alloc, digits)? {
        Some(bytes) => explained(alloc, &bytes),
        None => Ok(None),
    }
}

fn explained(alloc: Global, form: &[u8]) -> Answer {
    match explain(alloc, form)? {
        Some(text) => Ok(Some(text)),
        None => Ok(Some(String::from_str(alloc, "loads")?)),
    }
}
