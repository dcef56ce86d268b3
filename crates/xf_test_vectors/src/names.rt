//! The calls of xf_name. A form is the JSON text of its tree.

use crate::calls::{Answer, counted, told};
use std::alloc::{AllocError, Global};
use xf_json::{JsonFault, read};
use xf_name::{
    FirstFault, Lit, NameFault, Prefixes, QName, SurveyFault, Word, collect, is_part, survey,
};

pub fn answer(alloc: Global, call: &str, given: &[Word]) -> Answer {
    match (call, given) {
        ("is_part", [text]) => told(alloc, is_part(text.as_str())),
        ("survey", [form]) => first_fault(alloc, form.as_str()),
        (_, [form, rest @ ..]) => of_form(alloc, call, form.as_str(), rest),
        _ => Ok(None),
    }
}

/// What the prefixes of a form answer, or the name of its first fault.
fn of_form(alloc: Global, call: &str, form: &str, given: &[Word]) -> Answer {
    match prefixes_of(alloc, form)? {
        Ok(prefixes) => answered(alloc, call, &prefixes, given),
        Err(fault) => Ok(Some(fault)),
    }
}

fn answered(alloc: Global, call: &str, prefixes: &Prefixes, given: &[Word]) -> Answer {
    match (call, given) {
        ("collect", []) => Ok(Some(String::from_str(alloc, "sound")?)),
        ("resolve", [written, space]) => match space.as_str().parse::<u16>() {
            Ok(space) => resolved(alloc, prefixes, written.as_str(), space),
            Err(_) => Ok(None),
        },
        (_, [only]) => asked(alloc, call, prefixes, only.as_str()),
        _ => Ok(None),
    }
}

/// The tree that a text spells.
fn form_of(alloc: Global, text: &str) -> Result<Option<Lit>, AllocError> {
    match read(alloc, text.as_bytes()) {
        Ok(form) => Ok(Some(form)),
        Err(JsonFault::Memory) => Err(AllocError),
        Err(JsonFault::NotJson | JsonFault::NotElement) => Ok(None),
    }
}

/// The prefixes of the form that a text spells, or the name of its first fault.
pub fn prefixes_of(alloc: Global, text: &str) -> Result<Result<Prefixes, String>, AllocError> {
    match form_of(alloc, text)? {
        Some(form) => prefixes_in(alloc, &form),
        None => Ok(Err(String::from_str(alloc, "no form")?)),
    }
}

fn prefixes_in(alloc: Global, form: &Lit) -> Result<Result<Prefixes, String>, AllocError> {
    match collect(alloc, form) {
        Ok(prefixes) => Ok(Ok(prefixes)),
        Err(fault) => Ok(Err(spelled(alloc, fault)?)),
    }
}

/// The name of a fault other than want of memory.
fn spelled(alloc: Global, fault: NameFault) -> Result<String, AllocError> {
    match fault {
        NameFault::Memory => Err(AllocError),
        fault => format!(in alloc; "{fault:?}"),
    }
}

/// The place of the element with the first fault, and which it is; `none` where there is none.
fn first_fault(alloc: Global, text: &str) -> Answer {
    match form_of(alloc, text)? {
        Some(form) => fault_in(alloc, &form),
        None => Ok(Some(String::from_str(alloc, "no form")?)),
    }
}

fn fault_in(alloc: Global, form: &Lit) -> Answer {
    match survey(alloc, form) {
        Ok(surveyed) => placed(alloc, surveyed.fault),
        Err(SurveyFault::TooMany) => Ok(Some(String::from_str(alloc, "TooMany")?)),
        Err(SurveyFault::Memory) => Err(AllocError),
    }
}

fn placed(alloc: Global, fault: Option<FirstFault>) -> Answer {
    match fault {
        Some(first) => {
            let place = first.element;
            let fault = first.fault;
            Ok(Some(format!(in alloc; "{place} {fault:?}")?))
        }
        None => Ok(Some(String::from_str(alloc, "none")?)),
    }
}

/// What the prefixes of a form say of a namespace, or of the number of one or of a prefix.
fn asked(alloc: Global, call: &str, prefixes: &Prefixes, given: &str) -> Answer {
    if call == "space_of" {
        return counted(alloc, prefixes.space_of(given).map(i128::from));
    }
    let Ok(number) = given.parse::<u16>() else {
        return Ok(None);
    };
    match call {
        "space_of_prefix" => counted(alloc, prefixes.space_of_prefix(number).map(i128::from)),
        "space_text" => copied(alloc, prefixes.space_text(number)),
        "prefix_text" => copied(alloc, prefixes.prefix_text(number)),
        _ => Ok(None),
    }
}

/// A text, or `none`.
fn copied(alloc: Global, text: Option<&str>) -> Answer {
    Ok(Some(String::from_str(alloc, text.unwrap_or("none"))?))
}

/// The numbers of a name's namespace and prefix, and its local name.
fn resolved(alloc: Global, prefixes: &Prefixes, written: &str, space: u16) -> Answer {
    match prefixes.resolve(written, space) {
        Ok(
            QName {
                space,
                prefix,
                local,
            },
        ) => {
            let local = local.as_str();
            Ok(Some(format!(in alloc; "{space} {prefix} {local}")?))
        }
        Err(fault) => Ok(Some(spelled(alloc, fault)?)),
    }
}
