//! What the event tells that a submission ends with (XForms 1.1, sections 11.4 and 11.5).

ghost use Rattle.std.specs.Prelude.{◌≡◌, ◌++◌, ◌∷◌, [], IfOk, OnOk, option_map};
ghost use Rattle.xf_def_xpath.specs.declared.value.Value.TheVariants.{Text};
ghost use Rattle.xf_def_ui.specs.Told.{told_of};
ghost use Rattle.xf_submit.specs.Ending.{end_told};

use std::alloc::{AllocError, Global};
use xf_base::Items;
use xf_def_syntax::Submission;
use xf_def_ui::{Property, PropertyList};
use xf_def_xpath::Value;
use xf_name::Word;

/// The name in the store, and the type of the error where it failed.
pub fn end_properties(
    alloc: Global,
    submission: &Submission,
    failure: Option<&str>,
) -> Result<PropertyList, AllocError>
    ensures { IfOk result (λ told. told_of told ≡ end_told submission.now (option_map (λ e. e.now) failure.entry)) }
{
    let mut told = Items::new(alloc);
    push_text(
        alloc,
        "resource-uri",
        submission.resource.as_str(),
        &mut told,
    )?;
    match failure {
        Some(error) => {
            push_text(alloc, "error-type", error, &mut told)?;
            Ok(told)
        }
        None => Ok(told),
    }
}

fn push_text(
    alloc: Global,
    name: &str,
    text: &str,
    told: &mut PropertyList,
) -> Result<(), AllocError>
    ensures { OnOk result (told_of told.new ≡ told_of told.old ++ (name.now, Text text.now) ∷ []) }
{
    let name = Word::from_str(alloc, name)?;
    let value = Value::Text(Word::from_str(alloc, text)?);
    told.push(Property { name, value })
}
