//! The line of a form that is refused.

ghost use Rattle.std.specs.Prelude.{◌≡◌, ◌++◌, string_bytes, IfOk, OnOk};
ghost use Rattle.xf_report.specs.Refusals.{construct_text};
ghost use Rattle.xf_cli_commands.specs.Statuses.{refusal_name, refusal_line, place_part};
ghost use Rattle.xf_cli_commands.specs.Finish.{IsLineOf};

use std::alloc::{AllocError, Global};
use xf_def_machine::Refusal;
use xf_name::Word;
use xf_report::push_construct_refusal;
use xf_session::FormFault;

/// The line of bytes of which no form is made.
pub(crate) fn fault_line(alloc: Global, fault: FormFault) -> Result<String, AllocError>
    ensures { IfOk result (λ line. IsLineOf fault (string_bytes line)) }
{
    match fault {
        FormFault::NotForm(number, place) => form_line(alloc, number, &place),
        FormFault::Refused(refusal) => construction_line(alloc, &refusal),
        FormFault::Memory => Err(AllocError),
    }
}

fn form_line(alloc: Global, number: u8, place: &Word) -> Result<String, AllocError>
    ensures { IfOk result (λ line. string_bytes line ≡ refusal_line number place.now) }
{
    let mut line = format!(in alloc; "form F{number} ")?;
    line.push_str(refusal_name(number))?;
    push_place(&mut line, place)?;
    line.push_str("\n")?;
    Ok(line)
}

fn construction_line(alloc: Global, refusal: &Refusal) -> Result<String, AllocError>
    ensures { IfOk result (λ line. string_bytes line ≡ construct_text refusal.now) }
{
    let mut line = String::new(alloc);
    push_construct_refusal(&mut line, refusal)?;
    Ok(line)
}

fn push_place(line: &mut String, place: &Word) -> Result<(), AllocError>
    ensures { OnOk result (string_bytes line.new ≡ string_bytes line.old ++ place_part place.now) }
{
    if place.is_empty() {
        return Ok(());
    }
    line.push_str(" ")?;
    line.push_str(place.as_str())
}

/// The name of a refusal by its number.
fn refusal_name(number: u8) -> &'static str
    ensures { result.now ≡ refusal_name number }
{
    if number == 1 {
        "NotJson"
    } else if number == 2 {
        "TooLarge"
    } else if number == 3 {
        "NotElement"
    } else if number == 4 {
        "BadName"
    } else if number == 5 {
        "Prefix"
    } else if number == 6 {
        "NoModel"
    } else if number == 7 {
        "Expression"
    } else if number == 8 {
        "NotStatic"
    } else if number == 9 {
        "UnknownElement"
    } else if number == 10 {
        "BadAttribute"
    } else if number == 11 {
        "DoubleId"
    } else if number == 12 {
        "NoSuchId"
    } else if number == 13 {
        "UnknownType"
    } else if number == 20 {
        "BadSchema"
    } else {
        "Limit"
    }
}
