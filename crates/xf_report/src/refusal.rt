//! What is written for a refused event, and of a refused form.
ghost use Rattle.std.specs.Prelude.{◌≡◌, ◌++◌, OnOk, string_bytes};
ghost use Rattle.std.specs.List.{flat_map};
ghost use Rattle.xf_def_machine.specs.FormReplies.{event_refusal, ready_text};
ghost use Rattle.xf_def_machine.specs.Replies.{limit_text};
ghost use Rattle.xf_def_machine.specs.StateText.{line_of, spaced};
ghost use Rattle.xf_def_machine.specs.Told.{told};
ghost use Rattle.xf_report.specs.Refusals.{construct_text, details, refusal_text};

use std::alloc::AllocError;
use xf_def_machine::{LimitWord, Refusal};
use xf_name::Word;

/// Appends the line of a refused event.
pub fn push_refusal(text: &mut String, refusal: &Refusal) -> Result<(), AllocError>
    ensures { OnOk result (string_bytes text.new ≡ string_bytes text.old ++ line_of (refusal_text refusal.now)) }
{
    text.push_str("no ")?;
    text.push_str(event_refusal(refusal))?;
    push_details(text, refusal)?;
    text.push_str("\n")
}

/// The number and the name of the refusal of an event.
fn event_refusal(refusal: &Refusal) -> &'static str
    ensures { result.now ≡ event_refusal (told refusal.now) }
{
    match refusal {
        Refusal::NoSuchTarget => "E4 NoSuchTarget",
        Refusal::Disabled => "E5 Disabled",
        Refusal::ReadOnly => "E6 ReadOnly",
        Refusal::NotAnItem => "E7 NotAnItem",
        Refusal::BadIndex => "E8 BadIndex",
        Refusal::PropertyTwice(_) => "E9 Binding",
        Refusal::CalculateOnParent(_) => "E9 Binding",
        Refusal::Binding(_) => "E9 Binding",
        Refusal::Circular(_) => "E10 Circular",
        Refusal::Limit(_) => "E11 Limit",
        Refusal::Budget => "E12 Budget",
        Refusal::Depth => "E13 Depth",
        Refusal::Sends => "E14 Sends",
    }
}

/// Appends what follows the name: a path, paths, or the word of a limit.
fn push_details(text: &mut String, refusal: &Refusal) -> Result<(), AllocError>
    ensures { OnOk result (string_bytes text.new ≡ string_bytes text.old ++ details refusal.now) }
{
    match refusal {
        Refusal::PropertyTwice(path) => push_spaced(text, path.as_str()),
        Refusal::CalculateOnParent(path) => push_spaced(text, path.as_str()),
        Refusal::Binding(path) => push_spaced(text, path.as_str()),
        Refusal::Circular(paths) => push_paths(text, paths.as_slice()),
        Refusal::Limit(word) => push_spaced(text, limit_text(*word)),
        _ => Ok(()),
    }
}

fn push_spaced(text: &mut String, more: &str) -> Result<(), AllocError>
    ensures { OnOk result (string_bytes text.new ≡ string_bytes text.old ++ spaced more.now) }
{
    text.push_str(" ")?;
    text.push_str(more)
}

fn push_paths(text: &mut String, paths: &[Word]) -> Result<(), AllocError>
    ensures { OnOk result (string_bytes text.new ≡ string_bytes text.old ++ flat_map spaced paths.now) }
{
    for path in paths {
        push_spaced(text, path.as_str())?;
    }
    Ok(())
}

fn limit_text(word: LimitWord) -> &'static str
    ensures { result.now ≡ limit_text word }
{
    match word {
        LimitWord::Nodes => "nodes",
        LimitWord::Text => "text",
        LimitWord::All => "all",
        LimitWord::Depth => "depth",
        LimitWord::Long => "long",
        LimitWord::Edges => "edges",
        LimitWord::Controls => "controls",
        LimitWord::Passes => "passes",
        LimitWord::Notes => "notes",
        LimitWord::Made => "made",
        LimitWord::Counts => "counts",
    }
}

/// Appends the line of a form whose construction is refused: nothing for a refusal that no construction has.
pub fn push_construct_refusal(text: &mut String, refusal: &Refusal) -> Result<(), AllocError>
    ensures { OnOk result (string_bytes text.new ≡ string_bytes text.old ++ construct_text refusal.now) }
{
    match refusal {
        Refusal::PropertyTwice(_) => push_named(text, "form F14 PropertyTwice", refusal),
        Refusal::Circular(_) => push_named(text, "form F15 Circular", refusal),
        Refusal::CalculateOnParent(_) => push_named(text, "form F16 CalculateOnParent", refusal),
        Refusal::Limit(_) => push_named(text, "form F17 Limit", refusal),
        _ => Ok(()),
    }
}

/// Appends a line with a name and what follows it.
fn push_named(text: &mut String, name: &str, refusal: &Refusal) -> Result<(), AllocError>
    ensures { OnOk result (string_bytes text.new ≡ string_bytes text.old ++ line_of (name.now ++ details refusal.now)) }
{
    text.push_str(name)?;
    push_details(text, refusal)?;
    text.push_str("\n")
}

/// Appends the line of a form whose start is refused.
pub fn push_ready_refusal(text: &mut String, refusal: &Refusal) -> Result<(), AllocError>
    ensures { OnOk result (string_bytes text.new ≡ string_bytes text.old ++ line_of (ready_text (told refusal.now))) }
{
    push_event(text, "form F18 Ready ", refusal)
}

/// Appends a line with the number and the name of the refusal of an event behind a front.
fn push_event(text: &mut String, front: &str, refusal: &Refusal) -> Result<(), AllocError>
    ensures { OnOk result (string_bytes text.new ≡ string_bytes text.old ++ line_of (front.now ++ event_refusal (told refusal.now))) }
{
    text.push_str(front)?;
    text.push_str(event_refusal(refusal))?;
    text.push_str("\n")
}
