//! What a line of the events asks for.

ghost use Rattle.std.specs.Prelude.{◌≡◌, string_bytes, IfOk};
ghost use Rattle.std.specs.List.{list_all};
ghost use Rattle.xf_def_machine.specs.Replies.{is_blank};
ghost use Rattle.xf_def_machine.specs.StateText.{line_of};
ghost use Rattle.xf_report.specs.Refusals.{refusal_text};
ghost use Rattle.xf_cli_commands.specs.Finish.{GivesLine, IsText};

use std::alloc::{AllocError, Global};
use xf_base::limits::LINE_LIMIT;
use xf_def_machine::Refusal;
use xf_line::{Asked, LineFault, read_line};
use xf_report::push_refusal;

/// What comes of reading a line.
#[derive(Drop)]
pub(crate) enum Wants {
    Asked(Asked),
    /// It asks for nothing, and this is the reply: none to blanks.
    Said(String),
    NoRoom,
}

/// Reads a line.
pub(crate) fn wanted(alloc: Global, line: &[u8]) -> Wants
    ensures { GivesLine line.now result }
{
    if line.len() > LINE_LIMIT {
        return said(alloc, "no E1 LineTooLong\n");
    }
    if is_blank_line(line) {
        return said(alloc, "");
    }
    match read_line(alloc, line) {
        Ok(asked) => Wants::Asked(asked),
        Err(LineFault::NotJson) => said(alloc, "no E2 NotJson\n"),
        Err(LineFault::NotEvent) => said(alloc, "no E3 NotEvent\n"),
        Err(LineFault::Memory) => Wants::NoRoom,
    }
}

fn said(alloc: Global, text: &str) -> Wants
    ensures { IsText text.now result }
{
    match String::from_str(alloc, text) {
        Ok(text) => Wants::Said(text),
        Err(_) => Wants::NoRoom,
    }
}

fn is_blank_line(line: &[u8]) -> bool
    ensures { result ≡ list_all is_blank line.now }
{
    line.iter()
        .all(|b| *b == b' ' || *b == b'\t' || *b == b'\r')
}

/// The reply to an event that is refused.
pub(crate) fn refused_text(alloc: Global, refusal: &Refusal) -> Result<String, AllocError>
    ensures { IfOk result (λ text. string_bytes text ≡ line_of (refusal_text refusal.now)) }
{
    let mut text = String::new(alloc);
    push_refusal(&mut text, refusal)?;
    Ok(text)
}
