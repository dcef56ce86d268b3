//! The line for the status of a run.

ghost use Rattle.std.specs.Prelude.{◌≡◌, ◌≤◌, []};
ghost use Rattle.xf_cli_stream.specs.Out.{IsOutOrFailed};
ghost use Rattle.xf_cli_commands.specs.Outside.{object_of};
ghost use Rattle.xf_cli_commands.specs.Statuses.{AppendsLine, ending_code, ending_line};
ghost use Rattle.xf_cli_commands.specs.Finish.{Finishes};

use crate::status::Status;
use xf_cli_stream::{Ending, write_reply};
use xf_io::Sink;

/// Writes the line for the status, and gives its number.
pub(crate) fn finish<O: Sink>(out: &mut O, status: Status) -> u8
    ensures finishes { Finishes status result (object_of (O.taken out.old) (O.taken out.new) (O.faults out.old) (O.faults out.new)) }
    ensures flushed { IsOutOrFailed (O.taken out.old, O.flushed out.old) (O.taken out.new, O.flushed out.new) (O.faults out.old, O.faults out.new) }
    ensures later { O.faults out.old ≤ O.faults out.new }
{
    match status {
        Status::Usage => say(out, b"usage: xforms run | try | show | check\n", 2),
        Status::Refused(line) => say(out, line.as_bytes(), 3),
        Status::Checked => say(out, b"form ok\n", 0),
        Status::Unread => say(out, b"fault read\n", 4),
        Status::DiskFailed => say(out, b"fault disk\n", 6),
        Status::NotOpened(line) => say(out, line.as_bytes(), 7),
        Status::Shown => say(out, b"", 0),
        Status::NotShown => say(out, b"", 5),
        Status::NoRoom => say(out, b"fault memory\n", 9),
        Status::Answered(ending) => finish_answers(out, ending),
    }
}

fn finish_answers<O: Sink>(out: &mut O, ending: Ending) -> u8
    ensures number { result ≡ ending_code ending }
    ensures says { AppendsLine (object_of (O.taken out.old) (O.taken out.new) (O.faults out.old) (O.faults out.new)) (O.faults out.old) [] (ending_line ending) }
    ensures flushed { IsOutOrFailed (O.taken out.old, O.flushed out.old) (O.taken out.new, O.flushed out.new) (O.faults out.old, O.faults out.new) }
    ensures later { O.faults out.old ≤ O.faults out.new }
{
    match ending {
        Ending::Done => say(out, b"", 0),
        Ending::ReadFault => say(out, b"fault read\n", 4),
        Ending::SinkFault => say(out, b"", 5),
        Ending::DiskFault => say(out, b"fault disk\n", 6),
        Ending::TooMuch => say(out, b"fault too much\n", 8),
        Ending::Memory => say(out, b"fault memory\n", 9),
    }
}

/// Writes a line for a status, whose number stays as it is where the sink fails. An empty line is none: the sink is not called.
pub(crate) fn say<O: Sink>(out: &mut O, line: &[u8], number: u8) -> u8
    ensures number { result ≡ number }
    ensures says { AppendsLine (object_of (O.taken out.old) (O.taken out.new) (O.faults out.old) (O.faults out.new)) (O.faults out.old) [] line.now }
    ensures flushed { IsOutOrFailed (O.taken out.old, O.flushed out.old) (O.taken out.new, O.flushed out.new) (O.faults out.old, O.faults out.new) }
    ensures later { O.faults out.old ≤ O.faults out.new }
{
    if !line.is_empty() {
        let _ = write_reply(out, line);
    }
    number
}
