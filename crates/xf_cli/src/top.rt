//! The top call.

ghost use Rattle.std.specs.Prelude.{map, string_bytes};
ghost use Rattle.xf_cli_stream.specs.Out.{IsOutOrFailed};
ghost use Rattle.xf_cli_commands.specs.Device.{device_of};
ghost use Rattle.xf_cli_commands.specs.Outside.{object_of, stored_of};
ghost use Rattle.xf_cli_commands.specs.Written.{Ends};

use crate::forms::OwnForms;
use std::alloc::Global;
use xf_cli_commands::run_program;
use xf_disk::Disk;
use xf_io::{Sink, Source};
use xf_store::Store;

/// Does all that the program does, and gives the number that it ends with.
///
/// The words are those after the name of the program. The form is read; then, as the words ask for, it is told whether it is accepted, or the
/// lines of the events are answered on `out`, each reply flushed before the next line is read. Submissions put into the store and get from it.
/// With the word `run` the session that the two slots of the disk hold goes on, or begins where they hold none, and an event is on the disk
/// before its reply is written; with the word `show` its state is written.
pub fn xforms<F: Source, E: Source, O: Sink, D: Disk, S: Store>(
    alloc: Global,
    words: &[String],
    form: &mut F,
    events: &mut E,
    out: &mut O,
    disk: &mut D,
    store: &mut S,
) -> u8
    ensures ends { Ends result record {
      words = map string_bytes words.now;
      form = object_of (F.left form.old) (F.left form.new) (F.faults form.old) (F.faults form.new);
      events = object_of (E.left events.old) (E.left events.new) (E.faults events.old) (E.faults events.new);
      out = object_of (O.taken out.old) (O.taken out.new) (O.faults out.old) (O.faults out.new);
      store = stored_of (S.calls store.old, S.to_come store.old) (S.calls store.new, S.to_come store.new);
      disk = device_of D.tells D.seen D.may_leave D.moment D.left_since D.faults disk.old disk.new;
    } }
    ensures flushed { IsOutOrFailed (O.taken out.old, O.flushed out.old) (O.taken out.new, O.flushed out.new) (O.faults out.old, O.faults out.new) }
{
    let forms = OwnForms { mark: () };
    run_program(alloc, &forms, words, form, events, out, disk, store)
}
