//! A run of the program.

ghost use Rattle.std.specs.Prelude.{◌≡◌, ◌≤◌, [], None, Ok, map, length, string_bytes};
ghost use Rattle.xf_base.specs.Faults.{Rose};
ghost use Rattle.xf_base.specs.Limits.{form_limit};
ghost use Rattle.xf_cli_stream.specs.Out.{IsOutOrFailed, IsSteady};
ghost use Rattle.xf_form.specs.declared.loaded.Loaded.{Loaded};
ghost use Rattle.xf_form.specs.Loading.{loaded_in};
ghost use Rattle.xf_def_machine.specs.ControlText.{state_text};
ghost use Rattle.xf_def_machine.specs.Program.{Program};
ghost use Rattle.xf_def_machine.specs.Construct.{construct};
ghost use Rattle.xf_def_form.specs.Formed.{profile, program_in};
ghost use Rattle.xf_session.specs.Beginning.{IsBuilt};
ghost use Rattle.xf_session.specs.Constructing.{Loads};
ghost use Rattle.xf_cli_commands.specs.Device.{device_of};
ghost use Rattle.xf_cli_commands.specs.Outside.{object_of, stored_of};
ghost use Rattle.xf_cli_commands.specs.Statuses.{AppendsLine, status_code, status_line};
ghost use Rattle.xf_cli_commands.specs.Written.{Ends};
ghost use Rattle.xf_cli_commands.specs.Finish.{AnswersBehind, GivesCommand, IsShownBy, IsSteadyAt, Runs, RunsBytes, RunsLoaded, RunsSession, ShowsSession, TriesForm};

use crate::finish::{finish, say};
use crate::form::{Reading, read_form};
use crate::line_session::LineSession;
use crate::no_disk::NoDisk;
use crate::opening::{Opened, open, reopen, try_out};
use crate::refusal::fault_line;
use crate::status::{Command, Status};
use std::alloc::Global;
use xf_cli_stream::{Answering, Ending, answer_lines, write_reply};
use xf_disk::Disk;
use xf_io::{Sink, Source};
use xf_session::{Forms, Processor, Starting};
use xf_store::Store;

/// Does all that the program does, with forms by who makes and runs them, and gives the number that it ends with.
///
/// The words are those after the name of the program. The form is read; then, as the words ask for, it is told whether it is accepted, or the
/// lines of the events are answered on `out`, each reply flushed before the next line is read. Submissions put into the store and get from it.
/// With the word `run` the session that the two slots of the disk hold goes on, or begins where they hold none, and an event is on the disk
/// before its reply is written; with the word `show` its state is written.
pub fn run_program<
    P: Processor,
    C: Starting<P>,
    M: Forms<P, C>,
    F: Source,
    E: Source,
    O: Sink,
    D: Disk,
    S: Store,
>(
    alloc: Global,
    forms: &M,
    words: &[String],
    form: &mut F,
    events: &mut E,
    out: &mut O,
    disk: &mut D,
    store: &mut S,
) -> u8
    ensures ends { Ends result record {
      words = map string_bytes words.now;
      form = object_of (F.left form.old) (F.left form.new) (F.faults form.old) (F.faults form.new);
      events = object_of (E.left events.old) (E.left events.new) (E.faults events.old) (E.faults events.new);
      out = object_of (O.taken out.old) (O.taken out.new) (O.faults out.old) (O.faults out.new);
      store = stored_of (S.calls store.old, S.to_come store.old) (S.calls store.new, S.to_come store.new);
      disk = device_of D.tells D.seen D.may_leave D.moment D.left_since D.faults disk.old disk.new;
    } }
    ensures flushed { IsOutOrFailed (O.taken out.old, O.flushed out.old) (O.taken out.new, O.flushed out.new) (O.faults out.old, O.faults out.new) }
{
    let status = run(alloc, forms, words, form, events, out, disk, store);
    finish(out, status)
}

/// Tells that there is no memory for the words of the command, and gives the number that the program ends with.
pub fn no_room<O: Sink>(out: &mut O) -> u8
    ensures number { result ≡ status_code Status.NoRoom }
    ensures says { AppendsLine (object_of (O.taken out.old) (O.taken out.new) (O.faults out.old) (O.faults out.new)) (O.faults out.old) [] (status_line Status.NoRoom) }
    ensures flushed { IsOutOrFailed (O.taken out.old, O.flushed out.old) (O.taken out.new, O.flushed out.new) (O.faults out.old, O.faults out.new) }
{
    say(out, b"fault memory\n", 9)
}

// Does the work, and leaves the line for the status.
fn run<
    P: Processor,
    C: Starting<P>,
    M: Forms<P, C>,
    F: Source,
    E: Source,
    O: Sink,
    D: Disk,
    S: Store,
>(
    alloc: Global,
    forms: &M,
    words: &[String],
    form: &mut F,
    events: &mut E,
    out: &mut O,
    disk: &mut D,
    store: &mut S,
) -> Status
    ensures runs { Runs result record {
      words = map string_bytes words.now;
      form = object_of (F.left form.old) (F.left form.new) (F.faults form.old) (F.faults form.new);
      events = object_of (E.left events.old) (E.left events.new) (E.faults events.old) (E.faults events.new);
      out = object_of (O.taken out.old) (O.taken out.new) (O.faults out.old) (O.faults out.new);
      store = stored_of (S.calls store.old, S.to_come store.old) (S.calls store.new, S.to_come store.new);
      disk = device_of D.tells D.seen D.may_leave D.moment D.left_since D.faults disk.old disk.new;
    } }
    ensures flushed { IsOutOrFailed (O.taken out.old, O.flushed out.old) (O.taken out.new, O.flushed out.new) (O.faults out.old, O.faults out.new) }
    ensures later { O.faults out.old ≤ O.faults out.new }
{
    let Some(command) = command_of(words) else {
        return Status::Usage;
    };
    match read_form(alloc, form) {
        Reading::All(bytes) => run_bytes(
            alloc,
            forms,
            command,
            bytes.as_slice(),
            events,
            out,
            disk,
            store,
        ),
        Reading::Fault => Status::Unread,
        Reading::Memory => Status::NoRoom,
    }
}

// The command that the words spell.
fn command_of(words: &[String]) -> Option<Command>
    ensures { GivesCommand (map string_bytes words.now) result }
{
    if words.len() != 1 {
        return None;
    }
    let word = words[0].as_str();
    if word == "run" {
        return Some(Command::Run);
    }
    if word == "try" {
        return Some(Command::Try);
    }
    if word == "show" {
        return Some(Command::Show);
    }
    if word == "check" {
        return Some(Command::Check);
    }
    None
}

// Does what the command asks for with the form of these bytes.
fn run_bytes<P: Processor, C: Starting<P>, M: Forms<P, C>, E: Source, O: Sink, D: Disk, S: Store>(
    alloc: Global,
    forms: &M,
    command: Command,
    bytes: &[u8],
    events: &mut E,
    out: &mut O,
    disk: &mut D,
    store: &mut S,
) -> Status
    ensures runs { RunsBytes command bytes.now record {
      events = object_of (E.left events.old) (E.left events.new) (E.faults events.old) (E.faults events.new);
      out = object_of (O.taken out.old) (O.taken out.new) (O.faults out.old) (O.faults out.new);
      store = stored_of (S.calls store.old, S.to_come store.old) (S.calls store.new, S.to_come store.new);
      disk = device_of D.tells D.seen D.may_leave D.moment D.left_since D.faults disk.old disk.new;
    } result }
    ensures read { result ≡ Status.Answered Ending.ReadFault → Rose (E.faults events.old) (E.faults events.new) }
    ensures written { result ≡ Status.Answered Ending.SinkFault → Rose (O.faults out.old) (O.faults out.new) }
    ensures unshown { result ≡ Status.NotShown → Rose (O.faults out.old) (O.faults out.new) }
    ensures kept { result ≡ Status.Answered Ending.DiskFault → Rose (D.faults disk.old) (D.faults disk.new) }
    ensures steady { IsSteadyAt result (O.faults out.old) (O.faults out.new) }
    ensures flushed { IsOutOrFailed (O.taken out.old, O.flushed out.old) (O.taken out.new, O.flushed out.new) (O.faults out.old, O.faults out.new) }
    ensures later { O.faults out.old ≤ O.faults out.new }
{
    match forms.construct(alloc, bytes) {
        Ok(constructed) => run_constructed(
            alloc,
            command,
            bytes,
            constructed,
            events,
            out,
            disk,
            store,
        ),
        Err(fault) => match fault_line(alloc, fault) {
            Ok(line) => Status::Refused(line),
            Err(_) => Status::NoRoom,
        },
    }
}

// Does what the command asks for with a form that is constructed of these bytes.
fn run_constructed<P: Processor, C: Starting<P>, E: Source, O: Sink, D: Disk, S: Store>(
    alloc: Global,
    command: Command,
    bytes: &[u8],
    constructed: C,
    events: &mut E,
    out: &mut O,
    disk: &mut D,
    store: &mut S,
) -> Status
    requires { Loads bytes.now (λ given. given ≡ Ok (C.first constructed)) }
    ensures runs { (l : Loaded) → loaded_in bytes.now ≡ Ok l → construct profile (program_in l) ≡ Ok (C.first constructed) → RunsLoaded command l bytes.now record {
      events = object_of (E.left events.old) (E.left events.new) (E.faults events.old) (E.faults events.new);
      out = object_of (O.taken out.old) (O.taken out.new) (O.faults out.old) (O.faults out.new);
      store = stored_of (S.calls store.old, S.to_come store.old) (S.calls store.new, S.to_come store.new);
      disk = device_of D.tells D.seen D.may_leave D.moment D.left_since D.faults disk.old disk.new;
    } result }
    ensures read { result ≡ Status.Answered Ending.ReadFault → Rose (E.faults events.old) (E.faults events.new) }
    ensures written { result ≡ Status.Answered Ending.SinkFault → Rose (O.faults out.old) (O.faults out.new) }
    ensures unshown { result ≡ Status.NotShown → Rose (O.faults out.old) (O.faults out.new) }
    ensures kept { result ≡ Status.Answered Ending.DiskFault → Rose (D.faults disk.old) (D.faults disk.new) }
    ensures steady { IsSteadyAt result (O.faults out.old) (O.faults out.new) }
    ensures flushed { IsOutOrFailed (O.taken out.old, O.flushed out.old) (O.taken out.new, O.flushed out.new) (O.faults out.old, O.faults out.new) }
    ensures later { O.faults out.old ≤ O.faults out.new }
{
    match command {
        Command::Run => run_session(alloc, bytes, constructed, events, out, disk, store),
        Command::Try => try_form(alloc, constructed, events, out, store),
        Command::Show => show_session(alloc, bytes, constructed, out, disk),
        Command::Check => {
            drop(constructed);
            Status::Checked
        }
    }
}

// Opens or begins the session of a form that is constructed of these bytes, and answers the lines of the events.
fn run_session<P: Processor, C: Starting<P>, E: Source, O: Sink, D: Disk, S: Store>(
    alloc: Global,
    bytes: &[u8],
    constructed: C,
    events: &mut E,
    out: &mut O,
    disk: &mut D,
    store: &mut S,
) -> Status
    requires small { length bytes.now ≤ form_limit }
    ensures runs { (program : Program) → IsBuilt bytes.now program (C.first constructed) → RunsSession bytes.now program record {
      events = object_of (E.left events.old) (E.left events.new) (E.faults events.old) (E.faults events.new);
      out = object_of (O.taken out.old) (O.taken out.new) (O.faults out.old) (O.faults out.new);
      store = stored_of (S.calls store.old, S.to_come store.old) (S.calls store.new, S.to_come store.new);
      disk = device_of D.tells D.seen D.may_leave D.moment D.left_since D.faults disk.old disk.new;
    } result }
    ensures read { result ≡ Status.Answered Ending.ReadFault → Rose (E.faults events.old) (E.faults events.new) }
    ensures written { result ≡ Status.Answered Ending.SinkFault → Rose (O.faults out.old) (O.faults out.new) }
    ensures kept { result ≡ Status.Answered Ending.DiskFault → Rose (D.faults disk.old) (D.faults disk.new) }
    ensures steady { IsSteadyAt result (O.faults out.old) (O.faults out.new) }
    ensures flushed { IsOutOrFailed (O.taken out.old, O.flushed out.old) (O.taken out.new, O.flushed out.new) (O.faults out.old, O.faults out.new) }
    ensures later { O.faults out.old ≤ O.faults out.new }
{
    match open(alloc, bytes, constructed, disk, store) {
        Opened::Session(session, notes) => {
            let ending = answer_all(alloc, session, notes.as_bytes(), events, out, disk, store);
            Status::Answered(ending)
        }
        Opened::Refused(line) => Status::Refused(line),
        Opened::NotOpened(line) => Status::NotOpened(line),
        Opened::DiskFailed => Status::DiskFailed,
        Opened::NoRoom => Status::NoRoom,
    }
}

// Opens the session of a form that is constructed of these bytes, and writes its state.
fn show_session<P: Processor, C: Starting<P>, O: Sink, D: Disk>(
    alloc: Global,
    bytes: &[u8],
    constructed: C,
    out: &mut O,
    disk: &mut D,
) -> Status
    ensures runs { (program : Program) → IsBuilt bytes.now program (C.first constructed)
        → ShowsSession bytes.now program (device_of D.tells D.seen D.may_leave D.moment D.left_since D.faults disk.old disk.new) (object_of (O.taken out.old) (O.taken out.new) (O.faults out.old) (O.faults out.new)) result }
    ensures unshown { result ≡ Status.NotShown → Rose (O.faults out.old) (O.faults out.new) }
    ensures steady { IsSteadyAt result (O.faults out.old) (O.faults out.new) }
    ensures flushed { IsOutOrFailed (O.taken out.old, O.flushed out.old) (O.taken out.new, O.flushed out.new) (O.faults out.old, O.faults out.new) }
    ensures later { O.faults out.old ≤ O.faults out.new }
{
    match reopen(alloc, bytes, constructed, disk) {
        Opened::Session(session, _notes) => {
            let status = show(alloc, &session, out);
            // By a call: in place it would be taken apart, part by part.
            drop(session);
            status
        }
        Opened::Refused(line) => Status::Refused(line),
        Opened::NotOpened(line) => Status::NotOpened(line),
        Opened::DiskFailed => Status::DiskFailed,
        Opened::NoRoom => Status::NoRoom,
    }
}

// Writes the state of a session.
fn show<P: Processor, O: Sink>(alloc: Global, session: &LineSession<P>, out: &mut O) -> Status
    requires { P.kept session.now.session.processor ≡ None }
    ensures shows { IsShownBy (state_text profile (P.state session.now.session.processor)) (object_of (O.taken out.old) (O.taken out.new) (O.faults out.old) (O.faults out.new)) result }
    ensures unshown { result ≡ Status.NotShown → Rose (O.faults out.old) (O.faults out.new) }
    ensures steady { IsSteadyAt result (O.faults out.old) (O.faults out.new) }
    ensures flushed { IsOutOrFailed (O.taken out.old, O.flushed out.old) (O.taken out.new, O.flushed out.new) (O.faults out.old, O.faults out.new) }
    ensures later { O.faults out.old ≤ O.faults out.new }
{
    match session.state_text(alloc) {
        Ok(text) => match write_reply(out, text.as_bytes()) {
            Ok(()) => Status::Shown,
            Err(_) => Status::NotShown,
        },
        Err(_) => Status::NoRoom,
    }
}

// Starts a form that is constructed, and answers the lines of the events.
fn try_form<P: Processor, C: Starting<P>, E: Source, O: Sink, S: Store>(
    alloc: Global,
    constructed: C,
    events: &mut E,
    out: &mut O,
    store: &mut S,
) -> Status
    ensures runs { TriesForm (C.first constructed) (object_of (E.left events.old) (E.left events.new) (E.faults events.old) (E.faults events.new)) (object_of (O.taken out.old) (O.taken out.new) (O.faults out.old) (O.faults out.new)) (stored_of (S.calls store.old, S.to_come store.old) (S.calls store.new, S.to_come store.new)) result }
    ensures read { result ≡ Status.Answered Ending.ReadFault → Rose (E.faults events.old) (E.faults events.new) }
    ensures written { result ≡ Status.Answered Ending.SinkFault → Rose (O.faults out.old) (O.faults out.new) }
    ensures steady { IsSteadyAt result (O.faults out.old) (O.faults out.new) }
    ensures flushed { IsOutOrFailed (O.taken out.old, O.flushed out.old) (O.taken out.new, O.flushed out.new) (O.faults out.old, O.faults out.new) }
    ensures later { O.faults out.old ≤ O.faults out.new }
{
    match try_out(alloc, constructed, store) {
        Opened::Session(session, notes) => {
            let mut none = NoDisk;
            let ending = answer_all(
                alloc,
                session,
                notes.as_bytes(),
                events,
                out,
                &mut none,
                store,
            );
            Status::Answered(ending)
        }
        Opened::Refused(line) => Status::Refused(line),
        Opened::NotOpened(line) => Status::NotOpened(line),
        Opened::DiskFailed => Status::DiskFailed,
        Opened::NoRoom => Status::NoRoom,
    }
}

// Writes the notes of the start, answers the lines of the events, and lets the session go.
fn answer_all<D, A: Answering<D> + Drop, E: Source, O: Sink, S: Store>(
    alloc: Global,
    session: A,
    notes: &[u8],
    events: &mut E,
    out: &mut O,
    disk: &mut D,
    store: &mut S,
) -> Ending
    requires { A.stands session disk.old }
    ensures answered { AnswersBehind A.answers A.leaves notes.now result (session, ((S.calls store.old, S.to_come store.old), disk.old)) ((S.calls store.new, S.to_come store.new), disk.new) (object_of (E.left events.old) (E.left events.new) (E.faults events.old) (E.faults events.new)) (object_of (O.taken out.old) (O.taken out.new) (O.faults out.old) (O.faults out.new)) }
    ensures kept { result ≡ Ending.DiskFault → Rose (A.disk_faults disk.old) (A.disk_faults disk.new) }
    ensures read { result ≡ Ending.ReadFault → Rose (E.faults events.old) (E.faults events.new) }
    ensures written { result ≡ Ending.SinkFault → Rose (O.faults out.old) (O.faults out.new) }
    ensures steady { IsSteady result (O.faults out.old) (O.faults out.new) }
    ensures flushed { IsOutOrFailed (O.taken out.old, O.flushed out.old) (O.taken out.new, O.flushed out.new) (O.faults out.old, O.faults out.new) }
    ensures later { O.faults out.old ≤ O.faults out.new }
{
    let mut session = session;
    answer_behind(alloc, &mut session, notes, events, out, disk, store)
}

// Writes the notes of the start, and answers the lines of the events.
fn answer_behind<D, A: Answering<D>, E: Source, O: Sink, S: Store>(
    alloc: Global,
    session: &mut A,
    notes: &[u8],
    events: &mut E,
    out: &mut O,
    disk: &mut D,
    store: &mut S,
) -> Ending
    requires { A.stands session.old disk.old }
    ensures answered { AnswersBehind A.answers A.leaves notes.now result (session.old, ((S.calls store.old, S.to_come store.old), disk.old)) ((S.calls store.new, S.to_come store.new), disk.new) (object_of (E.left events.old) (E.left events.new) (E.faults events.old) (E.faults events.new)) (object_of (O.taken out.old) (O.taken out.new) (O.faults out.old) (O.faults out.new)) }
    ensures kept { result ≡ Ending.DiskFault → Rose (A.disk_faults disk.old) (A.disk_faults disk.new) }
    ensures read { result ≡ Ending.ReadFault → Rose (E.faults events.old) (E.faults events.new) }
    ensures written { result ≡ Ending.SinkFault → Rose (O.faults out.old) (O.faults out.new) }
    ensures steady { IsSteady result (O.faults out.old) (O.faults out.new) }
    ensures flushed { IsOutOrFailed (O.taken out.old, O.flushed out.old) (O.taken out.new, O.flushed out.new) (O.faults out.old, O.faults out.new) }
    ensures later { O.faults out.old ≤ O.faults out.new }
{
    match write_reply(out, notes) {
        Ok(()) => answer_lines(alloc, session, disk, store, events, out),
        Err(_) => Ending::SinkFault,
    }
}
