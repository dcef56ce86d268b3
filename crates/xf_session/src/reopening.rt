//! A session that the slots hold: its form starts again over the answers that it got, and its entries are played again.
ghost use Rattle.std.specs.Prelude.{◌≡◌, ◌≤◌, None, Some, Ok, IfErr, IfOk, IsSome, IsTrue, OnOk};
ghost use Rattle.std.specs.List.{list_all};
ghost use Rattle.xf_store.specs.Replies.{is_short};
ghost use Rattle.xf_journal.specs.Entry.{are_within};
ghost use Rattle.xf_journal.specs.Held.{Log};
ghost use Rattle.xf_journal.specs.Scanned.{scanned_of};
ghost use Rattle.xf_def_machine.specs.Construct.{construct};
ghost use Rattle.xf_def_machine.specs.Program.{Program};
ghost use Rattle.xf_def_machine.specs.Replies.{answers_in};
ghost use Rattle.xf_def_form.specs.Formed.{profile};
ghost use Rattle.xf_session.specs.Opening.{opening_from, start_with};
ghost use Rattle.xf_session.specs.Replaying.{IsOfReading, Reopens, taken_bytes, where_same};

use crate::answers::copy_of;
use crate::looking::Found;
use crate::offset::gate_before;
use crate::replay::{keep_exact, play};
use crate::{EventFault, OpenFault, Processor, Starting};
use std::alloc::Global;
use xf_store::Canned;

/// Who runs the form in the state of the session that was found.
pub(crate) fn reopened<P: Processor, C: Starting<P>>(
    alloc: Global,
    found: &Found,
    constructed: C,
) -> Result<P, OpenFault>
    requires within { IsTrue (are_within found.now.scanned.entries) }
    requires short { IsTrue (list_all is_short found.now.answers) }
    ensures done { (program : Program) (log : Log) → construct profile program ≡ Ok (C.first constructed) → found.now.scanned ≡ scanned_of log → taken_bytes log.kept.entries ≤ log.gate
        → Reopens P.state (opening_from profile log (start_with profile program (Some found.now.answers))) result }
    ensures only { IfErr result IsOfReading }
    ensures whole { IfOk result (λ processor. found.now.scanned.cut ≡ None) }
    ensures idle { IfOk result (λ processor. P.kept processor ≡ None) }
{
    let Ok(answers) = copy_of(alloc, &found.answers) else {
        return Err(OpenFault::Memory);
    };
    let mut store = Canned::new(answers);
    let mut text = String::new(alloc);
    match constructed.start(&mut store, &mut text) {
        Ok(processor) => replayed(alloc, found, processor),
        Err(EventFault::Refused(_)) => Err(found.base_damage()),
        Err(EventFault::Memory) => Err(OpenFault::Memory),
    }
}

/// What runs the form after the entries, of which the start is pending.
fn replayed<P: Processor>(alloc: Global, found: &Found, started: P) -> Result<P, OpenFault>
    requires pending { IsSome (P.kept started) }
    requires within { IsTrue (are_within found.now.scanned.entries) }
    ensures done { (log : Log) → found.now.scanned ≡ scanned_of log → taken_bytes log.kept.entries ≤ log.gate
        → Reopens P.state (opening_from profile log (where_same (answers_in (P.calls started)) found.now.answers (P.state started))) result }
    ensures only { IfErr result IsOfReading }
    ensures whole { IfOk result (λ processor. found.now.scanned.cut ≡ None) }
    ensures idle { IfOk result (λ processor. P.kept processor ≡ None) }
{
    let mut processor = started;
    match replay(alloc, found, &mut processor) {
        Ok(()) => Ok(processor),
        Err(fault) => Err(fault),
    }
}

/// The start is kept where it got exactly the answers of the base; then the entries are played again, all of them.
fn replay<P: Processor>(alloc: Global, found: &Found, processor: &mut P) -> Result<(), OpenFault>
    requires pending { IsSome (P.kept processor.old) }
    requires within { IsTrue (are_within found.now.scanned.entries) }
    ensures done { (log : Log) → found.now.scanned ≡ scanned_of log → taken_bytes log.kept.entries ≤ log.gate
        → Reopens (λ done. P.state processor.new) (opening_from profile log (where_same (answers_in (P.calls processor.old)) found.now.answers (P.state processor.old))) result }
    ensures only { IfErr result IsOfReading }
    ensures whole { OnOk result (found.now.scanned.cut ≡ None) }
    ensures idle { OnOk result (P.kept processor.new ≡ None) }
{
    if !keep_exact(processor, &found.answers)? {
        return Err(found.base_damage());
    }
    let entries = found.scanned.entries.as_slice();
    let count = play(alloc, processor, entries)?;
    if count < entries.len() {
        let gate = found.scanned.journal.used().saturating_sub(1);
        let at = gate_before(&entries[count..], gate);
        return Err(OpenFault::Damaged(found.slot(), at));
    }
    match found.scanned.cut {
        Some(at) => Err(OpenFault::Damaged(found.slot(), at)),
        None => Ok(()),
    }
}
