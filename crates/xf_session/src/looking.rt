//! What the slots hold of a session of a form.
ghost use Rattle.std.specs.Prelude.{◌≡◌, IfErr, IfOk, IfSome, IsTrue};
ghost use Rattle.xf_disk.specs.Crash.{IsSettled};
ghost use Rattle.xf_journal.specs.Entry.{are_within};
ghost use Rattle.xf_journal.specs.Held.{Log, held};
ghost use Rattle.xf_journal.specs.Moments.{OnlyLooks};
ghost use Rattle.xf_journal.specs.Scanned.{scanned_of};
ghost use Rattle.xf_def_sessions.specs.Images.{answers_at_base};
ghost use Rattle.xf_def_sessions.specs.Opening.{base_offset, difference_from};
ghost use Rattle.xf_session.specs.declared.fault.OpenFault.TheVariants.{Damaged};
ghost use Rattle.xf_session.specs.Opening.{begins_start};
ghost use Rattle.xf_session.specs.Replaying.{IsFound, IsFoundWithin, IsOfLooking, IsOfReading, Looks, HasOpenCause};

use crate::OpenFault;
use crate::offset::gate_before;
use std::alloc::{AllocError, Global};
use xf_disk::{Disk, Slot};
use xf_journal::{Scanned, answers_in, scan};
use xf_store::Answers;

/// Where the count of adoptions stands in a slot.
const ADOPTIONS_OFFSET: u64 = 21;

/// What was read of the slots, and the answers of the start that are its base.
#[derive(Drop)]
pub(crate) struct Found {
    pub(crate) scanned: Scanned,
    pub(crate) answers: Answers,
}

impl Found {
    /// The slot in use.
    pub(crate) fn slot(&self) -> Slot
        ensures { result ≡ self.now.scanned.journal.slot }
    {
        self.scanned.journal.slot()
    }

    /// The damage at the base.
    pub(crate) fn base_damage(&self) -> OpenFault
        requires { IsTrue (are_within self.now.scanned.entries) }
        ensures only { IsOfReading result }
        ensures is { (log : Log) → self.now.scanned ≡ scanned_of log → result ≡ Damaged log.kept.slot (base_offset log) }
    {
        OpenFault::Damaged(self.slot(), base_offset(&self.scanned))
    }
}

/// Syncs the slots and reads them. It writes nothing.
pub(crate) fn look<D: Disk>(
    alloc: Global,
    form: &[u8],
    disk: &mut D,
) -> Result<Option<Found>, OpenFault>
    ensures found { IsTrue (D.tells disk.old) → Looks form.now (held (D.seen disk.old)) result }
    ensures within { IfOk result (λ found. IfSome found IsFoundWithin) }
    ensures only { IfErr result IsOfLooking }
    ensures looks { OnlyLooks D.tells D.seen D.may_leave D.moment D.left_since disk.old disk.new }
    ensures settled { IsTrue (D.tells disk.old) → IfOk result (λ found. IsSettled (D.seen disk.new) (D.may_leave disk.new)) }
    ensures cause { HasOpenCause (D.faults disk.old) (D.faults disk.new) result }
{
    match scan(alloc, disk)? {
        None => Ok(None),
        Some(scanned) => match found_in(alloc, form, scanned) {
            Ok(found) => Ok(Some(found)),
            Err(fault) => Err(fault),
        },
    }
}

/// A session of the form with these bytes, whose base is a start, with no adoption before it.
pub(crate) fn found_in(alloc: Global, form: &[u8], scanned: Scanned) -> Result<Found, OpenFault>
    requires { IsTrue (are_within scanned.entries) }
    ensures found { (log : Log) → scanned ≡ scanned_of log → IsFound form.now log result }
    ensures within { IfOk result IsFoundWithin }
    ensures only { IfErr result IsOfReading }
{
    if scanned.adoptions > 0 && begins_start(scanned.base.as_slice()) {
        return Err(OpenFault::Damaged(scanned.journal.slot(), ADOPTIONS_OFFSET));
    }
    if let Some(at) = difference(scanned.form.as_slice(), form) {
        return Err(OpenFault::OtherForm(at));
    }
    match answers_at_base(alloc, scanned.base.as_slice())? {
        Some(answers) => Ok(Found { scanned, answers }),
        None => Err(OpenFault::Damaged(scanned.journal.slot(), base_offset(&scanned))),
    }
}

/// Whether a base is a start: no adoption stands before one.
fn begins_start(base: &[u8]) -> bool
    ensures { result ≡ begins_start base.now }
{
    match base.split_first() {
        Some((0, _)) => true,
        _ => false,
    }
}

/// The first place at which the bytes differ: the end of the shorter where one is a front of the other.
fn difference(bytes: &[u8], others: &[u8]) -> Option<u64>
    ensures { result ≡ difference_from 0 bytes.now others.now }
{
    let mut at = 0;
    let mut left = bytes;
    let mut right = others;
    while let (Some((byte, more)), Some((other, rest))) = (
        left.split_first(),
        right.split_first(),
    ) {
        if byte != other {
            return Some(at);
        }
        at += 1;
        left = more;
        right = rest;
    }
    if left.is_empty() && right.is_empty() {
        None
    } else {
        Some(at)
    }
}

/// The answers of the start, where a base is that.
fn answers_at_base(alloc: Global, base: &[u8]) -> Result<Option<Answers>, AllocError>
    ensures { IfOk result (λ answers. answers ≡ answers_at_base base.now) }
{
    match base.split_first() {
        Some((0, bytes)) => answers_in(alloc, bytes),
        _ => Ok(None),
    }
}

/// Where the base begins.
fn base_offset(scanned: &Scanned) -> u64
    requires { IsTrue (are_within scanned.now.entries) }
    ensures { (log : Log) → scanned.now ≡ scanned_of log → result ≡ base_offset log }
{
    let gate = scanned.journal.used().saturating_sub(1);
    let first = gate_before(scanned.entries.as_slice(), gate);
    first.saturating_sub(scanned.base.len() as u64)
}
