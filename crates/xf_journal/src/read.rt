//! What the bytes of an open slot hold.
ghost use Rattle.std.specs.Prelude.{◌≡◌, ◌≤◌, ◌<◌, ◌^◌, if◌then◌else◌, length, drop, IfOk, IsTrue};
ghost use Rattle.xf_base.specs.Gives.{Gives};
ghost use Rattle.xf_journal.specs.Held.{entries_from, log_in, log_of};
ghost use Rattle.xf_journal.specs.Layout.{entries_at};
ghost use Rattle.xf_journal.specs.Entry.{are_within};
ghost use Rattle.xf_journal.specs.Scanned.{scanned_of, scanned_result, tail_of};

use crate::entry::entry_in;
use crate::layout::{Format, adoptions_in, base_at, entries_at, epoch_in, first_fault, format_in};
use crate::number::from_four;
use crate::{Accepted, EntryList, Image, Journal, JournalFault, Scanned};
use std::alloc::{AllocError, Global};
use xf_disk::Slot;
use xf_io::Bytes;

/// Entries up to the gate that ends them.
#[derive(Drop)]
struct Entries {
    items: Vec<Accepted>,
    gate: usize,
    is_cut: bool,
}

/// What an open slot holds, or the first of its fields that fails.
pub(crate) fn read_slot(alloc: Global, slot: Slot, bytes: &[u8]) -> Result<Scanned, JournalFault>
    requires { 22 ≤ length bytes.now }
    ensures read { Gives JournalFault.Memory (λ scanned. scanned) result (scanned_result (log_of slot bytes.now)) }
    ensures within { IfOk result (λ scanned. IsTrue (are_within scanned.entries)) }
{
    let Some(format) = format_in(bytes) else {
        return Err(JournalFault::Damaged(slot, 1));
    };
    if let Some(at) = first_fault(format, bytes) {
        return Err(JournalFault::Damaged(slot, at));
    }
    Ok(read_log(alloc, slot, format, bytes)?)
}

/// What a slot holds whose fields stand.
#[tactic(auto, using(crate::proofs::WithinLemmas::tail_within))]
fn read_log(alloc: Global, slot: Slot, format: Format, bytes: &[u8]) -> Result<Scanned, AllocError>
    requires open { 22 ≤ length bytes.now }
    requires fields { entries_at format bytes.now ≤ length bytes.now }
    ensures read { IfOk result (λ scanned. scanned ≡ scanned_of (log_in format slot bytes.now)) }
    ensures within { IfOk result (λ scanned. IsTrue (are_within scanned.entries)) }
{
    let [form_at, base_at] = [format.header_length(), base_at(format, bytes)];
    let entries_at = entries_at(format, bytes);
    let form = Vec::from_slice(alloc, &bytes[form_at..base_at])?;
    let base = Vec::from_slice(alloc, &bytes[base_at..entries_at])?;
    let image = Image {
        adoptions: adoptions_in(format, bytes),
        form: Bytes::from_vec(form),
        base: Bytes::from_vec(base),
    };
    let entries = read_entries(alloc, bytes, entries_at)?;
    Ok(entries.behind(slot, epoch_in(bytes), image))
}

impl Entries {
    ghost use Rattle.xf_journal.specs.Scanned.{scanned_with};

    /// These entries behind what is written before them.
    fn behind(self, slot: Slot, epoch: u64, image: Image) -> Scanned
        requires { self.gate < 2 ^ 63 }
        ensures { result ≡ scanned_with slot epoch image self }
    {
        let Entries {
            items,
            gate,
            is_cut,
        } = self;
        Scanned {
            journal: Journal {
                slot,
                epoch,
                count: items.len() as u64,
                used: gate as u64 + 1,
            },
            adoptions: image.adoptions,
            form: image.form,
            base: image.base,
            entries: EntryList::from_vec(items),
            cut: cut_at(gate, is_cut),
        }
    }
}

/// The gate where entries are cut.
fn cut_at(gate: usize, is_cut: bool) -> Option<u64>
    ensures { result ≡ (if is_cut then Some gate else None) }
{
    if is_cut { Some(gate as u64) } else { None }
}

/// The entries from this offset on.
fn read_entries(alloc: Global, bytes: &[u8], at: usize) -> Result<Entries, AllocError>
    requires { at ≤ length bytes.now }
    ensures tail { IfOk result (λ entries. tail_of entries ≡ entries_from 0 at (drop at bytes.now)) }
    ensures within { IfOk result (λ entries. (entries.gate ≤ length bytes.now)) }
{
    let mut items = Vec::new(alloc);
    let mut gate = at;
    while gate < bytes.len() && bytes[gate] == 1 {
        let Some(entry) = entry_in(alloc, &bytes[gate + 1..])? else {
            return Ok(Entries {
                items,
                gate,
                is_cut: true,
            });
        };
        items.push(entry)?;
        gate += 5 + from_four(&bytes[gate + 1..]) as usize;
    }
    Ok(Entries {
        items,
        gate,
        is_cut: gate >= bytes.len(),
    })
}
