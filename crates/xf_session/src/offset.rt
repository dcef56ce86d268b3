//! Where entries and a base stand in their slot.
ghost use Rattle.std.specs.Prelude.{◌≡◌, ◌≤◌, ◌+◌, ◌-◌, ◌^◌, length, sum_by, IsTrue};
ghost use Rattle.xf_journal.specs.declared.entry.Accepted.{Accepted};
ghost use Rattle.xf_journal.specs.Entry.{answer_bytes, written_bytes, is_within, are_within};
ghost use Rattle.xf_store.specs.Replies.{is_short};

use xf_journal::Accepted;
use xf_store::Answer;

/// The gate before these entries, which end at a gate.
pub(crate) fn gate_before(entries: &[Accepted], gate: u64) -> u64
    requires { IsTrue (are_within entries.now) }
    ensures { result ≡ gate - sum_by (λ (entry : Accepted). length (written_bytes entry.line entry.answers)) entries.now }
{
    let mut at = gate;
    for entry in entries {
        at = at.saturating_sub(written_length(entry));
    }
    at
}

/// The bytes of an entry with its length before it, and a gate.
fn written_length(entry: &Accepted) -> u64
    requires { IsTrue (is_within entry.now.line entry.now.answers) }
    ensures { result ≡ length (written_bytes entry.now.line entry.now.answers) }
{
    // (the lengths of the entry and of its line, the number of the answers, the gate)
    let mut length = entry.line.len() as u64 + 10;
    for answer in entry.answers.as_slice() {
        length += answer_length(answer);
    }
    length
}

fn answer_length(answer: &Answer) -> u64
    requires { IsTrue (is_short answer.now) }
    ensures value { result ≡ length (answer_bytes answer.now) }
    ensures small { result ≤ 2 ^ 20 + 5 }
{
    match answer {
        Answer::Found(bytes) => bytes.len() as u64 + 5,
        _ => 1,
    }
}
