//! What goes out.

ghost use Rattle.std.specs.Prelude.{◌≡◌, ◌≤◌, OnOk, OnErr};
ghost use Rattle.std.specs.Io.KnownBytes.{Appends};
ghost use Rattle.xf_base.specs.Faults.{HasCause};
ghost use Rattle.xf_io.specs.Front.{AppendsFront};
ghost use Rattle.xf_cli_stream.specs.Out.{IsOut};

use xf_io::{Failed, Sink, write_all};

/// Writes a reply whole, and flushes it. After `Failed` a front of it is out.
pub fn write_reply<O: Sink>(out: &mut O, reply: &[u8]) -> Result<(), Failed>
    ensures ok { OnOk result (Appends (O.taken out.old) (O.taken out.new) reply.now) }
    ensures err { OnErr result (AppendsFront (O.taken out.old) (O.taken out.new) reply.now) }
    ensures flushed { OnOk result (IsOut (O.taken out.old, O.flushed out.old) (O.taken out.new, O.flushed out.new)) }
    ensures cause { HasCause (O.faults out.old) (O.faults out.new) result }
    ensures steady { OnOk result (O.faults out.new ≡ O.faults out.old) }
{
    if reply.is_empty() {
        return Ok(());
    }
    write_all(out, reply)?;
    out.flush()
}
