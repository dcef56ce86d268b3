//! Where bytes go.

ghost use Rattle.std.specs.Prelude.{◌≡◌, ◌<◌, List, ℕ, length, IfOk, OnOk, OnErr};
ghost use Rattle.std.specs.declared.option.Option.{Option};
ghost use Rattle.std.specs.Io.{WritesAtMost};
ghost use Rattle.std.specs.Io.KnownBytes.{Appends, Keeps, WriteAppends};
ghost use Rattle.xf_base.specs.Faults.{HasCause};
ghost use Rattle.xf_io.specs.Front.{AppendsFront};
ghost use Rattle.xf_io.specs.Flushed.{FlushesOn, IsFlushed};

use crate::Failed;

pub trait Sink {
    /// The bytes that were taken, where they are known.
    ghost taken: { Self → Option (List ℕ) };

    /// How many of them are flushed: a front of the bytes, which does not shrink. It is known exactly where they are.
    ghost flushed: { Self → Option ℕ };

    /// How often a write or a flush has failed.
    ghost faults: { Self → ℕ };

    /// Takes a front of the bytes, and some of it where there are some. The count rises where this fails, and else stands.
    fn write(&mut self, bytes: &[u8]) -> Result<usize, Failed>
        ensures bound { WritesAtMost result bytes.now }
        ensures bytes { WriteAppends (taken self.old) (taken self.new) result bytes.now }
        ensures flushed { FlushesOn (flushed self.old) (flushed self.new) }
        ensures some { 0 < length bytes.now → IfOk result (λ count. 0 < count) }
        ensures cause { HasCause (faults self.old) (faults self.new) result }
        ensures steady { OnOk result (faults self.new ≡ faults self.old) };

    /// Afterwards all that was taken is flushed, where it did not fail. The count rises where this fails, and else stands.
    fn flush(&mut self) -> Result<(), Failed>
        ensures bytes { Keeps (taken self.old) (taken self.new) }
        ensures all { OnOk result (IsFlushed (taken self.new) (flushed self.new)) }
        ensures flushed { FlushesOn (flushed self.old) (flushed self.new) }
        ensures cause { HasCause (faults self.old) (faults self.new) result }
        ensures steady { OnOk result (faults self.new ≡ faults self.old) };
}

/// Writes all the bytes. After a fault a front of them is out.
pub fn write_all<O: Sink>(out: &mut O, bytes: &[u8]) -> Result<(), Failed>
    ensures ok { OnOk result (Appends (O.taken out.old) (O.taken out.new) bytes.now) }
    ensures err { OnErr result (AppendsFront (O.taken out.old) (O.taken out.new) bytes.now) }
    ensures flushed { FlushesOn (O.flushed out.old) (O.flushed out.new) }
    ensures cause { HasCause (O.faults out.old) (O.faults out.new) result }
    ensures steady { OnOk result (O.faults out.new ≡ O.faults out.old) }
{
    let mut done = 0;
    while done < bytes.len() {
        let count = out.write(&bytes[done..])?;
        done += count;
    }
    Ok(())
}
