//! A store of named bytes.
ghost use Rattle.std.specs.Prelude.{◌≡◌, ℕ, List};
ghost use Rattle.std.specs.declared.option.Option.{Option};
ghost use Rattle.xf_base.specs.Faults.{HasCause};
ghost use Rattle.xf_store.specs.declared.answers.Answer.{Answer};
ghost use Rattle.xf_store.specs.declared.call.Named.{Named};
ghost use Rattle.xf_store.specs.declared.call.StoreCall.{StoreCall};
ghost use Rattle.xf_store.specs.Held.{Puts, Gets, Leaves};
ghost use Rattle.xf_store.specs.Calls.{Lists, GetLists, put_call};
ghost use Rattle.xf_store.specs.Replies.{put_answer};
ghost use Rattle.xf_store.specs.Replay.{Uses, GetUses, fits_put};
ghost use Rattle.xf_store.specs.Causes.{HasGetCause};

use crate::{GetFault, Got};
use xf_io::{Bytes, Failed};

/// A store of bytes under names. What it tells of these, it tells before a call exactly where after it,
/// but that a call which fails may end the list of calls. A store that foretells its answers has one for each
/// call by its place: a call that does not fit it, or that comes behind the last, fails, and the next goes on.
pub trait Store {
    /// What stands under each name, where that is told.
    ghost held: { Self → Option (List Named) };

    /// The calls that were made, in order, where they are told.
    ghost calls: { Self → Option (List StoreCall) };

    /// The answers that the next calls get, where they are known before.
    ghost to_come: { Self → Option (List Answer) };

    /// How often a call has failed.
    ghost faults: { Self → ℕ };

    /// Puts the bytes in the place of those under the name. After `Failed` either stand there.
    fn put(&mut self, name: &str, bytes: &[u8]) -> Result<(), Failed>
        ensures held { Puts (held self.old) (held self.new) name.now bytes.now result }
        ensures calls { Lists (calls self.old) (calls self.new) (put_call name.now bytes.now result) }
        ensures to_come { Uses fits_put (to_come self.old) (to_come self.new) (put_answer result) }
        ensures cause { HasCause (faults self.old) (faults self.new) result };

    /// After `Found` the bytes under the name are in `into`, in the place of what it held, and otherwise
    /// `into` is as before. A get that finds no memory is no call: it is not listed, and uses no answer.
    fn get(&mut self, name: &str, into: &mut Bytes) -> Result<Got, GetFault>
        ensures answer { Gets (held self.old) name.now result into.new }
        ensures into { Leaves result into.old into.new }
        ensures held { held self.new ≡ held self.old }
        ensures calls { GetLists (calls self.old) (calls self.new) name.now result into.new }
        ensures to_come { GetUses (to_come self.old) (to_come self.new) result into.new }
        ensures cause { HasGetCause (faults self.old) (faults self.new) result };
}
