//! The beginning of an event, and its end: what stands is kept, or what was kept stands again.

ghost use Rattle.std.specs.Prelude.{◌≡◌, ◌+◌, length, OnOk, IfErr};
ghost use Rattle.xf_def_machine.specs.Step.{fresh};
ghost use Rattle.xf_def_form.specs.Formed.{profile};
ghost use Rattle.xf_engine_state.specs.Does.{IsKept};
ghost use Rattle.xf_engine_state.specs.Standing.{state_of};

use crate::fault::WorkFault;
use crate::flags::Flags;
use crate::work::Work;
use xf_eval_context::Index;

impl Work {
    /// An event begins, with a whole budget.
    pub fn begin_event(&mut self)
        ensures now { state_of self.new.now ≡ fresh profile (state_of self.old.now) }
        ensures kept { self.new.kept ≡ self.old.kept }
        ensures built { self.new.built ≡ self.old.built }
    {
        self.tally = self.tally.begun();
    }

    /// Counts the event that is handled as accepted. No run counts beyond 64 bits: that is told as want of memory.
    pub fn count_event(&mut self) -> Result<(), WorkFault>
        ensures now { OnOk result (self.new.now ≡ record self.old.now { accepted = self.old.now.accepted + 1 }) }
        ensures kept { self.new.kept ≡ self.old.kept }
        ensures built { self.new.built ≡ self.old.built }
        ensures fault { IfErr result (λ fault. fault ≡ WorkFault.Memory) }
    {
        match self.tally.counted() {
            Some(tally) => {
                self.tally = tally;
                Ok(())
            }
            None => Err(WorkFault::Memory),
        }
    }

    /// Gives up what stands and what was kept.
    pub fn discard(self) {
        drop(self)
    }

    /// Keeps what stands: detached trees are dropped, and the next event has a whole budget. Takes no memory.
    pub fn commit(&mut self)
        ensures { IsKept self.old self.new }
    {
        let forest = self.draft.forest();
        forest.are_trees();
        let _ = forest.next_number();
        self.draft.are_ahead();
        self.draft.commit();
        self.draft.forest().are_trees();
        self.table.commit();
        self.shown.commit();
        copy(self.flags.as_slice(), self.old_flags.as_mut_slice());
        copy_indexes(self.indexes.as_slice(), self.old_indexes.as_mut_slice());
        copy_cases(self.cases.as_slice(), self.old_cases.as_mut_slice());
        self.tally = self.tally.begun();
        self.old_tally = self.tally;
        self.old_built = self.built;
        self.knowledge.is_alone = true;
        self.old_knowledge = self.knowledge;
    }

    /// What was kept stands again. Takes no memory.
    pub fn roll_back(&mut self)
        ensures now { self.new.now ≡ self.old.kept.standing }
        ensures kept { self.new.kept ≡ self.old.kept }
        ensures built { self.new.built ≡ self.old.kept.built }
    {
        self.draft.roll_back();
        self.table.roll_back();
        self.shown.roll_back();
        copy(self.old_flags.as_slice(), self.flags.as_mut_slice());
        copy_indexes(self.old_indexes.as_slice(), self.indexes.as_mut_slice());
        copy_cases(self.old_cases.as_slice(), self.cases.as_mut_slice());
        self.tally = self.old_tally;
        self.built = self.old_built;
        self.knowledge = self.old_knowledge;
    }
}

fn copy(from: &[Flags], to: &mut [Flags])
    requires { length from.now ≡ length to.old }
    ensures { to.new ≡ from.now }
{
    to.copy_from_slice(from);
}

fn copy_indexes(from: &[Index], to: &mut [Index])
    requires { length from.now ≡ length to.old }
    ensures { to.new ≡ from.now }
{
    to.copy_from_slice(from);
}

fn copy_cases(from: &[usize], to: &mut [usize])
    requires { length from.now ≡ length to.old }
    ensures { to.new ≡ from.now }
{
    to.copy_from_slice(from);
}
