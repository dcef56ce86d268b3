//! The disk of a session that nothing keeps.

use xf_disk::{Disk, Slot};
use xf_io::Failed;

/// A disk that keeps nothing, and does not say that it keeps the model of disks: no call of it fails.
#[derive(Drop)]
pub(crate) struct NoDisk;

impl Disk for NoDisk {
    ghost use Rattle.std.specs.Prelude.{false};
    ghost use Rattle.xf_disk.specs.Image.{nothing};
    ghost use Rattle.xf_disk.specs.Laws.{untold};

    ghost tells = { λ _. false };

    ghost seen = { λ _. nothing };

    ghost may_leave = { λ _ _. ⊥ };

    ghost moment = { λ _. 0 };

    ghost left_since = { λ _ _ _. ⊥ };

    ghost faults = { λ _. 0 };

    ghost counts_now = { λ _ _ _ _ left. left };

    ghost only_now = { λ _ _ left. left };

    ghost seen_may_stand = { λ _ told. untold told };

    fn len(&mut self, _slot: Slot) -> Result<u64, Failed> {
        Ok(0)
    }

    fn read(&mut self, _slot: Slot, _at: u64, _into: &mut [u8]) -> Result<usize, Failed> {
        Ok(0)
    }

    fn write(&mut self, _slot: Slot, _at: u64, _bytes: &[u8]) -> Result<(), Failed> {
        Ok(())
    }

    fn sync(&mut self, _slot: Slot) -> Result<(), Failed> {
        Ok(())
    }
}
