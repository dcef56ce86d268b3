//! The count of faults.
ghost use Rattle.std.specs.Prelude.{◌≤◌};
ghost use Rattle.xf_base.specs.Faults.{Rose};

use xf_io::Failed;

/// Counts a fault.
pub(crate) fn counted(failed: &mut u64) -> Failed
    ensures later { failed.old ≤ failed.new }
    ensures rose { Rose failed.old failed.new }
{
    let _count = *failed;
    *failed = failed.saturating_add(1);
    Failed
}
