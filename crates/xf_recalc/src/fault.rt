//! Why a model is not recalculated.

use std::alloc::AllocError;
use xf_def_xpath::EvalFault;

/// Why a model is not recalculated: a limit that its settled data pass.
#[derive(Clone, Copy, Debug, PartialEq, Eq)]
pub enum SettleFault {
    /// A string that is made on the way has more than 4 MiB.
    Long,
    /// The text of a calculate has more than 65,536 bytes.
    Text,
    /// There are more than 65,536 elements, attributes and texts.
    Nodes,
    /// All texts and names have more than 4 MiB.
    AllTexts,
    Memory,
}

impl From<AllocError> for SettleFault {
    ghost use Rattle.std.specs.Prelude.{◌≡◌};
    ghost use Rattle.xf_recalc.specs.declared.fault.SettleFault.TheVariants.{Memory};

    ghost from_gives = { λ _ e. e ≡ Memory };

    fn from(_: AllocError) -> Self {
        SettleFault::Memory
    }
}

impl From<EvalFault> for SettleFault {
    ghost use Rattle.std.specs.Prelude.{◌≡◌};
    ghost use Rattle.xf_recalc.specs.Settles.{fault_of};

    ghost from_gives = { λ fault e. e ≡ fault_of fault };

    fn from(fault: EvalFault) -> Self {
        match fault {
            EvalFault::Long => SettleFault::Long,
            EvalFault::Memory => SettleFault::Memory,
        }
    }
}
