//! Why a text is no expression.

use std::alloc::{AllocError, AllocFailed};

/// What is wrong with an expression.
#[derive(Clone, Copy, Debug, PartialEq, Eq)]
pub enum ExprKind {
    /// What comes next cannot stand there.
    Syntax,
    UnknownFunction,
    /// The function takes neither so many arguments nor, where it takes nodes, one that gives none.
    Arity,
    /// The function's answer hangs on the clock or on chance.
    ClockOrRandom,
    /// The prefix of a name has no namespace.
    Prefix,
    /// The text has more than 4,096 bytes.
    Long,
    /// Parentheses, predicates, calls and signs are nested more than 64 deep.
    Deep,
}

/// Why a text is no expression.
#[derive(Clone, Copy, Debug, PartialEq, Eq)]
pub enum ParseFault {
    /// The number of bytes before the fault, and what it is.
    Expr(u32, ExprKind),
    Memory,
}

impl From<AllocError> for ParseFault {
    ghost use Rattle.std.specs.Prelude.{◌≡◌};
    ghost use Rattle.xf_path.specs.declared.fault.ParseFault.TheVariants.{Memory};

    ghost from_gives = { λ _ e. e ≡ Memory };

    fn from(_: AllocError) -> Self {
        ParseFault::Memory
    }
}

impl<T: Drop> From<AllocFailed<T>> for ParseFault {
    ghost use Rattle.std.specs.Prelude.{◌≡◌};
    ghost use Rattle.xf_path.specs.declared.fault.ParseFault.TheVariants.{Memory};

    ghost from_gives = { λ _ e. e ≡ Memory };

    fn from(_: AllocFailed<T>) -> Self {
        ParseFault::Memory
    }
}
