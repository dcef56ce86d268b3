//! The laws on which a recalculation rests that writes each text once: calculates that are evaluated in an order of their graph, each over
//! the nodes where those before it were written. Each function does nothing: its contract is a law.
ghost use Rattle.xf_law_recalculation.specs.Written.Turn.{TurnWrites, TurnText, TurnTruth, TurnContent, TurnPassed};

/// In such an order each calculate has its settled text in its turn, and the truth of its value that it has in the end; and what is written in the end passes the limits that settled texts do.
pub fn in_turn()
    ensures writes { TurnWrites }
    ensures text { TurnText }
    ensures truth { TurnTruth }
    ensures content { TurnContent }
    ensures passed { TurnPassed }
{}
