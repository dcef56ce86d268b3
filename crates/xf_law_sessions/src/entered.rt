//! The laws of what rebuilds gave, through all that the machine does: what a model keeps of its last rebuild is what a rebuild would give now, unless
//! one is due. Each function does nothing: its contract is a law.
ghost use Rattle.xf_law_sessions.specs.Entered.Recalculations.{EnteredRecalculated, ShapeRecalculated};

/// A recalculation leaves the shape of the data, and with it what the last rebuild of each model gave.
pub fn entered_through_recalculations()
    ensures shape { ShapeRecalculated }
    ensures entered { EnteredRecalculated }
{}
