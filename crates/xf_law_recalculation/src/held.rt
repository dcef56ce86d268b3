//! Which model holds a node: the part of a model as a forest of its own. Each function does nothing: its contract is a law.
ghost use Rattle.xf_law_recalculation.specs.Held.Held.{HeldInPart, PartsApart};
ghost use Rattle.xf_law_recalculation.specs.Held.OwnForest.{DocumentsOfPart, PartHasTrees, ShapeOfPart};

/// A node is in the part exactly where an instance of the model holds it; so no node is in the parts of two models.
pub fn held_in_part()
    ensures held { HeldInPart }
    ensures apart { PartsApart }
{}

/// The part is a list of trees, and tells the document elements of the model; its shape stays where that of the whole does.
pub fn part_is_forest()
    ensures trees { PartHasTrees }
    ensures documents { DocumentsOfPart }
    ensures shape { ShapeOfPart }
{}
