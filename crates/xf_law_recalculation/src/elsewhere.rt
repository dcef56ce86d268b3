//! The laws of parts: what stands of a model is told by the trees of its own instances, and changes elsewhere leave these. Each function does
//! nothing: its contract is a law.
ghost use Rattle.xf_law_recalculation.specs.Elsewhere.Stays.{PartStaysNumbered, PartStaysText, PartStaysWritten, PartStaysReserved};
ghost use Rattle.xf_law_recalculation.specs.Elsewhere.Stays.{PartStaysGrown, PartStaysCopied, PartStaysPlanted, PartStaysPlantedBare, PartStaysDetached, PartStaysPlaced, PartStaysAttached};
ghost use Rattle.xf_law_recalculation.specs.Elsewhere.Stays.{PartStaysDropped, PartStaysRooted, PartRolledBack};

/// A text that is set elsewhere leaves the part of a model, and so do contents that are written elsewhere.
pub fn part_stays_with_texts()
    ensures numbered { PartStaysNumbered }
    ensures text { PartStaysText }
    ensures written { PartStaysWritten }
    ensures reserved { PartStaysReserved }
{}

/// So does a tree that comes as a detached one, and one that is detached or attached elsewhere.
pub fn part_stays_with_trees()
    ensures grown { PartStaysGrown }
    ensures copied { PartStaysCopied }
    ensures planted { PartStaysPlanted }
    ensures planted_bare { PartStaysPlantedBare }
    ensures detached { PartStaysDetached }
    ensures placed { PartStaysPlaced }
    ensures attached { PartStaysAttached }
{}

/// So does the dropping of detached trees, and the root of a new instance of another model.
pub fn part_stays_with_instances()
    ensures dropped { PartStaysDropped }
    ensures rooted { PartStaysRooted }
{}

/// Where all is undone that was made of a forest, the part is that of the forest that was kept.
pub fn part_rolled_back()
    ensures { PartRolledBack }
{}
