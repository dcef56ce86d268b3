//! The laws of parts: what stands of a model is told by the trees of its own instances, whatever trees stand elsewhere. Each function does nothing:
//! its contract is a law.
ghost use Rattle.xf_law_recalculation.specs.Part.Whole.{AppliedOfPart, AppliedStandsInPart, PartHasInstances};
ghost use Rattle.xf_law_recalculation.specs.Part.Whole.{AsksOfPart, ComputedOfPart, CountOfPart, GraphOfPart, LongOfPart, LongTextOfPart, OrderOfPart};
ghost use Rattle.xf_law_recalculation.specs.Part.Whole.{PertinentOfPart, SettledElsewhere, SettledOfPart, SettledValuesOfPart, ValuesOfPart};

/// The part is a forest of its own, in which the document elements of the model stand.
pub fn part_has_instances()
    ensures { PartHasInstances }
{}

/// What the binds of a model apply over the whole they apply over the part, at nodes of it that are no texts.
pub fn applied_of_part()
    ensures applied { AppliedOfPart }
    ensures stands { AppliedStandsInPart }
{}

/// What the entries ask over the whole they ask over the part.
pub fn asks_of_part()
    ensures asks { AsksOfPart }
    ensures count { CountOfPart }
{}

/// So the order of the calculates is that over the part.
pub fn order_of_part()
    ensures graph { GraphOfPart }
    ensures acyclic { OrderOfPart }
{}

/// So are the settled contents, which stand outside the part of every other model, the values, and what a recalculation evaluates.
pub fn settled_of_part()
    ensures contents { SettledOfPart }
    ensures elsewhere { SettledElsewhere }
    ensures computed { ComputedOfPart }
    ensures values { ValuesOfPart }
    ensures settled_values { SettledValuesOfPart }
    ensures pertinent { PertinentOfPart }
{}

/// So are the strings and texts that are too long over the settled data.
pub fn long_of_part()
    ensures entries { LongOfPart }
    ensures text { LongTextOfPart }
{}
