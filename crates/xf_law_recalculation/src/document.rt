//! The laws of the document elements of the instances, which the roots tell by their places: they follow each change. Each function does nothing:
//! its contract is a law.
ghost use Rattle.xf_law_recalculation.specs.Document.Documents.{DocumentsFollow};
ghost use Rattle.xf_law_recalculation.specs.Document.Changes.{FirstFollows, TextFollows, DetachedFollows, PlacedFollows, ReplacedFollows, ElsewhereFollows};
ghost use Rattle.xf_law_recalculation.specs.Document.Binds.{RootsKept};

/// After a change each document element is that of before, or stands in a list that is marked.
pub fn documents_follow()
    ensures { DocumentsFollow }
{}

/// So it is after each change, and right after a recalculation.
pub fn each_follows()
    ensures first { FirstFollows }
    ensures text { TextFollows }
    ensures detached { DetachedFollows }
    ensures placed { PlacedFollows }
    ensures replaced { ReplacedFollows }
    ensures elsewhere { ElsewhereFollows }
{}

/// Where no list of a root is marked, none is in which a document element stands.
pub fn roots_kept()
    ensures { RootsKept }
{}
