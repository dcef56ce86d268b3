//! The laws that each change of a forest carries on all that is told of the instances of now beside those of the last recalculation: nodes,
//! document elements, and numbers that are new. Each function does nothing: its contract is a law.
ghost use Rattle.xf_law_recalculation.specs.Change.Documents.{DocumentStays, RootStands, RootStaysText, RootStaysDetached, RootStaysPlaced};
ghost use Rattle.xf_law_recalculation.specs.Change.Documents.{RootKeepsPlaceText, RootKeepsPlaceDetached, RootKeepsPlacePlaced};
ghost use Rattle.xf_law_recalculation.specs.Change.Steps.{FirstCarried, WholeCarried, TextCarried, AgainCarried, StandsUnchanged, SettledCarried, DetachedCarried};
ghost use Rattle.xf_law_recalculation.specs.Change.Steps.{AttachedCarried, AttachedAgainCarried, MovedCarried, ReplacedCarried};
ghost use Rattle.xf_law_recalculation.specs.Change.Elsewhere.{ElsewhereCarried, TextElsewhereCarried, BehindCarried, DetachedElsewhereCarried, AttachedElsewhereCarried};
ghost use Rattle.xf_law_recalculation.specs.Change.Elsewhere.{ReservedCarried, GivenUpCarried, DroppedCarried, RolledBackCarried};
ghost use Rattle.xf_law_recalculation.specs.Change.Elsewhere.{UnderTakes, ReservedTakes, UnusedFree};

/// All is so right after a recalculation; and what is told of the nodes is told of the whole, whatever was done on the way.
pub fn whole()
    ensures first { FirstCarried }
    ensures carried { WholeCarried }
{}

/// A text that is set carries it on: with its mark, to what stood there without one, or as it is settled.
pub fn texts_carry()
    ensures set { TextCarried }
    ensures again { AgainCarried }
    ensures settled { SettledCarried }
{}

/// So does a tree that is detached or attached, be it one that stood before at another place, and a document element in place of another.
pub fn trees_carry()
    ensures detached { DetachedCarried }
    ensures attached { AttachedCarried }
    ensures attached_again { AttachedAgainCarried }
    ensures moved { MovedCarried }
    ensures replaced { ReplacedCarried }
{}

/// So does each change of detached trees.
pub fn elsewhere_carries()
    ensures elsewhere { ElsewhereCarried }
    ensures text { TextElsewhereCarried }
    ensures behind { BehindCarried }
    ensures detached { DetachedElsewhereCarried }
    ensures attached { AttachedElsewhereCarried }
    ensures dropped { DroppedCarried }
{}

/// So do numbers that are reserved and given up, and rolling back gives what was so of the forest that was kept.
pub fn numbers_carry()
    ensures reserved { ReservedCarried }
    ensures given_up { GivenUpCarried }
    ensures rolled_back { RolledBackCarried }
{}

/// A change that does not mark the list of a root leaves the document element under it.
pub fn documents_stay()
    ensures { DocumentStays }
{}

/// A text that is set to what stood there leaves an attribute, and an element without texts, as they are.
pub fn text_unchanged()
    ensures { StandsUnchanged }
{}

/// What a call tells of numbers says which are taken after it.
pub fn taken_numbers()
    ensures under { UnderTakes }
    ensures reserved { ReservedTakes }
    ensures unused { UnusedFree }
{}

/// Each change leaves the roots, and a root stands in an instance where none stands behind them.
pub fn roots_stay()
    ensures stands { RootStands }
    ensures text { RootStaysText }
    ensures detached { RootStaysDetached }
    ensures placed { RootStaysPlaced }
{}

/// Each change leaves the roots their places among each other.
pub fn roots_keep_places()
    ensures text { RootKeepsPlaceText }
    ensures detached { RootKeepsPlaceDetached }
    ensures placed { RootKeepsPlacePlaced }
{}
