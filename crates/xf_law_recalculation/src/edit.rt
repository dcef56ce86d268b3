//! Laws of changes and their marks: what is told of the data of now and of the last recalculation stays so where a text is set, or a tree comes or
//! goes, and its mark with it. Each function does nothing: its contract is a law.
ghost use Rattle.xf_law_recalculation.specs.Edit.Edits.{SameAtFirst, SameRenumbered, TextMarked, TextSet, ListMarked, TreeCut, TreePlanted};
ghost use Rattle.xf_law_recalculation.specs.Edit.InstanceEdits.{TextSetInInstances, TextAgain, StandsThere, TreeDetached, TreeAttached};
ghost use Rattle.xf_law_recalculation.specs.Edit.InstanceEdits.{TextElsewhere, TreeBehind, DetachedElsewhere, AttachedElsewhere};

/// What is told of the data of now and of then is so at first, and stays so where both are renumbered, and where a text is set and its node is marked.
pub fn texts_marked()
    ensures first { SameAtFirst }
    ensures renumbered { SameRenumbered }
    ensures marked { TextMarked }
    ensures set { TextSet }
{}

/// It stays so where nodes come into a list or go out of it and the list is marked: so where a tree is cut off or planted.
pub fn lists_marked()
    ensures marked { ListMarked }
    ensures cut { TreeCut }
    ensures planted { TreePlanted }
{}

/// So of the instances, where one of their texts is set, or a tree is detached from them or attached to them.
pub fn instances_marked()
    ensures text { TextSetInInstances }
    ensures again { TextAgain }
    ensures stands { StandsThere }
    ensures detached { TreeDetached }
    ensures attached { TreeAttached }
{}

/// A change of detached trees leaves the instances.
pub fn elsewhere()
    ensures text { TextElsewhere }
    ensures behind { TreeBehind }
    ensures detached { DetachedElsewhere }
    ensures attached { AttachedElsewhere }
{}
