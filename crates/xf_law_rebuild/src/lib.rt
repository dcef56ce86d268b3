//! The laws of trees that come and go beside what is built: a model stays built where its part stays. Each function does nothing: its contract is a
//! law.
#![tactic(auto)]

ghost use Rattle.xf_law_rebuild.specs.Elsewhere.{BuiltElsewhere, BuiltWhereStays};
ghost use Rattle.xf_law_rebuild.specs.Trees.{BuiltAttached, BuiltCopied, BuiltDetached, BuiltDropped, BuiltPlanted, BuiltPlantedBare, GrownAgain, GrownBare, HeldWithParent};
ghost use Rattle.xf_law_rebuild.specs.Places.{AloneDropped, RootsAttached, RootsCopied, RootsDetached, RootsDropped, RootsPlanted};

/// A model that is built stays so where its part stays, whatever else of the data is another.
pub fn built_elsewhere()
    ensures part { BuiltElsewhere }
    ensures stays { BuiltWhereStays }
{}

/// So do all models where a tree comes as a detached one, with texts in elements.
pub fn built_with_new_trees()
    ensures planted { BuiltPlanted }
    ensures planted_bare { BuiltPlantedBare }
    ensures copied { BuiltCopied }
{}

/// So are the trees of elements with resolved names, and those that stand.
pub fn grown_trees()
    ensures bare { GrownBare }
    ensures again { GrownAgain }
{}

/// And so do those that do not hold the parent where a tree is cut off or comes below it, and all where detached trees are dropped.
pub fn built_with_other_trees()
    ensures detached { BuiltDetached }
    ensures attached { BuiltAttached }
    ensures dropped { BuiltDropped }
    ensures held { HeldWithParent }
{}

/// The roots keep their places then.
pub fn same_roots()
    ensures planted { RootsPlanted }
    ensures copied { RootsCopied }
    ensures detached { RootsDetached }
    ensures attached { RootsAttached }
    ensures dropped { RootsDropped }
    ensures alone { AloneDropped }
{}
