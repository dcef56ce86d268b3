//! Laws of changes of a forest: what they leave is a list of trees again. Each function does nothing: its contract is a law.
ghost use Rattle.xf_law_invariants.specs.Tree.Kinds.{KindLaws};
ghost use Rattle.xf_law_invariants.specs.Tree.Sizes.{SizeLaws};
ghost use Rattle.xf_law_invariants.specs.Tree.Tops.{TopLaws};
ghost use Rattle.xf_law_invariants.specs.Tree.Trees.{PlaceLaws, TextLaws, TreeLaws};

/// Trees that go and trees that come leave a forest of trees.
pub fn trees_go_and_come()
    ensures { TreeLaws }
{}

/// So does a tree that comes below a node that may have it.
pub fn trees_come_below()
    ensures { PlaceLaws }
{}

/// So does a text that is set or settled at a node that may have one.
pub fn texts_are_set()
    ensures { TextLaws }
{}

/// What stands stays of its kind where trees go and come.
pub fn kinds_stay()
    ensures { KindLaws }
{}

/// Detached trees stay such but for the one that is taken.
pub fn tops_stay()
    ensures { TopLaws }
{}

/// The limits of nodes and of all bytes hold after each change.
pub fn sizes_stay()
    ensures { SizeLaws }
{}
