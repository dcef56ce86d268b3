//! The laws that the roots of the instances stand before all detached trees, in the order in which they came. Each function does nothing: its
//! contract is a law.
ghost use Rattle.xf_law_forests.specs.Root.Roots.{EmptyHasRoots, StayHasRoots, RootAtPlace, RootsStayText, RootsStayDetached, RootsStayPlaced};
ghost use Rattle.xf_law_forests.specs.Root.Roots.{RootsStayGrown, RootsStayDropped, RootAdded, RootsMade, RootsRolledBack};

/// It is so of the empty forest, and stays so where a change leaves the roots; they are the roots of the instances, by their places.
pub fn has_roots()
    ensures empty { EmptyHasRoots }
    ensures stay { StayHasRoots }
    ensures at_place { RootAtPlace }
{}

/// Each change but a new instance leaves the roots: a text, a tree that is detached, one that is placed, new trees, detached ones that are dropped.
pub fn roots_stay()
    ensures text { RootsStayText }
    ensures detached { RootsStayDetached }
    ensures placed { RootsStayPlaced }
    ensures grown { RootsStayGrown }
    ensures dropped { RootsStayDropped }
{}

/// The root of a new instance comes behind the others.
pub fn root_added()
    ensures { RootAdded }
{}

/// So no root stands behind the instances, whatever was made since a forest was kept, and the roots are those that it had.
pub fn roots_made()
    ensures made { RootsMade }
    ensures rolled_back { RootsRolledBack }
{}
