//! The law of binds that need not be applied again, for every static node set: also where it tells texts apart. Each function does nothing: its
//! contract is a law.
ghost use Rattle.xf_law_recalculation.specs.Bind.WithTexts.{AnyBindStays, AnyBindOfInstances, AnyBindStaysInInstances, WithTextsOfNodes};
ghost use Rattle.xf_law_recalculation.specs.Bind.Since.{WithTextsCarried, AnyBindSince, AnyBindHeld, DocumentKept, AnyBindHeldSame};
ghost use Rattle.xf_law_recalculation.specs.Bind.AllBinds.{AppliedOfInstances, AppliedStands};

/// A bind sets the same on the same nodes where no list is marked that its node set, or one around it, looks at; and over the instances alone.
pub fn any_bind_stays()
    ensures stays { AnyBindStays }
    ensures instances { AnyBindOfInstances }
    ensures in_instances { AnyBindStaysInInstances }
{}

/// What is told of the nodes of now and of before, with their marks, is enough for it.
pub fn with_texts()
    ensures { WithTextsOfNodes }
{}

/// What the changes since a recalculation carry on of the instances is enough for it.
pub fn any_bind_since()
    ensures with_texts { WithTextsCarried }
    ensures since { AnyBindSince }
    ensures held { AnyBindHeld }
    ensures documents { DocumentKept }
    ensures same { AnyBindHeldSame }
{}

/// What all binds of a form apply over a forest they apply over its instances alone; the nodes of entries stand in these, and are no texts.
pub fn all_binds()
    ensures instances { AppliedOfInstances }
    ensures stand { AppliedStands }
{}
