//! Laws of what is loaded. Each function does nothing: its contract is a law.

ghost use Rattle.xf_form.specs.Computed.{LoadedStatic};
ghost use Rattle.xf_form.specs.Documents.{LoadedDocuments};
ghost use Rattle.xf_form.specs.Ordered.{LoadedOrdered};

/// The computed expressions of a form that is loaded are those that their texts are, and static.
pub fn loaded_static()
    ensures { LoadedStatic }
{}

/// The elements of a form that is loaded are numbered in document order, so that a child has a greater number than its element.
pub fn loaded_ordered()
    ensures { LoadedOrdered }
{}

/// The document element of each instance of a form that is loaded stands at its place in the tree that the form was read from.
pub fn loaded_documents()
    ensures { LoadedDocuments }
{}
