//! What an element binds (XForms 1.1, sections 3.2.3 and 3.2.4).

ghost use Rattle.std.specs.Prelude.{◌≡◌, slice_get};
ghost use Rattle.xf_def_ui.specs.Interface.{binding_of, sent_of};
ghost use Rattle.xf_form_elements.specs.Bound.{seen_bound};

use xf_def_syntax::{Binding, Element, Expr, Kind, Selection, Tables};

/// What an element binds.
#[derive(Clone, Copy)]
pub enum Bound<'a> {
    Unbound,
    /// The nodes that an expression selects.
    Nodes(&'a Expr),
    /// Those of the bind of this number.
    ByBind(u32),
}

/// What an element binds: a submission, what it selects.
pub fn binding_of<'a>(tables: &'a Tables, element: &'a Element) -> Bound<'a>
    ensures { seen_bound result ≡ binding_of tables.now element.now.kind element.now.binding }
{
    match &element.kind {
        Kind::Submission(submission) => sent_by(tables, *submission),
        _ => match &element.binding {
            Binding::Absent => Bound::Unbound,
            Binding::Nodes(expr) => Bound::Nodes(expr),
            Binding::Bind(bind) => Bound::ByBind(*bind),
        },
    }
}

fn sent_by(tables: &Tables, submission: u32) -> Bound<'_>
    ensures { seen_bound result ≡ sent_of (slice_get tables.now.submissions submission) }
{
    match tables.submissions.as_slice().get(submission as usize) {
        Some(submission) => match &submission.selection {
            Selection::Whole => Bound::Unbound,
            Selection::Ref(expr) => Bound::Nodes(expr),
            Selection::Bind(bind) => Bound::ByBind(*bind),
        },
        None => Bound::Unbound,
    }
}
