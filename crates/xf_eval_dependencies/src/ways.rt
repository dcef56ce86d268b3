//! Functions by what their calls ask of their arguments (XForms 1.1, appendix C).

ghost use Rattle.std.specs.Prelude.{◌≡◌};
ghost use Rattle.xf_eval_dependencies.specs.Ways.{way_in};

use xf_eval::Kind;

/// What is made of what one argument asks.
#[derive(Clone, Copy, Debug)]
pub enum Part {
    /// A truth, and a plain value: no string value is asked.
    Truth,
    Plain,
    /// The string value of the first node.
    First,
    /// The string value of each node.
    Each,
}

/// What a call asks.
#[derive(Clone, Copy, Debug)]
pub enum Way {
    /// Nothing, for a plain value and for a truth.
    Nothing,
    Truth,
    /// The context node of the whole expression.
    Current,
    /// All arguments, each as a text or number is made of it, for a plain value and for a truth.
    All,
    Asking,
    /// All arguments, and the list in which a document element stands.
    Instance,
    /// A condition and both branches, for one of them and for a text of one.
    Choosing,
    Branching,
    /// The first argument, or the context node where none is written.
    Own(Part),
    /// The first argument.
    One(Part),
}

/// How a function of this kind asks. A fixed expression asks no event.
pub(crate) fn way_of(kind: Kind) -> Way
    ensures { result ≡ way_in kind }
{
    match kind {
        Kind::Truth(_) => Way::Truth,
        Kind::Event | Kind::Last | Kind::Position => Way::Nothing,
        Kind::Current => Way::Current,
        Kind::Plainly | Kind::Index => Way::All,
        Kind::Asking => Way::Asking,
        Kind::Instance => Way::Instance,
        Kind::Choosing => Way::Choosing,
        Kind::Branching => Way::Branching,
        Kind::Boolean | Kind::Not => Way::One(Part::Truth),
        Kind::Counting => Way::One(Part::Plain),
        Kind::CountingFilled => Way::One(Part::Each),
        Kind::Adding => Way::One(Part::Each),
        Kind::Averaging => Way::One(Part::Each),
        Kind::Greatest | Kind::Least => Way::One(Part::Each),
        Kind::LocalName | Kind::Name | Kind::Namespace => Way::Own(Part::Plain),
        Kind::Owning | Kind::Number | Kind::Text => Way::Own(Part::First),
    }
}
