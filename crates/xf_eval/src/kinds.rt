//! The functions in the order of their table (XPath 1.0, section 4; XForms 1.1, section 7), by what their value needs.

ghost use Rattle.std.specs.Prelude.{◌≡◌};
ghost use Rattle.xf_def_xpath.specs.Table.{function_at};

/// What the value of a function needs.
#[derive(Clone, Copy, Debug, PartialEq, Eq)]
pub enum Kind {
    /// Plain values alone: those that give a truth, and the others.
    Asking,
    Plainly,
    /// One plain value, that of the context node where none is written.
    Owning,
    /// A truth.
    Boolean,
    Not,
    Truth(bool),
    /// One of two branches.
    Choosing,
    Branching,
    /// Nodes.
    Counting,
    CountingFilled,
    Adding,
    Averaging,
    Greatest,
    Least,
    /// The name of a node.
    LocalName,
    Name,
    Namespace,
    /// A conversion.
    Number,
    Text,
    /// The context, and what surrounds the expression.
    Current,
    Event,
    Index,
    Instance,
    Last,
    Position,
}

/// By their codes, from `avg` to `true`.
static KINDS: [Kind; 45] = [
    Kind::Averaging,
    Kind::Boolean,
    Kind::Asking,
    Kind::Plainly,
    Kind::Choosing,
    Kind::Plainly,
    Kind::Plainly,
    Kind::Asking,
    Kind::Counting,
    Kind::CountingFilled,
    Kind::Current,
    Kind::Plainly,
    Kind::Plainly,
    Kind::Event,
    Kind::Truth(false),
    Kind::Plainly,
    Kind::Branching,
    Kind::Index,
    Kind::Instance,
    Kind::Last,
    Kind::LocalName,
    Kind::Greatest,
    Kind::Least,
    Kind::Plainly,
    Kind::Name,
    Kind::Namespace,
    Kind::Owning,
    Kind::Not,
    Kind::Number,
    Kind::Position,
    Kind::Plainly,
    Kind::Plainly,
    Kind::Plainly,
    Kind::Plainly,
    Kind::Plainly,
    Kind::Plainly,
    Kind::Asking,
    Kind::Text,
    Kind::Owning,
    Kind::Plainly,
    Kind::Plainly,
    Kind::Plainly,
    Kind::Adding,
    Kind::Plainly,
    Kind::Truth(true),
];

ghost use Rattle.xf_eval.specs.Kinds.{function_in};

/// The function with a code.
pub fn kind_of(code: u16) -> Kind
    ensures { function_in result ≡ function_at code }
{
    match KINDS.get(code as usize) {
        Some(kind) => *kind,
        None => Kind::Plainly,
    }
}
