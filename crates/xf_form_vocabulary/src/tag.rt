//! What an element is by its name.

use xf_schema::FacetKind;

/// What an element is by its name (XForms 1.1; XML Schema part 2, section 4).
#[derive(Clone, Copy, Debug, PartialEq, Eq)]
pub enum Tag {
    /// Outside the namespace of XForms.
    Host,
    /// In the namespace of XForms, by a name that none of its elements has; in a schema, any that is none of those below.
    Unknown,
    Action,
    Alert,
    Bind,
    Case,
    Choices,
    Delete,
    Dispatch,
    Extension,
    Group,
    Help,
    Hint,
    Input,
    Insert,
    Instance,
    Item,
    Itemset,
    Label,
    Load,
    Message,
    Model,
    Output,
    Rebuild,
    Recalculate,
    Refresh,
    Repeat,
    Reset,
    Revalidate,
    Secret,
    Select,
    SelectOne,
    Send,
    SetFocus,
    SetIndex,
    SetValue,
    Submission,
    Submit,
    Switch,
    Textarea,
    Toggle,
    Trigger,
    Value,
    /// A schema, of XML Schema.
    Schema,
    /// The elements that stand in a schema.
    SimpleType,
    Restriction,
    Facet(FacetKind),
    Annotation,
}
