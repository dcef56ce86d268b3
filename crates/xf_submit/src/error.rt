//! Why a submission fails.

ghost use Rattle.std.specs.Prelude.{◌≡◌};
ghost use Rattle.xf_submit.specs.Errors.{type_text};

/// The type of the error with which a submission ends (XForms 1.1, section 11.5).
#[derive(Clone, Copy, Debug, PartialEq, Eq)]
pub enum ErrorType {
    /// Nothing is selected or left.
    NoData,
    /// A node that is left is not valid.
    Validation,
    /// The resource is no name of the store, or the call did not give a response.
    Resource,
    /// The response is no element of the form's names, or no text.
    Parse,
    /// The response may not come where it is to come.
    Target,
}

impl ErrorType {
    /// The type as the event tells it.
    pub fn text(self) -> &'static str
        ensures { result.now ≡ type_text self }
    {
        match self {
            ErrorType::NoData => "no-data",
            ErrorType::Validation => "validation-error",
            ErrorType::Resource => "resource-error",
            ErrorType::Parse => "parse-error",
            ErrorType::Target => "target-error",
        }
    }
}
