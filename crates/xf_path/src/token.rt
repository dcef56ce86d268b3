//! The tokens of an expression (XPath 1.0, section 3.7).

/// The kinds of tokens that the grammar tells apart.
#[derive(Clone, Copy, Debug, PartialEq, Eq)]
pub enum Kind {
    Number,
    /// A text in quotes.
    Literal,
    Name,
    /// A name before `(`.
    Called,
    /// A name before `::`.
    AxisName,
    /// `p:*`
    SpaceStar,
    /// `.`
    Dot,
    /// `..`
    DotDot,
    /// `/`
    Slash,
    /// `//`
    SlashSlash,
    /// `@`
    At,
    /// `::`
    ColonColon,
    /// `,`
    Comma,
    /// `|`
    Bar,
    Plus,
    Minus,
    Star,
    Equal,
    /// `!=`
    NotEqual,
    Less,
    /// `<=`
    LessOrEqual,
    Greater,
    /// `>=`
    GreaterOrEqual,
    /// `(`
    Open,
    /// `)`
    Close,
    /// `[`
    OpenSquare,
    /// `]`
    CloseSquare,
    /// The end of the text, which counts as a token.
    End,
    /// What is no token.
    Other,
}
