//! The simple types.

/// The built-in types of XML Schema and of XForms.
#[derive(Clone, Copy, Debug, PartialEq, Eq)]
pub enum BuiltIn {
    NCName,
    Name,
    QName,
    AnyUri,
    Boolean,
    Byte,
    Date,
    DateTime,
    DayTimeDuration,
    Decimal,
    Duration,
    GDay,
    GMonth,
    GMonthDay,
    GYear,
    GYearMonth,
    HexBinary,
    Int,
    Integer,
    ListItem,
    ListItems,
    Long,
    NegativeInteger,
    NonNegativeInteger,
    NonPositiveInteger,
    NormalizedString,
    PositiveInteger,
    Short,
    Text,
    Time,
    Token,
    UnsignedByte,
    UnsignedInt,
    UnsignedLong,
    UnsignedShort,
    YearMonthDuration,
}

/// A simple type.
#[derive(Clone, Copy, Debug, PartialEq, Eq)]
pub struct SimpleType {
    pub kind: BuiltIn,
    /// Whether the empty text meets it too, as it does the types of XForms.
    pub may_be_empty: bool,
}
