//! Where the tokens of an expression end (XPath 1.0, section 3.7).

ghost use Rattle.std.specs.Prelude.{◌≡◌, [], ◌∷◌, MatchOption, option_map};
ghost use Rattle.std.specs.Str.{chars};
ghost use Rattle.xf_num.specs.Written as number;
ghost use Rattle.xf_name.specs.Part as part;
ghost use Rattle.xf_path.specs.Tokens as spec;

use crate::token::Kind;
use xf_name::{begins_part, continues_part};

/// The first character of a text, and what follows it.
pub fn first_char(text: &str) -> Option<(char, &str)>
    ensures { MatchOption result (chars text.now ≡ []) (λ p. chars text.now ≡ p.0 ∷ chars p.1.now) }
{
    let mut chars = text.chars();
    match chars.next() {
        Some(first) => Some((first, chars.as_str())),
        None => None,
    }
}

/// Whether a character is white space.
fn is_space(c: char) -> bool
    ensures { result ≡ number.is_space c }
{
    c == ' ' || c == '\t' || c == '\n' || c == '\r'
}

fn is_digit(c: char) -> bool
    ensures { result ≡ number.is_digit c }
{
    '0' <= c && c <= '9'
}

/// What follows the white space that a text begins with.
pub fn after_space(text: &str) -> &str
    ensures { chars result.now ≡ spec.after_space (chars text.now) }
{
    let mut rest = text;
    while let Some((c, after)) = first_char(rest) {
        if !is_space(c) {
            break;
        }
        rest = after;
    }
    rest
}

/// What follows the digits that a text begins with.
fn after_digits(text: &str) -> &str
    ensures { chars result.now ≡ number.after_digits (chars text.now) }
{
    let mut rest = text;
    while let Some((c, after)) = first_char(rest) {
        if !is_digit(c) {
            break;
        }
        rest = after;
    }
    rest
}

/// What follows the rest of a name's part.
fn after_part(text: &str) -> &str
    ensures { chars result.now ≡ spec.after_part (chars text.now) }
{
    let mut rest = text;
    while let Some((c, after)) = first_char(rest) {
        if !continues_part(c) {
            break;
        }
        rest = after;
    }
    rest
}

/// What follows a point and digits, where these come next.
fn after_point(text: &str) -> &str
    ensures { chars result.now ≡ spec.after_point (chars text.now) }
{
    match first_char(text) {
        Some(('.', after)) => after_digits(after),
        _ => text,
    }
}

/// What follows the next quote of this kind.
fn after_quote(quote: char, text: &str) -> Option<&str>
    ensures { option_map (λ after. chars after.now) result ≡ spec.after_quote quote (chars text.now) }
{
    let mut rest = text;
    while let Some((c, after)) = first_char(rest) {
        if c == quote {
            return Some(after);
        }
        rest = after;
    }
    None
}

/// The kind of a name by what stands behind it.
#[tactic(auto, unfolding(crate::specs::Tokens::kind_of_name))]
fn kind_of_name(text: &str) -> Kind
    ensures { result ≡ spec.kind_of_name (chars text.now) }
{
    let Some((c, behind)) = first_char(after_space(text)) else {
        return Kind::Name;
    };
    if c == '(' {
        return Kind::Called;
    }
    if c == ':' {
        return kind_at_colon(behind);
    }
    Kind::Name
}

/// The kind of a name by what stands behind it and a colon.
fn kind_at_colon(text: &str) -> Kind
    ensures { result ≡ spec.kind_at_colon (chars text.now) }
{
    match first_char(text) {
        Some((':', _)) => Kind::AxisName,
        _ => Kind::Name,
    }
}

/// A name by what follows its first part.
fn name_from(text: &str) -> (Kind, &str)
    ensures { (result.0, chars result.1.now) ≡ spec.name_from (chars text.now) }
{
    let Some((c, behind)) = first_char(text) else {
        return (kind_of_name(text), text);
    };
    if c == ':' {
        return name_on(text, behind);
    }
    (kind_of_name(text), text)
}

/// A name by what follows its first part and a colon, and by the whole of it.
fn name_on<'a>(whole: &'a str, text: &'a str) -> (Kind, &'a str)
    ensures { (result.0, chars result.1.now) ≡ spec.name_on (chars whole.now) (chars text.now) }
{
    let Some((c, after)) = first_char(text) else {
        return (kind_of_name(whole), whole);
    };
    if begins_part(c) {
        let rest = after_part(after);
        return (kind_of_name(rest), rest);
    }
    if c == '*' {
        return (Kind::SpaceStar, after);
    }
    (kind_of_name(whole), whole)
}

/// A literal by what follows its first quote.
fn literal_from(quote: char, text: &str) -> (Kind, &str)
    ensures { (result.0, chars result.1.now) ≡ spec.literal_from quote (chars text.now) }
{
    match after_quote(quote, text) {
        Some(after) => (Kind::Literal, after),
        None => (Kind::Other, text),
    }
}

/// A token by what follows its first point.
fn dot_from(text: &str) -> (Kind, &str)
    ensures { (result.0, chars result.1.now) ≡ spec.dot_from (chars text.now) }
{
    match first_char(text) {
        Some((c, after)) => {
            if c == '.' {
                return (Kind::DotDot, after);
            }
            if is_digit(c) {
                return (Kind::Number, after_digits(after));
            }
            (Kind::Dot, text)
        }
        None => (Kind::Dot, text),
    }
}

/// The kind of a token of one character.
fn sign_of(c: char) -> Kind
    ensures { result ≡ spec.sign_of c }
{
    match c {
        '(' => Kind::Open,
        ')' => Kind::Close,
        '[' => Kind::OpenSquare,
        ']' => Kind::CloseSquare,
        '*' => Kind::Star,
        '+' => Kind::Plus,
        '-' => Kind::Minus,
        ',' => Kind::Comma,
        '/' => Kind::Slash,
        '<' => Kind::Less,
        '=' => Kind::Equal,
        '>' => Kind::Greater,
        '@' => Kind::At,
        '|' => Kind::Bar,
        _ => Kind::Other,
    }
}

/// The kind of a token of two characters.
fn pair_of(first: char, second: char) -> Option<Kind>
    ensures { result ≡ spec.pair_of first second }
{
    if second == '=' {
        return match first {
            '!' => Some(Kind::NotEqual),
            '<' => Some(Kind::LessOrEqual),
            '>' => Some(Kind::GreaterOrEqual),
            _ => None,
        };
    }
    if second != first {
        return None;
    }
    match first {
        '/' => Some(Kind::SlashSlash),
        ':' => Some(Kind::ColonColon),
        _ => None,
    }
}

/// A token of one or two characters that are no part of a name, by what follows the first.
fn sign_from(first: char, text: &str) -> (Kind, &str)
    ensures { (result.0, chars result.1.now) ≡ spec.sign_from first (chars text.now) }
{
    let Some((second, after)) = first_char(text) else {
        return (sign_of(first), text);
    };
    match pair_of(first, second) {
        Some(kind) => (kind, after),
        None => (sign_of(first), text),
    }
}

/// The kind of the token that begins with a character, and what follows it.
pub fn token_from(first: char, rest: &str) -> (Kind, &str)
    ensures { (result.0, chars result.1.now) ≡ spec.token_from first (chars rest.now) }
{
    if is_digit(first) {
        return (Kind::Number, after_point(after_digits(rest)));
    }
    if first == '.' {
        return dot_from(rest);
    }
    if begins_part(first) {
        return name_from(after_part(rest));
    }
    if first == '"' || first == '\'' {
        return literal_from(first, rest);
    }
    sign_from(first, rest)
}
