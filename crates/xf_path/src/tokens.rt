//! The tokens of a text, each of which is cut as it is reached.

ghost use Rattle.std.specs.Prelude.{◌≡◌, ◌≤◌, length};
ghost use Rattle.xf_path.specs.Tokens.{tokens_of};
ghost use Rattle.xf_path.specs.Reading.{kind_of, place_of, text_of, after_next};
ghost use Rattle.xf_path.specs.Left.{tokens_at};

use crate::fault::{ExprKind, ParseFault};
use crate::lexer::{after_space, first_char, token_from};
use crate::token::Kind;
use std::marker::Model;
use xf_base::limits::EXPRESSION_LIMIT;

/// The tokens that are left: the next one, and the text behind it.
#[derive(Drop)]
pub struct Tokens<'a> {
    kind: Kind,
    place: u32,
    text: &'a str,
    rest: &'a str,
    /// The place of the end.
    end: usize,
}

impl<'a> Model for Tokens<'a> {
    ghost use Rattle.std.specs.Prelude.{List};
    ghost use Rattle.xf_path.specs.Tokens.{Token};

    ghost Value = { List Token };

    ghost use Rattle.xf_path.specs.Cursor.{left_of, IsWithin};

    ghost view = { left_of };

    ghost invariant = { IsWithin };
}

impl<'a> Tokens<'a> {
    /// The tokens of a text.
    pub fn new(text: &'a str) -> Tokens<'a>
        requires { length text.now ≤ EXPRESSION_LIMIT }
        ensures { result ≡ tokens_of text.now }
    {
        Tokens::at(text, text.len())
    }

    /// The tokens of the text that stands before a place.
    fn at(text: &'a str, end: usize) -> Tokens<'a>
        requires end { end ≤ EXPRESSION_LIMIT }
        requires within { length text.now ≤ end }
        ensures { result ≡ tokens_at end text.now }
    {
        let text = after_space(text);
        let place = (end - text.len()) as u32;
        let Some((first, behind)) = first_char(text) else {
            return Tokens {
                kind: Kind::End,
                place,
                text,
                rest: text,
                end,
            };
        };
        let (kind, rest) = token_from(first, behind);
        let (text, rest) = text.split_at(text.len() - rest.len());
        Tokens {
            kind,
            place,
            text,
            rest,
            end,
        }
    }

    /// The kind of the next token.
    pub fn kind(&self) -> Kind
        ensures { result ≡ kind_of self.now }
    {
        self.kind
    }

    /// The number of bytes before the next token.
    pub fn place(&self) -> u32
        ensures { result ≡ place_of self.now }
    {
        self.place
    }

    /// The text of the next token.
    pub fn text(&self) -> &'a str
        ensures { result.now ≡ text_of self.now }
    {
        self.text
    }

    /// Goes on to the token behind the next one. The end is never passed.
    pub fn take(&mut self)
        ensures { self.new ≡ after_next self.old }
    {
        match self.kind {
            Kind::End => (),
            _ => *self = Tokens::at(self.rest, self.end),
        }
    }

    /// The fault at the next token.
    pub fn fault(&self, kind: ExprKind) -> ParseFault
        ensures { result ≡ ParseFault.Expr (place_of self.now) kind }
    {
        ParseFault::Expr(self.place, kind)
    }
}
