//! What the attributes of an element say.

ghost use Rattle.std.specs.Prelude.{◌≡◌, IfOk, map, option_map};
ghost use Rattle.xf_form_vocabulary.specs.Attributes.{shown};
ghost use Rattle.xf_form.specs.Written as written;

use crate::plan::Plan;
use std::alloc::{AllocError, Global};
use xf_base::Items;
use xf_def_syntax::{Expr, Start};
use xf_form_vocabulary::{Known, Tag, text_of, wanted_of};
use xf_name::Word;
use xf_path::{ParseFault, parse};

/// The context node alone.
fn here(alloc: Global) -> Expr
    ensures { result ≡ written.here }
{
    Expr::Path(0, Start::Context, Items::new(alloc))
}

/// The expression that a text is, or the context node.
pub fn expr_of(plan: &Plan<'_, '_>, text: &str) -> Result<Expr, AllocError>
    ensures { IfOk result (λ expr. expr ≡ written.expr_of plan.now.decimals plan.now.prefixes.now text.now) }
{
    match parse(plan.alloc, text, plan.prefixes, plan.decimals) {
        Ok(expr) => Ok(expr),
        Err(ParseFault::Memory) => Err(AllocError),
        Err(ParseFault::Expr(_, _)) => Ok(here(plan.alloc)),
    }
}

/// The expression that an attribute is, where it is written.
pub fn expr_at(
    plan: &Plan<'_, '_>,
    known: &[Known<'_>],
    code: u16,
) -> Result<Option<Expr>, AllocError>
    ensures { IfOk result (λ expr. expr ≡ written.expr_at plan.now.decimals plan.now.prefixes.now (map shown known.now) code) }
{
    match text_of(known, code) {
        Some(text) => Ok(Some(expr_of(plan, text)?)),
        None => Ok(None),
    }
}

/// A copy of the text of an attribute: empty where it is not written.
pub fn word_at(alloc: Global, known: &[Known<'_>], code: u16) -> Result<Word, AllocError>
    ensures { IfOk result (λ word. word ≡ written.word_at (map shown known.now) code) }
{
    match text_of(known, code) {
        Some(text) => Word::from_str(alloc, text),
        None => Ok(Word::new(alloc)),
    }
}

/// Whether an attribute has the text.
pub fn is_text(known: &[Known<'_>], code: u16, wanted: &str) -> bool
    ensures { result ≡ written.is_text (map shown known.now) code wanted.now }
{
    match text_of(known, code) {
        Some(text) => text == wanted,
        None => false,
    }
}

/// Whether an attribute is not `false`.
pub fn is_true(known: &[Known<'_>], code: u16) -> bool
    ensures { result ≡ written.is_true (map shown known.now) code }
{
    !is_text(known, code, "false")
}

/// The id that an attribute is at an element of this kind, where it names one.
pub fn id_at<'a>(tag: Tag, known: &[Known<'a>], code: u16) -> Option<&'a str>
    ensures { option_map (λ id. id.now) result ≡ written.id_at tag (map shown known.now) code }
{
    if wanted_of(tag, false, code).is_none() {
        return None;
    }
    text_of(known, code)
}
