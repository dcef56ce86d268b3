//! The explanation of a refusal.

ghost use Rattle.std.specs.Prelude.{◌≡◌, IfOk, option_map, string_bytes};
ghost use Rattle.xf_form.specs.Loading.{loaded_in};
ghost use Rattle.xf_form_explain.specs.Explained.{Explains, IsShown, IsTold};

use crate::found::detail_of;
use crate::text::told;
use std::alloc::{AllocError, Global};
use xf_base::limits::TOLD_LIMIT;
use xf_form::{FormFault, load};
use xf_name::Word;

/// What is known of the refusal of a form by its bytes, or None where it loads.
///
/// A line has the number of the refusal, its place and what is wrong there. Where that is an expression, it stands in the next line, and a
/// caret below the character at fault.
pub fn explain(alloc: Global, form: &[u8]) -> Result<Option<String>, AllocError>
    ensures { IfOk result (λ told. Explains (loaded_in form.now) form.now (option_map string_bytes told)) }
{
    match load(alloc, form) {
        Ok(_) => Ok(None),
        Err(FormFault::Refused(number, place)) => {
            Ok(Some(explain_refusal(alloc, form, number, &place)?))
        }
        Err(FormFault::Memory) => Err(AllocError),
    }
}

fn explain_refusal(
    alloc: Global,
    form: &[u8],
    number: u8,
    place: &Word,
) -> Result<String, AllocError>
    ensures { IfOk result (λ text. IsTold form.now number place.now (string_bytes text)) }
{
    let detail = detail_of(alloc, form, number, place)?;
    let text = told(alloc, number, place, &detail)?;
    shown(alloc, &text)
}

// The text, or of a long one its front.
fn shown(alloc: Global, text: &str) -> Result<String, AllocError>
    ensures { IfOk result (λ shown. IsShown text.now (string_bytes shown)) }
{
    if text.len() <= TOLD_LIMIT {
        return String::from_str(alloc, text);
    }
    let end = text.floor_char_boundary(TOLD_LIMIT);
    let mut front = String::from_str(alloc, &text[..end])?;
    front.push_str(" ..\n")?;
    Ok(front)
}
