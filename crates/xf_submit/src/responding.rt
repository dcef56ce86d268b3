//! What comes of the response of the store (XForms 1.1, section 11.2).

ghost use Rattle.std.specs.Prelude.{◌≡◌, IfOk};
ghost use Rattle.xf_json.specs.Element.{lit_in};
ghost use Rattle.xf_submit.specs.Responding.{as_text, as_tree, responded_by, responded_with, seen_outcome};

use crate::error::ErrorType;
use std::alloc::{AllocError, Global};
use xf_def_syntax::{Replace, Submission};
use xf_json::{JsonFault, read};
use xf_name::{Lit, Prefixes, Word};
use xf_store::Answer;
use xf_tree_literals::lit_fault;

/// What comes of a response.
#[derive(Drop)]
pub enum Outcome {
    /// The submission fails.
    Fails(ErrorType),
    /// It is done: nothing is replaced.
    Ends,
    /// A note tells how many bytes came.
    Notes(u32),
    /// The target is replaced by this tree, whose names are the form's.
    Tree(Lit),
    /// The text of the target is this one.
    Text(Word),
}

/// What comes of the answer of the store. Nothing is changed yet.
pub fn response(
    alloc: Global,
    prefixes: &Prefixes,
    submission: &Submission,
    answer: &Answer,
) -> Result<Outcome, AllocError>
    ensures { IfOk result (λ r. seen_outcome r ≡ responded_by prefixes.now submission.now answer.now) }
{
    match answer {
        Answer::PutDone => response_with(alloc, prefixes, submission.replace, &[]),
        Answer::Found(bytes) => response_with(
            alloc,
            prefixes,
            submission.replace,
            bytes.as_slice(),
        ),
        Answer::Failed | Answer::Absent | Answer::TooLong => Ok(Outcome::Fails(
            ErrorType::Resource,
        )),
    }
}

fn response_with(
    alloc: Global,
    prefixes: &Prefixes,
    replace: Replace,
    bytes: &[u8],
) -> Result<Outcome, AllocError>
    ensures { IfOk result (λ r. seen_outcome r ≡ responded_with prefixes.now bytes.now replace) }
{
    match replace {
        Replace::All => match u32::try_from(bytes.len()) {
            Ok(size) => Ok(Outcome::Notes(size)),
            // No store gives so many.
            Err(_) => Err(AllocError),
        },
        Replace::Nothing => Ok(Outcome::Ends),
        Replace::Instance => {
            if bytes.is_empty() {
                return Ok(Outcome::Ends);
            }
            as_tree(alloc, prefixes, bytes)
        }
        Replace::Text => {
            if bytes.is_empty() {
                return Ok(Outcome::Ends);
            }
            as_text(alloc, bytes)
        }
    }
}

fn as_tree(alloc: Global, prefixes: &Prefixes, bytes: &[u8]) -> Result<Outcome, AllocError>
    ensures { IfOk result (λ r. seen_outcome r ≡ as_tree prefixes.now (lit_in bytes.now)) }
{
    match read(alloc, bytes) {
        Ok(lit) => {
            if lit_fault(prefixes, &lit)?.is_some() {
                return Ok(Outcome::Fails(ErrorType::Parse));
            }
            Ok(Outcome::Tree(lit))
        }
        Err(JsonFault::NotJson) => Ok(Outcome::Fails(ErrorType::Parse)),
        Err(JsonFault::NotElement) => Ok(Outcome::Fails(ErrorType::Parse)),
        Err(JsonFault::Memory) => Err(AllocError),
    }
}

fn as_text(alloc: Global, bytes: &[u8]) -> Result<Outcome, AllocError>
    ensures { IfOk result (λ r. seen_outcome r ≡ as_text bytes.now) }
{
    match str::from_utf8(bytes) {
        Ok(text) => Ok(Outcome::Text(Word::from_str(alloc, text)?)),
        Err(_) => Ok(Outcome::Fails(ErrorType::Parse)),
    }
}
