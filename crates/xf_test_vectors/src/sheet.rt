//! The cases of a sheet and what comes of them.

ghost use Rattle.std.specs.Prelude.{◌≡◌, map, IfOk};
ghost use Rattle.std.specs.Str.Lines.{lines};
ghost use Rattle.xf_test_vectors.specs.Sheet.{is_case, case_numbers};

use crate::calls::answer;
use serde_json::{Category, Value};
use std::alloc::{AllocError, Global};
use xf_name::Word;

/// What came of a case.
#[derive(Drop)]
pub struct Outcome {
    /// The number of its line, from 1.
    pub line: usize,
    /// The crate that it calls; empty for a line that is no case.
    pub crate_name: Word,
    pub came: Word,
    pub wanted: Word,
}

/// What came of each case of a sheet.
pub fn outcomes_of(alloc: Global, sheet: &str) -> Result<Vec<Outcome>, AllocError>
    ensures { IfOk result (λ outcomes. map (λ o. o.line) outcomes.items ≡ case_numbers 1 (lines sheet.now)) }
{
    let lines = lines_of(alloc, sheet)?;
    outcomes_in(alloc, &lines)
}

fn lines_of(alloc: Global, sheet: &str) -> Result<Vec<&str>, AllocError>
    ensures { IfOk result (λ found. map (λ line. line.now) found.items ≡ lines sheet.now) }
{
    sheet.lines().collect(alloc)
}

fn outcomes_in(alloc: Global, lines: &[&str]) -> Result<Vec<Outcome>, AllocError>
    ensures { IfOk result (λ outcomes. map (λ o. o.line) outcomes.items ≡ case_numbers 1 (map (λ line. line.now) lines.now)) }
{
    let mut outcomes = Vec::new(alloc);
    for (i, line) in lines.iter().enumerate() {
        if is_case(line) {
            outcomes.push(outcome_at(alloc, i + 1, line)?)?;
        }
    }
    Ok(outcomes)
}

/// Whether a line is to be a case.
fn is_case(line: &str) -> bool
    ensures { result ≡ is_case line.now }
{
    !line.starts_with("#")
}

/// What comes of one line.
fn outcome_at(alloc: Global, line: usize, text: &str) -> Result<Outcome, AllocError>
    ensures { IfOk result (λ outcome. outcome.line ≡ line) }
{
    let texts = texts_of(alloc, text)?;
    outcome_of(alloc, line, &texts)
}

/// What comes of the texts of a line.
fn outcome_of(alloc: Global, line: usize, texts: &[Word]) -> Result<Outcome, AllocError>
    ensures { IfOk result (λ outcome. outcome.line ≡ line) }
{
    let [name, call, given @ .., wanted] = texts else {
        return outcome_with(alloc, line, "", "no case", "a case");
    };
    let came = came_of(alloc, name.as_str(), call.as_str(), given)?;
    outcome_with(alloc, line, name.as_str(), came.as_str(), wanted.as_str())
}

fn outcome_with(
    alloc: Global,
    line: usize,
    crate_name: &str,
    came: &str,
    wanted: &str,
) -> Result<Outcome, AllocError>
    ensures { IfOk result (λ outcome. outcome.line ≡ line) }
{
    Ok(Outcome {
        line,
        crate_name: Word::from_str(alloc, crate_name)?,
        came: Word::from_str(alloc, came)?,
        wanted: Word::from_str(alloc, wanted)?,
    })
}

/// What comes of a call.
fn came_of(alloc: Global, name: &str, call: &str, given: &[Word]) -> Result<String, AllocError> {
    match answer(alloc, name, call, given)? {
        Some(text) => Ok(text),
        None => String::from_str(alloc, "no such call"),
    }
}

/// The texts of a line, and none where it is no array of them.
fn texts_of(alloc: Global, line: &str) -> Result<Vec<Word>, AllocError> {
    match Value::from_str(alloc, line) {
        Ok(value) => texts_in(alloc, &value),
        Err(e) => match e.classify() {
            Category::Memory => Err(AllocError),
            _ => Ok(Vec::new(alloc)),
        },
    }
}

fn texts_in(alloc: Global, value: &Value) -> Result<Vec<Word>, AllocError> {
    let mut texts = Vec::new(alloc);
    if let Some(items) = value.as_array() {
        push_texts(alloc, &mut texts, items.as_slice())?;
    }
    Ok(texts)
}

/// Appends the texts of items; where one is no text, none is left.
fn push_texts(alloc: Global, texts: &mut Vec<Word>, items: &[Value]) -> Result<(), AllocError> {
    for item in items {
        match text_of(alloc, item)? {
            Some(text) => texts.push(text)?,
            None => {
                texts.clear();
                return Ok(());
            }
        }
    }
    Ok(())
}

/// A text, or the text that texts and counts write.
fn text_of(alloc: Global, item: &Value) -> Result<Option<Word>, AllocError> {
    if let Some(text) = item.as_str() {
        return Ok(Some(Word::from_str(alloc, text)?));
    }
    match item.as_array() {
        Some(parts) => repeated(alloc, parts.as_slice()),
        None => Ok(None),
    }
}

fn repeated(alloc: Global, parts: &[Value]) -> Result<Option<Word>, AllocError> {
    let mut text = Word::new(alloc);
    if push_parts(alloc, &mut text, parts)? {
        Ok(Some(text))
    } else {
        Ok(None)
    }
}

/// Appends what texts and counts write, and answers whether they do.
fn push_parts(alloc: Global, text: &mut Word, parts: &[Value]) -> Result<bool, AllocError> {
    for pair in parts.chunks(2) {
        let [part, count] = pair else {
            return Ok(false);
        };
        let Some(part) = part.as_str() else {
            return Ok(false);
        };
        let Some(count) = count.as_str().and_then(|count| count.parse::<usize>().ok()) else {
            return Ok(false);
        };
        text.push_str(part.repeat(alloc, count)?.as_str())?;
    }
    Ok(true)
}
