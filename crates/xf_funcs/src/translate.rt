//! Replacing characters.

ghost use Rattle.std.specs.Prelude.{◌≡◌, ℕ, Some, string_bytes, IfOk, IfErr, chars};
ghost use Rattle.std.specs.BTreeMap.{get};
ghost use Rattle.std.specs.Ordering.{nat_cmp};
ghost use Rattle.xf_base.specs.Limits.{string_limit};
ghost use Rattle.xf_def_values.specs.Bounded.{GivesBounded, capped};
ghost use Rattle.xf_funcs.specs.Translate.{first, others, mapped, kept_or, translated};

use crate::fault::FuncFault;
use std::alloc::Global;
use std::collections::BTreeMap;
use xf_base::limits::STRING_LIMIT;
use xf_types::split_first;

/// For each character that is replaced what it becomes, nothing where it is left out.
type Images = BTreeMap<char, Option<char>>;

/// The text with each character of the second text replaced by the one at the same place of the third.
pub fn translated(alloc: Global, text: &str, from: &str, to: &str) -> Result<String, FuncFault>
    ensures { GivesBounded FuncFault.Memory FuncFault.Long string_bytes result (capped (Some string_limit) (translated text.now from.now to.now)) }
{
    let images = images(alloc, from, to)?;
    let mut made = String::with_capacity(alloc, text.len())?;
    let mut left = text;
    while let Some((c, rest)) = split_first(left) {
        left = rest;
        if let Some(image) = image(&images, c) {
            made.push(image)?;
        }
        if made.len() > STRING_LIMIT as usize {
            return Err(FuncFault::Long);
        }
    }
    Ok(made)
}

/// What a character becomes.
fn image(images: &Images, c: char) -> Option<char>
    ensures { result ≡ kept_or c (get nat_cmp images.now c) }
{
    match images.get(&c) {
        Some(image) => *image,
        None => Some(c),
    }
}

/// What each character of the first text becomes. The first place of a character counts.
fn images(alloc: Global, from: &str, to: &str) -> Result<Images, FuncFault>
    ensures value { IfOk result (λ m. (c : ℕ) → get nat_cmp m c ≡ mapped (chars from.now) (chars to.now) c) }
    ensures cause { IfErr result (λ e. e ≡ FuncFault.Memory) }
{
    let mut images = BTreeMap::new(alloc);
    let mut left = from;
    let mut images_left = to;
    while let Some((c, rest)) = split_first(left) {
        let (image, others) = first_and_others(images_left);
        left = rest;
        images_left = others;
        if !images.contains_key(&c) {
            images.insert(c, image)?;
        }
    }
    Ok(images)
}

/// The first character, if there is one, and what follows it.
fn first_and_others(text: &str) -> (Option<char>, &str)
    ensures first { result.0 ≡ first (chars text.now) }
    ensures others { chars result.1.now ≡ others (chars text.now) }
{
    match split_first(text) {
        Some((c, rest)) => (Some(c), rest),
        None => (None, text),
    }
}
