//! The calls of xf_dates.

use crate::calls::{Answer, arguments, counted, decimals_before};
use std::alloc::{AllocError, Global};
use xf_dates::{date_of, day_of, duration, moment_of, seconds_of};
use xf_name::Word;
use xf_num::{Decimals, Num};

pub fn answer(alloc: Global, call: &str, given: &[Word]) -> Answer {
    match (decimals_before(given, 1), arguments(given, 1)) {
        (Some(decimals), [text]) => answer_with(alloc, call, text.as_str(), decimals),
        _ => Ok(None),
    }
}

fn answer_with(alloc: Global, call: &str, text: &str, decimals: Decimals) -> Answer {
    let number = Num::read(text, decimals);
    match call {
        "day_of" => counted(alloc, day_of(text).map(i128::from)),
        "seconds_of" => Ok(Some(seconds_of(text, decimals).print(alloc, decimals)?)),
        "date_of" => copied(alloc, date_of(alloc, number, decimals)),
        "moment_of" => copied(alloc, moment_of(alloc, number, decimals)),
        "duration" => parts(alloc, duration(text, decimals), decimals),
        _ => Ok(None),
    }
}

fn copied(alloc: Global, found: Result<Word, AllocError>) -> Answer {
    let text = found?;
    Ok(Some(String::from_str(alloc, text.as_str())?))
}

/// The months and the seconds of a duration, or `none`.
fn parts(alloc: Global, found: Option<(Num, Num)>, decimals: Decimals) -> Answer {
    match found {
        Some((months, seconds)) => both(alloc, months, seconds, decimals),
        None => Ok(Some(String::from_str(alloc, "none")?)),
    }
}

fn both(alloc: Global, months: Num, seconds: Num, decimals: Decimals) -> Answer {
    let mut out = months.print(alloc, decimals)?;
    push_after(&mut out, seconds.print(alloc, decimals)?.as_str())?;
    Ok(Some(out))
}

fn push_after(out: &mut String, text: &str) -> Result<(), AllocError> {
    out.push_str(" ")?;
    out.push_str(text)
}
