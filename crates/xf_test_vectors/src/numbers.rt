//! The calls of xf_num. A number is the text that it is read from and printed as.

use crate::calls::{Answer, arguments, counted, decimals_before};
use std::alloc::Global;
use std::cmp::Ordering;
use xf_name::Word;
use xf_num::{Decimals, Num};

pub fn answer(alloc: Global, call: &str, given: &[Word]) -> Answer {
    let count = if is_of_two(call) { 2 } else { 1 };
    match decimals_before(given, count) {
        Some(decimals) => answer_with(alloc, call, arguments(given, count), decimals),
        None => Ok(None),
    }
}

fn is_of_two(call: &str) -> bool {
    matches!(call, "add" | "sub" | "mul" | "div" | "rem" | "order")
}

fn answer_with(alloc: Global, call: &str, given: &[Word], decimals: Decimals) -> Answer {
    match given {
        [only] => of_one(alloc, call, only.as_str(), decimals),
        [left, right] => {
            let left = Num::read(left.as_str(), decimals);
            let right = Num::read(right.as_str(), decimals);
            of_two(alloc, call, left, right, decimals)
        }
        _ => Ok(None),
    }
}

fn of_one(alloc: Global, call: &str, text: &str, decimals: Decimals) -> Answer {
    let number = Num::read(text, decimals);
    let answer = match call {
        "read" => number,
        "floor" => number.floor(decimals),
        "ceiling" => number.ceiling(decimals),
        "round" => number.round(decimals),
        "units" => return counted(alloc, number.units()),
        "of_units" => match text.parse::<i128>() {
            Ok(units) => Num::of_units(units),
            Err(_) => return Ok(None),
        },
        "of_whole" => match text.parse::<i64>() {
            Ok(whole) => Num::of_whole(whole, decimals),
            Err(_) => return Ok(None),
        },
        _ => return Ok(None),
    };
    Ok(Some(answer.print(alloc, decimals)?))
}

fn of_two(alloc: Global, call: &str, left: Num, right: Num, decimals: Decimals) -> Answer {
    let answer = match call {
        "add" => left.add(right),
        "sub" => left.sub(right),
        "mul" => left.mul(right, decimals),
        "div" => left.div(right, decimals),
        "rem" => left.rem(right),
        "order" => return ordered(alloc, left.order(right)),
        _ => return Ok(None),
    };
    Ok(Some(answer.print(alloc, decimals)?))
}

fn ordered(alloc: Global, order: Option<Ordering>) -> Answer {
    let text = match order {
        Some(Ordering::Less) => "less",
        Some(Ordering::Equal) => "equal",
        Some(Ordering::Greater) => "greater",
        None => "none",
    };
    Ok(Some(String::from_str(alloc, text)?))
}
