//! The report: a line for each difference, then how many cases each crate has.

ghost use Rattle.std.specs.Prelude.{◌≡◌, ◌++◌, IfOk, OnOk, count_by, map, string_bytes};
ghost use Rattle.std.specs.List.{flat_map};
ghost use Rattle.xf_test_vectors.specs.Report.{differs, is_of, differs_in, difference_line, count_line, crate_line, report_text};

use crate::sheet::Outcome;
use std::alloc::{AllocError, Global};

/// The report of what came.
pub fn report_of(alloc: Global, names: &[&str], outcomes: &[Outcome]) -> Result<String, AllocError>
    ensures { IfOk result (λ text. string_bytes text ≡ report_text (map (λ name. name.now) names.now) outcomes.now) }
{
    let mut text = String::new(alloc);
    push_differences(alloc, &mut text, outcomes)?;
    push_crates(alloc, &mut text, names, outcomes)?;
    let differ = outcomes.iter().filter(|o| differs(o)).count();
    push_count(alloc, &mut text, "total", outcomes.len(), differ)?;
    Ok(text)
}

fn push_differences(
    alloc: Global,
    text: &mut String,
    outcomes: &[Outcome],
) -> Result<(), AllocError>
    ensures { OnOk result (string_bytes text.new ≡ string_bytes text.old ++ flat_map difference_line outcomes.now) }
{
    for outcome in outcomes {
        push_difference(alloc, text, outcome)?;
    }
    Ok(())
}

fn push_difference(alloc: Global, text: &mut String, outcome: &Outcome) -> Result<(), AllocError>
    ensures { OnOk result (string_bytes text.new ≡ string_bytes text.old ++ difference_line outcome.now) }
{
    if !differs(outcome) {
        return Ok(());
    }
    let line = outcome.line;
    let came = outcome.came.as_str();
    let wanted = outcome.wanted.as_str();
    text.push_str(format!(in alloc; "line {line}: came {came}, wanted {wanted}\n")?.as_str())
}

/// Whether the answer is not what was wanted.
fn differs(outcome: &Outcome) -> bool
    ensures { result ≡ differs outcome.now }
{
    !outcome.came.is(outcome.wanted.as_str())
}

fn push_crates(
    alloc: Global,
    text: &mut String,
    names: &[&str],
    outcomes: &[Outcome],
) -> Result<(), AllocError>
    ensures { OnOk result (string_bytes text.new ≡ string_bytes text.old ++ flat_map (λ name. crate_line outcomes.now name) (map (λ name. name.now) names.now)) }
{
    for name in names {
        push_crate(alloc, text, name, outcomes)?;
    }
    Ok(())
}

fn push_crate(
    alloc: Global,
    text: &mut String,
    name: &str,
    outcomes: &[Outcome],
) -> Result<(), AllocError>
    ensures { OnOk result (string_bytes text.new ≡ string_bytes text.old ++ crate_line outcomes.now name.now) }
{
    let cases = cases_of(outcomes, name);
    let differ = differences_of(outcomes, name);
    push_count(alloc, text, name, cases, differ)
}

fn cases_of(outcomes: &[Outcome], name: &str) -> usize
    ensures { result ≡ count_by (is_of name.now) outcomes.now }
{
    outcomes.iter().filter(|o| is_of(name, o)).count()
}

fn differences_of(outcomes: &[Outcome], name: &str) -> usize
    ensures { result ≡ count_by (differs_in name.now) outcomes.now }
{
    outcomes.iter().filter(|o| differs_in(name, o)).count()
}

/// Whether the case calls the crate of this name.
fn is_of(name: &str, outcome: &Outcome) -> bool
    ensures { result ≡ is_of name.now outcome.now }
{
    outcome.crate_name.is(name)
}

fn differs_in(name: &str, outcome: &Outcome) -> bool
    ensures { result ≡ differs_in name.now outcome.now }
{
    is_of(name, outcome) && differs(outcome)
}

fn push_count(
    alloc: Global,
    text: &mut String,
    name: &str,
    cases: usize,
    differ: usize,
) -> Result<(), AllocError>
    ensures { OnOk result (string_bytes text.new ≡ string_bytes text.old ++ count_line name.now cases differ) }
{
    text.push_str(format!(in alloc; "{name} {cases} cases, {differ} differ\n")?.as_str())
}
