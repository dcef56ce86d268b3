//! Which calls are those of functions on plain values.

ghost use Rattle.std.specs.Prelude.{◌≡◌};
ghost use Rattle.xf_funcs.specs.Served.{is_of_numbers, is_of_dates, is_of_strings, is_of_texts, is_plain, is_served};

use xf_table::functions::rows;

/// Whether the function with this code is one on plain values alone, and takes so many arguments. Where it may be called without an
/// argument, it is given the context node as one.
pub fn is_served(code: u16, count: usize) -> bool
    ensures { result ≡ is_served code count }
{
    match rows().get(code as usize) {
        Some(row) => {
            is_plain(row.name)
                && 1 <= count
                && usize::from(row.least) <= count
                && count <= usize::from(row.most)
        }
        None => false,
    }
}

fn is_plain(name: &str) -> bool
    ensures { result ≡ is_plain name.now }
{
    is_of_numbers(name) || is_of_dates(name) || is_of_strings(name) || is_of_texts(name)
}

fn is_of_numbers(name: &str) -> bool
    ensures { result ≡ is_of_numbers name.now }
{
    name == "round" || name == "floor" || name == "ceiling" || name == "power"
}

fn is_of_dates(name: &str) -> bool
    ensures { result ≡ is_of_dates name.now }
{
    name == "days-from-date"
        || name == "days-to-date"
        || name == "seconds-from-dateTime"
        || name == "seconds-to-dateTime"
        || name == "months"
        || name == "seconds"
}

fn is_of_strings(name: &str) -> bool
    ensures { result ≡ is_of_strings name.now }
{
    name == "string-length"
        || name == "contains"
        || name == "starts-with"
        || name == "compare"
        || name == "boolean-from-string"
}

fn is_of_texts(name: &str) -> bool
    ensures { result ≡ is_of_texts name.now }
{
    name == "concat"
        || name == "substring"
        || name == "substring-before"
        || name == "substring-after"
        || name == "normalize-space"
        || name == "translate"
        || name == "property"
}
