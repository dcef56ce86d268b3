//! The numbers by which an instance is told.
ghost use Rattle.std.specs.Prelude.{◌≡◌, ◌++◌, IfOk, OnOk, decimal, string_bytes};
ghost use Rattle.xf_def_machine.specs.Properties.{braced, pair_text};
ghost use Rattle.xf_tree_paths.specs.Holding.{pair_among};

use itoa::Buffer;
use std::alloc::{AllocError, Global};
use xf_def_syntax::Instance;

/// The number of the model of an instance, and its own among those of the model, both from 1.
pub fn pair_among(instances: &[Instance], place: usize) -> (u64, u64)
    ensures { result ≡ pair_among instances.now place }
{
    if place >= instances.len() {
        return (1, 1);
    }
    let model = instances[place].model;
    let mut number = 1;
    for at in 0..place {
        if instances[at].model == model {
            number += 1;
        }
    }
    (model as u64 + 1, number)
}

/// Appends them with a point between.
pub fn push_pair(text: &mut String, pair: (u64, u64)) -> Result<(), AllocError>
    ensures { OnOk result (string_bytes text.new ≡ string_bytes text.old ++ pair_text pair) }
{
    push_number(text, pair.0)?;
    text.push_str(".")?;
    push_number(text, pair.1)
}

/// What stands before the paths of the nodes of an instance.
pub fn braces_of(alloc: Global, pair: (u64, u64)) -> Result<String, AllocError>
    ensures { IfOk result (λ text. string_bytes text ≡ braced pair) }
{
    let mut text = String::new(alloc);
    if pair.0 == 1 && pair.1 == 1 {
        return Ok(text);
    }
    text.push_str("{")?;
    push_pair(&mut text, pair)?;
    text.push_str("}")?;
    Ok(text)
}

fn push_number(text: &mut String, number: u64) -> Result<(), AllocError>
    ensures { OnOk result (string_bytes text.new ≡ string_bytes text.old ++ decimal number) }
{
    let mut buffer = Buffer::new();
    text.push_str(buffer.format(number))
}
