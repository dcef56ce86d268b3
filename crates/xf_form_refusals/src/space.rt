//! The default namespace in force.

ghost use Rattle.std.specs.Prelude.{◌≡◌};
ghost use Rattle.xf_form_refusals.specs.Standing.{space_below};

use xf_name::{Pair, Prefixes};

/// The number of the default namespace at an element with these attributes, where one is in force above.
pub fn space_below(prefixes: &Prefixes, above: u16, attributes: &[Pair]) -> u16
    ensures { result ≡ space_below prefixes.now above attributes.now }
{
    for attribute in attributes {
        if attribute.name.is("xmlns") {
            return prefixes.space_of(attribute.text.as_str()).unwrap_or(0);
        }
    }
    above
}
