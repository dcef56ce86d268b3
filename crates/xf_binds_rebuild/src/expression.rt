//! The expression of an entry (XForms 1.1, section 6.1).

ghost use Rattle.std.specs.Prelude.{◌≡◌, true, map, option_and_then, option_map, slice_get};
ghost use Rattle.xf_def_model.specs.Entries.{expression_in};
ghost use Rattle.xf_def_model.specs.Rules.{computed_of, rule_of};
ghost use Rattle.xf_binds_rebuild.specs.Static.{AreFixed, expr_in, fixed_if};

use xf_binds::Entry;
use xf_def_model::Property;
use xf_def_syntax::{Bind, Expr, Properties};

/// The expression of an entry, where it has one.
pub fn expression_of<'a>(binds: &'a [Bind], entry: Entry) -> Option<&'a Expr>
    ensures value { option_map (λ e. computed_of e.now) result ≡ option_and_then (λ r. expression_in r entry.property) (slice_get (map rule_of binds.now) entry.bind) }
    ensures fixed { AreFixed binds.now → fixed_if (option_map (λ e. e.now) result) ≡ true }
{
    match bind_at(binds, entry.bind) {
        Some(bind) => expression_in(&bind.properties, entry.property),
        None => None,
    }
}

fn bind_at(binds: &[Bind], at: u32) -> Option<&Bind>
    ensures { option_map (λ b. b.now) result ≡ slice_get binds.now at }
{
    binds.get(at as usize)
}

/// The expression of a property, where it has one.
fn expression_in(properties: &Properties, property: Property) -> Option<&Expr>
    ensures { option_map (λ e. e.now) result ≡ expr_in properties.now property }
{
    match property {
        Property::Kind => None,
        Property::Calculate => properties.calculate.as_ref(),
        Property::Relevant => properties.relevant.as_ref(),
        Property::Readonly => properties.readonly.as_ref(),
        Property::Required => properties.required.as_ref(),
        Property::Constraint => properties.constraint.as_ref(),
    }
}
