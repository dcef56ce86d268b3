//! Types by their names, and the types that they restrict.

ghost use Rattle.std.specs.Prelude.{◌≡◌, option_map};
ghost use Rattle.xf_schema.specs.Types.{built_in_at, declared, declared_at, end_of, is_endless, is_named, type_called};

use crate::written::{NamedType, Restriction, TypeName};
use xf_types::{SimpleType, named};

/// The number of the first type of this name, if one has it.
fn declared(names: &[TypeName], space: &str, local: &str) -> Option<usize>
    ensures { result ≡ declared names.now space.now local.now }
{
    for (number, name) in names.iter().enumerate() {
        if is_named(name, space, local) {
            return Some(number);
        }
    }
    None
}

pub(crate) fn is_named(name: &TypeName, space: &str, local: &str) -> bool
    ensures { result ≡ is_named space.now local.now name.now }
{
    name.space.is(space) && name.local.is(local)
}

/// What a name means: a built-in type, else one of those of these names.
pub fn type_called(names: &[TypeName], space: &str, local: &str) -> Option<NamedType>
    ensures { result ≡ type_called names.now space.now local.now }
{
    if let Some(kind) = named(space, local) {
        return Some(NamedType::BuiltIn(kind));
    }
    match declared(names, space, local) {
        Some(number) => Some(NamedType::Declared(number)),
        None => None,
    }
}

/// The built-in type at the end of the bases, past so many types at most.
pub(crate) fn end_of(
    types: &[Restriction],
    most: usize,
    base: Option<NamedType>,
) -> Option<SimpleType>
    ensures { result ≡ end_of most types.now base }
{
    let mut left = most;
    let mut further = base;
    while left > 0 {
        let Some(restriction) = declared_at(types, further) else {
            return built_in_at(further);
        };
        left -= 1;
        further = restriction.base;
    }
    None
}

/// Whether the bases have no end, past so many types.
pub(crate) fn is_endless(types: &[Restriction], most: usize, base: Option<NamedType>) -> bool
    ensures { result ≡ is_endless most types.now base }
{
    let mut left = most;
    let mut further = base;
    while left > 0 {
        let Some(restriction) = declared_at(types, further) else {
            return false;
        };
        left -= 1;
        further = restriction.base;
    }
    true
}

/// The built-in type that a base names, where it names one.
fn built_in_at(base: Option<NamedType>) -> Option<SimpleType>
    ensures { result ≡ built_in_at base }
{
    match base {
        Some(NamedType::BuiltIn(kind)) => Some(kind),
        _ => None,
    }
}

/// The restriction that a base names, where it names one of these types.
pub(crate) fn declared_at(types: &[Restriction], base: Option<NamedType>) -> Option<&Restriction>
    ensures { option_map (λ r. r.now) result ≡ declared_at types.now base }
{
    match base {
        Some(NamedType::Declared(number)) => types.get(number),
        _ => None,
    }
}
