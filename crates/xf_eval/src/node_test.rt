//! Node tests (XPath 1.0, section 2.3).

ghost use Rattle.std.specs.Prelude.{◌≡◌};
ghost use Rattle.xf_def_xpath.specs.Tests.{has_name, is_in_space, is_principal, meets};
ghost use Rattle.xf_def_forest.specs.Forest.{name_in};
ghost use Rattle.xf_def_forest.specs.declared.content.Content.{Content};
ghost use Rattle.xf_tree_contents.specs.Seen.{seen_content};
ghost use Rattle.xf_tree_contents.specs.Sought.{is_sought};
ghost use Rattle.xf_eval.specs.Met.{principal_in};

use xf_def_syntax::Test;
use xf_name::{Axis, QName};
use xf_tree::{Principal, Seen, Sought};

/// What the forest is asked for where a test is made on an axis.
pub(crate) fn sought_of(axis: Axis, test: &Test) -> Sought<'_>
    ensures { (content : Content) → is_sought result content ≡ meets axis test.now content }
{
    match test {
        Test::Name(name) => Sought::Named(principal_of(axis), name),
        Test::InSpace(space) => Sought::InSpace(principal_of(axis), *space),
        Test::AnyName => Sought::All(principal_of(axis)),
        Test::Text => Sought::Texts,
        Test::Node => Sought::Any,
        Test::Nothing => Sought::Nothing,
    }
}

/// The principal node kind of an axis.
fn principal_of(axis: Axis) -> Principal
    ensures { result ≡ principal_in axis }
{
    match axis {
        Axis::Attribute => Principal::Attribute,
        _ => Principal::Element,
    }
}

/// Whether what a node is meets the test on an axis.
pub fn meets(axis: Axis, test: &Test, content: Seen<'_>) -> bool
    ensures { result ≡ meets axis test.now (seen_content content.entry) }
{
    match test {
        Test::Name(name) => is_principal(axis, content) && has_name(name, content),
        Test::InSpace(space) => is_principal(axis, content) && is_in_space(*space, content),
        Test::AnyName => is_principal(axis, content),
        Test::Text => match content {
            Seen::Text(_) => true,
            _ => false,
        },
        Test::Node => true,
        Test::Nothing => false,
    }
}

/// Whether it is of the principal kind of the axis: attributes on the attribute axis, elements on the others.
fn is_principal(axis: Axis, content: Seen<'_>) -> bool
    ensures { result ≡ is_principal axis (seen_content content.entry) }
{
    match content {
        Seen::Attribute(_, _) => axis == Axis::Attribute,
        Seen::Element(_) => axis != Axis::Attribute,
        _ => false,
    }
}

/// Whether it has a name of this namespace and local part; prefixes do not count.
fn has_name(asked: &QName, content: Seen<'_>) -> bool
    ensures { result ≡ has_name asked.now (name_in (seen_content content.entry)) }
{
    match content {
        Seen::Element(name) | Seen::Attribute(name, _) => {
            asked.space == name.meaning.space && asked.local.is(name.meaning.local.as_str())
        }
        _ => false,
    }
}

fn is_in_space(space: u16, content: Seen<'_>) -> bool
    ensures { result ≡ is_in_space space (name_in (seen_content content.entry)) }
{
    match content {
        Seen::Element(name) | Seen::Attribute(name, _) => space == name.meaning.space,
        _ => false,
    }
}
