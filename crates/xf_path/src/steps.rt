//! The parts of a step before its predicates (XPath 1.0, sections 2.2 and 2.3), and brackets.

ghost use Rattle.std.specs.Prelude.{◌≡◌};
ghost use Rattle.xf_name.specs.Bindings.{resolved};
ghost use Rattle.xf_name.specs.Part.{at_colon};
ghost use Rattle.xf_path.specs.Reading.{Reads, close, close_square, open_bracket, text_of};
ghost use Rattle.xf_path.specs.Steps as spec;

use crate::fault::{ExprKind, ParseFault};
use crate::token::Kind;
use crate::tokens::Tokens;
use crate::words::{axis_called, type_called};
use std::alloc::Global;
use xf_base::Items;
use xf_def_syntax::{Axis, Step, Test};
use xf_name::{NameFault, Prefixes, Word, at_colon};

// ---- brackets

/// `)`
pub fn close(tokens: &mut Tokens<'_>) -> Result<(), ParseFault>
    ensures { Reads (close tokens.old) result tokens.new }
{
    match tokens.kind() {
        Kind::Close => {
            tokens.take();
            Ok(())
        }
        _ => Err(tokens.fault(ExprKind::Syntax)),
    }
}

/// `]`
pub fn close_square(tokens: &mut Tokens<'_>) -> Result<(), ParseFault>
    ensures { Reads (close_square tokens.old) result tokens.new }
{
    match tokens.kind() {
        Kind::CloseSquare => {
            tokens.take();
            Ok(())
        }
        _ => Err(tokens.fault(ExprKind::Syntax)),
    }
}

/// A bracket opens, where so many more may stand one inside another.
pub fn open_bracket(tokens: &mut Tokens<'_>, depth: u32) -> Result<(), ParseFault>
    ensures { Reads (open_bracket depth tokens.old) result tokens.new }
{
    if depth == 0 {
        return Err(tokens.fault(ExprKind::Deep));
    }
    tokens.take();
    Ok(())
}

// ---- axes

/// The axis of a step.
#[tactic(auto, unfolding(crate::specs::Steps::axis_rule))]
pub fn axis(tokens: &mut Tokens<'_>) -> Result<Axis, ParseFault>
    ensures { Reads (spec.axis_rule tokens.old) result tokens.new }
{
    match tokens.kind() {
        Kind::At => {
            tokens.take();
            Ok(Axis::Attribute)
        }
        Kind::AxisName => named_axis(tokens, axis_called(tokens.text())),
        _ => Ok(Axis::Child),
    }
}

/// The name of an axis and its `::`.
fn named_axis(tokens: &mut Tokens<'_>, named: Option<Axis>) -> Result<Axis, ParseFault>
    ensures { Reads (spec.named_axis named tokens.old) result tokens.new }
{
    match named {
        Some(axis) => {
            tokens.take();
            tokens.take();
            Ok(axis)
        }
        None => Err(tokens.fault(ExprKind::Syntax)),
    }
}

// ---- node tests

/// What a step asks of a node.
#[tactic(auto, unfolding(crate::specs::Steps::node_test))]
pub fn node_test(
    alloc: Global,
    prefixes: &Prefixes,
    tokens: &mut Tokens<'_>,
) -> Result<Test, ParseFault>
    ensures { Reads (spec.node_test prefixes.now tokens.old) result tokens.new }
{
    match tokens.kind() {
        Kind::Name => name_test(prefixes, tokens),
        Kind::SpaceStar => space_test(alloc, prefixes, tokens),
        Kind::Star => {
            tokens.take();
            Ok(Test::AnyName)
        }
        Kind::Called => type_test(tokens),
        _ => Err(tokens.fault(ExprKind::Syntax)),
    }
}

fn name_test(prefixes: &Prefixes, tokens: &mut Tokens<'_>) -> Result<Test, ParseFault>
    ensures { Reads (spec.name_test (resolved prefixes.now (text_of tokens.old) 0) tokens.old) result tokens.new }
{
    match prefixes.resolve(tokens.text(), 0) {
        Ok(name) => {
            tokens.take();
            Ok(Test::Name(name))
        }
        Err(NameFault::Memory) => Err(ParseFault::Memory),
        Err(NameFault::PrefixUnknown) => Err(tokens.fault(ExprKind::Prefix)),
        Err(_) => Err(tokens.fault(ExprKind::Syntax)),
    }
}

/// `p:*`. The namespace is that of a name with the prefix.
fn space_test(
    alloc: Global,
    prefixes: &Prefixes,
    tokens: &mut Tokens<'_>,
) -> Result<Test, ParseFault>
    ensures { Reads (spec.space_named prefixes.now (at_colon (text_of tokens.old)) tokens.old) result tokens.new }
{
    let Some((prefix, _)) = at_colon(tokens.text()) else {
        return Err(tokens.fault(ExprKind::Syntax));
    };
    let mut written = Word::from_str(alloc, prefix)?;
    written.push_str(":_")?;
    match prefixes.resolve(written.as_str(), 0) {
        Ok(name) => {
            tokens.take();
            Ok(Test::InSpace(name.space))
        }
        Err(NameFault::Memory) => Err(ParseFault::Memory),
        Err(NameFault::PrefixUnknown) => Err(tokens.fault(ExprKind::Prefix)),
        Err(_) => Err(tokens.fault(ExprKind::Syntax)),
    }
}

/// A node type and its parentheses.
fn type_test(tokens: &mut Tokens<'_>) -> Result<Test, ParseFault>
    ensures { Reads (spec.type_test (text_of tokens.old) (spec.type_called (text_of tokens.old)) tokens.old) result tokens.new }
{
    let text = tokens.text();
    let Some(test) = type_called(text) else {
        return Err(tokens.fault(ExprKind::Syntax));
    };
    tokens.take();
    tokens.take();
    target(tokens, text == "processing-instruction");
    close(tokens)?;
    Ok(test)
}

/// The name of a processing instruction, where it may stand and does.
#[tactic(auto, unfolding(crate::specs::Steps::target))]
fn target(tokens: &mut Tokens<'_>, may_stand: bool)
    ensures { spec.target may_stand tokens.old ≡ Ok (result, tokens.new) }
{
    if !may_stand {
        return;
    }
    match tokens.kind() {
        Kind::Literal => tokens.take(),
        _ => (),
    }
}

// ---- steps

/// The step that `.` or `..` is.
#[tactic(auto, unfolding(crate::specs::Steps::abbreviated))]
pub fn abbreviated(alloc: Global, tokens: &mut Tokens<'_>, is_below: bool, axis: Axis) -> Step
    ensures { spec.abbreviated is_below axis tokens.old ≡ Ok (result, tokens.new) }
{
    let place = tokens.place();
    tokens.take();
    Step {
        place,
        is_below,
        is_written: false,
        axis,
        test: Test::Node,
        predicates: Items::new(alloc),
    }
}
