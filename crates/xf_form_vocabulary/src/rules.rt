//! What the attributes of an element say.

ghost use Rattle.std.specs.Prelude.{◌≡◌};
ghost use Rattle.xf_form_vocabulary.specs.Rules as rules;

use crate::attribute as at;
use crate::classes::{is_action, is_control};
use crate::tag::Tag;
use crate::texts::Choice;

/// The kind of element that an attribute names by its id.
#[derive(Clone, Copy, Debug, PartialEq, Eq)]
pub enum Wanted {
    Model,
    Instance,
    Bind,
    Submission,
    Repeat,
    Case,
    /// A control or container.
    Control,
    Any,
}

// ---- expressions

/// Whether the attribute of a bind is a computed expression.
fn is_property(code: u16) -> bool
    ensures { result ≡ rules.is_property code }
{
    code == at::NODESET
        || code == at::CALCULATE
        || code == at::RELEVANT
        || code == at::READONLY
        || code == at::REQUIRED
        || code == at::CONSTRAINT
}

/// Whether the attribute is a computed expression.
pub fn is_computed(tag: Tag, code: u16) -> bool
    ensures { result ≡ rules.is_computed tag code }
{
    match tag {
        Tag::Bind => is_property(code),
        _ => false,
    }
}

/// Whether the attribute is an expression.
pub fn is_expression(tag: Tag, code: u16) -> bool
    ensures { result ≡ rules.is_expression tag code }
{
    match tag {
        Tag::Bind => is_property(code),
        Tag::Submission => code == at::REF || code == at::TARGET_REF,
        Tag::Repeat => code == at::NODESET,
        Tag::Itemset => code == at::NODESET,
        Tag::Group => code == at::REF,
        Tag::Switch => code == at::REF,
        Tag::Label => code == at::REF,
        Tag::Value => code == at::REF || code == at::VALUE,
        Tag::Output => code == at::REF || code == at::VALUE,
        _ => is_expression_by_class(tag, code),
    }
}

/// Whether the attribute of a core control other than an output, or of an action, is an expression.
fn is_expression_by_class(tag: Tag, code: u16) -> bool
    ensures { result ≡ rules.is_expression_by_class tag code }
{
    if is_control(tag) {
        return code == at::REF;
    }
    is_action(tag) && (code == at::IF || code == at::WHILE || is_expression_of(tag, code))
}

/// Whether the attribute is an expression of this action, but for `if` and `while`.
fn is_expression_of(tag: Tag, code: u16) -> bool
    ensures { result ≡ rules.is_expression_of tag code }
{
    match tag {
        Tag::SetValue => code == at::REF || code == at::VALUE,
        Tag::Insert => code == at::ORIGIN || is_place(code),
        Tag::Delete => is_place(code),
        Tag::SetIndex => code == at::INDEX,
        Tag::Load => code == at::REF,
        Tag::Message => code == at::REF,
        _ => false,
    }
}

/// Whether the attribute says where nodes are inserted or deleted.
fn is_place(code: u16) -> bool
    ensures { result ≡ rules.is_place code }
{
    code == at::NODESET || code == at::CONTEXT || code == at::AT
}

// ---- texts

/// The texts that the attribute may have, where it may not have any.
pub fn choice_of(tag: Tag, is_handler: bool, code: u16) -> Option<Choice>
    ensures { result ≡ rules.choice_of tag is_handler code }
{
    if is_handler && code >= at::EVENTS {
        return choice_of_handler(code);
    }
    match tag {
        Tag::Case => when(code == at::SELECTED, Choice::Truth),
        Tag::Select => when(code == at::SELECTION, Choice::Selection),
        Tag::SelectOne => when(code == at::SELECTION, Choice::Selection),
        Tag::Repeat => when(code == at::START_INDEX, Choice::Count),
        Tag::Model => when(code == at::DECIMALS, Choice::Decimals),
        Tag::Insert => when(code == at::POSITION, Choice::Position),
        Tag::Dispatch => choice_of_dispatch(code),
        Tag::Submission => choice_of_submission(code),
        _ => None,
    }
}

fn when(holds: bool, choice: Choice) -> Option<Choice>
    ensures { result ≡ rules.when holds choice }
{
    if holds { Some(choice) } else { None }
}

fn choice_of_handler(code: u16) -> Option<Choice>
    ensures { result ≡ rules.choice_of_handler code }
{
    if code == at::PHASE {
        return Some(Choice::Phase);
    }
    if code == at::PROPAGATE {
        return Some(Choice::Propagation);
    }
    when(code == at::DEFAULT_ACTION, Choice::DefaultAction)
}

fn choice_of_dispatch(code: u16) -> Option<Choice>
    ensures { result ≡ rules.choice_of_dispatch code }
{
    if code == at::DELAY {
        return Some(Choice::Delay);
    }
    when(code == at::BUBBLES || code == at::CANCELABLE, Choice::Truth)
}

fn choice_of_submission(code: u16) -> Option<Choice>
    ensures { result ≡ rules.choice_of_submission code }
{
    if code == at::METHOD {
        return Some(Choice::Method);
    }
    if code == at::REPLACE {
        return Some(Choice::Replace);
    }
    when(code == at::VALIDATE || code == at::RELEVANT, Choice::Truth)
}

// ---- ids

/// Which kind of element the attribute names, where it names one.
pub fn wanted_of(tag: Tag, is_handler: bool, code: u16) -> Option<Wanted>
    ensures { result ≡ rules.wanted_of tag is_handler code }
{
    if code == at::BIND {
        return if_named(may_bind(tag), Wanted::Bind);
    }
    if code == at::MODEL {
        return if_named(has_model(tag), Wanted::Model);
    }
    if code == at::OBSERVER || code == at::EVENT_TARGET {
        return if_named(is_handler, Wanted::Any);
    }
    match tag {
        Tag::Submission => if_named(code == at::INSTANCE, Wanted::Instance),
        Tag::Submit => if_named(code == at::SUBMISSION, Wanted::Submission),
        Tag::Send => if_named(code == at::SUBMISSION, Wanted::Submission),
        Tag::SetIndex => if_named(code == at::REPEAT, Wanted::Repeat),
        Tag::Toggle => if_named(code == at::CASE, Wanted::Case),
        Tag::SetFocus => if_named(code == at::CONTROL, Wanted::Control),
        Tag::Dispatch => if_named(code == at::TARGET_ID || code == at::TARGET, Wanted::Any),
        _ => None,
    }
}

fn if_named(holds: bool, wanted: Wanted) -> Option<Wanted>
    ensures { result ≡ rules.if_named holds wanted }
{
    if holds { Some(wanted) } else { None }
}

/// Whether it may be bound to the nodes of a bind.
fn may_bind(tag: Tag) -> bool
    ensures { result ≡ rules.may_bind tag }
{
    match tag {
        Tag::Submission => true,
        Tag::Group => true,
        Tag::Switch => true,
        Tag::Repeat => true,
        Tag::Itemset => true,
        Tag::Label => true,
        Tag::Value => true,
        Tag::SetValue => true,
        Tag::Insert => true,
        Tag::Delete => true,
        Tag::Load => true,
        Tag::Message => true,
        _ => is_control(tag),
    }
}

/// Whether it may name a model: an output may not.
fn has_model(tag: Tag) -> bool
    ensures { result ≡ rules.has_model tag }
{
    match tag {
        Tag::Output => false,
        Tag::Group => true,
        Tag::Switch => true,
        Tag::Repeat => true,
        _ => is_control(tag) || is_action(tag),
    }
}
