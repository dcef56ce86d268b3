//! The words of an explanation.

ghost use Rattle.std.specs.Prelude.{◌≡◌};
ghost use Rattle.xf_form_explain.specs.Words as words;

use crate::detail::Need;
use xf_form_vocabulary::attribute::EVENTS;
use xf_form_vocabulary::{Choice, Wanted};
use xf_path::ExprKind;
use xf_table::attributes::rows;

/// The local name of an attribute by its code.
pub fn attribute_name(code: u16) -> &'static str
    ensures { result.now ≡ words.attribute_name code }
{
    match rows().get((code % EVENTS) as usize) {
        Some(row) => row.name,
        None => "",
    }
}

/// The attributes of which an element needs one.
pub fn need_text(need: Need) -> &'static str
    ensures { result.now ≡ words.need_text need }
{
    match need {
        Need::Event => "ev:event",
        Need::Resource => "resource or action",
        Need::Method => "method",
        Need::Nodes => "nodeset or bind",
        Need::Node => "ref or bind",
        Need::Value => "ref, bind or value",
        Need::Source => "ref, bind or resource",
        Need::Repeat => "repeat",
        Need::Index => "index",
        Need::Case => "case",
        Need::Control => "control",
        Need::Name => "name",
        Need::Target => "targetid or target",
    }
}

/// What is wrong with an expression.
pub fn kind_text(kind: ExprKind) -> &'static str
    ensures { result.now ≡ words.kind_text kind }
{
    match kind {
        ExprKind::Syntax => "syntax",
        ExprKind::UnknownFunction => "no such function",
        ExprKind::Arity => "the function takes other arguments",
        ExprKind::ClockOrRandom => "the function depends on the clock or on chance",
        ExprKind::Prefix => "the prefix has no namespace",
        ExprKind::Long => "more than 4096 bytes",
        ExprKind::Deep => "nested more than 64 deep",
    }
}

/// The texts that an attribute may have.
pub fn choice_text(choice: Choice) -> &'static str
    ensures { result.now ≡ words.choice_text choice }
{
    match choice {
        Choice::Truth => "true or false",
        Choice::Method => "put, post or get",
        Choice::Replace => "all, instance, text or none",
        Choice::Selection => "open or closed",
        Choice::Position => "before or after",
        Choice::Phase => "capture or default",
        Choice::Propagation => "stop or continue",
        Choice::DefaultAction => "cancel or perform",
        Choice::Delay => "0",
        Choice::Count => "one to nine digits",
        Choice::Decimals => "one digit",
    }
}

/// The kind of element that an attribute names.
pub fn wanted_text(wanted: Wanted) -> &'static str
    ensures { result.now ≡ words.wanted_text wanted }
{
    match wanted {
        Wanted::Model => "model",
        Wanted::Instance => "instance",
        Wanted::Bind => "bind",
        Wanted::Submission => "submission",
        Wanted::Repeat => "repeat",
        Wanted::Case => "case",
        Wanted::Control => "control or container",
        Wanted::Any => "element",
    }
}

/// What passes a limit, by its word.
pub fn limit_text(word: &str) -> &'static str
    ensures { result.now ≡ words.limit_text word.now }
{
    if word == "counts" {
        return "more than 16 models, 64 instances, 4096 binds, 4096 controls and containers, 256 namespaces or 32768 prefixes";
    }
    if word == "depth" {
        return "an instance nests more than 100 elements deep";
    }
    if word == "nodes" {
        return "the instances have more than 65536 elements, attributes and texts";
    }
    if word == "text" {
        return "a text or an attribute of an instance has more than 65536 bytes";
    }
    "a limit is passed"
}
