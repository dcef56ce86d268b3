//! What a call asks: its arguments, by the function.

ghost use Rattle.std.specs.Prelude.{◌≡◌, ◌∷◌, ◌++◌, [], true, IfOk, OnOk, map, option_map};
ghost use Rattle.std.specs.List.{flat_map, list_all};
ghost use Rattle.xf_def_forest.specs.Forest.{IsLive};
ghost use Rattle.xf_def_xpath.specs.Asked as lang;
ghost use Rattle.xf_def_xpath.specs.Asked.{converted, list_around, tightly};
ghost use Rattle.xf_def_xpath.specs.AskedCalls.{all_converted, argument, own_argument};
ghost use Rattle.xf_def_xpath.specs.Binding.{as_list};
ghost use Rattle.xf_def_xpath.specs.Meaning.{focus_of};
ghost use Rattle.xf_def_xpath.specs.Reads.{trace};
ghost use Rattle.xf_def_xpath.specs.Setting.{Setting};
ghost use Rattle.xf_eval.specs.Live.{AllLive, IsReady};
ghost use Rattle.xf_eval_shape.specs.Fixed.{is_fixed};
ghost use Rattle.xf_eval_shape.specs.Over.{shape_at};
ghost use Rattle.xf_eval_shape.specs.Spots.{shaped};
ghost use Rattle.xf_eval_dependencies.specs.Asked.Tells.{Stands, Tells};
ghost use Rattle.xf_eval_dependencies.specs.Ways.{asked_by, part_asked, with_lists};

use crate::asked::{
    Asked, all_read, as_plain, as_truth, both, computed, converted, either, nothing, push_around,
    tightly,
};
use crate::expression::asked_of;
use crate::ways::{Part, Way};
use std::alloc::{AllocError, Global};
use xf_def_forest::{NodeId, NodeList};
use xf_def_syntax::Expr;
use xf_def_xpath::Context;
use xf_eval::Around;
use xf_eval_shape::{alone, document, entered, is_sound};
use xf_tree::Forest;

/// What a call asks.
#[cycle(asks)]
pub(crate) fn call_asked<A: Around>(
    alloc: Global,
    forest: &Forest,
    around: &A,
    way: Way,
    arguments: &[Expr],
    context: &Context,
) -> Result<Asked, AllocError>
    requires fixed { list_all is_fixed arguments.now ≡ true }
    requires ready { IsReady (A.given around.now) forest.now.forest.nodes context.now }
    ensures tells { IfOk result (λ told. Tells forest.now.forest.nodes told (asked_by way (A.given around.now) context.now arguments.now (shape_at (A.given around.now) forest.now.forest.nodes context.now) (focus_of context.now))) }
    ensures stands { IfOk result (λ told. Stands forest.now.forest.nodes told) }
{
    match way {
        Way::Nothing => Ok(nothing(alloc)),
        Way::Truth => Ok(as_truth(alloc, nothing(alloc))),
        Way::Current => node_asked(alloc, forest, context.current),
        Way::All => all_converted(alloc, forest, around, arguments, context),
        Way::Asking => {
            let asked = all_converted(alloc, forest, around, arguments, context)?;
            Ok(as_truth(alloc, asked))
        }
        Way::Instance => {
            let asked = all_converted(alloc, forest, around, arguments, context)?;
            with_document(alloc, forest, document(around, arguments, context), asked)
        }
        Way::Choosing => chosen(alloc, forest, around, arguments, context),
        Way::Branching => branched(alloc, forest, around, arguments, context),
        Way::Own(made) => {
            let asked = own_argument(alloc, forest, around, arguments, context)?;
            part_asked(alloc, forest, made, asked)
        }
        Way::One(made) => {
            let asked = argument(alloc, forest, around, arguments, 0, context)?;
            part_asked(alloc, forest, made, asked)
        }
    }
}

/// Exactly this node.
fn node_asked(alloc: Global, forest: &Forest, node: NodeId) -> Result<Asked, AllocError>
    requires { IsLive node.number forest.now.forest }
    ensures tells { IfOk result (λ told. Tells forest.now.forest.nodes told (tightly (node.number ∷ []))) }
    ensures stands { IfOk result (λ told. Stands forest.now.forest.nodes told) }
{
    let set = alone(alloc, forest, Some(node))?;
    Ok(tightly(alloc, set))
}

/// A document element is asked by the list in which it stands.
fn with_document(
    alloc: Global,
    forest: &Forest,
    element: Option<NodeId>,
    asked: Asked,
) -> Result<Asked, AllocError>
    requires live { AllLive (as_list (option_map (λ n. n.number) element)) forest.now.forest.nodes }
    requires stands { Stands forest.now.forest.nodes asked }
    ensures tells { IfOk result (λ told. (s : Setting) → s.all ≡ shaped forest.now.forest.nodes → (a : lang.Asked) → Tells forest.now.forest.nodes asked a → Tells forest.now.forest.nodes told (with_lists s (as_list (option_map (λ n. n.number) element)) a)) }
    ensures stands { IfOk result (λ told. Stands forest.now.forest.nodes told) }
{
    is_sound(forest);
    let reads = asked.reads;
    let mut looks = asked.looks;
    push_lists(forest, element, &mut looks)?;
    Ok(Asked {
        set: alone(alloc, forest, element)?,
        is_loose: false,
        is_truth: false,
        reads,
        looks,
    })
}

/// Puts the list in which the node stands behind the others, where there is one.
fn push_lists(forest: &Forest, node: Option<NodeId>, looks: &mut NodeList) -> Result<(), AllocError>
    requires { AllLive (as_list (option_map (λ n. n.number) node)) forest.now.forest.nodes }
    ensures { OnOk result (looks.new ≡ looks.old ++ flat_map (list_around (shaped forest.now.forest.nodes)) (as_list (option_map (λ n. n.number) node))) }
{
    match node {
        Some(node) => push_around(forest, entered(forest, node), looks),
        None => Ok(()),
    }
}

/// What is made of what one argument asks.
fn part_asked(alloc: Global, forest: &Forest, made: Part, asked: Asked) -> Result<Asked, AllocError>
    requires { Stands forest.now.forest.nodes asked }
    ensures tells { IfOk result (λ told. (s : Setting) → s.all ≡ shaped forest.now.forest.nodes → (a : lang.Asked) → Tells forest.now.forest.nodes asked a → Tells forest.now.forest.nodes told (part_asked made s a)) }
    ensures stands { IfOk result (λ told. Stands forest.now.forest.nodes told) }
{
    match made {
        Part::Truth => Ok(as_truth(alloc, asked)),
        Part::Plain => Ok(as_plain(alloc, asked)),
        Part::First => converted(alloc, forest, asked),
        Part::Each => all_read(alloc, forest, asked),
    }
}

/// A condition and both branches, for one of these.
#[cycle(asks)]
fn chosen<A: Around>(
    alloc: Global,
    forest: &Forest,
    around: &A,
    arguments: &[Expr],
    context: &Context,
) -> Result<Asked, AllocError>
    requires fixed { list_all is_fixed arguments.now ≡ true }
    requires ready { IsReady (A.given around.now) forest.now.forest.nodes context.now }
    ensures tells { IfOk result (λ told. Tells forest.now.forest.nodes told (asked_by Way.Choosing (A.given around.now) context.now arguments.now (shape_at (A.given around.now) forest.now.forest.nodes context.now) (focus_of context.now))) }
    ensures stands { IfOk result (λ told. Stands forest.now.forest.nodes told) }
{
    let condition = argument(alloc, forest, around, arguments, 0, context)?;
    let one = argument(alloc, forest, around, arguments, 1, context)?;
    let other = argument(alloc, forest, around, arguments, 2, context)?;
    let branches = either(alloc, forest, one, other)?;
    either(alloc, forest, as_plain(alloc, condition), branches)
}

/// A condition and both branches, for a text of one of these.
#[cycle(asks)]
fn branched<A: Around>(
    alloc: Global,
    forest: &Forest,
    around: &A,
    arguments: &[Expr],
    context: &Context,
) -> Result<Asked, AllocError>
    requires fixed { list_all is_fixed arguments.now ≡ true }
    requires ready { IsReady (A.given around.now) forest.now.forest.nodes context.now }
    ensures tells { IfOk result (λ told. Tells forest.now.forest.nodes told (asked_by Way.Branching (A.given around.now) context.now arguments.now (shape_at (A.given around.now) forest.now.forest.nodes context.now) (focus_of context.now))) }
    ensures stands { IfOk result (λ told. Stands forest.now.forest.nodes told) }
{
    let condition = argument(alloc, forest, around, arguments, 0, context)?;
    let one = argument(alloc, forest, around, arguments, 1, context)?;
    let other = argument(alloc, forest, around, arguments, 2, context)?;
    let branches = computed(alloc, forest, one, other)?;
    both(alloc, condition, branches)
}

/// The argument at a place from 0; nothing where none is written.
#[cycle(asks)]
fn argument<A: Around>(
    alloc: Global,
    forest: &Forest,
    around: &A,
    arguments: &[Expr],
    at: usize,
    context: &Context,
) -> Result<Asked, AllocError>
    requires fixed { list_all is_fixed arguments.now ≡ true }
    requires ready { IsReady (A.given around.now) forest.now.forest.nodes context.now }
    ensures tells { IfOk result (λ told. Tells forest.now.forest.nodes told (argument at (map trace arguments.now) (shape_at (A.given around.now) forest.now.forest.nodes context.now) (focus_of context.now))) }
    ensures stands { IfOk result (λ told. Stands forest.now.forest.nodes told) }
{
    match arguments.get(at) {
        Some(argument) => asked_of(alloc, forest, around, argument, context),
        None => Ok(nothing(alloc)),
    }
}

/// The first argument, or the context node where none is written.
#[cycle(asks)]
fn own_argument<A: Around>(
    alloc: Global,
    forest: &Forest,
    around: &A,
    arguments: &[Expr],
    context: &Context,
) -> Result<Asked, AllocError>
    requires fixed { list_all is_fixed arguments.now ≡ true }
    requires ready { IsReady (A.given around.now) forest.now.forest.nodes context.now }
    ensures tells { IfOk result (λ told. Tells forest.now.forest.nodes told (own_argument (map trace arguments.now) (shape_at (A.given around.now) forest.now.forest.nodes context.now) (focus_of context.now))) }
    ensures stands { IfOk result (λ told. Stands forest.now.forest.nodes told) }
{
    match arguments.first() {
        Some(argument) => asked_of(alloc, forest, around, argument, context),
        None => node_asked(alloc, forest, context.node),
    }
}

/// All arguments, each as a text or number is made of it.
#[cycle(asks)]
fn all_converted<A: Around>(
    alloc: Global,
    forest: &Forest,
    around: &A,
    arguments: &[Expr],
    context: &Context,
) -> Result<Asked, AllocError>
    requires fixed { list_all is_fixed arguments.now ≡ true }
    requires ready { IsReady (A.given around.now) forest.now.forest.nodes context.now }
    ensures tells { IfOk result (λ told. Tells forest.now.forest.nodes told (all_converted (map trace arguments.now) (shape_at (A.given around.now) forest.now.forest.nodes context.now) (focus_of context.now))) }
    ensures stands { IfOk result (λ told. Stands forest.now.forest.nodes told) }
{
    let mut all = nothing(alloc);
    for argument in arguments {
        let one = one_converted(alloc, forest, around, argument, context)?;
        all = both(alloc, all, one)?;
    }
    Ok(all)
}

/// A part of which a text or number is made.
#[cycle(asks)]
pub(crate) fn one_converted<A: Around>(
    alloc: Global,
    forest: &Forest,
    around: &A,
    argument: &Expr,
    context: &Context,
) -> Result<Asked, AllocError>
    requires fixed { is_fixed argument.now ≡ true }
    requires ready { IsReady (A.given around.now) forest.now.forest.nodes context.now }
    ensures tells { IfOk result (λ told. Tells forest.now.forest.nodes told (converted (shape_at (A.given around.now) forest.now.forest.nodes context.now) ((trace argument.now).asked (shape_at (A.given around.now) forest.now.forest.nodes context.now) (focus_of context.now)))) }
    ensures stands { IfOk result (λ told. Stands forest.now.forest.nodes told) }
{
    let asked = asked_of(alloc, forest, around, argument, context)?;
    converted(alloc, forest, asked)
}
