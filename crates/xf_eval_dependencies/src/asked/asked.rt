//! What an expression asks of the data (XForms 1.1, appendix C): the nodes whose string values it reads, and the lists that it looks at.

ghost use Rattle.std.specs.Prelude.{◌≡◌, ◌||◌, [], true, filter, List, IfOk};
ghost use Rattle.std.specs.List.{list_all};
ghost use Rattle.xf_def_forest.specs.declared.content.Node.{Node};
ghost use Rattle.xf_def_xpath.specs.Asked.{as_plain, as_set, as_truth, asked_first, both, plainly, tightly, with_read};
ghost use Rattle.xf_def_xpath.specs.Asked as lang;
ghost use Rattle.xf_def_xpath.specs.AskedCalls.{asked_by_both, beside, computed, either};
ghost use Rattle.xf_def_xpath.specs.Setting.{Setting};
ghost use Rattle.xf_eval_shape.specs.Spots.{AreSpots, numbers_at, shaped};
ghost use Rattle.xf_eval_shape.specs.Woven.{is_shown};
ghost use Rattle.xf_eval_dependencies.specs.Asked.Tells.{Stands, Tells, first_spots, is_list};

use crate::asked::lists::{push_below, push_read};
use std::alloc::{AllocError, Global};
use xf_def_forest::NodeList;
use xf_eval::append;
use xf_eval_shape::{Spot, in_order, is_sound};
use xf_tree::Forest;

/// What an expression asks, taken as a whole.
#[derive(Drop)]
pub struct Asked {
    /// The nodes that it can give; a plain value has none.
    pub set: Vec<Spot>,
    /// Whether the set only covers what it gives.
    pub is_loose: bool,
    /// Whether its value is a truth by its syntax.
    pub is_truth: bool,
    /// The nodes that are read, and those whose list is looked at, in any order, some more than once.
    pub reads: NodeList,
    pub looks: NodeList,
}

/// A plain value that asks nothing.
pub fn nothing(alloc: Global) -> Asked
    ensures tells { (nodes : List Node) → Tells nodes result (plainly [] []) }
    ensures stands { (nodes : List Node) → Stands nodes result }
{
    Asked {
        set: Vec::new(alloc),
        is_loose: false,
        is_truth: false,
        reads: NodeList::new(alloc),
        looks: NodeList::new(alloc),
    }
}

/// Exactly these nodes.
pub fn tightly(alloc: Global, set: Vec<Spot>) -> Asked
    ensures tells { (nodes : List Node) → Tells nodes result (tightly (numbers_at set.items)) }
    ensures stands { (nodes : List Node) → AreSpots nodes set.items → Stands nodes result }
{
    Asked {
        set,
        is_loose: false,
        is_truth: false,
        reads: NodeList::new(alloc),
        looks: NodeList::new(alloc),
    }
}

/// A plain value for which both are asked.
pub fn both(alloc: Global, one: Asked, other: Asked) -> Result<Asked, AllocError>
    ensures tells { IfOk result (λ told. (nodes : List Node) (a b : lang.Asked) → Tells nodes one a → Tells nodes other b → Tells nodes told (both a b)) }
    ensures stands { IfOk result (λ told. (nodes : List Node) → Stands nodes one → Stands nodes other → Stands nodes told) }
{
    let mut reads = one.reads;
    let mut looks = one.looks;
    append(&mut reads, &other.reads)?;
    append(&mut looks, &other.looks)?;
    Ok(Asked {
        set: Vec::new(alloc),
        is_loose: false,
        is_truth: false,
        reads,
        looks,
    })
}

/// A truth for which the same is asked.
pub fn as_truth(alloc: Global, asked: Asked) -> Asked
    ensures tells { (nodes : List Node) (a : lang.Asked) → Tells nodes asked a → Tells nodes result (as_truth a) }
    ensures stands { (nodes : List Node) → Stands nodes asked → Stands nodes result }
{
    Asked {
        set: Vec::new(alloc),
        is_loose: false,
        is_truth: true,
        reads: asked.reads,
        looks: asked.looks,
    }
}

/// A set for which the same is asked.
pub fn as_set(asked: Asked) -> Asked
    ensures tells { (nodes : List Node) (a : lang.Asked) → Tells nodes asked a → Tells nodes result (as_set a) }
    ensures stands { (nodes : List Node) → Stands nodes asked → Stands nodes result }
{
    Asked {
        set: asked.set,
        is_loose: asked.is_loose,
        is_truth: false,
        reads: asked.reads,
        looks: asked.looks,
    }
}

/// A plain value for which the same is asked.
pub fn as_plain(alloc: Global, asked: Asked) -> Asked
    ensures tells { (nodes : List Node) (a : lang.Asked) → Tells nodes asked a → Tells nodes result (as_plain a) }
    ensures stands { (nodes : List Node) → Stands nodes asked → Stands nodes result }
{
    Asked {
        set: Vec::new(alloc),
        is_loose: false,
        is_truth: false,
        reads: asked.reads,
        looks: asked.looks,
    }
}

/// A plain value for which the same is asked, and the string values of these nodes too.
fn with_read(
    alloc: Global,
    forest: &Forest,
    spots: &[Spot],
    reads: NodeList,
    looks: NodeList,
) -> Result<Asked, AllocError>
    requires spots { AreSpots forest.now.forest.nodes spots.now }
    requires reads { list_all (is_shown forest.now.forest.nodes) reads ≡ true }
    ensures tells { IfOk result (λ told. (a : lang.Asked) → reads ≡ a.reads → looks ≡ filter (is_list forest.now.forest.nodes) a.looks → Tells forest.now.forest.nodes told (with_read (shaped forest.now.forest.nodes) (numbers_at spots.now) a)) }
    ensures stands { IfOk result (λ told. Stands forest.now.forest.nodes told) }
{
    is_sound(forest);
    let mut reads = reads;
    let mut looks = looks;
    for spot in spots {
        push_read(forest, *spot, &mut reads)?;
        push_below(forest, *spot, &mut looks)?;
    }
    Ok(Asked {
        set: Vec::new(alloc),
        is_loose: false,
        is_truth: false,
        reads,
        looks,
    })
}

/// Where a text or number is made of it: the first node is asked, of a loose set each node.
pub fn converted(alloc: Global, forest: &Forest, asked: Asked) -> Result<Asked, AllocError>
    requires { Stands forest.now.forest.nodes asked }
    ensures tells { IfOk result (λ told. (a : lang.Asked) → Tells forest.now.forest.nodes asked a → Tells forest.now.forest.nodes told (with_read (shaped forest.now.forest.nodes) (asked_first a.is_loose a.set) a)) }
    ensures stands { IfOk result (λ told. Stands forest.now.forest.nodes told) }
{
    let Asked {
        set,
        is_loose,
        is_truth: _,
        reads,
        looks,
    } = asked;
    with_read(alloc, forest, asked_first(is_loose, &set), reads, looks)
}

/// The nodes of which the string value is asked.
fn asked_first(is_loose: bool, set: &[Spot]) -> &[Spot]
    ensures { result.now ≡ first_spots is_loose set.now }
{
    if is_loose || set.is_empty() {
        set
    } else {
        &set[..1]
    }
}

/// The string values of all its nodes are asked.
pub fn all_read(alloc: Global, forest: &Forest, asked: Asked) -> Result<Asked, AllocError>
    requires { Stands forest.now.forest.nodes asked }
    ensures tells { IfOk result (λ told. (a : lang.Asked) → Tells forest.now.forest.nodes asked a → Tells forest.now.forest.nodes told (with_read (shaped forest.now.forest.nodes) a.set a)) }
    ensures stands { IfOk result (λ told. Stands forest.now.forest.nodes told) }
{
    let Asked {
        set,
        is_loose: _,
        is_truth: _,
        reads,
        looks,
    } = asked;
    with_read(alloc, forest, &set, reads, looks)
}

/// Of two sets one of them, or both together.
pub fn either(alloc: Global, forest: &Forest, one: Asked, other: Asked) -> Result<Asked, AllocError>
    requires one { Stands forest.now.forest.nodes one }
    requires other { Stands forest.now.forest.nodes other }
    ensures tells { IfOk result (λ told. (s : Setting) → s.all ≡ shaped forest.now.forest.nodes → (a b : lang.Asked) → Tells forest.now.forest.nodes one a → Tells forest.now.forest.nodes other b → Tells forest.now.forest.nodes told (either s a b)) }
    ensures stands { IfOk result (λ told. Stands forest.now.forest.nodes told) }
{
    let is_loose = is_one(one.is_loose, other.is_loose);
    let mut set = one.set;
    set.extend_from_slice(&other.set)?;
    let mut reads = one.reads;
    let mut looks = one.looks;
    append(&mut reads, &other.reads)?;
    append(&mut looks, &other.looks)?;
    Ok(Asked {
        set: in_order(alloc, forest, &set)?,
        is_loose,
        is_truth: false,
        reads,
        looks,
    })
}

fn is_one(one: bool, other: bool) -> bool
    ensures { result ≡ (one || other) }
{
    one || other
}

/// What both sides of an operator on numbers ask.
pub fn computed(
    alloc: Global,
    forest: &Forest,
    one: Asked,
    other: Asked,
) -> Result<Asked, AllocError>
    requires one { Stands forest.now.forest.nodes one }
    requires other { Stands forest.now.forest.nodes other }
    ensures tells { IfOk result (λ told. (s : Setting) → s.all ≡ shaped forest.now.forest.nodes → (a b : lang.Asked) → Tells forest.now.forest.nodes one a → Tells forest.now.forest.nodes other b → Tells forest.now.forest.nodes told (computed s a b)) }
    ensures stands { IfOk result (λ told. Stands forest.now.forest.nodes told) }
{
    let one = converted(alloc, forest, one)?;
    let other = converted(alloc, forest, other)?;
    both(alloc, one, other)
}

/// What both sides of a comparison ask: beside a truth a set is no more than empty or not.
pub fn compared(
    alloc: Global,
    forest: &Forest,
    one: Asked,
    other: Asked,
) -> Result<Asked, AllocError>
    requires one { Stands forest.now.forest.nodes one }
    requires other { Stands forest.now.forest.nodes other }
    ensures tells { IfOk result (λ told. (s : Setting) → s.all ≡ shaped forest.now.forest.nodes → (a b : lang.Asked) → Tells forest.now.forest.nodes one a → Tells forest.now.forest.nodes other b → Tells forest.now.forest.nodes told (asked_by_both s a b)) }
    ensures stands { IfOk result (λ told. Stands forest.now.forest.nodes told) }
{
    let one_is_truth = one.is_truth;
    let first = beside(alloc, forest, other.is_truth, one)?;
    let second = beside(alloc, forest, one_is_truth, other)?;
    let asked = both(alloc, first, second)?;
    Ok(as_truth(alloc, asked))
}

fn beside(alloc: Global, forest: &Forest, is_truth: bool, asked: Asked) -> Result<Asked, AllocError>
    requires { Stands forest.now.forest.nodes asked }
    ensures tells { IfOk result (λ told. (s : Setting) → s.all ≡ shaped forest.now.forest.nodes → (a : lang.Asked) → Tells forest.now.forest.nodes asked a → Tells forest.now.forest.nodes told (beside s is_truth a)) }
    ensures stands { IfOk result (λ told. Stands forest.now.forest.nodes told) }
{
    if is_truth {
        return Ok(asked);
    }
    all_read(alloc, forest, asked)
}
