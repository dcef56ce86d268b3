//! Changes that are refused for want of memory.
use crate::played::{Stage, Step, prefixes_of};
use crate::trees::{PLAIN, ROWS};
use crate::written::{push_number, push_value};
use std::alloc::{AllocError, Global};
use std::test::Fail;
use xf_def_forest::NodeId;
use xf_tree::Forest;

// 0 to 6 come as the tree of ROWS, 7 is its root, 8 to 14 are the same tree out of the bare one, 15 to 19 the copy of its row, and
// 20 is the new text of the first row.
const STEPS: [Step<'static>; 7] = [
    Step::Plant(&ROWS),
    Step::Root(0),
    Step::PlantBare(0),
    Step::Copy(9),
    Step::Attach(15, 0, 0),
    Step::Set(1, "new"),
    Step::Set(2, "a longer text"),
];

/// The number of each node, its parent's and its string value, and the next number.
fn written(alloc: Global, forest: &Forest) -> Result<String, AllocError> {
    let mut words = String::new(alloc);
    push_forest(alloc, &mut words, forest)?;
    Ok(words)
}

fn push_forest(alloc: Global, words: &mut String, forest: &Forest) -> Result<(), AllocError> {
    for number in 0..forest.next_number() {
        if let Some(node) = forest.find(number) {
            push_node(alloc, words, forest, node)?;
        }
    }
    push_number(alloc, words, forest.next_number())
}

fn push_node(
    alloc: Global,
    words: &mut String,
    forest: &Forest,
    node: NodeId,
) -> Result<(), AllocError> {
    push_number(alloc, words, node.number)?;
    push_parent(alloc, words, forest, node)?;
    push_value(words, forest, node, " ")
}

fn push_parent(
    alloc: Global,
    words: &mut String,
    forest: &Forest,
    node: NodeId,
) -> Result<(), AllocError> {
    if !forest.is_live(node) {
        return Ok(());
    }
    let Some(parent) = forest.parent(node) else {
        return Ok(());
    };
    words.push_str("<")?;
    push_number(alloc, words, parent.number)
}

/// Makes a change. Where memory is refused, it tells whether the forest is as it was, and makes the change once more.
fn attempt(stage: &mut Stage, step: Step) -> Result<bool, AllocError> {
    let before = written(stage.alloc, &stage.forest)?;
    stage.step(step)?;
    if !stage.words.as_str().ends_with("Memory") {
        return Ok(true);
    }
    let after = written(stage.alloc, &stage.forest)?;
    stage.step(step)?;
    Ok(after.as_str() == before.as_str())
}

/// Makes the changes. It gives what is then written of the forest, behind `changed` for each refusal that did not leave it as it was.
fn attempt_all(stage: &mut Stage) -> Result<String, AllocError> {
    let mut words = String::new(stage.alloc);
    for step in STEPS {
        if !attempt(stage, step)? {
            words.push_str("changed ")?;
        }
    }
    push_forest(stage.alloc, &mut words, &stage.forest)?;
    Ok(words)
}

fn attempted(alloc: Global) -> Result<String, AllocError> {
    let mut stage = Stage::new(alloc, prefixes_of(alloc, &PLAIN)?);
    let words = attempt_all(&mut stage);
    drop(stage);
    words
}

#[test]
fn a_change_without_memory_leaves_the_forest(rt: HostRuntime) -> Result<(), Fail> {
    let words = attempted(rt.alloc())?;
    let want =
        "0<7=12newt 1<0=new 2<1=a longer text 3<1=7 6<0=t 7=12newt 8=12t 9<8=12 10<9=x 11<9=7 12<9=1 13<9=2 14<8=t 15<0=12 16<15=x 17<15=7 18<15=1 19<15=2 20<1=new 21";
    assert_eq!(rt; words.as_str(), want);
    Ok(())
}
