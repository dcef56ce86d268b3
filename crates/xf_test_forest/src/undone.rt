//! Steps played on a draft, and what they write: a test is a list of steps and the text that it expects.
use crate::played::prefixes_of;
use crate::written::{Part, push_number, push_value, tree};
use std::alloc::{AllocError, Global};
use std::mem;
use xf_def_forest::{NodeId, TreeFault};
use xf_name::{Axis, Lit, Prefixes};
use xf_tree::Forest;
use xf_undo::Draft;

/// A change, or a look at the forest. What it writes is a word: `no` where a change may not be made.
#[derive(Clone, Copy)]
pub enum Step<'a> {
    Set(u128, &'a str),
    /// A node below a parent, at a place.
    Attach(u128, u128, u32),
    Cut(u128),
    Copy(u128),
    Commit,
    Back,
    /// A tree: each node with its string value, attributes with `@` behind their element; then the next number.
    Show(u128),
}

/// A draft that is played with.
#[derive(Drop)]
struct Stage {
    alloc: Global,
    draft: Draft,
    words: String,
}

const SMALL: [Part<'static>; 9] = [
    Part::Open("d"),
    Part::Open("e"),
    Part::Text("1"),
    Part::Close,
    Part::Open("f"),
    Part::With("a", "y"),
    Part::With("k", "x"),
    Part::Close,
    Part::Close,
];

/// What the steps write on ["d",["e","1"],["f",{"a":"y","k":"x"}]] under a root: 0 is d, 1 e, 2 its text, 3 f, 4 @a, 5 @k, and 6
/// the root.
pub fn play(alloc: Global, steps: &[Step]) -> Result<String, AllocError> {
    let forest = small(alloc)?;
    let mut stage = Stage {
        alloc,
        draft: Draft::new(alloc, forest),
        words: String::new(alloc),
    };
    let words = stage.play(steps);
    drop(stage);
    words
}

fn small(alloc: Global) -> Result<Forest, AllocError> {
    let lit = tree(alloc, &SMALL)?;
    let prefixes = prefixes_of(alloc, &SMALL)?;
    Ok(planted(alloc, &lit, &prefixes))
}

/// A tree under a root. Where memory is wanting there is none, and no step finds its node.
fn planted(alloc: Global, lit: &Lit, prefixes: &Prefixes) -> Forest {
    let mut forest = Forest::new(alloc);
    if let Ok(top) = forest.plant(lit, prefixes, 0) {
        if forest.next_number() < 1 << 126 && forest.may_root(top) {
            let _ = forest.add_root(top);
        }
    }
    forest
}

/// The node with a number, where it is not known whether and where it stands.
fn node(number: u128) -> NodeId {
    NodeId {
        number,
        place: usize::MAX,
    }
}

fn told(made: Result<(), TreeFault>) -> &'static str {
    match made {
        Ok(()) => "made",
        Err(_) => "refused",
    }
}

impl Stage {
    /// Makes the steps, and gives the words.
    fn play(&mut self, steps: &[Step]) -> Result<String, AllocError> {
        for step in steps {
            self.step(*step)?;
            self.words.push_str(" ")?;
        }
        Ok(mem::replace(&mut self.words, String::new(self.alloc)))
    }

    fn step(&mut self, step: Step) -> Result<(), AllocError> {
        let word = match step {
            Step::Set(number, text) => self.set(node(number), text),
            Step::Attach(number, parent, place) => self.attach(node(number), node(parent), place),
            Step::Cut(number) => self.cut(node(number)),
            Step::Copy(number) => return self.copy(node(number)),
            Step::Commit => self.commit(),
            Step::Back => self.back(),
            Step::Show(number) => return self.show(node(number)),
        };
        self.words.push_str(word)
    }

    fn set(&mut self, node: NodeId, text: &str) -> &'static str {
        let forest = self.draft.forest();
        if forest.next_number() >= 1 << 126 || !forest.may_set_text(node) {
            return "no";
        }
        told(self.draft.set_text(node, text))
    }

    fn attach(&mut self, node: NodeId, parent: NodeId, place: u32) -> &'static str {
        if !self.draft.forest().may_attach(node, parent, place) {
            return "no";
        }
        told(self.draft.attach(node, parent, place))
    }

    fn cut(&mut self, node: NodeId) -> &'static str {
        if !self.draft.forest().may_detach(node) {
            return "no";
        }
        match self.draft.detach(node) {
            Ok(()) => "made",
            Err(_) => "refused",
        }
    }

    fn copy(&mut self, node: NodeId) -> Result<(), AllocError> {
        let forest = self.draft.forest();
        if forest.next_number() >= 1 << 126 || !forest.may_copy(node) {
            return self.words.push_str("no");
        }
        match self.draft.copy(node) {
            Ok(top) => push_number(self.alloc, &mut self.words, top.number),
            Err(_) => self.words.push_str("refused"),
        }
    }

    fn commit(&mut self) -> &'static str {
        self.draft.commit();
        "committed"
    }

    fn back(&mut self) -> &'static str {
        self.draft.roll_back();
        "back"
    }

    fn show(&mut self, top: NodeId) -> Result<(), AllocError> {
        let forest = self.draft.forest();
        if !forest.is_live(top) {
            return self.words.push_str("none");
        }
        for node in forest.axis(top, Axis::DescendantOrSelf) {
            push_node(self.alloc, &mut self.words, forest, node, "")?;
            push_attributes(self.alloc, &mut self.words, forest, node)?;
        }
        push_number(self.alloc, &mut self.words, forest.next_number())
    }
}

fn push_attributes(
    alloc: Global,
    words: &mut String,
    forest: &Forest,
    node: NodeId,
) -> Result<(), AllocError> {
    if !forest.is_live(node) {
        return Ok(());
    }
    for attribute in forest.axis(node, Axis::Attribute) {
        push_node(alloc, words, forest, attribute, "@")?;
    }
    Ok(())
}

fn push_node(
    alloc: Global,
    words: &mut String,
    forest: &Forest,
    node: NodeId,
    mark: &str,
) -> Result<(), AllocError> {
    words.push_str(mark)?;
    push_number(alloc, words, node.number)?;
    push_value(words, forest, node, ",")
}
