//! Steps played on a forest, and what they write: a test is a list of steps and the text that it expects.
ghost use Rattle.std.specs.Prelude.{IsTrue};
ghost use Rattle.xf_tree_literals.specs.Print.{MayPrint};

use crate::written::{Part, push_all, push_number, push_tree, tree};
use std::alloc::{AllocError, Global};
use std::mem;
use xf_def_forest::{Bare, Kind, NodeId, NodeList, TreeFault};
use xf_name::{Axis, Prefixes, collect};
use xf_tree::Forest;

/// A change or a question. What it writes is a word: a number, a text or a fault, or `no` where the change may not be made.
#[derive(Clone, Copy)]
pub enum Step<'a> {
    Plant(&'a [Part<'a>]),
    Root(u128),
    Copy(u128),
    Cut(u128),
    /// A node below a parent, at a place.
    Attach(u128, u128, u32),
    /// So many times, a copy of the tree comes first below its top.
    Double(u128, u32),
    /// So many times, a copy of the last tree comes first below its top.
    Nest(u128, u32),
    Set(u128, &'a str),
    /// A text of so many bytes is set.
    Fill(u128, usize),
    /// A text that is set, and undone at once.
    SetAndBack(u128, &'a str),
    Drop,
    DropFrom(u128),
    /// A tree, of which the nodes of these numbers are kept.
    Print(u128, &'a [u128]),
    /// The same out of the bare tree that it is, planted in another forest.
    Bare(u128),
    /// A tree comes once more, out of the bare tree that it is.
    PlantBare(u128),
    Value(u128),
    Path(u128),
    Walk(u128, Axis),
    /// Whether the first node stands before the second one.
    Order(u128, u128),
    Root0,
    Next,
}

/// What a step answers: a word, a number, or two of them with a point between.
#[derive(Clone, Copy)]
enum Answer {
    Word(&'static str),
    Number(u128),
    Pair(u128, u128),
}

/// A forest that is played with.
#[derive(Drop)]
pub struct Stage {
    pub alloc: Global,
    prefixes: Prefixes,
    pub forest: Forest,
    pub words: String,
}

/// What the steps write on an empty forest, with the prefixes that a form declares.
pub fn play(alloc: Global, form: &[Part], steps: &[Step]) -> Result<String, AllocError> {
    let mut stage = Stage::new(alloc, prefixes_of(alloc, form)?);
    let words = stage.play(steps);
    drop(stage);
    words
}

/// The prefixes that a form declares.
pub fn prefixes_of(alloc: Global, form: &[Part]) -> Result<Prefixes, AllocError> {
    let form = tree(alloc, form)?;
    match collect(alloc, &form) {
        Ok(prefixes) => Ok(prefixes),
        Err(_) => Err(AllocError),
    }
}

/// The node with a number, where it is not known whether and where it stands.
fn node(number: u128) -> NodeId {
    NodeId {
        number,
        place: usize::MAX,
    }
}

/// Nodes with these numbers.
fn listed(alloc: Global, numbers: &[u128]) -> Result<NodeList, AllocError> {
    let mut nodes = NodeList::new(alloc);
    for number in numbers {
        nodes.push(node(*number))?;
    }
    Ok(nodes)
}

fn name_of(fault: TreeFault) -> &'static str {
    match fault {
        TreeFault::Memory => "Memory",
        TreeFault::Nodes => "Nodes",
        TreeFault::NodeText => "NodeText",
        TreeFault::AllText => "AllText",
        TreeFault::Depth => "Depth",
        TreeFault::BadName => "BadName",
        TreeFault::Prefix => "Prefix",
    }
}

/// The number of a node that is made, or the fault.
fn number_of(made: Result<NodeId, TreeFault>) -> Answer {
    match made {
        Ok(node) => Answer::Number(node.number),
        Err(fault) => Answer::Word(name_of(fault)),
    }
}

/// Plants a bare tree in a forest of its own. It gives the number of its top, and the next one.
fn planted_apart(alloc: Global, bare: &Bare, prefixes: &Prefixes) -> Answer {
    let mut other = Forest::new(alloc);
    let answer = match other.plant_bare(bare, prefixes) {
        Ok(top) => Answer::Pair(top.number, other.next_number()),
        Err(fault) => Answer::Word(name_of(fault)),
    };
    drop(other);
    answer
}

impl Stage {
    /// An empty forest.
    pub fn new(alloc: Global, prefixes: Prefixes) -> Stage {
        Stage {
            alloc,
            prefixes,
            forest: Forest::new(alloc),
            words: String::new(alloc),
        }
    }

    /// Makes the steps, and gives the words.
    fn play(&mut self, steps: &[Step]) -> Result<String, AllocError> {
        for step in steps {
            self.step(*step)?;
            self.words.push_str(" ")?;
        }
        Ok(mem::replace(&mut self.words, String::new(self.alloc)))
    }

    pub fn step(&mut self, step: Step) -> Result<(), AllocError> {
        let answer = match step {
            Step::Plant(parts) => self.plant(parts)?,
            Step::Root(top) => self.root(node(top)),
            Step::Copy(number) => self.copy(node(number)),
            Step::Cut(number) => self.cut(node(number)),
            Step::Attach(number, parent, place) => self.attach(node(number), node(parent), place),
            Step::Double(top, count) => self.multiply(node(top), count, false),
            Step::Nest(top, count) => self.multiply(node(top), count, true),
            Step::Set(number, text) => self.set(node(number), text),
            Step::Fill(number, count) => self.fill(node(number), count)?,
            Step::SetAndBack(number, text) => self.set_and_back(node(number), text),
            Step::Drop => self.drop_detached(),
            Step::DropFrom(number) => self.drop_from(number),
            Step::Bare(number) => self.bare(node(number))?,
            Step::PlantBare(number) => self.plant_bare(node(number))?,
            _ => return self.ask(step),
        };
        self.say(answer)
    }

    fn ask(&mut self, step: Step) -> Result<(), AllocError> {
        match step {
            Step::Print(number, kept) => self.print(node(number), kept),
            Step::Value(number) => self.value(node(number)),
            Step::Path(number) => self.path(node(number)),
            Step::Walk(number, axis) => self.walk(node(number), axis),
            Step::Order(first, second) => {
                let answer = self.order(node(first), node(second));
                self.say(answer)
            }
            Step::Root0 => {
                let answer = self.root0();
                self.say(answer)
            }
            _ => {
                let answer = self.next();
                self.say(answer)
            }
        }
    }

    fn say(&mut self, answer: Answer) -> Result<(), AllocError> {
        match answer {
            Answer::Word(word) => self.words.push_str(word),
            Answer::Number(number) => push_number(self.alloc, &mut self.words, number),
            Answer::Pair(first, second) => {
                push_number(self.alloc, &mut self.words, first)?;
                self.words.push_str(".")?;
                push_number(self.alloc, &mut self.words, second)
            }
        }
    }

    fn plant(&mut self, parts: &[Part]) -> Result<Answer, AllocError> {
        if self.forest.next_number() >= 1 << 126 {
            return Ok(Answer::Word("no"));
        }
        let lit = tree(self.alloc, parts)?;
        Ok(number_of(self.forest.plant(&lit, &self.prefixes, 0)))
    }

    fn root(&mut self, top: NodeId) -> Answer {
        if self.forest.next_number() >= 1 << 126 || !self.forest.may_root(top) {
            return Answer::Word("no");
        }
        match self.forest.add_root(top) {
            Ok(root) => Answer::Number(root.number),
            Err(_) => Answer::Word("Memory"),
        }
    }

    fn copy(&mut self, node: NodeId) -> Answer {
        if self.forest.next_number() >= 1 << 126 || !self.forest.may_copy(node) {
            return Answer::Word("no");
        }
        number_of(self.forest.copy(node))
    }

    fn cut(&mut self, node: NodeId) -> Answer {
        if !self.forest.may_detach(node) {
            return Answer::Word("no");
        }
        let (parent, place) = self.forest.detach(node);
        Answer::Pair(parent.number, u128::from(place))
    }

    fn attach(&mut self, node: NodeId, parent: NodeId, place: u32) -> Answer {
        if !self.forest.may_attach(node, parent, place) {
            return Answer::Word("no");
        }
        match self.forest.attach(node, parent, place) {
            Ok(()) => Answer::Word("attached"),
            Err(fault) => Answer::Word(name_of(fault)),
        }
    }

    fn multiply(&mut self, top: NodeId, count: u32, nests: bool) -> Answer {
        let mut top = top;
        for _ in 0..count {
            if self.forest.next_number() >= 1 << 126 || !self.forest.may_copy(top) {
                return Answer::Word("no");
            }
            let copied = match self.forest.copy(top) {
                Ok(copied) => copied,
                Err(fault) => return Answer::Word(name_of(fault)),
            };
            self.attach(copied, top, 0);
            if nests {
                top = copied;
            }
        }
        self.next()
    }

    fn next(&self) -> Answer {
        Answer::Number(self.forest.next_number())
    }

    fn set(&mut self, node: NodeId, text: &str) -> Answer {
        if self.forest.next_number() >= 1 << 126 || !self.forest.may_set_text(node) {
            return Answer::Word("no");
        }
        match self.forest.set_text(node, text) {
            Ok(_) => Answer::Word("set"),
            Err(fault) => Answer::Word(name_of(fault)),
        }
    }

    fn fill(&mut self, node: NodeId, count: usize) -> Result<Answer, AllocError> {
        let text = "x".repeat(self.alloc, count)?;
        Ok(self.set(node, text.as_str()))
    }

    fn set_and_back(&mut self, node: NodeId, text: &str) -> Answer {
        if self.forest.next_number() >= 1 << 126 || !self.forest.may_set_text(node) {
            return Answer::Word("no");
        }
        self.forest.are_trees();
        match self.forest.set_text(node, text) {
            Ok(before) => {
                self.forest.put_back(node, before);
                Answer::Word("back")
            }
            Err(fault) => Answer::Word(name_of(fault)),
        }
    }

    fn drop_detached(&mut self) -> Answer {
        self.forest.drop_detached();
        Answer::Word("dropped")
    }

    fn drop_from(&mut self, number: u128) -> Answer {
        if !self.forest.may_drop_from(number) {
            return Answer::Word("no");
        }
        self.forest.drop_from(number);
        Answer::Word("dropped")
    }

    fn print(&mut self, node: NodeId, kept: &[u128]) -> Result<(), AllocError> {
        if !can_print(&self.forest, node) {
            return self.words.push_str("no");
        }
        let kept = listed(self.alloc, kept)?;
        let lit = self.forest.to_lit(node, &self.prefixes, &kept)?;
        push_tree(&mut self.words, &lit)
    }

    fn bare(&mut self, node: NodeId) -> Result<Answer, AllocError> {
        if !can_print(&self.forest, node) {
            return Ok(Answer::Word("no"));
        }
        let bare = self.forest.to_bare(node)?;
        Ok(planted_apart(self.alloc, &bare, &self.prefixes))
    }

    fn plant_bare(&mut self, node: NodeId) -> Result<Answer, AllocError> {
        if self.forest.next_number() >= 1 << 126 || !can_print(&self.forest, node) {
            return Ok(Answer::Word("no"));
        }
        let bare = self.forest.to_bare(node)?;
        Ok(number_of(self.forest.plant_bare(&bare, &self.prefixes)))
    }

    fn value(&mut self, node: NodeId) -> Result<(), AllocError> {
        if !self.forest.is_live(node) {
            return self.words.push_str("none");
        }
        match self.forest.string_value(node, 9)? {
            Some(text) => push_all(&mut self.words, &["'", text.as_str(), "'"]),
            None => self.words.push_str("long"),
        }
    }

    fn path(&mut self, node: NodeId) -> Result<(), AllocError> {
        if !self.forest.is_live(node) {
            return self.words.push_str("none");
        }
        let path = self.forest.path(node)?;
        self.words.push_str(path.as_str())
    }

    fn walk(&mut self, node: NodeId, axis: Axis) -> Result<(), AllocError> {
        if !self.forest.is_live(node) {
            return self.words.push_str("none");
        }
        for found in self.forest.axis(node, axis) {
            push_number(self.alloc, &mut self.words, found.number)?;
            self.words.push_str(",")?;
        }
        Ok(())
    }

    fn order(&self, first: NodeId, second: NodeId) -> Answer {
        if !self.forest.is_live(first) || !self.forest.is_live(second) {
            return Answer::Word("none");
        }
        Answer::Word(if self.forest.before(first, second) {
            "before"
        } else {
            "behind"
        })
    }

    fn root0(&self) -> Answer {
        match self.forest.root(0) {
            Some(root) => Answer::Number(root.number),
            None => Answer::Word("none"),
        }
    }
}

/// Whether the node is an element or a text.
fn can_print(forest: &Forest, node: NodeId) -> bool
    ensures { IsTrue result → MayPrint node.number forest.now.forest }
{
    if !forest.is_live(node) {
        return false;
    }
    match forest.kind(node) {
        Kind::Element => true,
        Kind::Text => true,
        _ => false,
    }
}
