//! What binds set: one property of one node.

ghost use Rattle.std.specs.Prelude.{◌≡◌, option_map};
ghost use Rattle.xf_binds.specs.Held.{entry_of, no_seats, seat_of, seats_with};
ghost use Rattle.xf_binds.specs.Placed.{is_calculate_at};

use xf_def_forest::NodeId;
use xf_def_model::Property;

/// A property of one node, with its expression or type, which it has from one attribute of one bind.
#[derive(Clone, Copy, Debug)]
pub struct Entry {
    pub node: NodeId,
    pub property: Property,
    pub bind: u32,
    /// The node's place in the bind's node set, from 1, and how many nodes that has.
    pub position: u32,
    pub size: u32,
}

/// Whether there is an entry, and it is a calculate.
pub fn is_calculate(entry: Option<Entry>) -> bool
    ensures { result ≡ is_calculate_at (option_map entry_of entry) }
{
    match entry {
        Some(entry) => entry.property == Property::Calculate,
        None => false,
    }
}

/// An entry with the truth that its value had, where it had one.
#[derive(Clone, Copy, Debug)]
pub(crate) struct Item {
    pub entry: Entry,
    pub truth: Option<bool>,
}

/// Where the entries of a node stand.
#[derive(Clone, Copy, Debug)]
pub(crate) struct Seats {
    pub kind: Option<usize>,
    pub calculate: Option<usize>,
    pub relevant: Option<usize>,
    pub readonly: Option<usize>,
    pub required: Option<usize>,
    pub constraint: Option<usize>,
}

impl Seats {
    /// Those of a node without entries.
    pub(crate) fn none() -> Self
        ensures { result ≡ no_seats }
    {
        Seats {
            kind: None,
            calculate: None,
            relevant: None,
            readonly: None,
            required: None,
            constraint: None,
        }
    }

    pub(crate) fn at(&self, property: Property) -> Option<usize>
        ensures { result ≡ seat_of self.now property }
    {
        match property {
            Property::Kind => self.kind,
            Property::Calculate => self.calculate,
            Property::Relevant => self.relevant,
            Property::Readonly => self.readonly,
            Property::Required => self.required,
            Property::Constraint => self.constraint,
        }
    }

    pub(crate) fn set(&mut self, property: Property, seat: usize)
        ensures { self.new ≡ seats_with self.old property seat }
    {
        match property {
            Property::Kind => self.kind = Some(seat),
            Property::Calculate => self.calculate = Some(seat),
            Property::Relevant => self.relevant = Some(seat),
            Property::Readonly => self.readonly = Some(seat),
            Property::Required => self.required = Some(seat),
            Property::Constraint => self.constraint = Some(seat),
        }
    }
}
