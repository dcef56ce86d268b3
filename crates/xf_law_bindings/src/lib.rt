//! What elements bind is the same over data that differ in texts alone, where it names nodes by where they stand. The function does nothing: its
//! contract is a law.
#![tactic(auto)]

ghost use Rattle.xf_law_bindings.specs.OneShape.{NodeStands, NodeStays};

/// The node that an element binds is the same over two forests of one shape, and stands in both.
pub fn one_shape()
    ensures stays { NodeStays }
    ensures stands { NodeStands }
{}
