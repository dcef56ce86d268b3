//! Where the copies of an insert go (XForms 1.1, section 10.3).

use xf_base::Items;
use xf_def_forest::{NodeId, NodeList};

/// Where one copy goes, the copies before it standing.
#[derive(Drop)]
pub struct Place {
    /// The node that is copied.
    pub origin: NodeId,
    pub parent: NodeId,
    /// How many children of the parent come before it.
    pub place: usize,
    /// The node that it replaces.
    pub replaces: Option<NodeId>,
    /// Of the places before, from 0, the one whose copy it replaces.
    pub again: Option<usize>,
}

/// Places, in the order in which the copies are made.
pub type PlaceList = Items<Place>;

/// An insert once its expressions are evaluated.
#[derive(Drop)]
pub struct Inserting {
    pub is_before: bool,
    /// What is told as its place.
    pub location: NodeList,
    pub places: PlaceList,
}
