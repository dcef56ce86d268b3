//! What a node had before its text was set.
use std::marker::Model;
use xf_def_forest::NodeId;
use xf_name::Word;

/// What a node had before its text was set: an attribute's text, or the texts of an element, which stay kept beside the forest.
#[derive(Drop)]
pub struct Before {
    pub(crate) had: Had,
}

/// The text that was taken out, or which texts are kept.
#[derive(Drop)]
pub enum Had {
    Text(Word),
    Texts(Vec<NodeId>),
}

impl Model for Before {
    ghost use Rattle.xf_def_forest.specs.Texts.{Before as Known};

    ghost Value = { Known };

    ghost use Rattle.xf_tree.specs.Calls.{known_of};

    ghost view = { λ b. known_of b.had };
}
