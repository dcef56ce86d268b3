//! What surrounds the expressions of a form outside an event.

ghost use Rattle.std.specs.Prelude.{◌≡◌, ◌++◌, option_map, IfOk, OnOk};
ghost use Rattle.xf_def_forest.specs.Changes.{root_of};
ghost use Rattle.xf_def_forest.specs.Forest.{IsLive};
ghost use Rattle.xf_def_forest.specs.Visit.{children_of, first_of, visits};
ghost use Rattle.xf_def_xpath.specs.Given.{document_of};
ghost use Rattle.xf_engine_state.specs.Around.{document_below, documents_by, documents_from, is_meant, numbers_of};

use std::alloc::{AllocError, Global};
use xf_def_forest::NodeId;
use xf_def_syntax::Instance;
use xf_def_xpath::Value;
use xf_eval::Around;
use xf_name::{Axis, Prefixes};
use xf_num::Decimals;
use xf_tree::Forest;

/// What surrounds an expression that sees no index of a repeat, outside an event: the document element of each instance beside it. Binds see
/// none, nor do the controls of a plain form.
#[derive(Clone, Copy)]
pub(crate) struct Quiet<'a> {
    pub instances: &'a [Instance],
    pub prefixes: &'a Prefixes,
    pub decimals: Decimals,
    pub documents: &'a [Option<NodeId>],
}

impl<'a> Around for Quiet<'a> {
    ghost use Rattle.xf_engine_state.specs.Around.{given_by, numbers_of};

    ghost given = { λ q. given_by q.instances.now q.prefixes.now q.decimals (numbers_of q.documents.now) };

    fn instance(&self, model: u32, id: &str) -> Option<NodeId> {
        document_of(self.instances, self.documents, model, id)
    }

    fn index(&self, _id: &str) -> Option<u32> {
        None
    }

    fn event(&self, _name: &str) -> Option<&Value> {
        None
    }

    fn prefixes(&self) -> &Prefixes {
        self.prefixes
    }

    fn decimals(&self) -> Decimals {
        self.decimals
    }
}

/// The document element of the model's instance with this id; the empty id means the first.
fn document_of(
    instances: &[Instance],
    documents: &[Option<NodeId>],
    model: u32,
    id: &str,
) -> Option<NodeId>
    ensures { option_map (λ n. n.number) result ≡ document_of model id.now (documents_by instances.now (numbers_of documents.now)) }
{
    if instances.is_empty() {
        return None;
    }
    if documents.is_empty() {
        return None;
    }
    let document = documents[0];
    let is_meant = is_meant(&instances[0], model, id);
    if document.is_some() && is_meant {
        return document;
    }
    document_of(&instances[1..], &documents[1..], model, id)
}

fn is_meant(instance: &Instance, model: u32, id: &str) -> bool
    ensures { result ≡ is_meant model id.now instance.now }
{
    if instance.model != model {
        return false;
    }
    if id.is_empty() {
        return true;
    }
    instance.id.is(id)
}

/// The document element of each instance, by the number of the instance: none where an instance has none.
pub(crate) fn documents(
    alloc: Global,
    instances: &[Instance],
    forest: &Forest,
) -> Result<Vec<Option<NodeId>>, AllocError>
    ensures all { IfOk result (λ found. numbers_of found.items ≡ documents_from 0 instances.now forest.now.forest.nodes) }
{
    let mut found = Vec::with_capacity(alloc, instances.len())?;
    push_documents(&mut found, 0, instances, forest)?;
    Ok(found)
}

/// Adds those of instances of which the first has this place.
fn push_documents(
    found: &mut Vec<Option<NodeId>>,
    place: u32,
    instances: &[Instance],
    forest: &Forest,
) -> Result<(), AllocError>
    ensures { OnOk result (numbers_of found.new.items ≡ numbers_of found.old.items ++ documents_from place instances.now forest.now.forest.nodes) }
{
    if instances.is_empty() {
        return Ok(());
    }
    if place == u32::MAX {
        return Err(AllocError);
    }
    found.push(document(forest, place))?;
    push_documents(found, place + 1, &instances[1..], forest)
}

/// The document element of an instance.
pub(crate) fn document(forest: &Forest, instance: u32) -> Option<NodeId>
    ensures { option_map (λ n. n.number) result ≡ document_below forest.now.forest.nodes (root_of instance forest.now.forest.nodes) }
{
    match forest.root(instance) {
        Some(root) => first_child(forest, root),
        None => None,
    }
}

fn first_child(forest: &Forest, node: NodeId) -> Option<NodeId>
    requires { IsLive node.number forest.now.forest }
    ensures { option_map (λ n. n.number) result ≡ first_of (children_of node.number (visits forest.now.forest.nodes)) }
{
    let mut walk = forest.axis(node, Axis::Child);
    walk.next()
}
