//! The data as construction left them (XForms 1.1, section 4.3.7).

ghost use Rattle.std.specs.Prelude.{IfOk, IsTrue, OnOk};
ghost use Rattle.xf_engine_state.specs.FirstData.{AreDocuments, AreOfElements, IsDocument, IsOfElement};

use crate::around::document;
use std::alloc::{AllocError, Global};
use xf_base::Items;
use xf_def_forest::{Bare, BareList, Kind};
use xf_def_syntax::Instance;
use xf_form::{Loaded, lit_at};
use xf_name::Lit;
use xf_tree::Forest;

/// The trees of the document elements of all instances, each of which begins with an element.
pub(crate) fn documents_in(
    alloc: Global,
    loaded: &Loaded,
    forest: &Forest,
) -> Result<BareList, AllocError>
    ensures documents { IfOk result (λ trees. AreDocuments forest.now.forest.nodes trees) }
    ensures elements { OnOk result (AreOfElements loaded.now.lit loaded.now.form.tables.instances) }
{
    let instances = loaded.form.tables.instances.as_slice();
    let mut trees = Vec::new(alloc);
    push_documents(&mut trees, &loaded.lit, instances, forest)?;
    Ok(Items::from_vec(trees))
}

/// Adds those of more instances, of which the first has the place that is next.
fn push_documents(
    trees: &mut Vec<Bare>,
    lit: &Lit,
    instances: &[Instance],
    forest: &Forest,
) -> Result<(), AllocError>
    requires { AreDocuments forest.now.forest.nodes trees.old.items }
    ensures documents { OnOk result (AreDocuments forest.now.forest.nodes trees.new.items) }
    ensures elements { OnOk result (AreOfElements lit.now instances.now) }
{
    if instances.is_empty() {
        return Ok(());
    }
    let place = trees.len();
    if place > u32::MAX as usize || !is_of_element(lit, &instances[0]) {
        // No memory holds so many, and the data of a form are those of elements.
        return Err(AllocError);
    }
    let tree = document_in(forest, place as u32)?;
    trees.push(tree)?;
    push_documents(trees, lit, &instances[1..], forest)
}

/// Whether the data with which an instance begins are those of an element.
fn is_of_element(lit: &Lit, instance: &Instance) -> bool
    ensures { IsTrue result → IsOfElement lit.now instance.now }
{
    let Some(found) = lit_at(lit, instance.place.as_slice()) else {
        return false;
    };
    match found {
        Lit::Element(_) => true,
        Lit::Text(_) => false,
    }
}

/// The tree of the document element of an instance.
fn document_in(forest: &Forest, place: u32) -> Result<Bare, AllocError>
    ensures { IfOk result (λ tree. IsDocument place forest.now.forest.nodes tree) }
{
    let Some(node) = document(forest, place) else {
        // Each instance has a document element when construction has ended.
        return Err(AllocError);
    };
    if !forest.is_live(node) {
        return Err(AllocError);
    }
    match forest.kind(node) {
        Kind::Element => forest.to_bare(node),
        Kind::Root => Err(AllocError),
        Kind::Attribute => Err(AllocError),
        Kind::Text => Err(AllocError),
    }
}
