//! What a bind sets on its nodes, entry by entry.

ghost use Rattle.std.specs.Prelude.{◌≡◌, ℕ, ◌&&◌, ◌∷◌, ◌++◌, List, Some, map, IfOk, OnOk};
ghost use Rattle.std.specs.List.{flat_map};
ghost use Rattle.xf_def_forest.specs.Forest.{IsLive};
ghost use Rattle.xf_def_forest.specs.Shape.{has_elements, shape_of};
ghost use Rattle.xf_eval.specs.Live.{AllLive};
ghost use Rattle.xf_def_model.specs.Applied.{entries_at, entries_on, entry_of, is_property, properties_of, standing_in};
ghost use Rattle.xf_def_model.specs.Rules.{rule_of};
ghost use Rattle.xf_binds.specs.Held.{entries_in};
ghost use Rattle.xf_binds_apply.specs.Adding.{Adds, if_set};
ghost use Rattle.xf_binds_apply.specs.Standing.{AreStandings, first_standing, is_more};

use crate::fault::BindFault;
use crate::nodes::has_elements;
use crate::standings::{Standing, Standings, standing_in};
use std::alloc::{AllocError, Global};
use xf_binds::{Applied, Entry};
use xf_def_forest::{NodeId, NodeList};
use xf_def_model::Property;
use xf_def_syntax::Bind;
use xf_tree::Forest;

/// Adds what a bind sets on its nodes: on one after the other.
pub(crate) fn add_bind(
    alloc: Global,
    applied: &mut Applied,
    forest: &Forest,
    bind: &Bind,
    place: u32,
    sets: &Standings,
    nodes: &NodeList,
) -> Result<(), BindFault>
    requires { AllLive nodes.now forest.now.forest.nodes }
    ensures { (given : List (List ℕ)) → AreStandings sets.now.nodes sets.now.places given → Adds (shape_of forest.now.forest.nodes) (entries_in applied.old) (entries_on place given (properties_of (rule_of bind.now)) nodes.now) (entries_in applied.new) result }
{
    let properties = properties_of(alloc, bind)?;
    for node in nodes.as_slice() {
        match standing_in(&sets.places, node.number) {
            Some(standing) => {
                match add_node(applied, forest, &properties, place, *node, standing) {
                    Ok(()) => continue,
                    Err(e) => return Err(e),
                }
            }
            None => continue,
        }
    }
    Ok(())
}

/// The properties that a bind sets, in the order in which they are applied to a node.
fn properties_of(alloc: Global, bind: &Bind) -> Result<Vec<Property>, AllocError>
    ensures { IfOk result (λ set. set.items ≡ properties_of (rule_of bind.now)) }
{
    let properties = &bind.properties;
    let mut set = Vec::new(alloc);
    push_if(&mut set, properties.kind.is_some(), Property::Kind)?;
    push_if(
        &mut set,
        properties.calculate.is_some(),
        Property::Calculate,
    )?;
    push_if(&mut set, properties.relevant.is_some(), Property::Relevant)?;
    push_if(&mut set, properties.readonly.is_some(), Property::Readonly)?;
    push_if(&mut set, properties.required.is_some(), Property::Required)?;
    push_if(
        &mut set,
        properties.constraint.is_some(),
        Property::Constraint,
    )?;
    Ok(set)
}

fn push_if(set: &mut Vec<Property>, is_set: bool, property: Property) -> Result<(), AllocError>
    ensures { OnOk result (set.new.items ≡ set.old.items ++ if_set is_set property) }
{
    if is_set {
        set.push(property)?;
    }
    Ok(())
}

/// Adds what a bind sets on a node: its properties in their order.
fn add_node(
    applied: &mut Applied,
    forest: &Forest,
    properties: &[Property],
    bind: u32,
    node: NodeId,
    standing: Standing,
) -> Result<(), BindFault>
    requires { IsLive node.number forest.now.forest }
    ensures { (given : List (List ℕ)) → first_standing (flat_map (standing_in node.number) given) ≡ Some standing → Adds (shape_of forest.now.forest.nodes) (entries_in applied.old) (flat_map (entries_at bind given node.number) properties.now) (entries_in applied.new) result }
{
    for property in properties {
        let entry = Entry {
            node,
            property: *property,
            bind,
            position: standing.position,
            size: standing.size,
        };
        match add_entry(applied, forest, entry, standing.is_double) {
            Ok(()) => continue,
            Err(e) => return Err(e),
        }
    }
    Ok(())
}

/// Adds an entry. One whose node stands in several sets comes again at once.
fn add_entry(
    applied: &mut Applied,
    forest: &Forest,
    entry: Entry,
    is_double: bool,
) -> Result<(), BindFault>
    requires { IsLive entry.node.number forest.now.forest }
    ensures { (others : List (ℕ × ℕ)) → is_double ≡ is_more others → Adds (shape_of forest.now.forest.nodes) (entries_in applied.old) (map (entry_of entry.bind entry.property entry.node.number) ((entry.position, entry.size) ∷ others)) (entries_in applied.new) result }
{
    let is_new = applied.add(entry)?;
    if is_new {
        if is_on_parent(forest, entry.node, entry.property) {
            return Err(BindFault::OnParent(entry.node));
        }
        if is_double {
            return Err(BindFault::Twice(entry.node));
        }
        return Ok(());
    }
    Err(BindFault::Twice(entry.node))
}

/// Whether the property is a calculate, and the node has elements in it.
fn is_on_parent(forest: &Forest, node: NodeId, property: Property) -> bool
    requires { IsLive node.number forest.now.forest }
    ensures { result ≡ (is_property property Property.Calculate && has_elements (shape_of forest.now.forest.nodes) node.number) }
{
    if is_calculate(property) {
        return has_elements(forest, node);
    }
    false
}

fn is_calculate(property: Property) -> bool
    ensures { result ≡ is_property property Property.Calculate }
{
    match property {
        Property::Calculate => true,
        _ => false,
    }
}
