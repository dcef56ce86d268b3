//! What a node has from itself and from those above it (XForms 1.1, sections 6.1.2 and 6.1.4).

ghost use Rattle.std.specs.Prelude.{◌≡◌, ◌&&◌, ◌||◌, false, true};
ghost use Rattle.std.specs.Bool.{OnFalse};
ghost use Rattle.xf_def_forest.specs.Forest.{IsLive};
ghost use Rattle.xf_def_model.specs.declared.property.Property.TheVariants.{Relevant};
ghost use Rattle.xf_def_model.specs.Applied.{is_property};
ghost use Rattle.xf_def_model.specs.Properties.{has_own, own, own_readonly};
ghost use Rattle.xf_binds.specs.Kept.{values_in};
ghost use Rattle.xf_valid.specs.Looks.{AreLooks, IsUnset, is_open};
ghost use Rattle.xf_valid.specs.Nodes.{readonly_in, relevant_in};

use crate::nodes::{own, own_readonly};
use xf_binds::Table;
use xf_def_forest::NodeId;
use xf_def_model::Property;
use xf_tree::Forest;

/// Which of the properties that reach down to other nodes an entry may set: one that none sets is looked for on no node.
#[derive(Clone, Copy, Debug)]
pub(crate) struct Looks {
    pub relevant: bool,
    pub readonly: bool,
    pub calculate: bool,
}

/// What a node has from itself and from all above it.
#[derive(Clone, Copy, Debug)]
pub(crate) struct Inherited {
    pub relevant: bool,
    pub readonly: bool,
}

/// Whether it and all its ancestors are relevant, and whether it or an ancestor is readonly. It costs a look for each of these, up to the
/// one from which nothing can change any more: where no entry sets these properties, there is none. A node that does not stand in the
/// forest has nothing above it.
pub(crate) fn inherited_by(forest: &Forest, table: &Table, node: NodeId) -> Inherited
    ensures relevant { result.relevant ≡ relevant_in table.now forest.now.forest.nodes node.number }
    ensures readonly { result.readonly ≡ readonly_in table.now forest.now.forest.nodes node.number }
{
    let looks = looks_of(table);
    let none = Inherited {
        relevant: true,
        readonly: false,
    };
    let is_open = is_open(looks, none);
    if !is_open {
        return none;
    }
    if !forest.is_live(node) {
        return Inherited {
            relevant: own(table, node, Property::Relevant, true),
            readonly: own_readonly(table, node),
        };
    }
    climbed(forest, table, looks, node)
}

fn looks_of(table: &Table) -> Looks
    ensures { AreLooks table.now result }
{
    Looks {
        relevant: table.sets(Property::Relevant),
        readonly: table.sets(Property::Readonly),
        calculate: table.sets(Property::Calculate),
    }
}

/// The same of a node that stands in the forest: from it up, each parent found once.
fn climbed(forest: &Forest, table: &Table, looks: Looks, node: NodeId) -> Inherited
    requires live { IsLive node.number forest.now.forest }
    requires looks { AreLooks table.now looks }
    ensures relevant { result.relevant ≡ relevant_in table.now forest.now.forest.nodes node.number }
    ensures readonly { result.readonly ≡ readonly_in table.now forest.now.forest.nodes node.number }
{
    forest.are_trees();
    let mut found = Inherited {
        relevant: true,
        readonly: false,
    };
    let mut next = Some(node);
    while let Some(at) = next {
        found = joined(table, looks, found, at);
        let is_open = is_open(looks, found);
        if !is_open {
            return found;
        }
        next = forest.parent(at);
    }
    found
}

/// What was found, with the properties of one node more.
fn joined(table: &Table, looks: Looks, found: Inherited, node: NodeId) -> Inherited
    requires { AreLooks table.now looks }
    ensures relevant { result.relevant ≡ (found.relevant && own (values_in table.now) Relevant true node.number) }
    ensures readonly { result.readonly ≡ (found.readonly || own_readonly (values_in table.now) node.number) }
{
    Inherited {
        relevant: found.relevant
            && own_where(table, looks.relevant, node, Property::Relevant, true),
        readonly: found.readonly || readonly_where(table, looks, node),
    }
}

/// Whether those above a node may change what was found.
fn is_open(looks: Looks, found: Inherited) -> bool
    ensures { result ≡ is_open looks found }
{
    (looks.relevant && found.relevant) || ((looks.readonly || looks.calculate) && !found.readonly)
}

/// The truth that the node's own entry has, looked for where one may set it.
pub(crate) fn own_where(
    table: &Table,
    is_set: bool,
    node: NodeId,
    property: Property,
    default: bool,
) -> bool
    requires computed { is_property property Property.Kind ≡ false }
    requires looks { OnFalse is_set (IsUnset table.now property) }
    ensures { result ≡ own (values_in table.now) property default node.number }
{
    if is_set {
        return own(table, node, property, default);
    }
    default
}

/// A calculate makes its node readonly, unless the node has a readonly entry.
fn readonly_where(table: &Table, looks: Looks, node: NodeId) -> bool
    requires { AreLooks table.now looks }
    ensures { result ≡ own_readonly (values_in table.now) node.number }
{
    let is_calculated = is_calculated(table, looks.calculate, node);
    own_where(
        table,
        looks.readonly,
        node,
        Property::Readonly,
        is_calculated,
    )
}

fn is_calculated(table: &Table, is_set: bool, node: NodeId) -> bool
    requires { OnFalse is_set (IsUnset table.now Property.Calculate) }
    ensures { result ≡ has_own (values_in table.now) Property.Calculate node.number }
{
    if is_set {
        return table.has(node, Property::Calculate);
    }
    false
}
