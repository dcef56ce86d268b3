//! What the elements around an element give it.

ghost use Rattle.std.specs.Prelude.{◌≡◌, List, option_map};
ghost use Rattle.xf_def_forest.specs.declared.content.Node.{Node};
ghost use Rattle.xf_eval.specs.Live.{AroundStands};
ghost use Rattle.xf_def_ui.specs.Around.{alone};
ghost use Rattle.xf_def_ui.specs.Context as context;
ghost use Rattle.xf_def_ui.specs.Interface.{sort_of};
ghost use Rattle.xf_form_elements.specs.Bound.{seen_bound};
ghost use Rattle.xf_controls.specs.Handed.{first_handed, place_below, place_for};
ghost use Rattle.xf_controls.specs.declared.handed.Place.TheVariants.{Free};
ghost use Rattle.xf_controls.specs.Seen.{IsThere, node_of_place, number, seen_handed, seen_place};
ghost use Rattle.xf_controls.specs.Surrounded.{around_in};

use xf_def_forest::NodeId;
use xf_def_syntax::{Kind, Tables};
use xf_eval::Around;
use xf_form_elements::Bound;
use xf_tree::Forest;

/// The node that the elements around give.
#[derive(Clone, Copy, Debug)]
pub(crate) enum Place {
    /// None of them has a binding.
    Free,
    /// The nearest one that has a binding selects nothing.
    Lost,
    On(NodeId),
}

/// What the elements around an element give it.
#[derive(Clone, Copy, Debug)]
pub(crate) struct Handed {
    /// The model in scope.
    pub model: u32,
    pub place: Place,
    /// Each container among them binds nothing or a relevant node.
    pub is_open: bool,
}

/// What the root of a form has around it.
pub(crate) fn nothing_around() -> Handed
    ensures value { seen_handed result ≡ first_handed }
    ensures place { result.place ≡ Free }
{
    Handed {
        model: 0,
        place: Place::Free,
        is_open: true,
    }
}

/// The context node of what stands at a place.
pub(crate) fn focus_in<A: Around>(
    forest: &Forest,
    tables: &Tables,
    around: &A,
    model: u32,
    place: Place,
) -> Option<NodeId>
    requires around { AroundStands (A.given around.now) forest.now.forest.nodes }
    requires place { IsThere (node_of_place place) forest.now.forest.nodes }
    ensures value { option_map (λ n. alone n.number) result ≡ context.focus_in (around_in (A.given around.now) tables.now forest.now.forest.nodes) model (seen_place place) }
    ensures live { IsThere result forest.now.forest.nodes }
{
    match place {
        Place::Free => around.instance(model, ""),
        Place::Lost => None,
        Place::On(node) => Some(node),
    }
}

/// A submission has nothing around it.
pub(crate) fn place_for(kind: &Kind, place: Place) -> Place
    ensures value { seen_place result ≡ place_for (sort_of kind.now) (seen_place place) }
    ensures live { (nodes : List Node) → IsThere (node_of_place place) nodes → IsThere (node_of_place result) nodes }
{
    match kind {
        Kind::Model(_) | Kind::Instance(_) | Kind::Bind(_) | Kind::Submission(_) => Place::Free,
        _ => place,
    }
}

/// What stands in an element that binds a node is evaluated there.
pub(crate) fn place_below(place: Place, binding: Bound<'_>, node: Option<NodeId>) -> Place
    ensures value { seen_place result ≡ place_below (seen_place place) (seen_bound binding.entry) (option_map number node) }
    ensures live { (nodes : List Node) → IsThere (node_of_place place) nodes → IsThere node nodes → IsThere (node_of_place result) nodes }
{
    match binding {
        Bound::Unbound => place,
        _ => match node {
            Some(node) => Place::On(node),
            None => Place::Lost,
        },
    }
}
