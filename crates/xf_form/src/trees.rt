//! Trees that stand in the tree of a form.

ghost use Rattle.std.specs.Prelude.{◌≡◌, option_map, slice_get};
ghost use Rattle.xf_form.specs.Data as tree;

use xf_name::{Lit, LitElement};

/// What stands at places in a tree, each within the one before.
pub fn lit_at<'a>(lit: &'a Lit, places: &[u32]) -> Option<&'a Lit>
    ensures { option_map (λ found. found.now) result ≡ tree.lit_at places.now lit.now }
{
    let [place, rest @ ..] = places else {
        return Some(lit);
    };
    let Some(child) = child_at(lit, *place) else {
        return None;
    };
    lit_at(child, rest)
}

fn child_at(lit: &Lit, place: u32) -> Option<&Lit>
    ensures { option_map (λ found. found.now) result ≡ slice_get (tree.children_in lit.now) place }
{
    match lit {
        Lit::Text(_) => None,
        Lit::Element(element) => child_in(element, place),
    }
}

fn child_in(element: &LitElement, place: u32) -> Option<&Lit>
    ensures { option_map (λ found. found.now) result ≡ slice_get element.now.children place }
{
    element.children.as_slice().get(place as usize)
}
