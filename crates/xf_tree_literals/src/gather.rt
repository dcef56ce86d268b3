//! Parts of literal trees on a stack, from the last node of a tree back: the last part pushed is the first one.
ghost use Rattle.std.specs.Prelude.{◌≡◌, ◌++◌, OnOk};
ghost use Rattle.xf_def_forest.specs.Literal.{attributes_in, trees_in, inner, outer};
ghost use Rattle.xf_tree_literals.specs.Print.{stacked, begins_deeper};

use std::alloc::AllocError;

/// What a node is in a literal tree of one kind.
#[derive(Drop)]
pub enum Below<A, T> {
    Attribute(A),
    Tree(T),
}

/// Takes the parts that are deeper off the stack, attributes and trees apart.
pub fn take_inner<A: Drop, T: Drop>(
    parts: &mut Vec<(u32, Below<A, T>)>,
    depth: u32,
    attributes: &mut Vec<A>,
    trees: &mut Vec<T>,
) -> Result<(), AllocError>
    ensures attributes { OnOk result (attributes.new.items ≡ attributes.old.items ++ attributes_in (inner depth (stacked parts.old.items))) }
    ensures trees { OnOk result (trees.new.items ≡ trees.old.items ++ trees_in (inner depth (stacked parts.old.items))) }
    ensures left { OnOk result (stacked parts.new.items ≡ outer depth (stacked parts.old.items)) }
{
    while begins_deeper(parts, depth) {
        match parts.pop() {
            Some((_, Below::Attribute(attribute))) => attributes.push(attribute)?,
            Some((_, Below::Tree(tree))) => trees.push(tree)?,
            None => return Ok(()),
        }
    }
    Ok(())
}

/// Whether the first part is deeper.
fn begins_deeper<A, T>(parts: &[(u32, Below<A, T>)], depth: u32) -> bool
    ensures { result ≡ begins_deeper depth (stacked parts.now) }
{
    let count = parts.len();
    count > 0 && parts[count - 1].0 > depth
}
