use std::alloc::{AllocError, Global};
use xf_def_forest::{NodeId, NodeList};

const FAR: u128 = 1 << 100;

fn node(number: u128, place: usize) -> NodeId {
    NodeId { number, place }
}

/// Two nodes.
fn two(alloc: Global) -> Result<NodeList, AllocError> {
    let mut nodes = NodeList::new(alloc);
    nodes.push(node(7, 1))?;
    nodes.push(node(FAR, 2))?;
    Ok(nodes)
}

/// Which of these nodes are found in the list, and where.
fn found(nodes: &NodeList) -> [bool; 7] {
    [
        nodes.has(node(FAR, 0)),
        !nodes.has(node(8, 1)),
        matches!(nodes.position(node(FAR, 1)), Some(1)),
        nodes.position(node(2, 2)).is_none(),
        matches!(nodes.get(1), Some(n) if n.number == FAR),
        nodes.get(2).is_none(),
        nodes.len() == 2,
    ]
}

#[test]
fn nodes_are_the_same_by_number_alone(rt: HostRuntime) {
    assert!(rt; NodeList::new(rt.alloc()).is_empty());
    assert!(rt; node(7, 1).is_same(node(7, 9)));
    let nodes = two(rt.alloc()).expect(&rt, "room");
    assert_eq!(rt; found(&nodes), [true; 7]);
}
