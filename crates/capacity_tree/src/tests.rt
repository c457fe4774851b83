//! Loads by hand, on a small tree and on a chain of eight.

use crate::Tree;
use map_model::{Choice, ClientGroup, Instance, NO_LIMIT, Node, NodeId};
use std::alloc::Global;
use std::test::Fail;

// R; S under R; A and B under S; C under R; and the root D.
const PARENTS: [Option<u32>; 6] = [None, Some(0), Some(1), Some(1), Some(0), None];

fn instance(alloc: Global) -> Result<Instance, Fail> {
    let mut nodes = Vec::new(alloc);
    for (n, parent) in PARENTS.iter().enumerate() {
        nodes.push(Node {
            capacity: 9,
            parent: parent.map(NodeId),
            is_pool: n >= 2,
        })?;
    }
    let choices = vec![in alloc;
        Choice {
            pool: NodeId(2),
            score: 1,
            limit: NO_LIMIT
        },
    ]?;
    let groups = vec![in alloc; ClientGroup::new(1, choices)]?;
    Ok(Instance::try_from_rows(groups, nodes).ok_or("no instance")?)
}

#[test]
fn finds_paths_and_roots(rt: HostRuntime) -> Result<(), Fail> {
    let instance = instance(rt.alloc())?;
    assert_eq!(rt; instance.nodes(), 6);
    let tree = Tree::build(rt.alloc(), &instance)?;
    assert_eq!(rt;
        tree.path(NodeId(3)).as_slice(),
        [NodeId(3), NodeId(1), NodeId(0)].as_slice()
    );
    assert_eq!(rt; tree.path(NodeId(5)).as_slice(), [NodeId(5)].as_slice());
    assert_eq!(rt; tree.root(NodeId(3)), NodeId(0));
    assert_eq!(rt; tree.root(NodeId(4)), NodeId(0));
    assert_eq!(rt; tree.root(NodeId(5)), NodeId(5));
    Ok(())
}

#[test]
fn adds_and_takes(rt: HostRuntime) -> Result<(), Fail> {
    let instance = instance(rt.alloc())?;
    assert_eq!(rt; instance.nodes(), 6);
    let mut tree = Tree::build(rt.alloc(), &instance)?;
    tree.add(NodeId(2), 7);
    assert_eq!(rt; tree.load(NodeId(0)), 7);
    tree.add(NodeId(4), 5);
    let loads = [
        tree.load(NodeId(0)),
        tree.load(NodeId(1)),
        tree.load(NodeId(2)),
        tree.load(NodeId(3)),
    ];
    assert_eq!(rt; loads, [12, 7, 7, 0]);
    tree.take(NodeId(2), 3);
    let loads = [
        tree.load(NodeId(0)),
        tree.load(NodeId(1)),
        tree.load(NodeId(2)),
        tree.load(NodeId(4)),
    ];
    assert_eq!(rt; loads, [9, 4, 4, 5]);
    assert_eq!(rt; tree.load(NodeId(5)), 0);
    Ok(())
}
