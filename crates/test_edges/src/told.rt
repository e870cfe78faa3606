use crate::expect::same;
use fuse_nodes::Nodes;
use fuse_wire::NodeId;
use std::test::*;

#[test]
fn a_number_that_is_given_again_is_another_node(rt: HostRuntime) -> Result<(), Fail> {
    let mut nodes = Nodes::new(rt.alloc(), 16)?;
    same(&rt, "the root", nodes.find(NodeId(1)), Some(2));
    let first = nodes.tell(5, 2, b"a")?;
    same(&rt, "the first", first, NodeId(5));
    same(&rt, "the first", nodes.find(first), Some(5));
    nodes.bear(5);
    same(&rt, "the first is gone", nodes.find(first), None);
    let second = nodes.tell(5, 2, b"b")?;
    same(&rt, "the second", second, NodeId((1 << 32) + 5));
    nodes.forget(first, 1);
    same(&rt, "the second", nodes.find(second), Some(5));
    nodes.forget(second, 1);
    same(&rt, "the second is forgotten", nodes.find(second), None);
    Ok(())
}
