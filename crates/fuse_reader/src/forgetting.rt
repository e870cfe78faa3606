//! What the kernel forgets.
ghost use Rattle.std.specs.Prelude.{◌≡◌, length, map};
ghost use Rattle.fuse_wire.specs.Forgets.{forgets_of};
ghost use Rattle.fuse_nodes.specs.Runs.{after_all};
ghost use Rattle.fuse_reader.specs.Turns.{forgot_by};

use fuse_nodes::Nodes;
use fuse_wire::Forgets;

/// The kernel forgets lookups of many nodes.
pub fn forget_all(nodes: &mut Nodes, forgets: Forgets<'_>)
    ensures nodes { nodes.new ≡ after_all (map forgot_by (forgets_of forgets.entry)) nodes.old }
    ensures length { length nodes.new ≡ length nodes.old }
{
    for place in 0..forgets.len() {
        let forget = forgets.get(place);
        nodes.forget(forget.node, forget.lookups);
    }
}
