//! Touches of pages.
ghost use Rattle.std.specs.Prelude.{◌≡◌, nat_lt};

use numa_space::Space;

/// Whether the machine of a space has the node.
pub(crate) fn has_node(space: &Space, node: u32) -> bool
    ensures { result ≡ nat_lt node space.now.machine.nodes }
{
    node < space.machine().nodes()
}
