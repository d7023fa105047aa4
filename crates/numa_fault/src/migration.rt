//! Moving a page to a frame of another node.
ghost use Rattle.std.specs.Prelude.{◌≡◌};
ghost use Rattle.numa_pool.specs.Frames.{Holds};
ghost use Rattle.numa_fault.specs.Migration.{Migrates};

use crate::refusal::MigrateRefusal;
use numa_pool::{PoolSeat, Pools};
use numa_requests::Placement;

/// Moves the page of a placement: takes a frame of the node, and then gives up the old one.
pub(crate) fn migrate_by(
    pools: &Pools,
    seat: &mut PoolSeat,
    placement: Placement,
    node: u8,
) -> Result<Placement, MigrateRefusal>
    requires table { seat.old.table ≡ pools.now.table }
    requires held { Holds seat.old.held placement.frame }
    ensures migration { Migrates pools.now.frames node placement seat.old seat.new result }
    ensures table { seat.new.table ≡ seat.old.table }
{
    if pools.frames(node) == 0 {
        return Err(MigrateRefusal::NoSuchNode(placement));
    }
    let Some(frame) = pools.take(seat, node) else {
        return Err(MigrateRefusal::Exhausted(placement));
    };
    pools.give(seat, placement.frame);
    Ok(Placement {
        version: placement.version,
        task: placement.task,
        page: placement.page,
        node,
        frame,
        rank: placement.rank,
    })
}
