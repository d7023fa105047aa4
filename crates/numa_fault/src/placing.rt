//! Placing one page by the plan that is published now.
ghost use Rattle.std.specs.Prelude.{◌≡◌};
ghost use Rattle.numa_fault.specs.Fault.{Faults, IsServed};

use crate::page::placement_of;
use crate::refusal::FaultRefusal;
use numa_machine::PlaceRefusal;
use numa_pool::laws::{walk_is_sparing, walks_compose};
use numa_pool::{PoolSeat, Pools, take_along};
use numa_publish::{PlanReader, PlanView};
use numa_requests::{Placement, Request};

/// Serves a request by the view: takes a frame of the first node of the page's list that has one.
#[inline(always)]
fn place(
    view: &PlanView,
    pools: &Pools,
    seat: &mut PoolSeat,
    request: Request,
) -> Result<Placement, FaultRefusal>
    requires { seat.old.table ≡ pools.now.table }
    ensures served { IsServed pools.now.frames view.now.desk.machine view.now.history request
        seat.old seat.new result }
    ensures table { seat.new.table ≡ seat.old.table }
{
    walks_compose();
    walk_is_sparing();
    let version = view.version();
    let nodes = match view.fallback_list(request.task, request.page, request.cpu) {
        Ok(nodes) => nodes,
        Err(PlaceRefusal::BadCpu) => return Err(FaultRefusal::BadCpu),
        Err(PlaceRefusal::Unmapped) => return Err(FaultRefusal::Unmapped(version)),
    };
    let Some((rank, frame)) = take_along(pools, seat, nodes) else {
        return Err(FaultRefusal::Exhausted(version));
    };
    Ok(placement_of(version, &request, rank as u32, &frame))
}

/// A fault: enters, and serves the request by the plan that is published now.
#[inline(always)]
pub(crate) fn fault_by(
    reader: PlanReader,
    pools: &Pools,
    seat: &mut PoolSeat,
    request: Request,
) -> (PlanReader, Result<Placement, FaultRefusal>)
    requires { seat.old.table ≡ pools.now.table }
    ensures fault { Faults pools.now.frames request
        (record { reader = reader; seat = seat.old })
        (record { reader = result.0; seat = seat.new }) result.1 }
    ensures table { seat.new.table ≡ seat.old.table }
{
    let view = match reader.enter() {
        Ok(view) => view,
        Err(reader) => return (reader, Err(FaultRefusal::NoView)),
    };
    let answer = place(&view, pools, seat, request);
    (view.leave(), answer)
}
