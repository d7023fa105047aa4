//! Placing one page of a span whose first node is known.
ghost use Rattle.std.specs.Prelude.{◌≡◌, ◌<◌, ◌++◌, List, None, Some, length, slice_index};
ghost use Rattle.std.specs.Prelude.{MatchOption, IfSome, slice_get};
ghost use Rattle.numa_requests.specs.declared.placement.Placement.{Placement};
ghost use Rattle.numa_pool.specs.Frames.{with_found, times};
ghost use Rattle.numa_pool.specs.Walk.{WalksInOrder};
ghost use Rattle.numa_pool.specs.declared.view.Entry.{Entry};
ghost use Rattle.numa_space.specs.Policies.{allowed_nodes};
ghost use Rattle.numa_space.specs.Standing.{IsNodeList};
ghost use Rattle.numa_fault.specs.Fault.{list_of, refusal_of, FindsNone, Places};
ghost use Rattle.numa_pool.specs.Seated.{frame_in};

use numa_machine::Frame;
use numa_pool::laws::{walk_is_sparing, walks_compose};
use numa_pool::{PoolSeat, Pools, take_along};
use numa_publish::PlanView;
use numa_requests::{Placement, Request};

/// The placement of a request's page in a frame that was taken.
#[inline(always)]
pub(crate) fn placement_of(version: u64, request: &Request, rank: u32, frame: &Frame) -> Placement
    ensures { result ≡ record {
      version = version;
      task = request.now.task;
      page = request.now.page;
      node = frame.now.node;
      frame = frame.now;
      rank = rank;
    } }
{
    Placement {
        version,
        task: request.task,
        page: request.page,
        node: frame.node,
        // (its two fields apart: copied whole, its padding makes of it two pieces, on whose way
        // to memory a release that follows at once would wait)
        frame: Frame {
            node: frame.node,
            number: frame.number,
        },
        rank,
    }
}

/// Takes a frame of the first node of the page's list, or else of the first of the others that has
/// one, and returns the node's place in the list too. The list is looked up only if the first node
/// has no frame.
fn take_first_or_behind(
    view: &PlanView,
    pools: &Pools,
    seat: &mut PoolSeat,
    request: Request,
    choice: u8,
) -> Option<(usize, Frame)>
    requires table { seat.old.table ≡ pools.now.table }
    requires stands { refusal_of view.now.desk.machine view.now.history request ≡ None }
    requires some { 0 < length (list_of view.now.desk.machine view.now.history request) }
    requires choice { choice
        ≡ slice_index (list_of view.now.desk.machine view.now.history request) 0 }
    ensures table { seat.new.table ≡ seat.old.table }
    ensures walks { (es : List Entry) × (seat.new.log ≡ es ++ seat.old.log)
        × WalksInOrder pools.now.frames
        (list_of view.now.desk.machine view.now.history request) (frame_in result) es }
    ensures no_other { seat.new.unlogged ≡ seat.old.unlogged }
    ensures held { seat.new.held ≡ with_found (frame_in result) seat.old.held }
    ensures rank { IfSome result (λ found.
        slice_get (list_of view.now.desk.machine view.now.history request) found.0
        ≡ Some found.1.node) }
    ensures few { IfSome result (λ found. found.0 < 256) }
    ensures fresh { IfSome result (λ found. times found.1.node found.1.number seat.old.held ≡ 0) }
{
    if let Some(frame) = pools.take(seat, choice) {
        return Some((0, frame));
    }
    let Ok(nodes) = view.fallback_list(request.task, request.page, request.cpu) else {
        unreachable!()
    };
    let Some((rank, frame)) = take_along(pools, seat, &nodes[1..]) else {
        return None;
    };
    Some((rank + 1, frame))
}

/// Places a page whose list begins with this node. `None` if no node of the list has a frame.
pub(crate) fn place_page(
    view: &PlanView,
    pools: &Pools,
    seat: &mut PoolSeat,
    request: Request,
    choice: u8,
) -> Option<Placement>
    requires table { seat.old.table ≡ pools.now.table }
    requires stands { refusal_of view.now.desk.machine view.now.history request ≡ None }
    requires sound { IsNodeList (allowed_nodes view.now.desk.machine view.now.history)
        (list_of view.now.desk.machine view.now.history request) }
    requires choice { choice
        ≡ slice_index (list_of view.now.desk.machine view.now.history request) 0 }
    ensures table { seat.new.table ≡ seat.old.table }
    ensures served { MatchOption result
        (FindsNone pools.now.frames view.now.desk.machine view.now.history request
        (length view.now.history) seat.old seat.new)
        (λ placement. Places pools.now.frames view.now.desk.machine view.now.history request
        placement seat.old seat.new) }
{
    walks_compose();
    walk_is_sparing();
    let version = view.version();
    let Some((rank, frame)) = take_first_or_behind(view, pools, seat, request, choice) else {
        return None;
    };
    Some(placement_of(version, &request, rank as u32, &frame))
}
