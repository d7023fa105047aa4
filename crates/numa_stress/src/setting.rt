//! The machine of a storm, the commands that change its policies, and the requested pages.
ghost use Rattle.std.specs.Prelude.{◌≡◌};

use bitflags::Flags;
use numa_machine::{Machine, PageSize};
use numa_mask::{NodeId, NodeMask};
use numa_mode::{Mode, PolicyFlags, PolicySpec};
use numa_requests::{Command, Limits, Request};
use std::alloc::Global;

/// The number of policies that are submitted while the workers run.
pub const POLICIES: u32 = 8;

/// The number of commands before these: the map and a first policy.
pub const FIRST_COMMANDS: u32 = 2;

/// The task whose pages are placed.
pub const TASK: u32 = 1;

/// The number of pages that are mapped and requested.
const PAGES: u64 = 320;

/// The first page.
const FIRST_PAGE: u64 = 0x10000;

/// Four nodes with 64 frames each, at distance 20. `None` on out-of-memory.
pub fn machine(alloc: Global) -> Option<Machine> {
    let distances = [
        10, 20, 20, 20, 20, 10, 20, 20, 20, 20, 10, 20, 20, 20, 20, 10,
    ];
    Machine::new(alloc, 4, nodes(&[0, 1, 2, 3]), &distances, &[64; 4]).ok()
}

/// The limits of a script that names none.
pub fn limits() -> Option<Limits> {
    Limits::new(65_536, 1_024, 4_294_967_295)
}

/// The set of these nodes.
fn nodes(numbers: &[u8]) -> NodeMask {
    let mut set = NodeMask::empty();
    for number in numbers {
        if let Some(node) = NodeId::new(*number) {
            set.insert(node);
        }
    }
    set
}

/// Command number `place`, from 0: the map of all pages, then `interleave:0-3` and `prefer:2` for
/// the task in turn.
pub fn command(place: u32) -> Option<Command> {
    if place == 0 {
        return Some(Command::Map {
            start: FIRST_PAGE * 4_096,
            length: PAGES * 4_096,
            offset: 0,
            size: PageSize::Small,
        });
    }
    let (mode, set) = if place % 2 == 1 {
        (Mode::Interleave, nodes(&[0, 1, 2, 3]))
    } else {
        (Mode::Preferred, nodes(&[2]))
    };
    let spec = PolicySpec::new(mode, PolicyFlags::empty(), set).ok()?;
    Some(Command::SetTask { task: TASK, spec })
}

/// The requests, page by page, on the nodes in turn. `None` on out-of-memory.
pub fn requests(alloc: Global) -> Option<Vec<Request>> {
    let mut requests = Vec::with_capacity(alloc, 320).ok()?;
    for place in 0..320u32 {
        let request = Request {
            task: TASK,
            page: FIRST_PAGE + u64::from(place),
            cpu: place % 4,
        };
        requests.push(request).ok()?;
    }
    Some(requests)
}
