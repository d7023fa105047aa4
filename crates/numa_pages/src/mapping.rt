//! Spans that are to be mapped as pages of 2 MiB.
ghost use Rattle.std.specs.Prelude.{◌≡◌};
ghost use Rattle.numa_pages.specs.PoolCalls.{command_in};

use numa_machine::PageSize;
use numa_requests::Command;

/// A span that is to be mapped as pages of 2 MiB by a task, which reserves them or doesn't. Start
/// and length are in bytes, the offset is in pages of 4 KiB.
#[derive(Clone, Copy)]
pub struct HugeMapping {
    pub start: u64,
    pub length: u64,
    pub offset: u64,
    pub task: u32,
    pub reserves: bool,
}

/// Its command.
pub(crate) fn command_of(said: &HugeMapping) -> Command
    ensures { result ≡ command_in said.now }
{
    Command::Map {
        start: said.start,
        length: said.length,
        offset: said.offset,
        size: PageSize::Huge,
    }
}
