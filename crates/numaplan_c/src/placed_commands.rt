//! Commands of a core with its pages.
ghost use Rattle.numa_machine.specs.declared.page_size.PageSize.{PageSize};
ghost use Rattle.numa_mask.specs.Lists.{list_of};
ghost use Rattle.numa_pages.specs.Changes.{Accepts, Places};
ghost use Rattle.numa_mask.specs.Words.{number_of};
ghost use Rattle.numa_mode.specs.Policy.{raw_specification};
ghost use Rattle.numa_script.specs.Policies.{policy_of};
ghost use Rattle.numa_requests.specs.declared.command.Command.{Command};
ghost use Rattle.numaplan_c.specs.Bound.{home_of};
ghost use Rattle.numaplan_c.specs.Codes.{list_code, spec_code, word_code};
ghost use Rattle.numaplan_c.specs.Placed.{PagesAnswer, PagesAnswerRead, change_code};
ghost use Rattle.numa_pages.specs.PoolCalls.{MapsHuge};

use crate::binding::{home_of, raw_spec};
use crate::codes::{list_code, spec_code, word_code};
use crate::keeping::or_return;
use crate::nodes::NpNodes;
use crate::placed_codes::changed;
use numa_machine::PageSize;
use numa_mask::read_list;
use numa_pages::HugeMapping;
use numa_requests::Command;
use numa_script::policy::read_policy;
use numaplan_handles::PagesHandle;
use std::alloc::Global;

/// Carries out a command of the core in a handle, and returns the code of its result.
pub(crate) fn obey(alloc: Global, pages: &mut PagesHandle, command: Command) -> u32
    ensures { PagesAnswer change_code (Accepts command) pages.old result pages.new }
{
    changed!(pages.accept(alloc, &command))
}

/// The same, by the command's name and fields.
macro_rules! accept {
    ($alloc:expr, $pages:ident : $command:ident { $($field:ident),* }) => {
        obey($alloc, $pages, Command::$command { $($field),* })
    };
}

/// Maps a span.
#[unsafe(no_mangle)]
pub extern "C" fn np_pages_map(
    alloc: Global,
    pages: &mut PagesHandle,
    start: u64,
    length: u64,
    offset: u64,
) -> u32
    ensures { PagesAnswer change_code (Accepts (Command.Map start length offset PageSize.Small))
        pages.old result pages.new }
{
    let size = PageSize::Small;
    accept!(alloc, pages: Map { start, length, offset, size })
}

/// Unmaps the pages of a span, of which nothing is stated any more.
#[unsafe(no_mangle)]
pub extern "C" fn np_pages_unmap(
    alloc: Global,
    pages: &mut PagesHandle,
    start: u64,
    length: u64,
) -> u32
    ensures { PagesAnswer change_code (Accepts (Command.Unmap start length)) pages.old
        result pages.new }
{
    accept!(alloc, pages: Unmap { start, length })
}

/// Sets the policy of a task.
#[unsafe(no_mangle)]
pub extern "C" fn np_pages_set_task(
    alloc: Global,
    pages: &mut PagesHandle,
    task: u32,
    policy: &[u8],
) -> u32
    ensures { PagesAnswerRead (policy_of policy.now) word_code change_code
        (λ spec. Accepts (Command.SetTask task spec)) pages.old result pages.new }
{
    let spec = or_return!(read_policy(policy), word_code);
    accept!(alloc, pages: SetTask { task, spec })
}

/// The same by a mode word and a set of nodes.
#[unsafe(no_mangle)]
pub extern "C" fn np_pages_set_task_by(
    alloc: Global,
    pages: &mut PagesHandle,
    task: u32,
    mode: u32,
    nodes: &NpNodes,
) -> u32
    ensures { PagesAnswerRead (raw_specification mode (number_of nodes.now.words)) spec_code
        change_code (λ spec. Accepts (Command.SetTask task spec)) pages.old result pages.new }
{
    let spec = or_return!(raw_spec(mode, nodes), spec_code);
    accept!(alloc, pages: SetTask { task, spec })
}

/// Gives a task the policy of another, or removes its policy if the other has none.
#[unsafe(no_mangle)]
pub extern "C" fn np_pages_inherit(
    alloc: Global,
    pages: &mut PagesHandle,
    task: u32,
    from: u32,
) -> u32
    ensures { PagesAnswer change_code (Accepts (Command.Inherit task from)) pages.old
        result pages.new }
{
    accept!(alloc, pages: Inherit { task, from })
}

/// Sets the home node of the policies of a span's pages.
#[unsafe(no_mangle)]
pub extern "C" fn np_pages_set_home(
    alloc: Global,
    pages: &mut PagesHandle,
    start: u64,
    length: u64,
    node: u32,
) -> u32
    ensures { PagesAnswer change_code (Accepts (Command.SetHome start length node)) pages.old
        result pages.new }
{
    accept!(alloc, pages: SetHome { start, length, node })
}

/// The same by set_mempolicy_home_node(2)'s own words.
#[unsafe(no_mangle)]
pub extern "C" fn np_pages_home_by(
    alloc: Global,
    pages: &mut PagesHandle,
    start: u64,
    length: u64,
    node: u64,
    flags: u64,
) -> u32
    ensures { PagesAnswerRead (home_of node flags) spec_code change_code
        (λ home. Accepts (Command.SetHome start length home)) pages.old result pages.new }
{
    let node = or_return!(home_of(node, flags), spec_code);
    accept!(alloc, pages: SetHome { start, length, node })
}

/// Sets the weight of a node.
#[unsafe(no_mangle)]
pub extern "C" fn np_pages_set_weight(
    alloc: Global,
    pages: &mut PagesHandle,
    node: u32,
    weight: u32,
) -> u32
    ensures { PagesAnswer change_code (Accepts (Command.SetWeight node weight)) pages.old
        result pages.new }
{
    accept!(alloc, pages: SetWeight { node, weight })
}

/// Sets the nodes on which memory may be placed. Pages stay where they lie.
#[unsafe(no_mangle)]
pub extern "C" fn np_pages_set_mems(alloc: Global, pages: &mut PagesHandle, nodes: &[u8]) -> u32
    ensures { PagesAnswerRead (list_of nodes.now) list_code change_code
        (λ mask. Accepts (Command.SetMems mask)) pages.old result pages.new }
{
    let mask = or_return!(read_list(nodes), list_code);
    accept!(alloc, pages: SetMems { mask })
}

/// States that the mapped pages of a span lie on a node.
#[unsafe(no_mangle)]
pub extern "C" fn np_pages_place(
    alloc: Global,
    pages: &mut PagesHandle,
    start: u64,
    length: u64,
    node: u32,
) -> u32
    ensures { PagesAnswer change_code (Places start length node) pages.old result pages.new }
{
    changed!(pages.place(alloc, start, length, node))
}

/// Maps a span as pages of 2 MiB, which its task reserves or doesn't.
#[unsafe(no_mangle)]
pub extern "C" fn np_pages_map_huge(
    alloc: Global,
    pages: &mut PagesHandle,
    start: u64,
    length: u64,
    offset: u64,
    task: u32,
    reserve: bool,
) -> u32
    ensures { PagesAnswer change_code (MapsHuge (record {
      start = start;
      length = length;
      offset = offset;
      task = task;
      reserves = reserve;
    })) pages.old result pages.new }
{
    let said = HugeMapping {
        start,
        length,
        offset,
        task,
        reserves: reserve,
    };
    changed!(pages.map_huge(alloc, &said))
}
