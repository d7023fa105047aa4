//! Events of a core: commands, their publication, and workers that look for frames.
ghost use Rattle.std.specs.Prelude.{◌≡◌, MatchOption};
ghost use Rattle.numa_mask.specs.Lists.{list_of};
ghost use Rattle.numa_mask.specs.Words.{number_of};
ghost use Rattle.numa_mode.specs.Policy.{raw_specification};
ghost use Rattle.numa_script.specs.Policies.{policy_of};
ghost use Rattle.numa_requests.specs.declared.event.Event.{Event};
ghost use Rattle.numa_machine.specs.declared.page_size.PageSize.{PageSize};
ghost use Rattle.numa_requests.specs.declared.command.Command.{Command};
ghost use Rattle.numaplan_c.specs.Border.{Answers, AnswersRead, Places, Touched, Tried};
ghost use Rattle.numaplan_c.specs.Bound.{bound_spec, home_of, rules_in, spec_by};
ghost use Rattle.numaplan_c.specs.Codes.{answer_code, list_code, spec_code, word_code};
ghost use Rattle.numaplan_handles.specs.Handles.{core_in};

use crate::binding::{bound_spec, core_rules, home_of, raw_spec, spec_by};
use crate::codes::{Code, answer_code, list_code, spec_code, word_code};
use crate::keeping::{if_open, or_return};
use crate::nodes::NpNodes;
use numa_machine::{Frame, PageSize};
use numa_mask::read_list;
use numa_requests::{Command, CoreRefusal, CoreReply, Event, Request};
use numa_script::policy::read_policy;
use numaplan_handles::CoreHandle;
use std::alloc::Global;

/// Carries out an event of the core in a handle, and returns the code of its reply.
fn answer(alloc: Global, core: &mut CoreHandle, event: Event) -> u32
    ensures { Answers (core_in core.old) event result (core_in core.new) }
{
    if_open!(core.step(alloc, event), answer => answer_code(&answer))
}

/// Carries out a command of the core in a handle, and returns the code of its reply.
macro_rules! accept {
    ($alloc:expr, $core:expr => $command:ident { $($field:ident),* }) => {
        answer($alloc, $core, Event::Accept(Command::$command { $($field),* }))
    };
}

/// Maps a span.
#[unsafe(no_mangle)]
pub extern "C" fn np_core_map(
    alloc: Global,
    core: &mut CoreHandle,
    start: u64,
    length: u64,
    offset: u64,
) -> u32
    ensures { Answers (core_in core.old)
        (Event.Accept (Command.Map start length offset PageSize.Small)) result (core_in core.new) }
{
    let size = PageSize::Small;
    accept!(alloc, core => Map { start, length, offset, size })
}

/// Maps a span as pages of 2 MiB.
#[unsafe(no_mangle)]
pub extern "C" fn np_core_map_huge(
    alloc: Global,
    core: &mut CoreHandle,
    start: u64,
    length: u64,
    offset: u64,
) -> u32
    ensures { Answers (core_in core.old)
        (Event.Accept (Command.Map start length offset PageSize.Huge)) result (core_in core.new) }
{
    let size = PageSize::Huge;
    accept!(alloc, core => Map { start, length, offset, size })
}

/// Unmaps the pages of a span.
#[unsafe(no_mangle)]
pub extern "C" fn np_core_unmap(
    alloc: Global,
    core: &mut CoreHandle,
    start: u64,
    length: u64,
) -> u32
    ensures { Answers (core_in core.old) (Event.Accept (Command.Unmap start length)) result
        (core_in core.new) }
{
    accept!(alloc, core => Unmap { start, length })
}

/// Sets the policy of a span's pages, as it was read. (No function, so that a policy comes to the
/// space by few calls.)
macro_rules! bind {
    ($alloc:expr, $core:expr => $start:ident, $length:ident, $said:expr) => {{
        let rules = core_rules($alloc, $core);
        let spec = or_return!(bound_spec(rules, $length, $said), word_code);
        let command = Command::Mbind {
            start: $start,
            length: $length,
            spec,
        };
        if_open!($core.step($alloc, Event::Accept(command)), answer => answer_code(&answer))
    }};
}

/// Sets the policy of a span's pages.
#[unsafe(no_mangle)]
pub extern "C" fn np_core_mbind(
    alloc: Global,
    core: &mut CoreHandle,
    start: u64,
    length: u64,
    policy: &[u8],
) -> u32
    ensures { AnswersRead (bound_spec (rules_in (core_in core.old)) length (policy_of policy.now))
        word_code (λ spec. Command.Mbind start length spec) (core_in core.old) result
        (core_in core.new) }
{
    bind!(alloc, core => start, length, read_policy(policy))
}

/// Sets the policy of a span's pages, by a mode word and a set of nodes.
#[unsafe(no_mangle)]
pub extern "C" fn np_core_mbind_by(
    alloc: Global,
    core: &mut CoreHandle,
    start: u64,
    length: u64,
    mode: u32,
    nodes: &NpNodes,
) -> u32
    ensures { AnswersRead (bound_spec (rules_in (core_in core.old)) length (spec_by mode nodes.now))
        word_code (λ spec. Command.Mbind start length spec) (core_in core.old) result
        (core_in core.new) }
{
    bind!(alloc, core => start, length, spec_by(mode, nodes))
}

/// Sets the policy of a task.
#[unsafe(no_mangle)]
pub extern "C" fn np_core_set_task(
    alloc: Global,
    core: &mut CoreHandle,
    task: u32,
    policy: &[u8],
) -> u32
    ensures { AnswersRead (policy_of policy.now) word_code (λ spec. Command.SetTask task spec)
        (core_in core.old) result (core_in core.new) }
{
    let spec = or_return!(read_policy(policy), word_code);
    accept!(alloc, core => SetTask { task, spec })
}

/// Sets the policy of a task, by a mode word and a set of nodes.
#[unsafe(no_mangle)]
pub extern "C" fn np_core_set_task_by(
    alloc: Global,
    core: &mut CoreHandle,
    task: u32,
    mode: u32,
    nodes: &NpNodes,
) -> u32
    ensures { AnswersRead (raw_specification mode (number_of nodes.now.words)) spec_code
        (λ spec. Command.SetTask task spec) (core_in core.old) result (core_in core.new) }
{
    let spec = or_return!(raw_spec(mode, nodes), spec_code);
    accept!(alloc, core => SetTask { task, spec })
}

/// Gives a task the policy of another, or removes its policy if the other has none.
#[unsafe(no_mangle)]
pub extern "C" fn np_core_inherit(alloc: Global, core: &mut CoreHandle, task: u32, from: u32) -> u32
    ensures { Answers (core_in core.old) (Event.Accept (Command.Inherit task from)) result
        (core_in core.new) }
{
    accept!(alloc, core => Inherit { task, from })
}

/// Sets the home node of the policies of a span's pages.
#[unsafe(no_mangle)]
pub extern "C" fn np_core_set_home(
    alloc: Global,
    core: &mut CoreHandle,
    start: u64,
    length: u64,
    node: u32,
) -> u32
    ensures { Answers (core_in core.old) (Event.Accept (Command.SetHome start length node)) result
        (core_in core.new) }
{
    accept!(alloc, core => SetHome { start, length, node })
}

/// The same by set_mempolicy_home_node(2)'s own words.
#[unsafe(no_mangle)]
pub extern "C" fn np_core_home_by(
    alloc: Global,
    core: &mut CoreHandle,
    start: u64,
    length: u64,
    node: u64,
    flags: u64,
) -> u32
    ensures { AnswersRead (home_of node flags) spec_code
        (λ home. Command.SetHome start length home) (core_in core.old) result (core_in core.new) }
{
    let node = or_return!(home_of(node, flags), spec_code);
    accept!(alloc, core => SetHome { start, length, node })
}

/// Sets the weight of a node.
#[unsafe(no_mangle)]
pub extern "C" fn np_core_set_weight(
    alloc: Global,
    core: &mut CoreHandle,
    node: u32,
    weight: u32,
) -> u32
    ensures { Answers (core_in core.old) (Event.Accept (Command.SetWeight node weight)) result
        (core_in core.new) }
{
    accept!(alloc, core => SetWeight { node, weight })
}

/// Sets the nodes on which memory may be placed.
#[unsafe(no_mangle)]
pub extern "C" fn np_core_set_mems(alloc: Global, core: &mut CoreHandle, nodes: &[u8]) -> u32
    ensures { AnswersRead (list_of nodes.now) list_code (λ mask. Command.SetMems mask)
        (core_in core.old) result (core_in core.new) }
{
    let mask = or_return!(read_list(nodes), list_code);
    accept!(alloc, core => SetMems { mask })
}

/// Publishes all accepted commands.
#[unsafe(no_mangle)]
pub extern "C" fn np_core_publish(alloc: Global, core: &mut CoreHandle) -> u32
    ensures { Answers (core_in core.old) Event.Publish result (core_in core.new) }
{
    answer(alloc, core, Event::Publish)
}

/// Where a page was placed.
#[repr(C)]
#[derive(Clone, Copy)]
pub struct NpPlacement {
    pub version: u64,
    pub page: u64,
    pub task: u32,
    pub rank: u32,
    pub frame: u16,
    pub node: u8,
}

const _: () = prove!(size_of::<NpPlacement>() == 32);

/// Writes where a page was placed, if it was, and returns the code of the reply.
fn tell(answer: Option<Result<CoreReply, CoreRefusal>>, placed: &mut NpPlacement) -> u32
    ensures { MatchOption answer ((result ≡ 1) × (placed.new ≡ placed.old))
        (λ it. (result ≡ answer_code it) × Places it placed.old placed.new) }
{
    match answer {
        None => Code::Closed as u32,
        Some(Ok(CoreReply::Won(won))) => {
            *placed = NpPlacement {
                version: won.version,
                page: won.page,
                task: won.task,
                rank: won.rank,
                frame: won.frame.number,
                node: won.node,
            };
            0
        }
        Some(answer) => answer_code(&answer),
    }
}

/// A worker places a page by the newest published version.
#[unsafe(no_mangle)]
pub extern "C" fn np_core_touch(
    alloc: Global,
    core: &mut CoreHandle,
    worker: u32,
    task: u32,
    page: u64,
    cpu: u32,
    placed: &mut NpPlacement,
) -> u32
    ensures { Touched (core_in core.old) worker (record { task = task; page = page; cpu = cpu })
        result (core_in core.new) placed.old placed.new }
{
    tell(
        core.touch(alloc, worker, Request { task, page, cpu }),
        placed,
    )
}

/// A worker begins a request.
#[unsafe(no_mangle)]
pub extern "C" fn np_core_begin(
    alloc: Global,
    core: &mut CoreHandle,
    worker: u32,
    task: u32,
    page: u64,
    cpu: u32,
) -> u32
    ensures { Answers (core_in core.old)
        (Event.Begin worker (record { task = task; page = page; cpu = cpu })) result
        (core_in core.new) }
{
    answer(
        alloc,
        core,
        Event::Begin(worker, Request { task, page, cpu }),
    )
}

/// A worker looks at 64 frames of its current node.
#[unsafe(no_mangle)]
pub extern "C" fn np_core_look(alloc: Global, core: &mut CoreHandle, worker: u32, word: u32) -> u32
    ensures { Answers (core_in core.old) (Event.Look worker word) result (core_in core.new) }
{
    answer(alloc, core, Event::Look(worker, word))
}

/// A worker tries a frame of its current node.
#[unsafe(no_mangle)]
pub extern "C" fn np_core_try(
    alloc: Global,
    core: &mut CoreHandle,
    worker: u32,
    node: u8,
    frame: u16,
    placed: &mut NpPlacement,
) -> u32
    ensures { Tried (core_in core.old)
        (Event.Try worker (record { node = node; number = frame })) result (core_in core.new)
        placed.old placed.new }
{
    let frame = Frame {
        node,
        number: frame,
    };
    tell(core.step(alloc, Event::Try(worker, frame)), placed)
}

/// A worker gives a frame back.
#[unsafe(no_mangle)]
pub extern "C" fn np_core_give(
    alloc: Global,
    core: &mut CoreHandle,
    worker: u32,
    node: u8,
    frame: u16,
) -> u32
    ensures { Answers (core_in core.old)
        (Event.Give worker (record { node = node; number = frame })) result (core_in core.new) }
{
    let frame = Frame {
        node,
        number: frame,
    };
    answer(alloc, core, Event::Give(worker, frame))
}
