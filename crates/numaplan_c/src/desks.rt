//! Desks: opening, commands, publishing, and readers of what is published.
ghost use Rattle.std.specs.Prelude.{◌≡◌, ◌≢◌, ◌≤◌, [], Some, None, is_some, true, length};
ghost use Rattle.std.specs.Prelude.{IfOk, IfErr, IfSome, MatchOption, MatchResult, Ok, is_ok};
ghost use Rattle.numa_mask.specs.Lists.{list_of};
ghost use Rattle.numa_mask.specs.Words.{number_of};
ghost use Rattle.numa_mode.specs.Policy.{raw_specification};
ghost use Rattle.numa_script.specs.Policies.{policy_of};
ghost use Rattle.numa_machine.specs.declared.page_size.PageSize.{PageSize};
ghost use Rattle.numa_requests.specs.declared.command.Command.{Command};
ghost use Rattle.numa_publish.specs.Shown.{accepted_commands};
ghost use Rattle.numaplan_handles.specs.Desks.{IsReaderOf};
ghost use Rattle.numaplan_handles.specs.Handles.{desk_in, reader_in};
ghost use Rattle.numaplan_c.specs.Border.{Asked, Opens, bounds_of, described_cause};
ghost use Rattle.numaplan_c.specs.Bound.{bound_spec, desk_rules_in, home_of, spec_by};
ghost use Rattle.numaplan_c.specs.Codes.{list_code, spec_code, word_code};
ghost use Rattle.numaplan_c.specs.Desks.{DeskAnswers, DeskAnswersRead, IsDeskSetUp, Published};
ghost use Rattle.numaplan_c.specs.Desks.{order_code, readers_cause};
ghost use Rattle.numaplan_c.specs.Options.{options_of};

use crate::binding::{bound_spec, home_of, raw_spec, spec_by};
use crate::codes::{Code, list_code, refusal_code, spec_code, word_code};
use crate::keeping::{ensure_closed, if_open, memory_code, or_return};
use crate::machines::machine_of;
use crate::nodes::NpNodes;
use crate::opening::NpLimits;
use crate::options::{NpOptions, Options, options_of};
use numa_machine::{Machine, PageSize, Rules};
use numa_mask::read_list;
use numa_mode::PolicySpec;
use numa_publish::{Desk, NoReader, PlanView};
use numa_requests::{Command, Limits, Refusal};
use numa_script::WordError;
use numa_script::policy::read_policy;
use numaplan_handles::{DeskHandle, ReaderHandle, ReaderLack};
use std::alloc::Global;

/// Why limits or a number of readers are refused.
fn readers_cause(limits: NpLimits, readers: u32) -> Option<u32>
    ensures cause { result ≡ readers_cause (bounds_of limits) readers }
    ensures readers { result ≡ None → (1 ≤ readers) × (readers ≤ 64) }
    ensures limits { result ≡ None → (limits.max_ranges ≤ 65536) × (limits.max_tasks ≤ 1024) }
    ensures refused { IfSome result (λ code. code ≢ 0) }
{
    if !(limits.max_ranges <= 65_536 && limits.max_tasks <= 1_024) {
        return Some(Code::BadLimits as u32);
    }
    if !(1 <= readers && readers <= 64) {
        return Some(Code::BadReaders as u32);
    }
    None
}

/// The desk of a machine.
fn desk_of(alloc: Global, machine: Machine, limits: NpLimits, readers: u32) -> Result<Desk, u32>
    requires readers { (1 ≤ readers) × (readers ≤ 64) }
    requires limits { (limits.max_ranges ≤ 65536) × (limits.max_tasks ≤ 1024) }
    ensures machine { IfOk result (λ desk. desk.desk.machine ≡ machine) }
    ensures bounds { IfOk result (λ desk. desk.bounds ≡ bounds_of limits) }
    ensures empty { IfOk result (λ desk. (desk.published ≡ []) × (desk.pending ≡ [])) }
    ensures cause { IfErr result (λ code. code ≡ 3) }
{
    let Some(limits) = Limits::new(limits.max_ranges, limits.max_tasks, limits.max_commands) else {
        unreachable!()
    };
    match Desk::new(alloc, machine, limits, readers) {
        Ok(desk) => Ok(desk),
        Err(_) => Err(Code::NoMemory as u32),
    }
}

/// The desk of a description, or the code of the first cause against it.
fn described(
    alloc: Global,
    memory: &[u8],
    frames: &[u32],
    distances: &[u8],
    options: Options,
    limits: NpLimits,
    readers: u32,
) -> Result<Desk, u32>
    ensures desk { IfOk result (IsDeskSetUp (list_of memory.now) frames.now distances.now options
        (bounds_of limits)) }
    ensures cause { IfErr result (λ code. MatchOption (described_cause (list_of memory.now)
        frames.now distances.now (readers_cause (bounds_of limits) readers) options.fallback)
        (code ≡ 3) (λ first. code ≡ first)) }
    ensures none { IfOk result (λ desk. described_cause (list_of memory.now) frames.now
        distances.now (readers_cause (bounds_of limits) readers) options.fallback ≡ None) }
    ensures refused { IfErr result (λ code. code ≢ 0) }
{
    let others = readers_cause(limits, readers);
    let machine = match machine_of(alloc, memory, frames, distances, others, options) {
        Ok(machine) => machine,
        Err(code) => return Err(code),
    };
    desk_of(alloc, machine, limits, readers)
}

/// Opens a desk of a machine by options.
#[unsafe(no_mangle)]
pub extern "C" fn np_desk_open(
    alloc: Global,
    desk: &mut DeskHandle,
    memory: &[u8],
    frames: &[u32],
    distances: &[u8],
    limits: &NpLimits,
    readers: u32,
    options: &NpOptions,
) -> u32
    ensures opens { Opens (desk_in desk.old) result (desk_in desk.new) }
    ensures setup { desk_in desk.old ≡ None → IfSome (desk_in desk.new) (λ made.
        IfOk (options_of options.now) (λ it. IsDeskSetUp (list_of memory.now) frames.now
        distances.now it (bounds_of limits.now) made)) }
    ensures cause { desk_in desk.old ≡ None → result ≢ 0 → MatchResult (options_of options.now)
        (λ it. MatchOption (described_cause (list_of memory.now) frames.now distances.now
        (readers_cause (bounds_of limits.now) readers) it.fallback) (result ≡ 3)
        (λ first. result ≡ first)) (λ code. result ≡ code) }
    ensures none { result ≡ 0 → IfOk (options_of options.now) (λ it.
        described_cause (list_of memory.now) frames.now distances.now
        (readers_cause (bounds_of limits.now) readers) it.fallback ≡ None) }
    ensures read { result ≡ 0 → is_ok (options_of options.now) ≡ true }
    ensures open { is_some (desk_in desk.old) ≡ true → result ≡ 2 }
{
    ensure_closed!(desk);
    let options = or_return!(options_of(options));
    let made = described(alloc, memory, frames, distances, options, *limits, readers);
    let made = or_return!(made);
    memory_code(desk.open(alloc, made))
}

/// The code of the answer to a command.
fn order_code(answer: Result<u64, Refusal>) -> u32
    ensures { result ≡ order_code answer }
{
    match answer {
        Ok(_) => 0,
        Err(cause) => refusal_code(cause),
    }
}

/// Gives the desk in a handle a command, and returns the code of its answer.
fn order(alloc: Global, desk: &mut DeskHandle, command: Command) -> u32
    ensures { DeskAnswers (desk_in desk.old) command result (desk_in desk.new) }
{
    if_open!(desk.accept(alloc, &command), answer => order_code(answer))
}

/// The same by the fields of a command.
macro_rules! tell {
    ($alloc:expr, $desk:expr => $command:ident { $($field:ident),* }) => {
        order($alloc, $desk, Command::$command { $($field),* })
    };
}

/// Maps a span.
#[unsafe(no_mangle)]
pub extern "C" fn np_desk_map(
    alloc: Global,
    desk: &mut DeskHandle,
    start: u64,
    length: u64,
    offset: u64,
) -> u32
    ensures { DeskAnswers (desk_in desk.old) (Command.Map start length offset PageSize.Small) result
        (desk_in desk.new) }
{
    let size = PageSize::Small;
    tell!(alloc, desk => Map { start, length, offset, size })
}

/// Maps a span as pages of 2 MiB.
#[unsafe(no_mangle)]
pub extern "C" fn np_desk_map_huge(
    alloc: Global,
    desk: &mut DeskHandle,
    start: u64,
    length: u64,
    offset: u64,
) -> u32
    ensures { DeskAnswers (desk_in desk.old) (Command.Map start length offset PageSize.Huge) result
        (desk_in desk.new) }
{
    let size = PageSize::Huge;
    tell!(alloc, desk => Map { start, length, offset, size })
}

/// Unmaps the pages of a span.
#[unsafe(no_mangle)]
pub extern "C" fn np_desk_unmap(
    alloc: Global,
    desk: &mut DeskHandle,
    start: u64,
    length: u64,
) -> u32
    ensures { DeskAnswers (desk_in desk.old) (Command.Unmap start length) result
        (desk_in desk.new) }
{
    tell!(alloc, desk => Unmap { start, length })
}

/// The rules by which a desk goes.
fn desk_rules(alloc: Global, desk: &mut DeskHandle) -> Rules
    ensures same { desk_in desk.new ≡ desk_in desk.old }
    ensures rules { result ≡ desk_rules_in (desk_in desk.old) }
{
    desk.rules(alloc).unwrap_or(Rules::Document)
}

/// Sets the policy of a span's pages, as it was read.
fn bind(
    alloc: Global,
    desk: &mut DeskHandle,
    start: u64,
    length: u64,
    said: Result<PolicySpec, WordError>,
) -> u32
    ensures { DeskAnswersRead (bound_spec (desk_rules_in (desk_in desk.old)) length said) word_code
        (λ spec. Command.Mbind start length spec) (desk_in desk.old) result (desk_in desk.new) }
{
    let rules = desk_rules(alloc, desk);
    let spec = or_return!(bound_spec(rules, length, said), word_code);
    tell!(alloc, desk => Mbind { start, length, spec })
}

/// Sets the policy of a span's pages.
#[unsafe(no_mangle)]
pub extern "C" fn np_desk_mbind(
    alloc: Global,
    desk: &mut DeskHandle,
    start: u64,
    length: u64,
    policy: &[u8],
) -> u32
    ensures { DeskAnswersRead (bound_spec (desk_rules_in (desk_in desk.old)) length
        (policy_of policy.now)) word_code (λ spec. Command.Mbind start length spec)
        (desk_in desk.old) result (desk_in desk.new) }
{
    bind(alloc, desk, start, length, read_policy(policy))
}

/// Sets the policy of a span's pages, by a mode word and a set of nodes.
#[unsafe(no_mangle)]
pub extern "C" fn np_desk_mbind_by(
    alloc: Global,
    desk: &mut DeskHandle,
    start: u64,
    length: u64,
    mode: u32,
    nodes: &NpNodes,
) -> u32
    ensures { DeskAnswersRead (bound_spec (desk_rules_in (desk_in desk.old)) length
        (spec_by mode nodes.now)) word_code (λ spec. Command.Mbind start length spec)
        (desk_in desk.old) result (desk_in desk.new) }
{
    bind(alloc, desk, start, length, spec_by(mode, nodes))
}

/// Sets the policy of a task.
#[unsafe(no_mangle)]
pub extern "C" fn np_desk_set_task(
    alloc: Global,
    desk: &mut DeskHandle,
    task: u32,
    policy: &[u8],
) -> u32
    ensures { DeskAnswersRead (policy_of policy.now) word_code (λ spec. Command.SetTask task spec)
        (desk_in desk.old) result (desk_in desk.new) }
{
    let spec = or_return!(read_policy(policy), word_code);
    tell!(alloc, desk => SetTask { task, spec })
}

/// Sets the policy of a task, by a mode word and a set of nodes.
#[unsafe(no_mangle)]
pub extern "C" fn np_desk_set_task_by(
    alloc: Global,
    desk: &mut DeskHandle,
    task: u32,
    mode: u32,
    nodes: &NpNodes,
) -> u32
    ensures { DeskAnswersRead (raw_specification mode (number_of nodes.now.words)) spec_code
        (λ spec. Command.SetTask task spec) (desk_in desk.old) result (desk_in desk.new) }
{
    let spec = or_return!(raw_spec(mode, nodes), spec_code);
    tell!(alloc, desk => SetTask { task, spec })
}

/// Gives a task the policy of another, or removes its policy if the other has none.
#[unsafe(no_mangle)]
pub extern "C" fn np_desk_inherit(alloc: Global, desk: &mut DeskHandle, task: u32, from: u32) -> u32
    ensures { DeskAnswers (desk_in desk.old) (Command.Inherit task from) result
        (desk_in desk.new) }
{
    tell!(alloc, desk => Inherit { task, from })
}

/// Sets the home node of the policies of a span's pages.
#[unsafe(no_mangle)]
pub extern "C" fn np_desk_set_home(
    alloc: Global,
    desk: &mut DeskHandle,
    start: u64,
    length: u64,
    node: u32,
) -> u32
    ensures { DeskAnswers (desk_in desk.old) (Command.SetHome start length node) result
        (desk_in desk.new) }
{
    tell!(alloc, desk => SetHome { start, length, node })
}

/// The same by set_mempolicy_home_node(2)'s own words.
#[unsafe(no_mangle)]
pub extern "C" fn np_desk_home_by(
    alloc: Global,
    desk: &mut DeskHandle,
    start: u64,
    length: u64,
    node: u64,
    flags: u64,
) -> u32
    ensures { DeskAnswersRead (home_of node flags) spec_code
        (λ home. Command.SetHome start length home) (desk_in desk.old) result (desk_in desk.new) }
{
    let node = or_return!(home_of(node, flags), spec_code);
    tell!(alloc, desk => SetHome { start, length, node })
}

/// Sets the weight of a node.
#[unsafe(no_mangle)]
pub extern "C" fn np_desk_set_weight(
    alloc: Global,
    desk: &mut DeskHandle,
    node: u32,
    weight: u32,
) -> u32
    ensures { DeskAnswers (desk_in desk.old) (Command.SetWeight node weight) result
        (desk_in desk.new) }
{
    tell!(alloc, desk => SetWeight { node, weight })
}

/// Sets the nodes on which memory may be placed.
#[unsafe(no_mangle)]
pub extern "C" fn np_desk_set_mems(alloc: Global, desk: &mut DeskHandle, nodes: &[u8]) -> u32
    ensures { DeskAnswersRead (list_of nodes.now) list_code (λ mask. Command.SetMems mask)
        (desk_in desk.old) result (desk_in desk.new) }
{
    let mask = or_return!(read_list(nodes), list_code);
    tell!(alloc, desk => SetMems { mask })
}

/// Publishes all accepted commands.
#[unsafe(no_mangle)]
pub extern "C" fn np_desk_publish(alloc: Global, desk: &mut DeskHandle, version: &mut u64) -> u32
    ensures { Published (desk_in desk.old) result (desk_in desk.new) version.old version.new }
{
    match desk.publish(alloc) {
        None => Code::Closed as u32,
        Some(Err(_)) => Code::NoMemory as u32,
        Some(Ok(published)) => {
            *version = published;
            0
        }
    }
}

/// Returns the number of accepted commands, and of those that are published.
#[unsafe(no_mangle)]
pub extern "C" fn np_desk_versions(
    alloc: Global,
    desk: &mut DeskHandle,
    accepted: &mut u64,
    published: &mut u64,
) -> u32
    ensures { Asked (desk_in desk.old) (desk_in desk.new) result
        ((accepted.new ≡ accepted.old) × (published.new ≡ published.old))
        (λ kept. (result ≡ 0) × (accepted.new ≡ length (accepted_commands kept))
        × (published.new ≡ length kept.published)) }
{
    if_open!(desk.versions(alloc), versions => {
        *accepted = versions.0;
        *published = versions.1;
        0
    })
}

/// Opens a handle with a reader that was made, if there is one.
fn keep(alloc: Global, made: Option<Result<PlanView, NoReader>>, reader: &mut ReaderHandle) -> u32
    requires closed { reader_in reader.old ≡ None }
    ensures opens { Opens (reader_in reader.old) result (reader_in reader.new) }
    ensures kept { IfSome (reader_in reader.new) (λ view. made ≡ Some (Ok view)) }
    ensures closed { made ≡ None → result ≡ 1 }
{
    let Some(made) = made else {
        return Code::Closed as u32;
    };
    match reader.keep(alloc, made) {
        Err(ReaderLack::NoPlace) => Code::NoPlace as u32,
        Err(ReaderLack::NoMemory) => Code::NoMemory as u32,
        Ok(()) => 0,
    }
}

/// Opens a handle with a new reader, which looks at what is published.
#[unsafe(no_mangle)]
pub extern "C" fn np_desk_reader(
    alloc: Global,
    desk: &mut DeskHandle,
    reader: &mut ReaderHandle,
) -> u32
    ensures same { desk_in desk.new ≡ desk_in desk.old }
    ensures opens { Opens (reader_in reader.old) result (reader_in reader.new) }
    ensures reader { reader_in reader.old ≡ None →
        IfSome (reader_in reader.new) (IsReaderOf (desk_in desk.old)) }
    ensures open { is_some (reader_in reader.old) ≡ true → result ≡ 2 }
    ensures closed { reader_in reader.old ≡ None → desk_in desk.old ≡ None → result ≡ 1 }
{
    ensure_closed!(reader);
    let made = desk.view(alloc);
    keep(alloc, made, reader)
}

/// Frees a desk. Its readers keep what they have.
#[unsafe(no_mangle)]
pub extern "C" fn np_desk_close(alloc: Global, desk: &mut DeskHandle)
    ensures { desk_in desk.new ≡ None }
{
    desk.handle.close(alloc)
}
