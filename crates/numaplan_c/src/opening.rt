//! Opening, copying and closing cores, cores with their pages, and hosts.
ghost use Rattle.std.specs.Prelude.{◌≡◌, ◌≢◌, ◌≤◌, [], Some, None, true, is_some};
ghost use Rattle.std.specs.Prelude.{IfOk, IfErr, IfSome, MatchOption, MatchResult, is_ok};
ghost use Rattle.numaplan_handles.specs.Handles.{core_in, host_in, pages_in};
ghost use Rattle.numa_core.specs.Standing.{LeadsTo, setup_of};
ghost use Rattle.numa_mask.specs.Lists.{list_of};
ghost use Rattle.numaplan_c.specs.Border.{Asked, IsMachineOf, IsSetUp, Makes, Opens, Shares};
ghost use Rattle.numaplan_c.specs.Border.{bounds_of};
ghost use Rattle.numaplan_c.specs.Border.{limits_cause, opening_cause};
ghost use Rattle.numa_machine.specs.declared.fallback.Fallback.{Fallback};
ghost use Rattle.numaplan_c.specs.Hosts.{IsHostSetUp};
ghost use Rattle.numaplan_c.specs.Options.{documents, options_of};
ghost use Rattle.numaplan_handles.specs.Hosts.{IsHostCopyOf};
ghost use Rattle.numaplan_handles.specs.Pages.{IsCoreOf, IsOpenedFrom};

use crate::codes::Code;
use crate::keeping::{ensure_closed, if_open, memory_code, open_from, or_return, tell_if_open};
use crate::machines::machine_of;
use crate::options::{NpOptions, Options, documents, options_of};
use numa_core::Core;
use numa_host::Host;
use numa_host_script::RunningHost;
use numa_machine::Machine;
use numa_requests::Limits;
use numaplan_handles::{CoreHandle, HostHandle, PagesHandle};
use std::alloc::Global;

/// The limits of a core: the most ranges, tasks with a policy, and accepted commands.
#[repr(C)]
#[derive(Clone, Copy)]
pub struct NpLimits {
    pub max_ranges: u32,
    pub max_tasks: u32,
    pub max_commands: u32,
}

const _: () = prove!(size_of::<NpLimits>() == 12);

/// Why limits or a number of workers are refused.
fn limits_cause(limits: NpLimits, workers: u32) -> Option<u32>
    ensures cause { result ≡ limits_cause (bounds_of limits) workers }
    ensures workers { result ≡ None → (1 ≤ workers) × (workers ≤ 16) }
    ensures limits { result ≡ None → (limits.max_ranges ≤ 65536) × (limits.max_tasks ≤ 1024) }
    ensures refused { IfSome result (λ code. code ≢ 0) }
{
    if !(limits.max_ranges <= 65_536 && limits.max_tasks <= 1_024) {
        return Some(Code::BadLimits as u32);
    }
    if !(1 <= workers && workers <= 16) {
        return Some(Code::BadWorkers as u32);
    }
    None
}

/// The machine of a description and its limits, or the code of the first cause against them.
fn set_up(
    alloc: Global,
    memory: &[u8],
    frames: &[u32],
    distances: &[u8],
    options: Options,
    limits: NpLimits,
    workers: u32,
) -> Result<(Machine, Limits), u32>
    ensures machine { IfOk result (λ made.
        IsMachineOf (list_of memory.now) frames.now distances.now options made.0) }
    ensures limits { IfOk result (λ made. made.1 ≡ bounds_of limits) }
    ensures workers { IfOk result (λ made. (1 ≤ workers) × (workers ≤ 16)) }
    ensures cause { IfErr result (λ code. MatchOption (opening_cause (list_of memory.now)
        frames.now distances.now options.fallback
        (bounds_of limits) workers) (code ≡ 3) (λ first. code ≡ first)) }
    ensures none { IfOk result (λ made. opening_cause (list_of memory.now) frames.now
        distances.now options.fallback (bounds_of limits) workers ≡ None) }
    ensures refused { IfErr result (λ code. code ≢ 0) }
{
    let others = limits_cause(limits, workers);
    let machine = match machine_of(alloc, memory, frames, distances, others, options) {
        Ok(machine) => machine,
        Err(code) => return Err(code),
    };
    let Some(limits) = Limits::new(limits.max_ranges, limits.max_tasks, limits.max_commands) else {
        unreachable!()
    };
    Ok((machine, limits))
}

/// Opens a closed handle with the core of a description.
fn open_made(
    alloc: Global,
    core: &mut CoreHandle,
    memory: &[u8],
    frames: &[u32],
    distances: &[u8],
    options: Options,
    limits: NpLimits,
    workers: u32,
) -> u32
    requires closed { core_in core.old ≡ None }
    ensures opens { Opens (core_in core.old) result (core_in core.new) }
    ensures run { IfSome (core_in core.new) (LeadsTo []) }
    ensures setup { IfSome (core_in core.new) (λ made. IsSetUp (list_of memory.now) frames.now
        distances.now options (bounds_of limits) workers (setup_of made)) }
    ensures cause { result ≢ 0 → MatchOption (opening_cause (list_of memory.now) frames.now
        distances.now options.fallback (bounds_of limits) workers) (result ≡ 3)
        (λ first. result ≡ first) }
    ensures none { result ≡ 0 → opening_cause (list_of memory.now) frames.now distances.now
        options.fallback (bounds_of limits) workers ≡ None }
{
    let made = set_up(alloc, memory, frames, distances, options, limits, workers);
    let (machine, limits) = or_return!(made);
    match Core::new(alloc, machine, limits, workers) {
        Ok(made) => memory_code(core.open(alloc, made)),
        Err(_) => Code::NoMemory as u32,
    }
}

/// Opens a core of a machine.
#[unsafe(no_mangle)]
pub extern "C" fn np_core_open(
    alloc: Global,
    core: &mut CoreHandle,
    memory: &[u8],
    frames: &[u32],
    distances: &[u8],
    limits: &NpLimits,
    workers: u32,
) -> u32
    ensures opens { Opens (core_in core.old) result (core_in core.new) }
    ensures run { core_in core.old ≡ None → IfSome (core_in core.new) (LeadsTo []) }
    ensures setup { core_in core.old ≡ None → IfSome (core_in core.new) (λ made.
        IsSetUp (list_of memory.now) frames.now distances.now documents
        (bounds_of limits.now) workers (setup_of made)) }
    ensures cause { core_in core.old ≡ None → result ≢ 0 →
        MatchOption (opening_cause (list_of memory.now) frames.now distances.now Fallback.Nearest
        (bounds_of limits.now) workers) (result ≡ 3) (λ first. result ≡ first) }
    ensures none { result ≡ 0 → opening_cause (list_of memory.now) frames.now distances.now
        Fallback.Nearest (bounds_of limits.now) workers ≡ None }
    ensures open { is_some (core_in core.old) ≡ true → result ≡ 2 }
{
    ensure_closed!(core);
    open_made(
        alloc,
        core,
        memory,
        frames,
        distances,
        documents(),
        *limits,
        workers,
    )
}

/// Opens a core of a machine by options.
#[unsafe(no_mangle)]
pub extern "C" fn np_core_open_by(
    alloc: Global,
    core: &mut CoreHandle,
    memory: &[u8],
    frames: &[u32],
    distances: &[u8],
    limits: &NpLimits,
    workers: u32,
    options: &NpOptions,
) -> u32
    ensures opens { Opens (core_in core.old) result (core_in core.new) }
    ensures run { core_in core.old ≡ None → IfSome (core_in core.new) (LeadsTo []) }
    ensures setup { core_in core.old ≡ None → IfSome (core_in core.new) (λ made.
        IfOk (options_of options.now) (λ it.
        IsSetUp (list_of memory.now) frames.now distances.now it
        (bounds_of limits.now) workers (setup_of made))) }
    ensures cause { core_in core.old ≡ None → result ≢ 0 → MatchResult (options_of options.now)
        (λ it. MatchOption (opening_cause (list_of memory.now) frames.now distances.now
        it.fallback (bounds_of limits.now) workers) (result ≡ 3) (λ first. result ≡ first))
        (λ code. result ≡ code) }
    ensures none { result ≡ 0 → IfOk (options_of options.now) (λ it.
        opening_cause (list_of memory.now) frames.now distances.now it.fallback
        (bounds_of limits.now) workers ≡ None) }
    ensures read { result ≡ 0 → is_ok (options_of options.now) ≡ true }
    ensures open { is_some (core_in core.old) ≡ true → result ≡ 2 }
{
    ensure_closed!(core);
    let options = or_return!(options_of(options));
    open_made(
        alloc, core, memory, frames, distances, options, *limits, workers,
    )
}

/// Opens a host of a machine by options.
#[unsafe(no_mangle)]
pub extern "C" fn np_host_open(
    alloc: Global,
    host: &mut HostHandle,
    memory: &[u8],
    frames: &[u32],
    distances: &[u8],
    limits: &NpLimits,
    options: &NpOptions,
) -> u32
    ensures opens { Opens (host_in host.old) result (host_in host.new) }
    ensures setup { host_in host.old ≡ None → IfSome (host_in host.new) (λ made.
        IfOk (options_of options.now) (λ it. IsHostSetUp (list_of memory.now) frames.now
        distances.now it (bounds_of limits.now) made)) }
    ensures cause { host_in host.old ≡ None → result ≢ 0 → MatchResult (options_of options.now)
        (λ it. MatchOption (opening_cause (list_of memory.now) frames.now distances.now
        it.fallback (bounds_of limits.now) 1) (result ≡ 3) (λ first. result ≡ first))
        (λ code. result ≡ code) }
    ensures none { result ≡ 0 → IfOk (options_of options.now) (λ it.
        opening_cause (list_of memory.now) frames.now distances.now it.fallback
        (bounds_of limits.now) 1 ≡ None) }
    ensures read { result ≡ 0 → is_ok (options_of options.now) ≡ true }
    ensures open { is_some (host_in host.old) ≡ true → result ≡ 2 }
{
    ensure_closed!(host);
    let options = or_return!(options_of(options));
    let made = set_up(alloc, memory, frames, distances, options, *limits, 1);
    let (machine, limits) = or_return!(made);
    match RunningHost::new(alloc, Host::new(alloc, machine, limits)) {
        Ok(running) => memory_code(host.open(alloc, running)),
        Err(_) => Code::NoMemory as u32,
    }
}

/// Returns the number of accepted commands, and of those that are published.
#[unsafe(no_mangle)]
pub extern "C" fn np_core_versions(
    alloc: Global,
    core: &mut CoreHandle,
    accepted: &mut u64,
    published: &mut u64,
) -> u32
    ensures { Asked (core_in core.old) (core_in core.new) result
        ((accepted.new ≡ accepted.old) × (published.new ≡ published.old))
        (λ kept. (result ≡ 0) × (accepted.new ≡ kept.space.version)
        × (published.new ≡ kept.plan.version)) }
{
    if_open!(core.versions(alloc), versions => {
        *accepted = versions.0;
        *published = versions.1;
        0
    })
}

/// Frees a core.
#[unsafe(no_mangle)]
pub extern "C" fn np_core_close(alloc: Global, core: &mut CoreHandle)
    ensures { core_in core.new ≡ None }
{
    core.handle.close(alloc)
}

/// Opens another handle with a copy of a core.
#[unsafe(no_mangle)]
pub extern "C" fn np_core_copy(alloc: Global, core: &mut CoreHandle, copy: &mut CoreHandle) -> u32
    ensures { Shares core_in core.old copy.old result core.new copy.new }
{
    open_from!(copy, core.copy(alloc, copy))
}

/// Frees a host.
#[unsafe(no_mangle)]
pub extern "C" fn np_host_close(alloc: Global, host: &mut HostHandle)
    ensures { host_in host.new ≡ None }
{
    host.handle.close(alloc)
}

/// Opens another handle with a copy of a host, with the pages of its processes.
#[unsafe(no_mangle)]
pub extern "C" fn np_host_copy(alloc: Global, host: &mut HostHandle, copy: &mut HostHandle) -> u32
    ensures same { host_in host.new ≡ host_in host.old }
    ensures opens { Makes IsHostCopyOf (host_in host.old) (host_in copy.old) result
        (host_in copy.new) }
{
    open_from!(copy, host.copy(alloc, copy))
}

/// Opens a copy of a core with its pages.
#[unsafe(no_mangle)]
pub extern "C" fn np_pages_open(
    alloc: Global,
    pages: &mut PagesHandle,
    core: &mut CoreHandle,
) -> u32
    ensures same { core_in core.new ≡ core_in core.old }
    ensures opens { Makes IsOpenedFrom (core_in core.old) (pages_in pages.old) result
        (pages_in pages.new) }
{
    open_from!(pages, pages.open(alloc, core))
}

/// Opens another handle with a copy of a core with its pages.
#[unsafe(no_mangle)]
pub extern "C" fn np_pages_copy(
    alloc: Global,
    pages: &mut PagesHandle,
    copy: &mut PagesHandle,
) -> u32
    ensures { Shares pages_in pages.old copy.old result pages.new copy.new }
{
    open_from!(copy, pages.copy(alloc, copy))
}

/// Opens a handle of a core with a copy of the core.
#[unsafe(no_mangle)]
pub extern "C" fn np_pages_core(
    alloc: Global,
    pages: &mut PagesHandle,
    core: &mut CoreHandle,
) -> u32
    ensures same { pages_in pages.new ≡ pages_in pages.old }
    ensures opens { Makes IsCoreOf (pages_in pages.old) (core_in core.old) result
        (core_in core.new) }
{
    open_from!(core, pages.copy_core(alloc, core))
}

/// Returns the number of accepted commands.
#[unsafe(no_mangle)]
pub extern "C" fn np_pages_version(alloc: Global, pages: &mut PagesHandle, version: &mut u64) -> u32
    ensures { Asked (pages_in pages.old) (pages_in pages.new) result (version.new ≡ version.old)
        (λ kept. (result ≡ 0) × (version.new ≡ kept.core.space.version)) }
{
    tell_if_open!(version, pages.version(alloc))
}

/// Frees a core with its pages.
#[unsafe(no_mangle)]
pub extern "C" fn np_pages_close(alloc: Global, pages: &mut PagesHandle)
    ensures { pages_in pages.new ≡ None }
{
    pages.handle.close(alloc)
}
