//! First touches of a trace whose pages are those of a running script.
ghost use Rattle.std.specs.Prelude.{◌≡◌, IfErr, IfOk, None, false};
ghost use Rattle.numa_host_script.specs.Sessions.{Session};
ghost use Rattle.numa_host_script.specs.Taking.{SessionStandsFor};
ghost use Rattle.numa_play.specs.Deeds.{EndsFirst, EndsTouch, LeadsWell, TouchesPage, address_of};
ghost use Rattle.numa_play.specs.Deeds.{end_of, is_fault_in, lacks_cpu, lies_now, place_now};
ghost use Rattle.numa_play.specs.Deeds.{placed_end, populate_of};

use crate::places::{place_in, place_of_process};
use numa_host_script::HostScript;
use numa_machine::PlaceRefusal;
use numa_requests::{HostRefusal, PlacedRefusal};
use numa_script::{Line, PageLine, Reply, ScriptLine};
use numa_subjects::PagePlace;
use numa_traces::{Access, ReplayError};
use std::alloc::Global;

/// Where a page that was touched lies, if it found room, and whether it lay nowhere before.
#[derive(Clone, Copy)]
pub(crate) struct Landed {
    pub(crate) node: Option<u8>,
    pub(crate) is_fault: bool,
}

/// Where a page of one process lies.
fn place_alone(script: &HostScript, page: u64) -> Option<PagePlace>
    ensures { (session : Session) → SessionStandsFor script.now session
        → result ≡ place_now session None page }
{
    let Some(own) = script.script() else {
        return None;
    };
    place_in(own, page)
}

/// The same, or where a page lies of the process of a host that has this number.
fn place_now(script: &HostScript, process: Option<u32>, page: u64) -> Option<PagePlace>
    ensures { (session : Session) → SessionStandsFor script.now session
        → result ≡ place_now session process page }
{
    match process {
        Some(process) => place_of_process(script, process, page),
        None => place_alone(script, page),
    }
}

/// The node on which it lies.
pub(crate) fn lies_now(script: &HostScript, process: Option<u32>, page: u64) -> Option<u8>
    ensures { (session : Session) → SessionStandsFor script.now session
        → result ≡ lies_now session process page }
{
    match place_now(script, process, page) {
        Some(place) => Some(place.node),
        None => None,
    }
}

/// Whether no CPU is of a node.
fn lacks_cpu(script: &HostScript, cpu: u32) -> bool
    ensures { (session : Session) → SessionStandsFor script.now session
        → result ≡ lacks_cpu session cpu }
{
    if let Some(host) = script.host() {
        return host.machine().nodes() <= cpu;
    }
    let Some(own) = script.script() else {
        return true;
    };
    match own.core() {
        Some(core) => core.space().machine().nodes() <= cpu,
        None => true,
    }
}

/// The address of a page, in bytes.
pub(crate) fn address_of(page: u64) -> u64
    ensures { result ≡ address_of page }
{
    page.saturating_mul(4096)
}

/// The line `populate` of a page.
fn populate_of(process: Option<u32>, access: Access) -> ScriptLine<'static>
    ensures { result ≡ populate_of process access }
{
    ScriptLine {
        process,
        line: Line::Pages(Ok(PageLine::Populate {
            start: address_of(access.page),
            length: 4096,
            task: access.task,
            cpu: access.cpu,
        })),
    }
}

/// Why a trace ends at a page that may not lie there.
fn placed_end(why: PlacedRefusal) -> ReplayError
    ensures { result ≡ placed_end why }
{
    match why {
        PlacedRefusal::BadCpu => ReplayError::Refused(PlaceRefusal::BadCpu),
        PlacedRefusal::TooManyRuns => ReplayError::TooManyRuns,
        PlacedRefusal::NoMemory => ReplayError::NoMemory,
        _ => ReplayError::Refused(PlaceRefusal::Unmapped),
    }
}

/// Why a trace ends at a first touch that a script answers so.
pub(crate) fn end_of(reply: Reply) -> ReplayError
    ensures { result ≡ end_of reply }
{
    match reply {
        Reply::PlacedRefused(why) => placed_end(why),
        Reply::HostRefused(HostRefusal::NoSuchProcess) => ReplayError::NoProcess,
        Reply::HostRefused(_) => ReplayError::NoMemory,
        Reply::BadState => ReplayError::Unnamed,
        _ => ReplayError::Named,
    }
}

/// An access touches its page, which lies nowhere yet, for the first time.
///
/// # Errors
/// Why a script refuses it. Then nothing has changed.
fn touch_first(
    alloc: Global,
    script: &mut HostScript,
    process: Option<u32>,
    access: Access,
) -> Result<Option<u8>, ReplayError>
    ensures ok { (session : Session) → SessionStandsFor script.old session → IfOk result
        (λ node. (then : Session) × SessionStandsFor script.new then
        × LeadsWell (populate_of process access) session then
        × (node ≡ lies_now then process access.page)) }
    ensures err { (session : Session) → SessionStandsFor script.old session
        → IfErr result (EndsFirst process access session) }
{
    match script.judge(alloc, &populate_of(process, access)) {
        Some(reply) => Err(end_of(reply)),
        None => Ok(lies_now(script, process, access.page)),
    }
}

/// An access touches its page, which goes where `populate` puts it if it lies nowhere yet.
///
/// # Errors
/// The first that applies: `Refused`, no CPU is of the node, or the page isn't mapped; `NoProcess`;
/// `TooManyRuns` or `NoMemory`. Then nothing has changed.
pub(crate) fn touch(
    alloc: Global,
    script: &mut HostScript,
    process: Option<u32>,
    access: Access,
) -> Result<Landed, ReplayError>
    ensures ok { (session : Session) → SessionStandsFor script.old session → IfOk result
        (λ landed. (lacks_cpu session access.cpu ≡ false) × (then : Session)
        × SessionStandsFor script.new then × TouchesPage process access session then
        × (landed.node ≡ lies_now then process access.page)
        × (landed.is_fault ≡ is_fault_in session process access)) }
    ensures err { (session : Session) → SessionStandsFor script.old session
        → IfErr result (EndsTouch process access session) }
{
    if lacks_cpu(script, access.cpu) {
        return Err(ReplayError::Refused(PlaceRefusal::BadCpu));
    }
    if let Some(node) = lies_now(script, process, access.page) {
        return Ok(Landed {
            node: Some(node),
            is_fault: false,
        });
    }
    match touch_first(alloc, script, process, access) {
        Ok(node) => Ok(Landed {
            node,
            is_fault: true,
        }),
        Err(why) => Err(why),
    }
}
