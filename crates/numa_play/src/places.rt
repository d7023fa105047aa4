//! Where a page lies after a script.
ghost use Rattle.std.specs.Prelude.{◌≡◌, ℕ, IsSome, None, Option};
ghost use Rattle.numa_page_state.specs.Lying.{Lying};
ghost use Rattle.numa_page_state.specs.Standing.{Lies};
ghost use Rattle.numa_placed.specs.Spots.{node_of};
ghost use Rattle.numa_host_script.specs.Hosts.{Hosting};
ghost use Rattle.numa_host_script.specs.Paging.{pages_at};
ghost use Rattle.numa_host_script.specs.Sessions.{Hosted, Single};
ghost use Rattle.numa_host_script.specs.Taking.{SessionStandsFor};
ghost use Rattle.numa_play.specs.Places.{place_by, place_of, place_on};
ghost use Rattle.numa_requests.specs.declared.placement.Placement.{Placement};
ghost use Rattle.numa_run.specs.Scripts.{ScriptStandsFor};
ghost use Rattle.numa_run.specs.States.{State};

use numa_host_script::HostScript;
use numa_run::Script;
use numa_subjects::PagePlace;
use std::alloc::{AllocError, Global};

/// The node of a page without a frame, if it is there.
fn node_in(script: &Script, page: u64) -> Option<u8>
    ensures { (state : State) → ScriptStandsFor script.now state → IsSome state.machine
        → result ≡ node_of (state.lying.spots page) }
{
    script.pages()?.placed().at(page).node()
}

/// Where a page of one process lies, if it is there: in the frame that it keeps, or where lines
/// say.
pub(crate) fn place_in(script: &Script, page: u64) -> Option<PagePlace>
    ensures none { (state : State) → ScriptStandsFor script.now state → state.machine ≡ None
        → result ≡ None }
    ensures place { (state : State) → ScriptStandsFor script.now state → IsSome state.machine
        → result ≡ place_of state.resident state.lying.spots page }
{
    if let Some(placement) = script.resident()?.at(page) {
        return Some(PagePlace {
            node: placement.node,
            frame: Some(placement.frame.number),
        });
    }
    let node = node_in(script, page)?;
    Some(PagePlace { node, frame: None })
}

/// Where a page of a process of a host lies, if it is there.
pub(crate) fn place_of_process(script: &HostScript, process: u32, page: u64) -> Option<PagePlace>
    ensures alone { (state : State) → SessionStandsFor script.now (Single state) → result ≡ None }
    ensures place { (at : Hosting) → SessionStandsFor script.now (Hosted at)
        → result ≡ place_on (node_of ((pages_at at process).spots page)) }
{
    let Some(kept) = script.pages_of(process) else {
        return None;
    };
    let Some(node) = kept.placed().at(page).node() else {
        return None;
    };
    Some(PagePlace { node, frame: None })
}

/// Where a page lies after a script, if it is there: in the frame that it keeps, or where lines
/// say. Of a host in that process or, if none is given, in each, in the order in which they were
/// made.
///
/// # Errors
/// `AllocError`: out of memory.
pub fn page_places(
    alloc: Global,
    script: &HostScript,
    process: Option<u32>,
    page: u64,
) -> Result<Vec<Option<PagePlace>>, AllocError> {
    let mut places = Vec::new(alloc);
    if let Some(script) = script.script() {
        places.push(place_in(script, page))?;
        return Ok(places);
    }
    if let Some(process) = process {
        places.push(place_of_process(script, process, page))?;
        return Ok(places);
    }
    let Some(host) = script.host() else {
        return Ok(places);
    };
    for one in host.processes() {
        places.push(place_of_process(script, one.id, page))?;
    }
    Ok(places)
}
