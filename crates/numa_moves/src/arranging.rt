//! The order in which pages of processes move.
ghost use Rattle.std.specs.Prelude.{◌≡◌, ◌==◌, ◌++◌, ◌∷◌, OnOk};
ghost use Rattle.std.specs.List.{position};
ghost use Rattle.numa_host_pages.specs.Homes.{HostLying};
ghost use Rattle.numa_host_pages.specs.Standing.{HostLies};
ghost use Rattle.numa_host_pages.specs.TopDown.{told_in, top_down};
ghost use Rattle.numa_moves.specs.Held.{Before, IsLeft, arranged, first_of, order_in};
ghost use Rattle.numa_moves.specs.Held.{without_first};
ghost use Rattle.numa_moves.specs.declared.holding.Holding.{Holding};

use crate::holding::Holding;
use crate::scene::Scene;
use numa_host::Host;
use numa_host_pages::HostPages;
use std::alloc::{AllocError, Global};
use std::mem::replace;

/// The place of a process.
fn place_of(holdings: &[Holding], process: u32) -> Option<usize>
    ensures { result ≡ position (λ (h : Holding). process == h.process) holdings.now }
{
    holdings
        .iter()
        .position(|holding| process == holding.process)
}

/// Takes a process out, if it is there, and puts it behind others.
fn put_behind(
    holdings: &mut Vec<Holding>,
    process: u32,
    others: &mut Vec<Holding>,
) -> Result<(), AllocError>
    ensures taken { holdings.new.items ≡ without_first process holdings.old.items }
    ensures put { OnOk result
        (others.new.items ≡ others.old.items ++ first_of process holdings.old.items) }
{
    let Some(place) = place_of(holdings, process) else {
        return Ok(());
    };
    let holding = holdings.remove(place);
    others.push(holding)?;
    Ok(())
}

/// Puts processes first that are named, in this order.
fn put_first(alloc: Global, holdings: &mut Vec<Holding>, order: &[u32]) -> Result<(), AllocError>
    ensures { OnOk result (holdings.new.items ≡ arranged order.now holdings.old.items) }
{
    let mut first = Vec::new(alloc);
    for process in order {
        put_behind(holdings, *process, &mut first)?;
    }
    first.append(holdings)?;
    drop(replace(holdings, first));
    Ok(())
}

/// Puts processes in the order in which the pages of a host's follow their nodes.
fn arrange_in(
    alloc: Global,
    host: &Host,
    pages: &HostPages,
    holdings: &mut Vec<Holding>,
) -> Result<(), AllocError>
    ensures { (at : HostLying) → HostLies pages.now at → OnOk result (holdings.new.items
        ≡ arranged (told_in (0 ∷ top_down host.now.groups) at.homes) holdings.old.items) }
{
    let order = pages.told_order(alloc, host.groups())?;
    let arranged = put_first(alloc, holdings, order.as_slice());
    drop(order);
    arranged
}

/// Puts processes in the order in which their pages follow their nodes.
///
/// # Errors
/// `AllocError`: out of memory.
pub(crate) fn arrange(
    alloc: Global,
    scene: Scene<'_>,
    holdings: &mut Vec<Holding>,
) -> Result<(), AllocError>
    ensures { (before : Before) → IsLeft scene.entry before → OnOk result
        (holdings.new.items ≡ arranged (order_in scene.entry before) holdings.old.items) }
{
    match scene {
        Scene::Own(..) => Ok(()),
        Scene::Each(host, pages) => arrange_in(alloc, host, pages, holdings),
    }
}
