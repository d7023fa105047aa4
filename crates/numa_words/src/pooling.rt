//! Pages of 2 MiB after scripts, and the pools that they come from: what these have for one page.
ghost use Rattle.std.specs.Prelude.{◌≡◌, IfSome};
ghost use Rattle.numa_placed.specs.Binds.{nodes_in};
ghost use Rattle.numa_pools.specs.Pools.{giver};

use arrayvec::ArrayVec;
use numa_answers::Pooled;
use numa_host_script::HostScript;
use numa_huge::{HugePages, HugeSpot};
use numa_pools::Pools;
use numa_questions::place_of;
use numa_sheets::Touch;
use numa_space::Space;
use numa_subjects::PagePlace;
use std::alloc::{AllocError, Global};

/// The pages of 4 KiB of one of 2 MiB.
const PARTS: u64 = 512;

/// What is known of a page in each process: where it lies, or what the pools have for it.
#[derive(Drop)]
pub(crate) struct KnownPages<'a> {
    pub(crate) there: Vec<Option<PagePlace>>,
    pub(crate) pooled: Vec<Option<Pooled<'a>>>,
}

/// A page of a process that is touched.
#[derive(Clone, Copy)]
struct AskedPage<'a> {
    space: &'a Space,
    touch: Touch,
    page: u64,
}

/// The nodes that are asked for a page.
fn nodes_for(asked: AskedPage<'_>) -> ArrayVec<u8, 256>
    ensures { result.items ≡ nodes_in asked.entry.space.now asked.entry.touch.task
        asked.entry.touch.cpu asked.entry.page }
{
    let Touch { task, cpu } = asked.touch;
    match asked.space.list_at(task, asked.page, cpu) {
        Ok(nodes) => nodes,
        Err(_) => ArrayVec::new(),
    }
}

/// What the pools have for a page of 2 MiB of which this is known, if it lies nowhere.
fn pooled_in<'a>(pools: &'a Pools, asked: AskedPage<'_>, spot: HugeSpot) -> Option<Pooled<'a>>
    ensures { IfSome result (λ pooled. pooled.giver ≡ giver pools.now (nodes_in
        asked.entry.space.now asked.entry.touch.task asked.entry.touch.cpu asked.entry.page)
        pooled.is_reserved) }
{
    if spot.node().is_some() {
        return None;
    }
    let nodes = nodes_for(asked);
    Some(Pooled::of(pools, spot.is_reserved(), &nodes))
}

/// Where a page of 2 MiB lies of which this is known; another one lies here, if anywhere.
fn place_by(spot: Option<HugeSpot>, other: Option<PagePlace>) -> Option<PagePlace> {
    let Some(spot) = spot else {
        return other;
    };
    match spot.node() {
        Some(node) => Some(PagePlace { node, frame: None }),
        None => other,
    }
}

impl<'a> KnownPages<'a> {
    /// Of no process.
    fn new(alloc: Global) -> KnownPages<'a> {
        KnownPages {
            there: Vec::new(alloc),
            pooled: Vec::new(alloc),
        }
    }

    /// Adds what is known of the page of a process that has these pages of 2 MiB; if it isn't one
    /// of them, it lies here.
    fn add(
        &mut self,
        pools: Option<&'a Pools>,
        kept: Option<&HugePages>,
        asked: AskedPage<'_>,
        other: Option<PagePlace>,
    ) -> Result<(), AllocError> {
        let spot = match kept {
            Some(kept) => kept.places.at(asked.page / PARTS),
            None => None,
        };
        let pooled = match (pools, spot) {
            (Some(pools), Some(spot)) => pooled_in(pools, asked, spot),
            _ => None,
        };
        self.there.push(place_by(spot, other))?;
        self.pooled.push(pooled)?;
        Ok(())
    }

    /// Adds it of each process of a host, or of one.
    fn add_each(
        &mut self,
        script: &'a HostScript,
        process: Option<u32>,
        touch: Touch,
        page: u64,
        there: &[Option<PagePlace>],
    ) -> Result<(), AllocError> {
        let (Some(host), Some(pages)) = (script.host(), script.host_pages()) else {
            return Ok(());
        };
        let pools = Some(pages.huge.pools());
        for one in host.processes() {
            if process.is_none() || process == Some(one.id) {
                let place = place_of(there, self.there.len());
                let kept = pages.huge.pages_of(one.id);
                let asked = AskedPage {
                    space: &one.space,
                    touch,
                    page,
                };
                self.add(pools, kept, asked, place)?;
            }
        }
        Ok(())
    }

    /// Adds it of the one space of a script.
    fn add_own(
        &mut self,
        script: &'a HostScript,
        touch: Touch,
        page: u64,
        there: &[Option<PagePlace>],
    ) -> Result<(), AllocError> {
        let Some(own) = script.script() else {
            return Ok(());
        };
        let Some(core) = own.core() else {
            return Ok(());
        };
        let kept = own.huge();
        let pools = match kept {
            Some(kept) => Some(kept.places.pools()),
            None => None,
        };
        let asked = AskedPage {
            space: core.space(),
            touch,
            page,
        };
        self.add(pools, kept, asked, place_of(there, 0))
    }
}

/// What is known of a page after a script: of the one space, or of each process of a host, or of
/// one alone. Where it isn't one of 2 MiB, it lies as said.
///
/// # Errors
/// `AllocError`: out of memory.
pub(crate) fn known_pages<'a>(
    alloc: Global,
    script: &'a HostScript,
    process: Option<u32>,
    touch: Touch,
    page: u64,
    there: &[Option<PagePlace>],
) -> Result<KnownPages<'a>, AllocError> {
    let mut known = KnownPages::new(alloc);
    known.add_own(script, touch, page, there)?;
    known.add_each(script, process, touch, page, there)?;
    Ok(known)
}
