//! The runs of pages that lie somewhere, as a list.
ghost use Rattle.std.specs.Prelude.{◌≡◌, ◌≢◌, ◌<◌, ◌≤◌, ◌^◌, ◌++◌, ◌∷◌, ℕ, [], IfOk, MatchOption};
ghost use Rattle.std.specs.Prelude.{OnOk};
ghost use Rattle.numa_placed.specs.Spots.{spot_at};
ghost use Rattle.numa_placed.specs.declared.spot.Spot.{Spot};
ghost use Rattle.numa_huge.specs.Huge.{places_of};
ghost use Rattle.numa_pages.specs.Listing.{AreListed};
ghost use Rattle.numa_pages.specs.Sizes.{both_spots};

use crate::questions::stay_of;
use numa_huge::HugePlaces;
use numa_placed::{Placed, Spot, Stay};
use std::alloc::{AllocError, Global};

/// Consecutive pages of 4 KiB that lie on one node.
#[repr(C)]
#[derive(Clone, Copy)]
pub struct PageRun {
    /// The first page.
    pub first: u64,
    /// The number of pages.
    pub pages: u64,
    /// The node on which they lie.
    pub node: u8,
}

const _: () = prove!(size_of::<PageRun>() == 24);

/// Where a page lies, and up to where those behind it lie there too; of pages of 4 KiB alone, or of
/// both sizes.
fn stay_in(placed: &Placed, huge: Option<&HugePlaces>, page: u64) -> Stay
    requires near { page < 2 ^ 35 }
    ensures rises { page < result.end }
    ensures within { result.end ≤ 2 ^ 35 }
    ensures spot { (spots : ℕ → Spot) → MatchOption huge.entry
        ((p : ℕ) → spots p ≡ spot_at placed.now p)
        (λ it. (p : ℕ) → spots p ≡ both_spots (places_of it.now) (spot_at placed.now) p)
        → ((p : ℕ) → page ≤ p → p < result.end → spots p ≡ result.spot)
        × (result.end < 2 ^ 35 → spots result.end ≢ result.spot) }
{
    match huge {
        None => placed.stay_at(page),
        Some(huge) => stay_of(placed, huge, page),
    }
}

/// The maximal runs of pages of 4 KiB that lie on one node, in ascending order; one of 2 MiB is 512
/// of them, where there are any.
///
/// # Errors
/// `AllocError`: out of memory.
pub fn list_runs(
    alloc: Global,
    placed: &Placed,
    huge: Option<&HugePlaces>,
) -> Result<Vec<PageRun>, AllocError>
    ensures { (spots : ℕ → Spot) → MatchOption huge.entry
        ((p : ℕ) → spots p ≡ spot_at placed.now p)
        (λ it. (p : ℕ) → spots p ≡ both_spots (places_of it.now) (spot_at placed.now) p)
        → IfOk result (λ list. AreListed spots 0 list.items) }
{
    let mut list = Vec::new(alloc);
    let mut page = 0;
    while page < 1 << 35 {
        let stay = stay_in(placed, huge, page);
        if let Spot::Stated(node) = stay.spot {
            list.push(PageRun {
                first: page,
                pages: stay.end - page,
                node,
            })?;
        }
        page = stay.end;
    }
    Ok(list)
}
