//! Which orders a first touch tries.
ghost use Rattle.std.specs.Prelude.{◌≡◌, ◌++◌, ◌<◌, ◌≤◌, ◌^◌, [], ◌∷◌, Bool, ℕ, filter, length};
ghost use Rattle.std.specs.Prelude.{if◌then◌else◌};
ghost use Rattle.numa_blocks.specs.Blocks.{HasPage, IsGap, fits, large_orders, orders_for};

use crate::area::Area;
use crate::gap::{Gap, lies_within};
use crate::settings::BlockSettings;
use arrayvec::ArrayVec;

/// The orders of blocks, the greatest first.
static LARGE: [u32; 8] = [9, 8, 7, 6, 5, 4, 3, 2];

/// Whether a block of an order may serve a first touch of a page: it is wanted, and the block lies
/// in the area and in the gap.
fn fits(settings: &BlockSettings, area: &Area, gap: &Gap, page: u64, order: u32) -> bool
    requires low { 2 ≤ order }
    requires high { order ≤ 9 }
    requires page { HasPage area.now page }
    ensures { result ≡ fits settings.now area.now gap.now page order }
{
    area.is_own()
        && settings.is_enabled(area.advice, order)
        && area.has_block(order, page)
        && lies_within(gap.first, gap.end, order, page)
}

/// Pushes an order, if it is wanted.
fn push_if(orders: &mut ArrayVec<u32, 9>, wanted: bool, order: u32)
    requires { length orders.old.items < 9 }
    ensures { orders.new.items
        ≡ (if wanted then orders.old.items ++ order ∷ [] else orders.old.items) }
{
    if wanted {
        orders.push(order);
    }
}

/// The orders of blocks that may serve a first touch of a page, the greatest first.
fn large_orders(settings: &BlockSettings, area: &Area, gap: &Gap, page: u64) -> ArrayVec<u32, 9>
    requires page { HasPage area.now page }
    ensures { result.items ≡ filter (fits settings.now area.now gap.now page) large_orders }
{
    let mut orders = ArrayVec::new();
    for order in &LARGE {
        let wanted = fits(settings, area, gap, page, *order);
        push_if(&mut orders, wanted, *order);
    }
    orders
}

/// The orders that a first touch of a page tries, in turn: blocks, the greatest first, and at last
/// the page alone, 0.
#[tactic(auto, using(crate::proofs::Gaps::orders_same))]
pub fn orders(settings: &BlockSettings, area: &Area, gap: &Gap, page: u64) -> ArrayVec<u32, 9>
    requires page { HasPage area.now page }
    ensures orders { (touched : ℕ → Bool) → IsGap area.now touched page gap.now
        → result.items ≡ orders_for settings.now area.now touched page }
{
    let mut orders = large_orders(settings, area, gap, page);
    orders.push(0);
    orders
}
