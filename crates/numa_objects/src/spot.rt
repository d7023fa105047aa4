//! The indexes of objects' pages.
ghost use Rattle.std.specs.Prelude.{◌≡◌, ◌+◌, ◌*◌, ◌-◌, ◌<◌, ◌≤◌, ◌^◌};
ghost use Rattle.numa_objects.specs.Spots.{index_at, is_shared, slot_of, turn_of};

/// The first index of the object in slot 0.
const FIRST_SHARED: u64 = 1 << 37;

/// The number of indexes of a slot.
const SLOT: u64 = 1 << 36;

/// Whether an index is that of a page of an object.
#[tactic(auto, unfolding(crate::specs::Spots::is_shared))]
#[inline(always)]
pub fn is_shared(index: u64) -> bool
    ensures { result ≡ is_shared index }
{
    index >= FIRST_SHARED
}

/// The turn of a page of an object, where nodes take turns: the number of the inode plus the place.
#[tactic(auto, unfolding(crate::specs::Spots::turn_of))]
#[inline(always)]
pub fn turn_of(index: u64) -> u64
    requires { 2 ^ 37 ≤ index }
    ensures turn { result ≡ turn_of index }
    ensures few { result < 2 ^ 36 }
{
    (index - FIRST_SHARED) % SLOT
}

/// The slot of an index of an object.
#[tactic(auto, unfolding(crate::specs::Spots::slot_of))]
#[inline(always)]
pub(crate) fn slot_of(index: u64) -> u64
    requires { 2 ^ 37 ≤ index }
    ensures { result ≡ slot_of index }
{
    (index - FIRST_SHARED) / SLOT
}

/// The index of a page with this turn, of the object in this slot.
pub(crate) fn index_at(slot: u64, turn: u64) -> u64
    requires slot { slot < 1024 }
    requires turn { turn < 2 ^ 36 }
    ensures { result ≡ index_at slot turn }
{
    FIRST_SHARED + slot * SLOT + turn
}
