//! Laws about pools. The functions do nothing: what each one ensures is a law.
ghost use Rattle.std.specs.Prelude.{◌≡◌, ◌≢◌, ◌+◌, ◌<◌, ◌≤◌, ◌-◌, ℕ, Bool, List, false, length};
ghost use Rattle.std.specs.Prelude.{min, slice_index, sum};
ghost use Rattle.numa_pools.specs.Turns.{in_turn, less, on};
ghost use Rattle.numa_pools.specs.Pools.{PoolCounts, free_at, freeing, freeing_one, giving_back};
ghost use Rattle.numa_pools.specs.Pools.{lasting, most, refusing, reserving, surplus_at, taking};
ghost use Rattle.numa_pools.specs.Pools.{total_at, used_at};
ghost use Rattle.numa_pools.specs.Moves.{movable};
ghost use Rattle.numa_pools.specs.Resize.{left_of, resized};
ghost use Rattle.numa_pools.specs.Kept.{AreKept};

/// A resize to what is there changes nothing, on whichever nodes.
pub fn resizes_to_what_is_there()
    ensures { (nodes allowed : ℕ) (pools : PoolCounts) → AreKept pools
        → resized nodes allowed (lasting pools) pools ≡ pools }
{}

/// A resize gives as many lasting pages as it asks for, if the nodes have enough: pages that aren't
/// surplus, where fewer are to last; surplus ones and room for fresh ones, where more are.
pub fn a_resize_gives_what_is_asked()
    ensures { (nodes allowed goal : ℕ) (pools : PoolCounts) → AreKept pools
        → lasting pools ≤ goal + sum (on nodes (less pools.total pools.surplus))
        → goal ≤ lasting pools + sum (on nodes pools.surplus)
        + sum (on nodes (on allowed (left_of pools.total)))
        → lasting (resized nodes allowed goal pools) ≡ goal }
{}

/// Pages of a node are used where processes take them, until they free them or move them away: a
/// resize, a reservation that is given back and a mapping that is refused leave them as they are.
pub fn pages_are_used_as_they_are_taken()
    ensures resized { (nodes allowed goal : ℕ) (pools : PoolCounts) → AreKept pools → (node : ℕ)
        → used_at (resized nodes allowed goal pools) node ≡ used_at pools node }
    ensures given_back { (pools : PoolCounts) (pages : ℕ) → AreKept pools → (node : ℕ)
        → used_at (giving_back pools pages) node ≡ used_at pools node }
    ensures refused { (pools : PoolCounts) (pages : ℕ) → AreKept pools → (node : ℕ)
        → used_at (refusing pools pages) node ≡ used_at pools node }
    ensures taken { (pools : PoolCounts) (node : ℕ) (by_reservation : Bool) → AreKept pools
        → node < 256 → 0 < free_at pools node
        → used_at (taking pools node by_reservation) node ≡ used_at pools node + 1 }
    ensures freed { (pools : PoolCounts) (node pages : ℕ) → AreKept pools → node < 256
        → free_at pools node + pages ≤ total_at pools node
        → used_at (freeing pools node pages) node + pages ≡ used_at pools node }
{}

/// Pages can move to a node as long as its used pages, all reserved ones and they are at most as
/// many as a node can have.
pub fn pages_can_move()
    ensures { (pools : PoolCounts) (from to pages : ℕ) → AreKept pools → from ≢ to → from < 256
        → to < 256 → used_at pools to + pools.reserved + pages ≤ most
        → movable pools from to pages ≡ pages }
{}

/// What gives comes back: reserved pages that are given back, where no page is surplus, and a page
/// that is taken and freed again, where its node has no surplus.
pub fn what_is_given_comes_back()
    ensures reserved { (pools : PoolCounts) (pages : ℕ) → AreKept pools → sum pools.surplus ≡ 0
        → giving_back (reserving pools pages) pages ≡ pools }
    ensures taken { (pools : PoolCounts) (node : ℕ) → surplus_at pools node ≡ 0
        → 0 < free_at pools node → freeing_one (taking pools node false) node ≡ pools }
{}

/// Turns are used up as long as there is room: the nodes of a set take as many pages as there are
/// turns, or all that they have room for.
pub fn turns_are_used()
    ensures { (times nodes mark : ℕ) (room : List ℕ) → mark < 256 → length room ≡ 256
        → sum (in_turn times nodes mark room).taken ≡ min times (sum (on nodes room)) }
{}
