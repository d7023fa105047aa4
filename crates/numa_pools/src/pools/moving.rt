//! Pages that become free, and pages that move.
ghost use Rattle.std.specs.Prelude.{◌≡◌, ◌≢◌, ◌+◌, ◌-◌, ◌≤◌, ◌<◌, min};
ghost use Rattle.numa_pools.specs.Pools.{free_at, freeing, has_spare, most, moving_one};
ghost use Rattle.numa_pools.specs.Pools.{renewing, surplus_at, total_at, unreserved};
ghost use Rattle.numa_pools.specs.Moves.{carried, movable, moving, served, serving};

use crate::counts::MOST;
use crate::pools::Pools;

/// How many of so many moves are served by a target with `free` free pages. Where the node that the
/// pages leave has as much surplus as pages are not reserved, each move takes one of these.
fn serving(pages: u64, free: u64, surplus: u64, spare: u64) -> u64
    ensures { result ≡ serving pages free surplus spare }
{
    let at_hand = pages.min(free);
    if surplus < spare {
        at_hand
    } else {
        at_hand.min(spare)
    }
}

impl Pools {
    /// So many pages of a node become free, which processes had: as many as the node has surplus
    /// end, and are surplus no more.
    pub fn free_pages(&mut self, node: u8, pages: u64)
        requires { free_at self.old node + pages ≤ total_at self.old node }
        ensures { self.new ≡ freeing self.old node pages }
    {
        let place = node as usize;
        let ending = pages.min(self.surplus[place]);
        self.total[place] -= ending;
        self.surplus[place] -= ending;
        self.free[place] += pages - ending;
    }

    /// Whether a free page of a node can serve a move: one that is not reserved.
    fn has_spare(&self, to: u8) -> bool
        ensures { result ≡ has_spare self.now to }
    {
        self.unreserved() > 0 && self.free[to as usize] > 0
    }

    /// Free pages of the target serve moves, as far as there are, and the old pages become free;
    /// returns how many.
    fn serve_pages(&mut self, from: u8, to: u8, pages: u64) -> u64
        requires other { from ≢ to }
        requires used { free_at self.old from + pages ≤ total_at self.old from }
        ensures served { result
            ≡ serving pages (free_at self.old to) (surplus_at self.old from) (unreserved self.old) }
        ensures pools { self.new ≡ served self.old from to result }
    {
        self.keep();
        let spare = self.unreserved();
        let served = serving(pages, self.free(to), self.surplus(from), spare);
        self.free_pages(from, served);
        self.free[to as usize] -= served;
        served
    }

    /// Pages of the total change nodes, as far as the target takes them, and surplus pages with
    /// them, as far as there are; returns how many.
    fn carry_pages(&mut self, from: u8, to: u8, pages: u64) -> u64
        requires other { from ≢ to }
        requires used { free_at self.old from + pages ≤ total_at self.old from }
        ensures carried { result ≡ min pages (most - total_at self.old to) }
        ensures pools { self.new ≡ carried self.old from to result }
    {
        let from = from as usize;
        let to = to as usize;
        let carried = pages.min(MOST - self.total[to]);
        let surplus = carried.min(self.surplus[from]);
        self.total[from] -= carried;
        self.total[to] += carried;
        self.surplus[from] -= surplus;
        self.surplus[to] += surplus;
        carried
    }

    /// Moves pages, which processes have, from one node to another, as many as can; returns how
    /// many. A free page of the target serves, and the old one becomes free; else one page of the
    /// total changes nodes, and a surplus page, if there is one.
    pub fn move_pages(&mut self, from: u8, to: u8, pages: u64) -> u64
        requires other { from ≢ to }
        requires used { free_at self.old from + pages ≤ total_at self.old from }
        ensures moved { result ≡ movable self.old from to pages }
        ensures pools { self.new ≡ moving self.old from to pages }
    {
        self.keep();
        let served = self.serve_pages(from, to, pages);
        let carried = self.carry_pages(from, to, pages - served);
        served + carried
    }

    /// Moves one page, which a process has, from one node to another, if it can.
    pub fn move_page(&mut self, from: u8, to: u8)
        requires other { from ≢ to }
        requires used { free_at self.old from < total_at self.old from }
        ensures { self.new ≡ moving_one self.old from to }
    {
        let _moved = self.move_pages(from, to, 1);
    }

    /// A page, which a process has, moves to its own node: where a free page of the node serves,
    /// one that is not reserved, the old one becomes free, and ends if the node has surplus. Else
    /// nothing has changed.
    pub fn renew_page(&mut self, node: u8)
        ensures { self.new ≡ renewing self.old node }
    {
        self.keep();
        if !self.has_spare(node) {
            return;
        }
        self.free[node as usize] -= 1;
        self.free_pages(node, 1);
    }
}
