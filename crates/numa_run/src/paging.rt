//! Lines about pages that are there.
ghost use Rattle.std.specs.Prelude.{◌≡◌, ◌≢◌, Bool, None, Ok, Option, Some, false, is_some, true};
ghost use Rattle.std.specs.Option.{option_map};
ghost use Rattle.numa_space.specs.History.{page_count, page_of};
ghost use Rattle.numa_huge.specs.Moves.{HugeMemory};
ghost use Rattle.numa_huge.specs.Tallies.{StandsForHuge};
ghost use Rattle.numa_page_state.specs.Huge.{both_populated, has_huge_in, huge_at_address};
ghost use Rattle.numa_page_state.specs.Huge.{huge_followed, huge_rested};
ghost use Rattle.numa_page_state.specs.Lying.{ground_in};
ghost use Rattle.numa_page_state.specs.Standing.{DoesAs};
ghost use Rattle.numa_run.specs.PageLines.{also_moved, change_of, changed, has_reply, lack_reply};
ghost use Rattle.numa_run.specs.PageLines.{migrate_reply, move_reply, page_outcome, page_reply};
ghost use Rattle.numa_run.specs.PageLines.{touch_reply};
ghost use Rattle.numa_run.specs.Standing.{Changes, ComesTo, Populates, Serves, Takes, taken_by};
ghost use Rattle.numa_script.specs.declared.line.Line.{Line};
ghost use Rattle.numa_script.specs.declared.page_line.PageLine.{PageLine};

use crate::running::{Running, Taken};
use numa_huge::HugePages;
use numa_maps::Resident;
use numa_mask::NodeMask;
use numa_page_state::binding::page_count;
use numa_page_state::huge::{
    follow_huge, has_huge_in, huge_move, huge_populated, is_huge_at, rest_small,
};
use numa_page_state::state::begins_starved;
use numa_page_state::{PageState, Shift};
use numa_requests::{HugeRefusal, MoveRefusal, PAGE_BYTES, PlacedRefusal};
use numa_script::{PageLine, Reply};
use numa_space::Space;
use std::alloc::Global;

/// The reply to a line, or why it is refused.
pub fn page_reply(told: Reply, done: Result<(), PlacedRefusal>) -> Reply
    ensures { result ≡ page_reply told done }
{
    match done {
        Ok(()) => told,
        Err(why) => Reply::PlacedRefused(why),
    }
}

/// The reply to `migrate`.
fn migrate_reply(done: Result<Shift, PlacedRefusal>) -> Reply
    ensures { result ≡ migrate_reply done }
{
    match done {
        Ok(Shift { moved, left }) => Reply::Moved { moved, left },
        Err(why) => Reply::PlacedRefused(why),
    }
}

/// The reply to `move`.
fn move_reply(node: u32, done: Result<(), MoveRefusal>) -> Reply
    ensures { result ≡ move_reply node done }
{
    match done {
        Ok(()) => Reply::MovedTo(node),
        Err(why) => Reply::MoveRefused(why),
    }
}

/// The reply to `populate`, if it is refused.
fn touch_reply(done: Result<(), PlacedRefusal>) -> Option<Reply>
    ensures { result ≡ touch_reply done }
{
    match done {
        Ok(()) => None,
        Err(why) => Some(Reply::PlacedRefused(why)),
    }
}

/// The reply to a line about pages for which there is no memory.
pub fn lack_reply(line: &PageLine) -> Reply
    ensures { result ≡ lack_reply line.now }
{
    match line {
        PageLine::Move { .. } => Reply::MoveRefused(MoveRefusal::NoMemory),
        _ => Reply::PlacedRefused(PlacedRefusal::NoMemory),
    }
}

/// Carries out a line that changes where pages lie, or how they move. What `populate` did is no
/// reply.
pub fn change(
    kept: &mut PageState,
    space: &Space,
    resident: &Resident,
    line: &PageLine,
) -> Option<Reply>
    requires moved { line.now ≢ PageLine.Moved }
    requires rooms { line.now ≢ PageLine.Rooms }
    ensures does { DoesAs kept.old result kept.new (Some (lack_reply line.now))
        (λ lack at. change_of lack (ground_in space.now resident.now) line.now at) }
    ensures told { has_reply line.now ≡ true → is_some result ≡ true }
{
    match line {
        PageLine::At {
            start,
            length,
            node,
        } => Some(page_reply(
            Reply::AtOk,
            kept.at(space, resident, *start, *length, *node),
        )),
        PageLine::Room { node, pages } => Some(page_reply(
            Reply::RoomOk,
            kept.limit(space, *node, *pages),
        )),
        PageLine::MemoryMigrate(follows) => {
            kept.set_follows(*follows);
            Some(Reply::MemoryMigrateOk)
        }
        PageLine::Migrate { from, to } => {
            Some(migrate_reply(kept.migrate(space, resident, from, to)))
        }
        PageLine::Move { address, node } => Some(move_reply(
            *node,
            kept.move_page(space, resident, *address, *node),
        )),
        PageLine::Populate {
            start,
            length,
            task,
            cpu,
        } => touch_reply(kept.populate(space, resident, *start, *length, *task, *cpu)),
        PageLine::Rooms => unreachable!(),
        PageLine::Moved => unreachable!(),
    }
}

/// What a line came to that has this reply, or none, and was carried out.
fn taken_by(told: Option<Reply>) -> Taken
    ensures { result ≡ taken_by told }
{
    match told {
        Some(reply) => Taken::Reply(reply),
        None => Taken::Arrived,
    }
}

/// What `populate` says: start and length are in bytes.
#[derive(Clone, Copy)]
pub(crate) struct Populating {
    pub(crate) start: u64,
    pub(crate) length: u64,
    pub(crate) task: u32,
    pub(crate) cpu: u32,
}

/// Touches pages of both sizes, each by its own supply.
fn touch_both(
    pages: &mut PageState,
    huge: &mut HugePages,
    space: &Space,
    resident: &Resident,
    said: &Populating,
) -> Result<(), PlacedRefusal>
    ensures { Populates pages.old huge.old result pages.new huge.new (λ lack memory at.
        both_populated lack (ground_in space.now resident.now) said.now.start said.now.length
        said.now.task said.now.cpu memory at) }
{
    let touched = match huge_populated(
        space,
        &huge.places,
        said.start,
        said.length,
        said.task,
        said.cpu,
    ) {
        Ok(touched) => touched,
        Err(_) => return Err(PlacedRefusal::NoMemory),
    };
    let (places, arrived) = touched;
    match pages.populate_beside(
        space,
        resident,
        &huge.places,
        said.start,
        said.length,
        said.task,
        said.cpu,
    ) {
        Ok(()) => {
            huge.settle(places);
            huge.arrived = Some(arrived);
            Ok(())
        }
        Err(why) => {
            drop(places);
            Err(why)
        }
    }
}

/// Nothing is told of first touches of pages of 2 MiB, where any are kept.
fn forget_arrived(huge: &mut Option<HugePages>)
    ensures { (memory : Option HugeMemory) → StandsForHuge huge.old memory
        → StandsForHuge huge.new
        (option_map (λ (kept : HugeMemory). record kept { arrived = None }) memory) }
{
    if let Some(kept) = huge {
        kept.arrived = None;
    }
}

/// Pages of 2 MiB leave one set of nodes for another, where any are kept. Returns how many moved.
fn follow_kept(huge: &mut Option<HugePages>, old: &NodeMask, new: &NodeMask) -> u64
    ensures follows { (memory : Option HugeMemory) → StandsForHuge huge.old memory
        → StandsForHuge huge.new (option_map (huge_followed true old.now new.now) memory) }
    ensures moved { (memory : Option HugeMemory) → StandsForHuge huge.old memory
        → result ≡ also_moved old.now new.now memory }
{
    let Some(kept) = huge else {
        return 0;
    };
    follow_huge(kept, true, old, new);
    kept.last.moved()
}

/// The last move moved no page of 2 MiB, where any are kept.
fn rest_kept(huge: &mut Option<HugePages>)
    ensures { (memory : Option HugeMemory) → StandsForHuge huge.old memory
        → StandsForHuge huge.new (option_map huge_rested memory) }
{
    if let Some(kept) = huge {
        kept.rest();
    }
}

impl Running {
    /// Carries out a line that changes where pages lie, or how they move. What `populate` did is no
    /// reply.
    fn change(&mut self, alloc: Global, line: &PageLine) -> Option<Reply>
        requires moved { line.now ≢ PageLine.Moved }
        requires rooms { line.now ≢ PageLine.Rooms }
        ensures changes { Changes self.old result self.new (λ lack machine state.
            changed lack machine state line.now) }
        ensures told { has_reply line.now ≡ true → is_some result ≡ true }
        ensures core { self.new.core ≡ self.old.core }
        ensures huge { self.new.huge ≡ self.old.huge }
    {
        if begins_starved(alloc, &mut self.pages) {
            return Some(lack_reply(line));
        }
        let Some(kept) = &mut self.pages else {
            unreachable!()
        };
        change(kept, self.core.space(), &self.resident, line)
    }

    /// Whether a page of a span has 2 MiB.
    fn has_huge(&self, start: u64, length: u64) -> bool
        ensures { (memory : Option HugeMemory) → StandsForHuge self.now.huge memory
            → result ≡ has_huge_in memory (page_of start) (page_count length) }
    {
        has_huge_in(&self.huge, start / PAGE_BYTES, page_count(length))
    }

    /// The reply of a line that always has one.
    fn reply_of(&mut self, alloc: Global, line: &PageLine) -> Reply
        requires { has_reply line.now ≡ true }
        ensures serves { Serves self.old result self.new (λ lack machine state.
            changed lack machine state line.now) }
        ensures core { self.new.core ≡ self.old.core }
        ensures huge { self.new.huge ≡ self.old.huge }
    {
        match self.change(alloc, line) {
            Some(reply) => reply,
            None => unreachable!(),
        }
    }

    /// States that pages of a span lie on a node, of which none may have 2 MiB.
    fn state(&mut self, alloc: Global, start: u64, length: u64, node: u32) -> Reply
        ensures { Serves self.old result self.new (λ lack machine state.
            page_outcome lack machine state (PageLine.At start length node)) }
    {
        if self.has_huge(start, length) {
            return Reply::HugeRefused(HugeRefusal::NotSupported);
        }
        let line = PageLine::At {
            start,
            length,
            node,
        };
        self.reply_of(alloc, &line)
    }

    /// Pages of both sizes leave the nodes of one list for the allowed nodes of another.
    fn migrate(&mut self, alloc: Global, from: &NodeMask, to: &NodeMask) -> Reply
        ensures { Serves self.old result self.new (λ lack machine state.
            page_outcome lack machine state (PageLine.Migrate from.now to.now)) }
    {
        let line = PageLine::Migrate {
            from: *from,
            to: *to,
        };
        let reply = self.reply_of(alloc, &line);
        let Reply::Moved { moved, left } = reply else {
            return reply;
        };
        let targets = to.and(&self.core.space().allowed());
        let more = follow_kept(&mut self.huge, from, &targets);
        Reply::Moved {
            moved: moved.saturating_add(more),
            left,
        }
    }

    /// Moves the page of an address, which has 2 MiB, to a node.
    fn move_huge(&mut self, alloc: Global, address: u64, node: u32) -> Reply
        requires { (memory : Option HugeMemory) → StandsForHuge self.old.huge memory
            → is_some (huge_at_address memory address) ≡ true }
        ensures { Serves self.old result self.new (λ lack machine state.
            page_outcome lack machine state (PageLine.Move address node)) }
    {
        let Some(kept) = &mut self.huge else {
            unreachable!()
        };
        if begins_starved(alloc, &mut self.pages) {
            return lack_reply(&PageLine::Move { address, node });
        }
        if let Err(why) = huge_move(kept, self.core.space(), address, node) {
            return Reply::MoveRefused(why);
        }
        rest_small(&mut self.pages);
        Reply::MovedTo(node)
    }

    /// Moves the page of an address, which has 4 KiB, to a node.
    fn move_small(&mut self, alloc: Global, address: u64, node: u32) -> Reply
        requires { (memory : Option HugeMemory) → StandsForHuge self.old.huge memory
            → is_some (huge_at_address memory address) ≡ false }
        ensures { Serves self.old result self.new (λ lack machine state.
            page_outcome lack machine state (PageLine.Move address node)) }
    {
        let reply = self.reply_of(alloc, &PageLine::Move { address, node });
        let Reply::MovedTo(_) = reply else {
            return reply;
        };
        rest_kept(&mut self.huge);
        reply
    }

    /// Moves the page of an address to a node.
    fn move_page(&mut self, alloc: Global, address: u64, node: u32) -> Reply
        ensures { Serves self.old result self.new (λ lack machine state.
            page_outcome lack machine state (PageLine.Move address node)) }
    {
        if is_huge_at(&self.huge, address) {
            return self.move_huge(alloc, address, node);
        }
        self.move_small(alloc, address, node)
    }

    /// Touches pages of both sizes.
    fn populate_both(&mut self, alloc: Global, said: &Populating) -> Taken
        requires { (memory : Option HugeMemory) → StandsForHuge self.old.huge memory → has_huge_in
            memory (page_of said.now.start) (page_count said.now.length) ≡ true }
        ensures { ComesTo self.old result self.new (λ lack machine state. page_outcome lack machine
            state (PageLine.Populate said.now.start said.now.length said.now.task said.now.cpu)) }
    {
        let Some(huge) = &mut self.huge else {
            unreachable!()
        };
        if begins_starved(alloc, &mut self.pages) {
            return Taken::Reply(Reply::PlacedRefused(PlacedRefusal::NoMemory));
        }
        let Some(kept) = &mut self.pages else {
            unreachable!()
        };
        match touch_both(kept, huge, self.core.space(), &self.resident, said) {
            Ok(()) => Taken::Arrived,
            Err(why) => Taken::Reply(Reply::PlacedRefused(why)),
        }
    }

    /// Touches pages of 4 KiB.
    fn populate_small(&mut self, alloc: Global, said: &Populating) -> Taken
        requires { (memory : Option HugeMemory) → StandsForHuge self.old.huge memory → has_huge_in
            memory (page_of said.now.start) (page_count said.now.length) ≡ false }
        ensures { ComesTo self.old result self.new (λ lack machine state. page_outcome lack machine
            state (PageLine.Populate said.now.start said.now.length said.now.task said.now.cpu)) }
    {
        forget_arrived(&mut self.huge);
        let line = PageLine::Populate {
            start: said.start,
            length: said.length,
            task: said.task,
            cpu: said.cpu,
        };
        taken_by(self.change(alloc, &line))
    }

    /// Touches the pages of a span.
    fn populate(&mut self, alloc: Global, said: &Populating) -> Taken
        ensures { ComesTo self.old result self.new (λ lack machine state. page_outcome lack machine
            state (PageLine.Populate said.now.start said.now.length said.now.task said.now.cpu)) }
    {
        if self.has_huge(said.start, said.length) {
            return self.populate_both(alloc, said);
        }
        self.populate_small(alloc, said)
    }

    /// Carries out a line about pages whose list is right. What `moved`, `room` alone and a
    /// `populate` that isn't refused tell is still to be written.
    #[inline(never)]
    pub(crate) fn page(&mut self, alloc: Global, line: &PageLine) -> Taken
        ensures { Takes self.old (Line.Pages (Ok line.now)) result self.new }
    {
        match line {
            PageLine::Moved => Taken::Moved,
            PageLine::Rooms => Taken::Rooms,
            PageLine::At {
                start,
                length,
                node,
            } => Taken::Reply(self.state(alloc, *start, *length, *node)),
            PageLine::Populate {
                start,
                length,
                task,
                cpu,
            } => {
                let said = Populating {
                    start: *start,
                    length: *length,
                    task: *task,
                    cpu: *cpu,
                };
                self.populate(alloc, &said)
            }
            PageLine::Migrate { from, to } => Taken::Reply(self.migrate(alloc, from, to)),
            PageLine::Move { address, node } => {
                Taken::Reply(self.move_page(alloc, *address, *node))
            }
            PageLine::Room { .. } => Taken::Reply(self.reply_of(alloc, line)),
            PageLine::MemoryMigrate(_) => Taken::Reply(self.reply_of(alloc, line)),
        }
    }
}
