//! Pages follow the nodes that their processes are allowed.
ghost use Rattle.std.specs.Prelude.{◌≡◌, ℕ, Bool, List, Option, reverse};
ghost use Rattle.numa_host.specs.Groups.{effective_mems};
ghost use Rattle.numa_page_state.specs.Lying.{Lying};
ghost use Rattle.numa_page_state.specs.Outcomes.{Lack};
ghost use Rattle.numa_page_state.specs.Standing.{HaveRoom};
ghost use Rattle.numa_host_huge.specs.Sharing.{Sharing};
ghost use Rattle.numa_host_huge.specs.Standing.{HugeLies};
ghost use Rattle.numa_host_pages.specs.Homes.{FollowEach, Home, HostLying, Room, home_followed};
ghost use Rattle.numa_host_pages.specs.Homes.{homes_followed, huge_moved, huge_of_group};
ghost use Rattle.numa_host_pages.specs.Homes.{pages_followed};
ghost use Rattle.numa_host_pages.specs.Standing.{AreHomes, IsHome, Sits};
ghost use Rattle.numa_host_pages.specs.TopDown.{below_in};

use crate::member::Member;
use numa_host::ControlGroup;
use numa_host::group::effective;
use numa_host_huge::HostHuge;
use numa_mask::NodeMask;
use numa_page_state::PageState;
use numa_placed::Rooms;

/// The pages of a process follow, by the rooms of the host.
fn follow_pages(
    pages: &mut Option<Box<PageState>>,
    rooms: &mut Option<Rooms>,
    follows: bool,
    old: &NodeMask,
    new: &NodeMask,
)
    ensures { (lying : Option Lying) (room : Room) → Sits pages.old lying
        → HaveRoom rooms.old room → (lack : Lack)
        × Sits pages.new (pages_followed lack follows old.now new.now lying room).0
        × HaveRoom rooms.new (pages_followed lack follows old.now new.now lying room).1 }
{
    let Some(state) = pages else {
        return;
    };
    state.lend(rooms, follows);
    state.follow(old, new, None);
    *rooms = state.rooms_left();
}

/// A process is allowed nodes; if it was allowed others, its pages follow, and it went along.
pub(crate) fn follow_home(
    member: &mut Member,
    rooms: &mut Option<Rooms>,
    follows: bool,
    nodes: &NodeMask,
)
    ensures { (home : Home) (room : Room) → IsHome member.old home → HaveRoom rooms.old room
        → (lack : Lack) × IsHome member.new (home_followed lack follows nodes.now home room).0
        × HaveRoom rooms.new (home_followed lack follows nodes.now home room).1 }
{
    if member.allowed == *nodes {
        return;
    }
    let old = member.allowed;
    follow_pages(&mut member.pages, rooms, follows, &old, nodes);
    member.allowed = *nodes;
    member.along = true;
}

/// Pages of 2 MiB of a process follow, which was allowed some nodes and is allowed others.
pub(crate) fn follow_huge(
    huge: &mut HostHuge,
    process: u32,
    follows: bool,
    old: &NodeMask,
    new: &NodeMask,
)
    ensures { (at : Sharing) → HugeLies huge.old at
        → HugeLies huge.new (huge_moved follows process old.now new.now at) }
{
    if *old == *new {
        return;
    }
    huge.follow(process, follows, old, new);
}

/// Those of the processes of a group, one after the other.
fn follow_sharers(
    members: &[Member],
    huge: &mut HostHuge,
    follows: bool,
    group: u32,
    nodes: &NodeMask,
)
    ensures { (homes : List Home) (at : Sharing) → AreHomes members.now homes
        → HugeLies huge.old at
        → HugeLies huge.new (huge_of_group follows group nodes.now homes at) }
{
    let Some((first, rest)) = members.split_first() else {
        return;
    };
    if first.group != group {
        follow_sharers(rest, huge, follows, group, nodes);
        return;
    }
    follow_huge(huge, first.id, follows, &first.allowed, nodes);
    follow_sharers(rest, huge, follows, group, nodes);
}

/// The processes of a group are allowed nodes, one after the other.
fn follow_group(
    members: &mut [Member],
    rooms: &mut Option<Rooms>,
    follows: bool,
    group: u32,
    nodes: &NodeMask,
)
    ensures { (homes : List Home) (room : Room) → AreHomes members.old homes
        → HaveRoom rooms.old room → (lacks : ℕ → Lack)
        × AreHomes members.new (homes_followed lacks follows group nodes.now homes room).0
        × HaveRoom rooms.new (homes_followed lacks follows group nodes.now homes room).1 }
{
    let Some((first, rest)) = members.split_first_mut() else {
        return;
    };
    if first.group != group {
        follow_group(rest, rooms, follows, group, nodes);
        return;
    }
    follow_home(first, rooms, follows, nodes);
    follow_group(rest, rooms, follows, group, nodes);
}

/// The processes of the groups below one are allowed what these allow, from the top down.
pub(crate) fn follow_below(
    groups: &[ControlGroup],
    name: u32,
    memory: NodeMask,
    all: &[ControlGroup],
    members: &mut [Member],
    rooms: &mut Option<Rooms>,
    huge: &mut HostHuge,
    follows: bool,
)
    ensures { (at : HostLying) → AreHomes members.old at.homes → HaveRoom rooms.old at.room
        → HugeLies huge.old at.huge → follows ≡ at.follows → (after : HostLying)
        × FollowEach (effective_mems memory all.now) (below_in (reverse groups.now) name) at after
        × AreHomes members.new after.homes × HaveRoom rooms.new after.room
        × HugeLies huge.new after.huge × (follows ≡ after.follows) }
{
    let Some((group, newer)) = groups.split_last() else {
        return;
    };
    if group.parent != name {
        follow_below(newer, name, memory, all, members, rooms, huge, follows);
        return;
    }
    let nodes = effective(memory, all, group.name);
    follow_sharers(members, huge, follows, group.name, &nodes);
    follow_group(members, rooms, follows, group.name, &nodes);
    follow_below(
        newer, group.name, memory, all, members, rooms, huge, follows,
    );
    follow_below(newer, name, memory, all, members, rooms, huge, follows);
}
