//! Laws about the definitions that the contracts of this crate cite. The functions do nothing: what
//! each one ensures is a law.
ghost use Rattle.std.specs.Prelude.{◌≡◌, ℕ, Bool, List, [], None, Option, false, length, map};
ghost use Rattle.numa_machine.specs.Machine.{Hardware};
ghost use Rattle.numa_requests.specs.declared.host_command.HostCommand.{HostCommand};
ghost use Rattle.numa_page_state.specs.Lying.{Lying};
ghost use Rattle.numa_page_state.specs.Outcomes.{Lack};
ghost use Rattle.numa_host_pages.specs.Homes.{FollowEach, Home, HostLying, all_still, given_back};
ghost use Rattle.numa_host_pages.specs.Homes.{homes_followed, pages_followed, pages_in};
ghost use Rattle.numa_host_pages.specs.Homes.{pages_told, taken_along, with_born, with_pages};
ghost use Rattle.numa_host_huge.specs.Sharing.{Sharing};
ghost use Rattle.numa_host_pages.specs.Obeying.{pages_after};
ghost use Rattle.numa_host_pages.specs.Standing.{arrival_of, count_of};
ghost use Rattle.numa_host_pages.specs.Summed.{both_sent, none_sent, sent_of, sum_in, sum_of};

/// What a process does changes where its own pages lie, and those of no other.
pub fn others_stay()
    ensures { (process other : ℕ) (done : Lying) (at : HostLying) → (other ≡ process → ⊥)
        → pages_in other (given_back process done at).homes ≡ pages_in other at.homes }
{}

/// Where no node fills, the pages of each process of a group follow as those of a process alone
/// that is allowed the same nodes, whatever other processes there are, and no node fills then. No
/// move wants memory there.
pub fn free_groups()
    ensures alone { (lacks : ℕ → Lack) (follows : Bool) (group nodes process : ℕ)
        (homes : List Home) → pages_in process (homes_followed lacks follows group nodes homes
        None).0 ≡ pages_told follows group nodes process homes }
    ensures free { (lacks : ℕ → Lack) (follows : Bool) (group nodes : ℕ) (homes : List Home)
        → (homes_followed lacks follows group nodes homes None).1 ≡ None }
{}

/// A change of nodes keeps all processes, each in its place.
pub fn same_processes()
    ensures { (nodes : ℕ → ℕ) (groups : List ℕ) (at after : HostLying)
        → FollowEach nodes groups at after → length after.homes ≡ length at.homes }
{}

/// What the host's last move did is the sum over the processes that went along: nothing where none
/// did; what its own last move did, where it was one's; and a process that is born since adds
/// nothing.
pub fn moves_add_up()
    ensures none { (at : HostLying) → sum_of (all_still at).homes ≡ none_sent }
    ensures one { (process : ℕ) (at : HostLying) → count_of process (map arrival_of at.homes) ≡ 1
        → sum_of (taken_along process at).homes
        ≡ both_sent (sent_of (pages_in process at.homes)) none_sent }
    ensures born { (process group nodes : ℕ) (at : HostLying)
        → sum_of (with_born process group nodes at).homes ≡ sum_of at.homes }
{}

/// Where no process has mapped pages of 2 MiB, there is nothing of them: no command changes the
/// pools or gives a process such pages, and what the host's last move did is what it did to pages
/// of 4 KiB. What a command does to these is the same whatever pages of 2 MiB there are.
pub fn small_hosts()
    ensures stay { (lacks : ℕ → ℕ → Lack) (machine : Hardware) (history : List HostCommand)
        (said : HostCommand) (at : HostLying) → at.huge.homes ≡ []
        → (pages_after lacks machine history said at).huge ≡ at.huge }
    ensures apart { (lacks : ℕ → ℕ → Lack) (machine : Hardware) (history : List HostCommand)
        (said : HostCommand) (at : HostLying) (huge : Sharing)
        → record (pages_after lacks machine history said (record at { huge = huge })) {
          huge = at.huge;
        } ≡ record (pages_after lacks machine history said at) { huge = at.huge } }
    ensures last { (at : HostLying) → at.huge.homes ≡ [] → sum_in at ≡ sum_of at.homes }
{}
