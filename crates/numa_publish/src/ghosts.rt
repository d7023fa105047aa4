//! A machine and a history that only contracts see. They have no bytes.
ghost use Rattle.std.specs.Prelude.{◌≡◌, ◌++◌, reverse};
ghost use Rattle.numa_publish.specs.Batches.{history_of};

use crate::log::Front;
use logbook::{Opening, Seen, Start};
use numa_ghost::GhostList;
use numa_machine::Machine;
use numa_requests::Command;
use std::marker::Model;

/// A list of one machine.
struct Alone;

impl Opening<Machine, Machine> for Alone {
    ghost use Rattle.std.specs.Prelude.{◌∷◌, []};

    ghost log = { λ n machine. machine ∷ [] };
}

/// A machine that only contracts see.
#[derive(Drop)]
pub struct About {
    list: GhostList<Machine>,
}

impl Model for About {
    ghost use Rattle.numa_machine.specs.Machine.{Hardware};
    ghost use Rattle.numa_publish.specs.Ghosts.{first_machine};

    ghost Value = { Hardware };

    ghost view = { λ a. first_machine a.list.log };
}

impl About {
    /// This machine.
    pub fn of(machine: &Machine) -> About
        ensures { result ≡ machine.now }
    {
        let (list, _) = Seen::open_row::<Machine, Alone>(machine, Start::alone(), 0);
        About { list }
    }

    /// The same.
    pub fn again(&self) -> About
        ensures { result ≡ self.now }
    {
        About {
            list: self.list.again(),
        }
    }
}

/// Commands that wait, the oldest first, and the prefix of the log that they follow.
#[derive(Drop)]
struct Waiting<'a> {
    pending: &'a Vec<Command>,
    front: &'a Front,
}

/// The commands of the prefix and those that wait, the newest first.
struct Accepted;

impl<'a> Opening<Waiting<'a>, Command> for Accepted {
    ghost use Rattle.std.specs.Prelude.{◌++◌, reverse};
    ghost use Rattle.numa_publish.specs.Batches.{history_of};

    ghost log = { λ n w. reverse w.pending.now.items ++ history_of w.front.now.log };
}

/// A history that only contracts see.
#[derive(Drop)]
pub struct History {
    list: GhostList<Command>,
}

impl Model for History {
    ghost use Rattle.std.specs.Prelude.{List};
    ghost use Rattle.numa_requests.specs.declared.command.Command.{Command};

    ghost Value = { List Command };

    ghost view = { λ h. h.list.log };
}

impl History {
    /// The history of this prefix of the log and of commands that follow it, the oldest first.
    pub fn of(pending: &Vec<Command>, front: &Front) -> History
        ensures { result ≡ reverse pending.now.items ++ history_of front.now.log }
    {
        let waiting = Waiting { pending, front };
        let (list, _) = Seen::open_row::<Waiting, Accepted>(&waiting, Start::alone(), 0);
        History { list }
    }
}
