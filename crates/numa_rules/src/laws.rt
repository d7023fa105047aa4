//! Laws about what a kernel does otherwise. The functions do nothing: what each one ensures is a
//! law.
ghost use Rattle.std.specs.Prelude.{◌≡◌, ℕ, false, Contains, None, Option, Some};
ghost use Rattle.numa_machine.specs.Rules.{is_linux};
ghost use Rattle.numa_machine.specs.declared.rules.Rules.{Rules};
ghost use Rattle.numa_mode.specs.Policy.{PolicyRecord};
ghost use Rattle.numa_ranges.specs.declared.run.Run.{Run};
ghost use Rattle.numa_space.specs.Refusals.{PageMap};
ghost use Rattle.numa_space.specs.Standing.{SpaceState};
ghost use Rattle.numa_requests.specs.declared.command.Command.{Command};
ghost use Rattle.numa_rules.specs.Both.{AreNodesAlike, IsAnsweredAlike, refusal_by};
ghost use Rattle.numa_rules.specs.Otherwise.{otherwise_of, parted_in};

/// `otherwise_of` is complete: if it finds nothing for a command, or only a policy with other
/// nodes, both sets of rules refuse the command for the same first cause, or neither refuses it.
pub fn answered_alike()
    ensures { (space : SpaceState) (after : PageMap) (command : Command)
        → is_linux space.machine.rules ≡ false → IsAnsweredAlike (otherwise_of space command)
        → refusal_by Rules.Document space after command
        ≡ refusal_by Rules.Linux space after command }
{}

/// And if it finds no policy to which a change of the allowed nodes gives other nodes, there is
/// none: neither a range's nor a task's.
pub fn nodes_alike()
    ensures ranges { (space : SpaceState) (after : ℕ) → parted_in space after ≡ None
        → (run : Run (Option PolicyRecord)) → Contains space.ranges run
        → (r : PolicyRecord) → run.value ≡ Some r → AreNodesAlike space.allowed after r }
    ensures tasks { (space : SpaceState) (after : ℕ) → parted_in space after ≡ None
        → (held : ℕ × PolicyRecord) → Contains space.tasks held
        → AreNodesAlike space.allowed after held.1 }
{}
