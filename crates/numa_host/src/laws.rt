//! Laws about the definitions that the contracts of this crate cite. The functions do nothing: what
//! each one ensures is a law.
ghost use Rattle.std.specs.Prelude.{◌≡◌, ◌≢◌, ◌<◌, ◌^◌, ℕ, Bool, false, List, All};
ghost use Rattle.numa_mask.specs.NodeSet.{both, members};
ghost use Rattle.numa_machine.specs.Machine.{Hardware};
ghost use Rattle.numa_space.specs.Limited.{Bounds};
ghost use Rattle.numa_space.specs.Standing.{IsAccepted};
ghost use Rattle.numa_requests.specs.declared.host_command.HostCommand.{HostCommand};
ghost use Rattle.numa_host.specs.declared.group.ControlGroup.{ControlGroup};
ghost use Rattle.numa_host.specs.Groups.{effective_mems, groups_of};
ghost use Rattle.numa_host.specs.Processes.{commands_of};
ghost use Rattle.numa_host.specs.Standing.{IsHostAccepted};
ghost use Rattle.numa_host.specs.Strangers.{NeverMet, without};

/// What a process of a host has accepted is a list that a space of its own, on the same machine
/// and within the same limits, accepts: so what holds of every space holds of every process.
pub fn process_lists()
    ensures { (machine : Hardware) (bounds : Bounds) (history : List HostCommand) (process : ℕ)
        → machine.memory ≢ 0 → machine.memory < 2 ^ 256
        → All (λ node. node < machine.nodes) (members machine.memory)
        → IsHostAccepted machine bounds history
        → IsAccepted machine bounds (commands_of machine history process) }
{}

/// The nodes that a group allows are some, all with memory, and inside those that its parent
/// allows.
pub fn group_nodes()
    ensures some { (memory : ℕ) (history : List HostCommand) (name : ℕ) → memory ≢ 0
        → (effective_mems memory (groups_of history) name ≢ 0)
        × (both (effective_mems memory (groups_of history) name) memory
        ≡ effective_mems memory (groups_of history) name) }
    ensures nested { (machine : Hardware) (bounds : Bounds) (history : List HostCommand)
        (memory : ℕ) → IsHostAccepted machine bounds history
        → All (λ (group : ControlGroup).
        both (effective_mems memory (groups_of history) group.name)
        (effective_mems memory (groups_of history) group.parent)
        ≡ effective_mems memory (groups_of history) group.name) (groups_of history) }
{}

/// Processes that no fork joins change nothing of each other: what a process has accepted is the
/// same without the commands of any that it never met.
pub fn strangers()
    ensures { (machine : Hardware) (history : List HostCommand) (these : ℕ → Bool) (process : ℕ)
        → NeverMet these history → these process ≡ false
        → commands_of machine (without these history) process
        ≡ commands_of machine history process }
{}
