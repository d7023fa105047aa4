//! Laws about the definitions that the contracts of this crate cite. The functions do nothing: what
//! each one ensures is a law.
ghost use Rattle.std.specs.Prelude.{◌≡◌, ◌≢◌, ◌^◌, ◌<◌, ◌≤◌, ℕ, List, ◌∷◌};
ghost use Rattle.numa_mask.specs.NodeSet.{weight_of};
ghost use Rattle.numa_machine.specs.Machine.{Hardware};
ghost use Rattle.numa_mode.specs.Policy.{Specification};
ghost use Rattle.numa_mode.specs.declared.modes.Mode.{Mode};
ghost use Rattle.numa_space.specs.Limited.{Bounds};
ghost use Rattle.numa_space.specs.Lists.{Setting, list_by_mode, node_list};
ghost use Rattle.numa_space.specs.Policies.{allowed_nodes};
ghost use Rattle.numa_space.specs.Refusals.{range_count_of};
ghost use Rattle.numa_space.specs.Rows.{IsModeRow};
ghost use Rattle.numa_space.specs.Standing.{IsAccepted, IsNodeList};
ghost use Rattle.numa_requests.specs.declared.command.Command.{Command};

/// The list of a mode, if its set has a node and no weight is 0, is the only one that `IsModeRow`
/// describes: for BIND the list without repeats whose nodes are those of the set, in the machine's
/// order.
pub fn mode_rows()
    ensures is_one { (setting : Setting) (mode : Mode) (set from index : ℕ)
        → 0 < weight_of set → ((node : ℕ) → 0 < setting.weight node)
        → IsModeRow setting mode set from index (list_by_mode setting mode set from index) }
    ensures is_the_only_one { (setting : Setting) (mode : Mode) (set from index : ℕ) (row : List ℕ)
        → IsModeRow setting mode set from index row
        → row ≡ list_by_mode setting mode set from index }
{}

/// Each fallback list that accepted commands mean, on a machine with memory, isn't empty, has no
/// node twice, and has only allowed nodes.
pub fn node_lists()
    ensures sound { (machine : Hardware) (bounds : Bounds) (history : List Command)
        (task page cpu : ℕ)
        → machine.memory ≢ 0 → machine.memory < 2 ^ 256 → IsAccepted machine bounds history
        → IsNodeList (allowed_nodes machine history) (node_list machine history task page cpu) }
{}

/// A command that names no pages never raises the number of ranges, so it need not be checked
/// against the limit.
pub fn range_counts()
    ensures task { (machine : Hardware) (history : List Command) (task : ℕ) (spec : Specification)
        → range_count_of machine (Command.SetTask task spec ∷ history)
        ≡ range_count_of machine history }
    ensures weight { (machine : Hardware) (history : List Command) (node weight : ℕ)
        → range_count_of machine (Command.SetWeight node weight ∷ history)
        ≡ range_count_of machine history }
    ensures mems { (machine : Hardware) (history : List Command) (mask : ℕ)
        → range_count_of machine (Command.SetMems mask ∷ history) ≤ range_count_of machine history }
{}
