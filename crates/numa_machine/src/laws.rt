//! Laws about the definitions that the contracts of this crate cite. The functions do nothing: what
//! each one ensures is a law.
ghost use Rattle.std.specs.Prelude.{◌≡◌, ◌==◌, ℕ, ◌%◌, ◌<◌, List, Contains, None, count_by, length};
ghost use Rattle.std.specs.Prelude.{slice_index};
ghost use Rattle.std.specs.List.{list_any, range_with_len};
ghost use Rattle.numa_mask.specs.NodeSet.{members, weight_of};
ghost use Rattle.numa_machine.specs.Faults.{hardware_fault};
ghost use Rattle.numa_machine.specs.Machine.{Hardware, IsDistanceOrder, distance_order, distance};
ghost use Rattle.numa_machine.specs.Machine.{IsFallbackOrder, fallback_order, kernel_order, turns};
ghost use Rattle.numa_machine.specs.Machine.{loads_before};
ghost use Rattle.numa_machine.specs.declared.fallback.Fallback.TheVariants as Fallback;
ghost use Rattle.numa_machine.specs.Weights.{interleave_node, IsInterleaveNode, total_weight};
ghost use Rattle.numa_machine.specs.Weights.{weighted_node, IsWeightedNode, cycle};

/// The distance order of a node is the only list that has each node with memory once, and of any
/// two the nearer one first.
pub fn distance_orders()
    ensures is_one { (hardware : Hardware) (from : ℕ) →
        IsDistanceOrder hardware from (distance_order hardware from) }
    ensures is_the_only_one { (hardware : Hardware) (from : ℕ) (order : List ℕ)
        → IsDistanceOrder hardware from order → order ≡ distance_order hardware from }
{}

/// A node's fallback order is the only list that has each node with memory once, and of any two the
/// one that costs less first, at equal cost the lower number. It is the distance order, or the list
/// that a kernel builds, as the machine says.
pub fn fallback_orders()
    ensures is_one { (hardware : Hardware) (from : ℕ) →
        IsFallbackOrder hardware from (fallback_order hardware from) }
    ensures is_the_only_one { (hardware : Hardware) (from : ℕ) (order : List ℕ)
        → IsFallbackOrder hardware from order → order ≡ fallback_order hardware from }
    ensures nearest { (hardware : Hardware) (from : ℕ) → hardware.fallback ≡ Fallback.Nearest
        → fallback_order hardware from ≡ distance_order hardware from }
    ensures kernel { (hardware : Hardware) (cpus from : ℕ)
        → hardware.fallback ≡ Fallback.Kernel cpus
        → fallback_order hardware from ≡ kernel_order hardware cpus from }
{}

/// The list that a kernel builds for a node with memory begins with that node. The load of a node,
/// when the list of another is built, is the number of lists of lower nodes that have a turn at it.
pub fn kernel_orders()
    ensures itself_first { (hardware : Hardware) (cpus from : ℕ) → hardware_fault hardware ≡ None
        → from < hardware.nodes → Contains (members hardware.memory) from
        → slice_index (kernel_order hardware cpus from) 0 ≡ from }
    ensures loads { (hardware : Hardware) (cpus from node : ℕ)
        → slice_index (loads_before hardware cpus from) node
        ≡ count_by (λ lower. list_any (λ turn. turn == node)
        (turns (distance hardware lower) 10 (kernel_order hardware cpus lower)))
        (range_with_len 0 from) }
{}

/// The node that interleave chooses from a set that isn't empty is the member whose number of
/// smaller members is the index modulo the weight of the set, and no other node is.
pub fn interleave_nodes()
    ensures is_one { (set index : ℕ) → 0 < weight_of set →
        IsInterleaveNode set index (interleave_node set index) }
    ensures is_the_only_one { (set index node : ℕ)
        → IsInterleaveNode set index node → node ≡ interleave_node set index }
{}

/// The node that weighted interleave chooses, if the weights aren't all 0, is the member whose
/// block has the index modulo the total weight, and no other node is. The blocks written out are as
/// long as the total weight, and have that node at that place.
pub fn weighted_nodes()
    ensures is_one { (weight : ℕ → ℕ) (set index : ℕ)
        → 0 < total_weight weight set →
        IsWeightedNode weight set index (weighted_node weight set index) }
    ensures is_the_only_one { (weight : ℕ → ℕ) (set index node : ℕ)
        → IsWeightedNode weight set index node → node ≡ weighted_node weight set index }
    ensures cycle_length { (weight : ℕ → ℕ) (set : ℕ) → length (cycle weight set)
        ≡ total_weight weight set }
    ensures cycle_places { (weight : ℕ → ℕ) (set index : ℕ)
        → slice_index (cycle weight set) (index % total_weight weight set)
        ≡ weighted_node weight set index }
{}
