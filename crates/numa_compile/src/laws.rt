//! A law on the answers of a plan, by the history for which it stands.
ghost use Rattle.std.specs.Prelude.{◌≡◌, ◌≢◌, ℕ, ◌^◌, ◌<◌, ◌↔◌, true, Some, List, slice_index};
ghost use Rattle.numa_machine.specs.Machine.{Hardware};
ghost use Rattle.numa_plan.specs.Meaning.{PlanData, planned_list, planned_first, planned_count};
ghost use Rattle.numa_plan.specs.Meaning.{place_refusal, RefusesSpan};
ghost use Rattle.numa_requests.specs.declared.command.Command.{Command};
ghost use Rattle.numa_machine.specs.declared.refusal.PlaceRefusal.{PlaceRefusal};
ghost use Rattle.numa_space.specs.Lists.{node_list};
ghost use Rattle.numa_space.specs.Pages.{is_mapped};
ghost use Rattle.numa_space.specs.Limited.{Bounds};
ghost use Rattle.numa_space.specs.Policies.{allowed_nodes};
ghost use Rattle.numa_space.specs.Standing.{IsAccepted, IsNodeList, place_refusal_of};
ghost use Rattle.numa_compile.specs.Standing.{PlanStandsFor};
ghost use Rattle.numa_compile.specs.Spans.{first_node, meant_count, SpanIsRefused};

/// A plan that stands for a history answers by it, in the terms of the clauses of `choice`, `fill`
/// and `counts`: each list of the plan is the fallback list of a mapped page; a question about a
/// page is refused exactly if the history refuses it, and for the same cause; the first node by the
/// plan is the first of the fallback list; a node is counted once for each mapped page of the span
/// whose fallback list begins with it; and a span is refused exactly if the history refuses it, for
/// a missing faulting node before an unmapped page. On a machine with memory, each list of a plan
/// of accepted commands isn't empty, has no node twice, and has only allowed nodes.
pub fn every_plan()
    ensures choice { (machine : Hardware) (plan : PlanData) (history : List Command)
        (task page cpu : ℕ) (nodes : List ℕ)
        → PlanStandsFor machine plan history → cpu < plan.nodes
        → planned_list plan task page cpu ≡ Some nodes
        → (cpu < machine.nodes) × (is_mapped history page ≡ true)
        × (nodes ≡ node_list machine history task page cpu) }
    ensures refusal { (machine : Hardware) (plan : PlanData) (history : List Command) (page cpu : ℕ)
        → PlanStandsFor machine plan history → place_refusal plan page cpu
        ≡ place_refusal_of machine history page cpu }
    ensures fill { (machine : Hardware) (plan : PlanData) (history : List Command)
        (task page cpu node : ℕ)
        → PlanStandsFor machine plan history → cpu < plan.nodes
        → planned_first plan task page cpu ≡ Some node
        → (is_mapped history page ≡ true) × (node ≡ first_node machine history task page cpu) }
    ensures counts { (machine : Hardware) (plan : PlanData) (history : List Command)
        (task first pages cpu node : ℕ)
        → PlanStandsFor machine plan history → cpu < plan.nodes
        → planned_count plan task first pages cpu node
        ≡ meant_count machine history task first pages cpu node }
    ensures span { (machine : Hardware) (plan : PlanData) (history : List Command)
        (first pages cpu : ℕ) (refusal : PlaceRefusal)
        → PlanStandsFor machine plan history
        → RefusesSpan plan first pages cpu refusal
        ↔ SpanIsRefused machine history first pages cpu refusal }
    ensures sound { (machine : Hardware) (bounds : Bounds) (plan : PlanData)
        (history : List Command) (task page cpu : ℕ) (nodes : List ℕ)
        → machine.memory ≢ 0 → machine.memory < 2 ^ 256 → IsAccepted machine bounds history
        → PlanStandsFor machine plan history → cpu < plan.nodes
        → planned_list plan task page cpu ≡ Some nodes
        → IsNodeList (allowed_nodes machine history) nodes }
{}
