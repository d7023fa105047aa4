//! Questions about a page.
ghost use Rattle.std.specs.Prelude.{◌≡◌, ◌≢◌, ◌<◌, ◌++◌, ◌&&◌, ℕ, true, not, filter, is_some};
ghost use Rattle.std.specs.Prelude.{Option, Some, None, List, IfOk, IfSome, MatchResult};
ghost use Rattle.numa_mask.specs.NodeSet.{both, has};
ghost use Rattle.numa_machine.specs.Machine.{fallback_order};
ghost use Rattle.numa_mode.specs.Policy.{PolicyRecord, is_live};
ghost use Rattle.numa_ranges.specs.Runs.{page_at};
ghost use Rattle.numa_requests.specs.declared.command.Command.{Command};
ghost use Rattle.numa_space.specs.Lists.{list_by_mode, list_for, near, node_list, usable, within};
ghost use Rattle.numa_space.specs.Pages.{resolved_policy};
ghost use Rattle.numa_space.specs.Policies.{policy_that_counts, where_live};
ghost use Rattle.numa_space.specs.Standing.{IsInForce, IsNodeList, StandsFor, list_in};
ghost use Rattle.numa_space.specs.Standing.{place_refusal_in, place_refusal_of, policy_in};
ghost use Rattle.numa_space.specs.Standing.{setting_in};

use crate::choice::{first_node, interleave_node, push_others, push_within, weighted_node};
use crate::space::Space;
use arrayvec::ArrayVec;
use numa_machine::{PlaceRefusal, turn_at};
use numa_mask::NodeMask;
use numa_mode::{Mode, Record};

/// A policy, if it is live.
fn where_live(policy: Option<Record>) -> Option<Record>
    ensures { result ≡ where_live policy }
{
    match policy {
        Some(policy) if policy.is_live() => Some(policy),
        _ => None,
    }
}

/// The range's policy if it has one that is live, else the task's.
fn resolved(range: Option<Record>, task: Option<Record>) -> Option<Record>
    ensures { result ≡ policy_that_counts range task }
{
    match where_live(range) {
        Some(policy) => Some(policy),
        None => where_live(task),
    }
}

impl Space {
    /// The policy that serves a task's fault at a page: that of the page's range if it is live,
    /// else the task's if it is live. `None` means local allocation ("NUMA Memory Policy", scopes).
    pub fn policy_at(&self, task: u32, page: u64) -> Option<Record>
        ensures policy { result ≡ policy_in self.now task page }
        ensures meaning { (history : List Command) → StandsFor self.now history
            → result ≡ resolved_policy self.now.machine history task page }
        ensures in_force { IfSome result (λ policy. IsInForce self.now.machine self.now.allowed
            policy × (is_live policy ≡ true)) }
    {
        // Tells the proof that every policy of the space is in force.
        let _ = &self.allowed;
        self.policy_of_page(task, page)
    }

    /// The policy that serves a task at a page.
    fn policy_of_page(&self, task: u32, page: u64) -> Option<Record>
        ensures { result ≡ policy_in self.now task page }
    {
        let range = match self.pages.at(page) {
            Some((_, policy)) => policy,
            None => None,
        };
        resolved(range, self.tasks.get(task))
    }

    /// The nodes on which memory for a page is looked for, in this order, when the task faults on
    /// it on node `cpu`. It doesn't allocate.
    ///
    /// # Errors
    /// The first that applies: `BadCpu`, the machine has no node `cpu`; `Unmapped`, the page isn't
    /// mapped.
    ///
    /// # Examples
    /// Whether a placement is at its rank of the list:
    ///
    /// ```
    /// match space.list_at(request.task, request.page, request.cpu) {
    ///     Ok(list) => list.get(placement.rank as usize) == Some(&placement.node),
    ///     Err(_) => false,
    /// }
    /// ```
    pub fn list_at(&self, task: u32, page: u64, cpu: u32) -> Result<ArrayVec<u8, 256>, PlaceRefusal>
        ensures answer { MatchResult result
            (λ list. (place_refusal_in self.now.machine.nodes
            (is_some (page_at self.now.ranges page)) cpu ≡ None)
            × (list.items ≡ list_in self.now task page cpu))
            (λ refusal. place_refusal_in self.now.machine.nodes
            (is_some (page_at self.now.ranges page)) cpu ≡ Some refusal) }
        ensures meaning { (history : List Command) → StandsFor self.now history → MatchResult result
            (λ list. (place_refusal_of self.now.machine history page cpu ≡ None)
            × (list.items ≡ node_list self.now.machine history task page cpu))
            (λ refusal. place_refusal_of self.now.machine history page cpu ≡ Some refusal) }
        ensures sound { IfOk result (λ list. IsNodeList self.now.allowed list.items) }
    {
        // Tells the proof that the machine, the allowed nodes and the weights are sound.
        let _ = &self.allowed;
        self.list_of_page(task, page, cpu)
    }

    /// The fallback list of a page, from the parts of the space.
    fn list_of_page(
        &self,
        task: u32,
        page: u64,
        cpu: u32,
    ) -> Result<ArrayVec<u8, 256>, PlaceRefusal>
        ensures { MatchResult result
            (λ list. (place_refusal_in self.now.machine.nodes
            (is_some (page_at self.now.ranges page)) cpu ≡ None)
            × (list.items ≡ list_in self.now task page cpu))
            (λ refusal. place_refusal_in self.now.machine.nodes
            (is_some (page_at self.now.ranges page)) cpu ≡ Some refusal) }
    {
        if cpu >= self.machine.nodes() {
            return Err(PlaceRefusal::BadCpu);
        }
        let Some((index, _)) = self.pages.at(page) else {
            return Err(PlaceRefusal::Unmapped);
        };
        let policy = self.policy_at(task, page);
        Ok(self.list_of(policy, cpu, index))
    }

    /// The list of a policy in force, for a fault on a node, at a page with this index: where nodes
    /// take turns, that of its turn.
    pub fn list_of(&self, policy: Option<Record>, cpu: u32, index: u64) -> ArrayVec<u8, 256>
        requires cpu { cpu < self.now.machine.nodes }
        requires in_force { IfSome policy (λ r. IsInForce self.now.machine self.now.allowed r
            × (is_live r ≡ true)) }
        ensures { result.items ≡ list_for (setting_in self.now) policy cpu index }
    {
        let Some(policy) = policy else {
            return self.near(cpu);
        };
        let from = policy.home().map_or(cpu, |home| u32::from(home));
        self.list_by_mode(&policy, from, turn_at(index))
    }

    /// The list of a policy in force, for a fault that counts as one on node `from`, at a page that
    /// has this turn.
    fn list_by_mode(&self, policy: &Record, from: u32, turn: u64) -> ArrayVec<u8, 256>
        requires from { from < self.now.machine.nodes }
        requires in_force { IsInForce self.now.machine self.now.allowed policy.now }
        requires live { is_live policy.now ≡ true }
        ensures { result.items ≡ list_by_mode (setting_in self.now) policy.now.spec.mode
            policy.now.effective from turn }
    {
        let set = policy.effective();
        match policy.spec().mode() {
            Mode::Default | Mode::Local => self.near(from),
            Mode::Preferred => self.near(u32::from(first_node(&set))),
            Mode::Bind => self.nearest(&self.usable(&set), from),
            Mode::PreferredMany => self.nearest_before_others(&set.and(&self.allowed), from),
            Mode::Interleave => self.near(u32::from(interleave_node(&set, turn))),
            Mode::WeightedInterleave => {
                self.near(u32::from(weighted_node(&self.weights, &set, turn)))
            }
        }
    }

    /// The nodes of a set that `Bind` keeps to: those that are allowed, or where none is, all that
    /// are.
    pub fn usable(&self, set: &NodeMask) -> NodeMask
        ensures usable { result ≡ usable self.now.allowed set.now }
        ensures some { result ≢ 0 }
        ensures inside { both result self.now.allowed ≡ result }
    {
        let both = set.and(&self.allowed);
        if both.is_empty() {
            return self.allowed;
        }
        both
    }

    /// The allowed nodes, the nearest to a node first.
    fn near(&self, from: u32) -> ArrayVec<u8, 256>
        requires { from < self.now.machine.nodes }
        ensures { result.items ≡ near (setting_in self.now) from }
    {
        self.nearest(&self.allowed, from)
    }

    /// The nodes of a set that have memory, the nearest to `from` first. It doesn't allocate.
    pub fn nearest(&self, set: &NodeMask, from: u32) -> ArrayVec<u8, 256>
        requires { from < self.now.machine.nodes }
        ensures { result.items ≡ within set.now (fallback_order self.now.machine from) }
    {
        let mut list = ArrayVec::new();
        push_within(&mut list, self.machine.order(from), set);
        list
    }

    /// The nodes of a set that have memory, the nearest to `from` first, and after them the other
    /// allowed nodes in the same order. It doesn't allocate.
    pub fn nearest_before_others(&self, set: &NodeMask, from: u32) -> ArrayVec<u8, 256>
        requires { from < self.now.machine.nodes }
        ensures { result.items ≡ within set.now (fallback_order self.now.machine from)
            ++ filter (λ node. has self.now.allowed node && not (has set.now node))
            (fallback_order self.now.machine from) }
    {
        let mut list = self.nearest(set, from);
        push_others(&mut list, self.machine.order(from), &self.allowed, set);
        list
    }
}
