//! The effects of each command.
ghost use Rattle.std.specs.Prelude.{◌≡◌, ◌+◌, ◌<◌, ◌≤◌, ◌^◌, ◌&&◌, ◌||◌, ◌-◌, ◌==◌, ℕ, true, false};
ghost use Rattle.std.specs.Prelude.{not, nat_le, nat_lt};
ghost use Rattle.std.specs.Prelude.{is_some, length, Option, Some, None, MatchResult, IfErr};
ghost use Rattle.std.specs.Prelude.{◌≢◌, MatchOption, IfSome, IfOk, OnErr, OnOk};
ghost use Rattle.std.specs.Prelude.{if◌then◌else◌};
ghost use Rattle.std.specs.List.{list_any};
ghost use Rattle.numa_mask.specs.NodeSet.{members};
ghost use Rattle.numa_mode.specs.Policy.{PolicyRecord};
ghost use Rattle.numa_ranges.specs.Maps.{any_page};
ghost use Rattle.numa_ranges.specs.Runs.{page_at};
ghost use Rattle.numa_space.specs.Changed.{IsChange};
ghost use Rattle.numa_space.specs.declared.change.Change.{Change};
ghost use Rattle.numa_requests.specs.declared.command.Command.{Command};
ghost use Rattle.numa_space.specs.Policies.{weight_given};
ghost use Rattle.numa_machine.specs.Rules.{is_linux};
ghost use Rattle.numa_space.specs.Policies.{mems_of};
ghost use Rattle.numa_space.specs.Refusals.{has_no_node, is_bad_weight, lacks_mems, lacks_policy};
ghost use Rattle.numa_space.specs.Refusals.{mems_cause, passes_holes};
ghost use Rattle.numa_space.specs.Standing.{SpaceState, lacks_place};
ghost use Rattle.numa_space.specs.Steps.{IsAnswer, IsGiven, LacksRoom, record_now};

use crate::change::{Change, ChangedPages};
use crate::page_ranges::PageTest;
use crate::range_record::RangeRecord;
use crate::space::Space;
use crate::space::parts::marked;
use crate::task_policies::Tasks;
use numa_machine::{PageSize, Rules, WeightError};
use numa_mask::NodeMask;
use numa_mode::{Mode, PolicySpec, Record};
use numa_requests::{Command, Refusal};

/// Whether a set has node `first` or a higher one.
fn has_node_from(mask: &NodeMask, first: u32) -> bool
    ensures { result ≡ list_any (λ node. nat_le first node) (members mask.now) }
{
    mask.iter().any(|node| first <= u32::from(node.number()))
}

/// What an Mbind changed.
fn bound(pages: ChangedPages, range: &RangeRecord) -> Change
    ensures { result ≡ Change.Bound pages range.now }
{
    Change::Bound {
        pages,
        policy: range.policy(),
    }
}

/// Whether a task has no policy, and as many as may have one do.
fn lacks_place(tasks: &Tasks, task: u32, most: u32) -> bool
    ensures { result ≡ lacks_place most tasks.now task }
{
    let is_full = most as usize <= tasks.len();
    tasks.get(task).is_none() && is_full
}

/// Gives a task a policy, or takes its own away; at most so many tasks can have one.
fn give(tasks: &mut Tasks, task: u32, policy: &Option<Record>, most: u32) -> Result<(), Refusal>
    ensures ok { OnOk result (((is_some policy.now && lacks_place most tasks.old task) ≡ false)
        × IsGiven tasks.old task policy.now tasks.new) }
    ensures err { IfErr result (λ refusal. (is_some policy.now ≡ true)
        × (refusal ≡ (if lacks_place most tasks.old task then Refusal.TooManyTasks
        else Refusal.NoMemory))) }
    ensures unchanged { OnErr result (tasks.new ≡ tasks.old) }
{
    let Some(policy) = *policy else {
        tasks.clear(task);
        return Ok(());
    };
    if lacks_place(tasks, task, most) {
        return Err(Refusal::TooManyTasks);
    }
    if tasks.set(task, policy).is_err() {
        return Err(Refusal::NoMemory);
    }
    Ok(())
}

impl Space {
    /// Whether the machine follows the kernel's rules.
    fn is_linux(&self) -> bool
        ensures { result ≡ is_linux self.now.machine.rules }
    {
        self.machine.rules().is_linux()
    }

    /// Whether an Mbind skips holes: that of DEFAULT does in the kernel.
    fn passes_holes(&self, spec: &PolicySpec) -> bool
        ensures { result ≡ passes_holes self.now.machine.rules spec.now }
    {
        self.is_linux() && spec.mode() == Mode::Default
    }

    /// Whether no page of a span has an own policy, if the kernel's rules require one.
    #[tactic(auto, unfolding(crate::specs::Refusals::lacks_policy))]
    fn lacks_policy(&self, first: u64, pages: u64) -> bool
        requires some { 0 < pages }
        requires fits { first + pages < 2 ^ 64 }
        ensures { result ≡ lacks_policy self.now.machine.rules (page_at self.now.ranges) first
            pages }
    {
        self.is_linux() && !self.pages.has_page(PageTest::HasPolicy, first, pages)
    }

    /// The weight that a number means: in the kernel 0 resets it to 1. By the documents 0 is kept,
    /// and refused.
    fn weight_meant(&self, weight: u32) -> u32
        ensures bad { (result == 0 || nat_lt 255 result)
            ≡ is_bad_weight self.now.machine.rules weight }
        ensures given { is_bad_weight self.now.machine.rules weight ≡ false
            → result ≡ weight_given weight }
    {
        if weight == 0 && self.is_linux() {
            1
        } else {
            weight
        }
    }

    /// Carries out a command, or refuses it. Returns what it changed.
    pub(super) fn answer(&mut self, command: &Command) -> Result<Change, Refusal>
        ensures answer { IsAnswer self.old command.now result self.new }
        ensures change { IfOk result (IsChange self.old command.now) }
        ensures room { IfErr result (LacksRoom command.now) }
    {
        if self.version >= u64::from(self.limits.max_commands()) {
            return Err(Refusal::CommandsSpent);
        }
        match command {
            Command::Map {
                start,
                length,
                offset,
                size,
            } => self.map(*start, *length, *offset, *size),
            Command::Unmap { start, length } => self.unmap(*start, *length),
            Command::Mbind {
                start,
                length,
                spec,
            } => self.bind(*start, *length, spec),
            Command::SetTask { task, spec } => self.set_task(*task, spec),
            Command::Inherit { task, from } => self.inherit(*task, *from),
            Command::SetWeight { node, weight } => self.set_weight(*node, *weight),
            Command::SetHome {
                start,
                length,
                node,
            } => self.set_home(*start, *length, *node),
            Command::SetMems { mask } => self.set_mems(mask),
        }
    }

    /// The policy that a specification sets now; DEFAULT sets none.
    fn record_of(&self, spec: &PolicySpec) -> Result<RangeRecord, Refusal>
        ensures { MatchResult result (λ policy. (has_no_node self.now.allowed spec.now ≡ false)
            × (policy ≡ record_now self.now.allowed spec.now))
            (λ refusal. (has_no_node self.now.allowed spec.now ≡ true)
            × (refusal ≡ Refusal.NodesNotAllowed)) }
    {
        if spec.mode() == Mode::Default {
            return Ok(RangeRecord::of(None));
        }
        match Record::set(*spec, &self.allowed) {
            Ok(policy) => Ok(RangeRecord::of(Some(policy))),
            Err(_) => Err(Refusal::NodesNotAllowed),
        }
    }

    fn map(
        &mut self,
        start: u64,
        length: u64,
        offset: u64,
        size: PageSize,
    ) -> Result<Change, Refusal>
        requires { self.old.version < self.old.bounds.max_commands }
        ensures answer { IsAnswer self.old (Command.Map start length offset size) result self.new }
        ensures change { IfOk result (IsChange self.old (Command.Map start length offset size)) }
        ensures room { IfErr result (LacksRoom (Command.Map start length offset size)) }
    {
        let (first, pages) = self.map_span_of(size, start, length)?;
        if offset >= 1 << 35 {
            return Err(Refusal::BadOffset);
        }
        if self.lacks_offset(size, offset, first, pages) {
            return Err(Refusal::Unaligned);
        }
        self.has_huge = marked(self.has_huge, size);
        self.pages.map_span(first, pages, size.index(offset))?;
        self.version += 1;
        Ok(Change::Mapped {
            pages: self.pages.changed(first, pages),
        })
    }

    fn unmap(&mut self, start: u64, length: u64) -> Result<Change, Refusal>
        requires { self.old.version < self.old.bounds.max_commands }
        ensures answer { IsAnswer self.old (Command.Unmap start length) result self.new }
        ensures change { IfOk result (IsChange self.old (Command.Unmap start length)) }
        ensures room { IfErr result (LacksRoom (Command.Unmap start length)) }
    {
        let (first, pages) = self.unmap_span_of(start, length)?;
        if length == 0 {
            self.version += 1;
            return Ok(Change::Nothing);
        }
        if self.parts_mapped(first, pages) {
            return Err(Refusal::Unaligned);
        }
        self.pages.unmap_span(first, pages)?;
        self.version += 1;
        Ok(Change::Unmapped {
            pages: self.pages.changed(first, pages),
        })
    }

    /// The refusal for a span of a policy that has no node: by the documents a hole comes first.
    fn hole_or_nodes(&self, first: u64, pages: u64) -> Refusal
        requires span { is_linux self.now.machine.rules ≡ false → first + pages ≤ 2 ^ 35 }
        ensures { result ≡ (if not (is_linux self.now.machine.rules)
            && any_page (λ page. not (is_some (page_at self.now.ranges page))) first pages
            then Refusal.Hole else Refusal.NodesNotAllowed) }
    {
        if !self.is_linux() && self.pages.has_hole(first, pages) {
            Refusal::Hole
        } else {
            Refusal::NodesNotAllowed
        }
    }

    fn bind(&mut self, start: u64, length: u64, spec: &PolicySpec) -> Result<Change, Refusal>
        requires { self.old.version < self.old.bounds.max_commands }
        ensures answer { IsAnswer self.old (Command.Mbind start length spec.now) result self.new }
        ensures change { IfOk result (IsChange self.old (Command.Mbind start length spec.now)) }
        ensures room { IfErr result (LacksRoom (Command.Mbind start length spec.now)) }
    {
        let (first, pages) = self.policy_span_of(start, length)?;
        if length == 0 {
            self.version += 1;
            return Ok(Change::Nothing);
        }
        let Ok(policy) = self.record_of(spec) else {
            return Err(self.hole_or_nodes(first, pages));
        };
        let passes_holes = self.passes_holes(spec);
        if self.parts_bound(first, pages, &policy, passes_holes) {
            return Err(Refusal::Unaligned);
        }
        self.pages.bind_span(first, pages, &policy, passes_holes)?;
        self.version += 1;
        let pages = self.pages.changed(first, pages);
        Ok(bound(pages, &policy))
    }

    fn set_task(&mut self, task: u32, spec: &PolicySpec) -> Result<Change, Refusal>
        requires { self.old.version < self.old.bounds.max_commands }
        ensures answer { IsAnswer self.old (Command.SetTask task spec.now) result self.new }
        ensures change { IfOk result (IsChange self.old (Command.SetTask task spec.now)) }
        ensures room { IfErr result (LacksRoom (Command.SetTask task spec.now)) }
    {
        let policy = self.record_of(spec)?.policy();
        if let Err(refusal) = give(&mut self.tasks, task, &policy, self.limits.max_tasks()) {
            return Err(refusal);
        }
        self.version += 1;
        Ok(Change::TaskSet { task, policy })
    }

    fn inherit(&mut self, task: u32, from: u32) -> Result<Change, Refusal>
        requires { self.old.version < self.old.bounds.max_commands }
        ensures answer { IsAnswer self.old (Command.Inherit task from) result self.new }
        ensures change { IfOk result (IsChange self.old (Command.Inherit task from)) }
        ensures room { IfErr result (LacksRoom (Command.Inherit task from)) }
    {
        let policy = self.tasks.get(from);
        if let Err(refusal) = give(&mut self.tasks, task, &policy, self.limits.max_tasks()) {
            return Err(refusal);
        }
        self.version += 1;
        Ok(Change::TaskSet { task, policy })
    }

    fn set_home(&mut self, start: u64, length: u64, node: u32) -> Result<Change, Refusal>
        requires { self.old.version < self.old.bounds.max_commands }
        ensures answer { IsAnswer self.old (Command.SetHome start length node) result self.new }
        ensures change { IfOk result (IsChange self.old (Command.SetHome start length node)) }
        ensures room { IfErr result (LacksRoom (Command.SetHome start length node)) }
    {
        let nodes = self.machine.nodes();
        let (first, pages) = self.policy_span_of(start, length)?;
        if node >= nodes {
            return Err(Refusal::NoSuchNode);
        }
        if length == 0 {
            self.version += 1;
            return Ok(Change::Nothing);
        }
        if self.pages.has_page(PageTest::TakesNoHome, first, pages) {
            return Err(Refusal::NotSupported);
        }
        if self.lacks_policy(first, pages) {
            return Err(Refusal::NoPolicy);
        }
        if self.parts_homed(first, pages, node as u8) {
            return Err(Refusal::Unaligned);
        }
        self.pages.home_span(first, pages, node as u8)?;
        self.version += 1;
        Ok(Change::Homed {
            pages: self.pages.changed(first, pages),
            node,
        })
    }

    fn set_weight(&mut self, node: u32, weight: u32) -> Result<Change, Refusal>
        requires { self.old.version < self.old.bounds.max_commands }
        ensures answer { IsAnswer self.old (Command.SetWeight node weight) result self.new }
        ensures change { IfOk result (IsChange self.old (Command.SetWeight node weight)) }
        ensures room { IfErr result (LacksRoom (Command.SetWeight node weight)) }
    {
        let meant = self.weight_meant(weight);
        match self.weights.set(node, meant) {
            Ok(()) => {}
            Err(WeightError::NoSuchNode) => return Err(Refusal::NoSuchNode),
            Err(WeightError::BadWeight) => return Err(Refusal::BadWeight),
        }
        self.version += 1;
        Ok(Change::Weighed {
            node,
            weight: meant,
        })
    }

    /// The refusal of a mask that allows no node.
    fn mems_refusal(&self) -> Refusal
        ensures { result ≡ mems_cause self.now.machine.rules }
    {
        match self.machine.rules() {
            Rules::Document => Refusal::NodesNotAllowed,
            Rules::Linux => Refusal::NoNodes,
        }
    }

    /// The nodes that a mask allows, or `None` if it allows none.
    #[tactic(auto, unfolding(crate::specs::Refusals::lacks_mems, crate::specs::Policies::mems_of))]
    fn mems_of(&self, mask: &NodeMask) -> Option<NodeMask>
        ensures mems { MatchOption result
            (lacks_mems self.now.machine.rules mask.now self.now.machine.memory ≡ true)
            (λ allowed. (lacks_mems self.now.machine.rules mask.now self.now.machine.memory ≡ false)
            × (allowed ≡ mems_of self.now.machine mask.now)) }
        ensures some { IfSome result (λ allowed. allowed ≢ 0) }
    {
        let memory = self.machine.memory();
        let allowed = mask.and(&memory);
        match self.machine.rules() {
            Rules::Document => {
                if allowed.is_empty() {
                    return None;
                }
                Some(allowed)
            }
            Rules::Linux => {
                if mask.is_empty() {
                    return None;
                }
                if allowed.is_empty() {
                    return Some(memory);
                }
                Some(allowed)
            }
        }
    }

    /// Changes the allowed nodes.
    fn set_mems(&mut self, mask: &NodeMask) -> Result<Change, Refusal>
        requires { self.old.version < self.old.bounds.max_commands }
        ensures answer { IsAnswer self.old (Command.SetMems mask.now) result self.new }
        ensures change { IfOk result (IsChange self.old (Command.SetMems mask.now)) }
        ensures room { IfErr result (LacksRoom (Command.SetMems mask.now)) }
    {
        if has_node_from(mask, self.machine.nodes()) {
            return Err(Refusal::NoSuchNode);
        }
        let Some(allowed) = self.mems_of(mask) else {
            return Err(self.mems_refusal());
        };
        let before = self.allowed;
        let rules = self.machine.rules();
        self.pages.rebind(rules, &before, &allowed);
        self.tasks.rebind(rules, &before, &allowed);
        self.allowed = allowed;
        self.version += 1;
        Ok(Change::Allowed { nodes: allowed })
    }
}
