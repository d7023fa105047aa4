//! Pools that grow and shrink.
ghost use Rattle.std.specs.Prelude.{◌≡◌, ◌<◌, ◌^◌, IfOk, OnOk, OnErr};
ghost use Rattle.std.specs.Result.{result_err};
ghost use Rattle.numa_pools.specs.Resize.{add_fresh, adopt, call_surplus, drop_free, goal_for};
ghost use Rattle.numa_pools.specs.Resize.{node_refusal, resized, resized_node};

use crate::counts::{add_each, left_of, on, take_each};
use crate::pools::Pools;
use crate::refusal::PoolRefusal;
use crate::shares::in_turn;
use numa_mask::{NodeId, NodeMask};

impl Pools {
    /// Lets surplus pages of these nodes last, as long as fewer than `goal` last.
    fn adopt(&mut self, nodes: &NodeMask, goal: u64)
        ensures { self.new ≡ adopt nodes.now goal self.old }
    {
        let missing = goal.saturating_sub(self.lasting());
        let times = missing.min(self.all_surplus());
        let shares = in_turn(times, nodes, self.grow, &self.surplus);
        take_each(&mut self.surplus, &shares.taken);
        self.grow = shares.mark;
    }

    /// Adds fresh pages on those of these nodes that are allowed, as long as fewer than `goal`
    /// last.
    fn add_fresh(&mut self, nodes: &NodeMask, allowed: &NodeMask, goal: u64)
        ensures { self.new ≡ add_fresh nodes.now allowed.now goal self.old }
    {
        let missing = goal.saturating_sub(self.lasting());
        let room = on(allowed, &left_of(&self.total));
        let shares = in_turn(missing, nodes, self.grow, &room);
        add_each(&mut self.total, &shares.taken);
        add_each(&mut self.free, &shares.taken);
        self.grow = shares.mark;
    }

    /// Lets free pages of these nodes go, as long as more than `goal` last, and more than are used
    /// and reserved.
    fn drop_free(&mut self, nodes: &NodeMask, goal: u64)
        ensures { self.new ≡ drop_free nodes.now goal self.old }
    {
        let times = self.lasting().saturating_sub(goal.max(self.kept()));
        let shares = in_turn(times, nodes, self.shrink, &self.free);
        take_each(&mut self.total, &shares.taken);
        take_each(&mut self.free, &shares.taken);
        self.shrink = shares.mark;
    }

    /// Makes pages of these nodes surplus, as long as more than `goal` last.
    fn call_surplus(&mut self, nodes: &NodeMask, goal: u64)
        ensures { self.new ≡ call_surplus nodes.now goal self.old }
    {
        let times = self.lasting().saturating_sub(goal);
        let mut room = self.total;
        take_each(&mut room, &self.surplus);
        let shares = in_turn(times, nodes, self.shrink, &room);
        add_each(&mut self.surplus, &shares.taken);
        self.shrink = shares.mark;
    }

    /// Makes the pools have `count` lasting pages in all, by pages of these nodes, in turn: as a
    /// write to nr_hugepages (all nodes with memory) and nr_hugepages_mempolicy (a task's nodes).
    /// Fresh pages come on those nodes alone that the writer is allowed; pages that are used or
    /// reserved stay, and become surplus.
    pub fn resize(&mut self, nodes: &NodeMask, allowed: &NodeMask, count: u64)
        ensures { self.new ≡ resized nodes.now allowed.now count self.old }
    {
        self.adopt(nodes, count);
        self.add_fresh(nodes, allowed, count);
        self.drop_free(nodes, count);
        self.call_surplus(nodes, count);
    }

    /// The goal of all nodes' lasting pages, where a node is to have `count`; the machine has
    /// `nodes` nodes.
    fn goal_for(&self, nodes: u32, node: u8, count: u64) -> Result<u64, PoolRefusal>
        requires { count < 2 ^ 63 }
        ensures refusal { result_err result ≡ node_refusal nodes self.now node count }
        ensures goal { IfOk result (λ goal. goal ≡ goal_for self.now node count) }
    {
        if u32::from(node) >= nodes {
            return Err(PoolRefusal::NoSuchNode);
        }
        let total = self.total[node as usize];
        let surplus = self.surplus[node as usize];
        let lasting = self.lasting();
        if total < surplus || lasting < total - surplus {
            return Err(PoolRefusal::Unsure);
        }
        Ok(count + lasting - (total - surplus))
    }

    /// Makes a node have `count` lasting pages, as a write to its own nr_hugepages, on a machine of
    /// `nodes` nodes. To a node without memory no page comes, but it has its turn.
    ///
    /// # Errors
    /// The first of these that applies: `NoSuchNode`, the machine lacks the node; `Unsure`, Linux
    /// 6.12 would subtract more pages than there are. Then nothing has changed.
    pub fn resize_node(
        &mut self,
        nodes: u32,
        node: NodeId,
        allowed: &NodeMask,
        count: u64,
    ) -> Result<(), PoolRefusal>
        requires { count < 2 ^ 63 }
        ensures refusal { result_err result ≡ node_refusal nodes self.old node count }
        ensures resized { OnOk result (self.new ≡ resized_node node allowed.now count self.old) }
        ensures unchanged { OnErr result (self.new ≡ self.old) }
    {
        let goal = self.goal_for(nodes, node.number(), count)?;
        let mut alone = NodeMask::empty();
        alone.insert(node);
        self.resize(&alone, allowed, goal);
        Ok(())
    }
}
