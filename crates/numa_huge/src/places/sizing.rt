//! Pools that grow and shrink, and mappings that are refused for lack of pages.
ghost use Rattle.std.specs.Prelude.{◌≡◌, ◌<◌, ◌^◌, OnOk, OnErr};
ghost use Rattle.std.specs.Result.{result_err};
ghost use Rattle.numa_pools.specs.Pools.{refusing};
ghost use Rattle.numa_pools.specs.Resize.{node_refusal, resized, resized_node};

use crate::places::HugePlaces;
use numa_mask::{NodeId, NodeMask};
use numa_pools::PoolRefusal;

impl HugePlaces {
    /// Makes the pools have `count` lasting pages in all, as [`Pools::resize`](numa_pools::Pools).
    pub fn resize(&mut self, nodes: &NodeMask, allowed: &NodeMask, count: u64)
        ensures pools { self.new.pools ≡ resized nodes.now allowed.now count self.old.pools }
        ensures runs { self.new.runs ≡ self.old.runs }
    {
        self.pools.keep();
        self.pools.resize(nodes, allowed, count);
    }

    /// Makes a node of a machine of `nodes` nodes have `count` lasting pages.
    ///
    /// # Errors
    /// As [`Pools::resize_node`](numa_pools::Pools::resize_node). Then nothing has changed.
    pub fn resize_node(
        &mut self,
        nodes: u32,
        node: NodeId,
        allowed: &NodeMask,
        count: u64,
    ) -> Result<(), PoolRefusal>
        requires { count < 2 ^ 63 }
        ensures refusal { result_err result ≡ node_refusal nodes self.old.pools node count }
        ensures resized { OnOk result
            (self.new.pools ≡ resized_node node allowed.now count self.old.pools) }
        ensures unchanged { OnErr result (self.new ≡ self.old) }
        ensures runs { self.new.runs ≡ self.old.runs }
    {
        self.pools.keep();
        self.pools.resize_node(nodes, node, allowed, count)
    }

    /// What a mapping leaves that is refused for lack of pages.
    pub fn refuse(&mut self, pages: u64)
        ensures pools { self.new.pools ≡ refusing self.old.pools pages }
        ensures runs { self.new.runs ≡ self.old.runs }
    {
        self.pools.keep();
        self.pools.refuse(pages);
        self.pools.keep();
    }
}
