//! The weights by which nodes take turns.
ghost use Rattle.std.specs.Prelude.{◌≡◌, ◌≢◌, ◌==◌, ◌<◌, ◌≤◌, ◌%◌, ◌++◌, ℕ, IfOk, OnOk, OnErr};
ghost use Rattle.std.specs.Prelude.{if◌then◌else◌, min, replicate, slice_index, vec_len};
ghost use Rattle.std.specs.Result.{result_err};

use crate::fault::WeightError;
use numa_mask::NodeMask;
use std::alloc::{AllocError, Global};
use std::marker::Model;

/// The number of nodes that can have a weight.
const NODES: usize = 256;

/// The greatest weight of a node.
const GREATEST_WEIGHT: u32 = 255;

/// The weight of each node, from 1 to 255. A node of weight 3 takes three turns for each turn of a
/// node of weight 1, as in the weighted interleave of set_mempolicy(2) and the kernel's
/// `/sys/kernel/mm/mempolicy/weighted_interleave`.
#[derive(Clone, Copy, Debug)]
pub struct Weights {
    nodes: u32,
    weights: [u8; NODES],
}

impl Model for Weights {
    ghost use Rattle.numa_machine.specs.Weights.{NodeWeights, AreWeights};

    ghost Value = { NodeWeights };

    ghost view = { λ w. record { nodes = w.nodes; weights = w.weights } };

    ghost inverse = { λ w. record { nodes = w.nodes; weights = w.weights } };

    ghost invariant = { λ w. AreWeights w.nodes w.weights };
}

/// Appends a node as many times as its weight.
fn push_turns(cycle: &mut Vec<u8>, node: u8, weight: u8) -> Result<(), AllocError>
    ensures { OnOk result (cycle.new.items ≡ cycle.old.items ++ replicate weight node) }
{
    cycle.resize(cycle.len() + usize::from(weight), node)?;
    Ok(())
}

impl Weights {
    ghost use Rattle.numa_machine.specs.Weights.{weight_at, weight_fault, total_weight};
    ghost use Rattle.numa_machine.specs.Weights.{weighted_node, cycle};

    /// Weight 1 for each node of a machine with `nodes` nodes; above 256, for 256 nodes.
    pub fn new(nodes: u32) -> Weights
        ensures nodes { result.nodes ≡ min nodes 256 }
        ensures weights { (node : ℕ) → weight_at result node ≡ 1 }
    {
        Weights {
            nodes: nodes.min(256),
            weights: [1; NODES],
        }
    }

    /// Sets the weight of a node.
    ///
    /// # Errors
    /// The first of these that applies: `NoSuchNode`, the machine lacks the node; `BadWeight`, the
    /// weight is 0 or above 255. Then nothing has changed.
    pub fn set(&mut self, node: u32, weight: u32) -> Result<(), WeightError>
        ensures fault { result_err result ≡ weight_fault self.old.nodes node weight }
        ensures nodes { self.new.nodes ≡ self.old.nodes }
        ensures weights { OnOk result ((other : ℕ) → weight_at self.new other
            ≡ (if other == node then weight else weight_at self.old other)) }
        ensures unchanged { OnErr result (self.new ≡ self.old) }
    {
        if node >= self.nodes {
            return Err(WeightError::NoSuchNode);
        }
        if weight == 0 || weight > GREATEST_WEIGHT {
            return Err(WeightError::BadWeight);
        }
        self.weights[node as usize] = weight as u8;
        Ok(())
    }

    /// The weight of a node: 1 unless another was set.
    pub fn get(&self, node: u32) -> u32
        requires { node < 256 }
        ensures weight { result ≡ weight_at self.now node }
        ensures at_least { 1 ≤ result }
        ensures at_most { result ≤ 255 }
    {
        u32::from(self.weights[node as usize])
    }

    /// The members of a set in ascending order, each as many times as its weight: one cycle of
    /// weighted interleave.
    ///
    /// # Errors
    /// `AllocError`: there is no memory for the cycle.
    pub fn cycle_of(&self, alloc: Global, set: &NodeMask) -> Result<Vec<u8>, AllocError>
        ensures cycle { IfOk result (λ turns. turns.items ≡ cycle (weight_at self.now) set.now) }
        ensures length { IfOk result (λ turns. vec_len turns
            ≡ total_weight (weight_at self.now) set.now) }
        ensures places { IfOk result (λ turns. (index : ℕ)
            → slice_index turns.items (index % total_weight (weight_at self.now) set.now)
            ≡ weighted_node (weight_at self.now) set.now index) }
        ensures some { set.now ≢ 0 → IfOk result (λ turns. 0 < vec_len turns) }
    {
        let mut cycle = Vec::with_capacity(alloc, set.weight() as usize)?;
        for node in set.iter() {
            let number = node.number();
            push_turns(&mut cycle, number, self.weights[usize::from(number)])?;
        }
        Ok(cycle)
    }
}
