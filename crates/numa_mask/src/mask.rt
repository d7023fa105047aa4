//! Sets of nodes, with those operations of the Linux kernel's bitmaps (lib/bitmap.c) that its
//! memory policies use.
//!
//! A set has up to 256 members, the nodes 0 to 255. Contracts see it as one number whose bit n is 1
//! if node n is a member; the code keeps that number as four words of 64 bits, the lowest first.
//! The n-th member of a set is the one with exactly n smaller members, counted from 0; its ordinal
//! is n. The weight is the number of members.
//!
//! Three operations map each member of a set to a node, and return the set of these nodes:
//!
//! - `fold` by a size: "for each bit oldbit in @orig, set bit oldbit mod @sz in @dst" (comment on
//!   bitmap_fold). It folds a mask of any width onto the first `size` nodes.
//! - `onto` another set: member n goes to the n-th member of the other set, and is dropped if there
//!   is none (comment on bitmap_onto). It reads a mask relative to another set.
//! - `remap` from an old set to a new one: the n-th member of the old set goes to the member of the
//!   new set with ordinal n modulo the new weight; "the positions of unset bits in @old are mapped
//!   to themselves", and so is every bit if the new set is empty (comment on bitmap_remap). It
//!   moves a policy to another set of allowed nodes.
//!
//! No call allocates.
ghost use Rattle.std.specs.Prelude.{count_ones, ◌≡◌, ◌≢◌, ◌==◌, ◌+◌, ◌-◌, ◌<◌, ◌≤◌};
ghost use Rattle.std.specs.Prelude.{◌^◌, ◌↔◌, ℕ, true, false, IsTrue, IsSome, IfSome, List};
ghost use Rattle.std.specs.Prelude.{[], length, nat_lt, Some, None, if◌then◌else◌};
ghost use Rattle.std.specs.List.{sum_by};
ghost use Rattle.std.specs.Cmp.Rules.{comparing, hashing};
ghost use Rattle.std.specs.Hash as fed;
ghost use Rattle.std.proofs.Common.{rules};
ghost use Rattle.numa_mask.specs.Words.{words_of, number_of, AreFour};
ghost use Rattle.numa_mask.specs.NodeSet.{has, members, weight_of, nth_member, ordinal_of};
ghost use Rattle.numa_mask.specs.NodeSet.{with_node, both, fold_set, onto_set, remap_set};

use crate::node::NodeId;
use crate::nodes::Nodes;
use crate::ranked::Ranked;
use std::hash::{Hash, Hasher};
use std::marker::Model;

/// A set of nodes from 0 to 255. Two sets are equal if they have the same members.
#[derive(Clone, Copy, Debug)]
pub struct NodeMask {
    words: [u64; 4],
}

impl Model for NodeMask {
    ghost use Rattle.std.specs.Prelude.{ℕ, ◌<◌, ◌^◌, slice_index};
    ghost use Rattle.numa_mask.specs.Words.{number_of};

    ghost Value = { ℕ };

    ghost view = { λ a. number_of a.words };

    ghost use Rattle.numa_mask.specs.Words.{AreFour, words_of, words_of-number};

    ghost invariant = { λ a. AreFour a.words };

    ghost inverse = { λ n. record { words = words_of n } };

    ghost inverse_ok = { λ a h i. record { words = words_of-number a.words h i } };
}

impl PartialEq for NodeMask {
    ghost eq = { ◌==◌ };

    ghost laws = { Prim.search (comparing, rules) };

    fn eq(&self, other: &NodeMask) -> bool {
        self.words == other.words
    }
}

impl Eq for NodeMask {
    ghost laws = { Prim.search (comparing, rules) };
}

impl Hash for NodeMask {
    ghost hash_input = { λ set. fed.slice fed.u64 (words_of set) };

    ghost respects_eq = { Prim.search (hashing, rules) };

    fn hash<H: Hasher>(&self, state: &mut H) {
        self.words.hash(state);
    }
}

/// The number of 1 bits in a few words.
fn ones_of(words: &[u64]) -> u32
    requires { length words.now ≤ 4 }
    ensures { result ≡ sum_by count_ones words.now }
{
    words.iter().map(|word| word.count_ones()).sum()
}

impl NodeMask {
    /// The empty set.
    ///
    /// # Examples
    /// The set of some nodes:
    ///
    /// ```
    /// let mut set = NodeMask::empty();
    /// for number in nodes {
    ///     let Some(node) = NodeId::new(*number) else {
    ///         unreachable!();
    ///     };
    ///     set.insert(node);
    /// }
    /// ```
    pub fn empty() -> NodeMask
        ensures { result ≡ 0 }
    {
        NodeMask { words: [0; 4] }
    }

    /// The set that four words describe: node n is a member if bit n % 64 of word n / 64 is 1. Any
    /// four words describe a set.
    pub fn from_words(words: [u64; 4]) -> NodeMask
        ensures { result ≡ number_of words }
    {
        NodeMask { words }
    }

    /// The four words of the set: bit n % 64 of word n / 64 is 1 if node n is a member.
    pub fn words(&self) -> [u64; 4]
        ensures words { number_of result ≡ self.now }
        ensures four { AreFour result }
    {
        self.words
    }

    /// Adds a node.
    pub fn insert(&mut self, node: NodeId)
        ensures { self.new ≡ with_node self.old node }
    {
        let number = node.number();
        self.words[number as usize / 64] |= 1u64 << (number % 64);
    }

    /// Removes a node, if it is a member.
    pub(crate) fn remove(&mut self, node: NodeId)
        ensures gone { has self.new node ≡ false }
        ensures others { (other : ℕ) → other ≢ node → has self.new other ≡ has self.old other }
    {
        let number = node.number();
        self.words[number as usize / 64] &= !(1u64 << (number % 64));
    }

    /// Whether the node is a member.
    pub fn contains(&self, node: NodeId) -> bool
        ensures { result ≡ has self.now node }
    {
        let number = node.number();
        (self.words[number as usize / 64] >> (number % 64)) & 1 == 1
    }

    /// Whether node `number` is a member. Every byte is the number of a node.
    pub fn has(&self, number: u8) -> bool
        ensures { result ≡ has self.now number }
    {
        self.contains(NodeId::of(number))
    }

    /// The intersection of the two sets.
    pub fn and(&self, other: &NodeMask) -> NodeMask
        ensures { result ≡ both self.now other.now }
    {
        NodeMask {
            words: [
                self.words[0] & other.words[0],
                self.words[1] & other.words[1],
                self.words[2] & other.words[2],
                self.words[3] & other.words[3],
            ],
        }
    }

    /// The number of members, at most 256.
    pub fn weight(&self) -> u32
        ensures weight { result ≡ weight_of self.now }
        ensures some { self.now ≢ 0 → 0 < result }
        ensures at_most { result ≤ 256 }
        ensures within { self.now < 2 ^ 256 }
    {
        ones_of(&self.words)
    }

    /// Whether there is no member.
    pub fn is_empty(&self) -> bool
        ensures { result ≡ (self.now == 0) }
    {
        self.first().is_none()
    }

    /// The lowest member, or `None` if the set is empty.
    pub fn first(&self) -> Option<NodeId>
        ensures first { result ≡ nth_member self.now 0 }
        ensures some { IsSome result ↔ (self.now ≢ 0) }
        ensures member { IfSome result (λ node. has self.now node ≡ true) }
        ensures lowest { IfSome result (λ node. (other : ℕ) → other < node →
            has self.now other ≡ false) }
    {
        for (place, word) in self.words.iter().enumerate() {
            if *word != 0 {
                return Some(NodeId::of((place * 64) as u8 + word.trailing_zeros() as u8));
            }
        }
        None
    }

    /// The k-th member, counted from 0: the one with exactly k smaller members. `None` if there are
    /// no more than k members.
    pub fn nth(&self, k: u32) -> Option<NodeId>
        ensures nth { result ≡ nth_member self.now k }
        ensures some { IsSome result ↔ (k < weight_of self.now) }
        ensures member { IfSome result (λ node. has self.now node ≡ true) }
        ensures ordinal { IfSome result (λ node. ordinal_of self.now node ≡ k) }
    {
        self.iter().nth(k as usize)
    }

    /// The number of members below this node, if it is a member itself; else `None`.
    pub fn ordinal(&self, node: NodeId) -> Option<u32>
        ensures ordinal { result ≡ if has self.now node
            then Some (ordinal_of self.now node) else None }
        ensures within { IfSome result (λ k. k < weight_of self.now) }
        ensures nth { IfSome result (λ k. nth_member self.now k ≡ Some node) }
    {
        if self.contains(node) {
            Some(self.count_below(node))
        } else {
            None
        }
    }

    /// The number of members below this node.
    fn count_below(&self, node: NodeId) -> u32
        ensures ordinal { result ≡ ordinal_of self.now node }
        ensures node { node < 256 }
    {
        let number = node.number();
        let place = number as usize / 64;
        let below = self.words[place] & ((1u64 << (number % 64)) - 1);
        ones_of(&self.words[..place]) + below.count_ones()
    }

    /// Each member modulo `size`, which is at least 1 (the kernel's bitmap_fold).
    pub fn fold(&self, size: u32) -> NodeMask
        requires { 1 ≤ size }
        ensures { result ≡ fold_set self.now size }
    {
        let mut set = NodeMask::empty();
        for node in self.iter() {
            set.insert(node.modulo(size));
        }
        set
    }

    /// For each member n, the n-th member of the other set (the kernel's bitmap_onto, with the
    /// other set as its @relmap). A member n at or above the other set's weight is dropped.
    pub fn onto(&self, other: &NodeMask) -> NodeMask
        ensures { result ≡ onto_set self.now other.now }
    {
        let images = Ranked::of(other);
        let mut set = NodeMask::empty();
        for node in self.iter() {
            match images.nth(u32::from(node.number())) {
                Some(image) => set.insert(image),
                None => {}
            }
        }
        set
    }

    /// For each member that is the n-th of `old`, the member of `new` with ordinal n modulo the
    /// weight of `new` (the kernel's bitmap_remap). A member outside `old` stays, and so does each
    /// if `new` is empty.
    pub fn remap(&self, old: &NodeMask, new: &NodeMask) -> NodeMask
        ensures { result ≡ remap_set self.now old.now new.now }
    {
        let images = Ranked::of(new);
        let mut set = NodeMask::empty();
        for node in self.iter() {
            set.insert(node.moved(old, &images));
        }
        set
    }

    /// The members in ascending order.
    pub fn iter(&self) -> Nodes
        ensures members { result ≡ self.now }
        ensures within { self.now < 2 ^ 256 }
    {
        // Tells the proof that the words are four, each below 2^64.
        let _ = &self.words;
        Nodes::of(*self)
    }
}
