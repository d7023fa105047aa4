//! The frames and distances of a machine line.
ghost use Rattle.std.specs.Prelude.{◌≡◌, ◌==◌, ◌≤◌, ◌<◌, ◌^◌, ℕ, List, Option, map, unwrap_or};
ghost use Rattle.std.specs.Prelude.{IfOk, OnOk, ◌++◌, is_some};
ghost use Rattle.std.specs.List.{list_all, flat_map, range_with_len};
ghost use Rattle.numa_script.specs.Numbers.{item_of};
ghost use Rattle.numa_script.specs.Parts.{items_of, rows_of};
ghost use Rattle.numa_script.specs.Machines.{entries_of, distance_of, frames_of, table_of};
ghost use Rattle.numa_script.specs.Machines.{distances_of, frames_at, flat_distance, flat_row};
ghost use Rattle.numa_script.specs.Machines.{frames_for, distances_for, has_kernel_orders};
ghost use Rattle.numa_script.specs.Machines.{behind_kernel, written_distances};

use crate::number::{distance, small_item};
use crate::parts::{items, rows};
use numa_mask::NodeMask;
use std::alloc::{AllocError, Global};
use std::marker::Model;

/// The frames of a machine's nodes, as a word: decimal numbers below 2^32, separated by commas.
#[derive(Drop)]
pub struct Frames<'a> {
    word: &'a [u8],
}

impl<'a> Model for Frames<'a> {
    ghost use Rattle.std.specs.Prelude.{ℕ, List, map, unwrap_or};
    ghost use Rattle.numa_script.specs.Numbers.{item_of};
    ghost use Rattle.numa_script.specs.Parts.{items_of};

    ghost Value = { List ℕ };

    ghost view = { λ a. map (λ item. unwrap_or (item_of item) 0) (items_of a.word.now) };
}

/// A distance table, as a word: rows separated by semicolons, of decimal numbers up to 255,
/// separated by commas.
#[derive(Drop)]
pub struct Entries<'a> {
    word: &'a [u8],
}

impl<'a> Model for Entries<'a> {
    ghost use Rattle.std.specs.Prelude.{ℕ, List, map, unwrap_or};
    ghost use Rattle.std.specs.List.{flat_map};
    ghost use Rattle.numa_script.specs.Numbers.{item_of, below};
    ghost use Rattle.numa_script.specs.Parts.{items_of, rows_of};

    ghost Value = { List ℕ };

    ghost view = { λ a. map (λ item. unwrap_or (below 256 (item_of item)) 0)
        (flat_map items_of (rows_of a.word.now)) };
}

/// The distances of a machine's nodes, as a word.
#[derive(Drop)]
pub enum Distances<'a> {
    /// `flat`: 10 from a node to itself and 20 to every other.
    Flat,
    /// The entries of the distance table, row by row.
    Table(Entries<'a>),
}

/// Whether each item is a number.
fn are_numbers(word: &[u8]) -> bool
    ensures { result ≡ list_all (λ item. is_some (item_of item)) (items_of word.now) }
{
    items(word).all(|item| small_item(item).is_some())
}

impl<'a> Frames<'a> {
    /// The frames of a word, if each item is a number.
    #[tactic(auto, using(crate::proofs::Eaches::each_known, crate::proofs::Eaches::each_missing))]
    pub fn read(word: &'a [u8]) -> Option<Frames<'a>>
        ensures { result ≡ frames_of word.now }
    {
        are_numbers(word).then_some(Frames { word })
    }

    /// The frames of each of `nodes` nodes. A single number is for each node with memory, and
    /// others have none; several are for the nodes in order, as many as were written.
    ///
    /// # Errors
    /// `AllocError`: out of memory.
    pub fn for_nodes(
        &self,
        alloc: Global,
        nodes: u32,
        memory: &NodeMask,
    ) -> Result<Vec<u32>, AllocError>
        requires { nodes ≤ 256 }
        ensures { IfOk result (λ v. v.items ≡ frames_for nodes memory.now self.now) }
    {
        match items(self.word).only() {
            Some(item) => frames_with_memory(alloc, nodes, memory, small_item(item).unwrap_or(0)),
            None => self.numbers(alloc),
        }
    }

    /// The numbers in order.
    fn numbers(&self, alloc: Global) -> Result<Vec<u32>, AllocError>
        ensures { IfOk result (λ v. v.items ≡ self.now) }
    {
        items(self.word)
            .map(|item| small_item(item).unwrap_or(0))
            .collect(alloc)
    }
}

/// `frames` frames for each node with memory, and none for others.
#[tactic(auto, using(crate::proofs::Eaches::row_more))]
fn frames_with_memory(
    alloc: Global,
    nodes: u32,
    memory: &NodeMask,
    frames: u32,
) -> Result<Vec<u32>, AllocError>
    requires { nodes ≤ 256 }
    ensures { IfOk result (λ v. v.items
        ≡ map (frames_at memory.now frames) (range_with_len 0 nodes)) }
{
    let mut each = Vec::new(alloc);
    for node in 0..nodes {
        each.push(frames_at(memory, frames, node as u8))?;
    }
    Ok(each)
}

/// The frames of a node, if each node with memory has `frames`.
fn frames_at(memory: &NodeMask, frames: u32, node: u8) -> u32
    ensures { result ≡ frames_at memory.now frames node }
{
    if memory.has(node) { frames } else { 0 }
}

/// Whether each item of a row is a distance.
fn is_row(row: &[u8]) -> bool
    ensures { result ≡ list_all (λ item. is_some (distance_of item)) (items_of row.now) }
{
    items(row).all(|item| distance(item).is_some())
}

/// Whether each item of a table is a distance.
fn is_table(word: &[u8]) -> bool
    ensures { result ≡ list_all (λ row. list_all (λ item. is_some (distance_of item))
        (items_of row)) (rows_of word.now) }
{
    rows(word).all(|row| is_row(row))
}

/// Appends the entries of a row.
fn add_row(table: &mut Vec<u8>, row: &[u8]) -> Result<(), AllocError>
    ensures { OnOk result (table.new.items
        ≡ table.old.items ++ map (λ item. unwrap_or (distance_of item) 0) (items_of row.now)) }
{
    for item in items(row) {
        table.push(distance(item).unwrap_or(0))?;
    }
    Ok(())
}

impl<'a> Entries<'a> {
    /// The entries of a word, if each item is a distance.
    #[tactic(auto, using(crate::proofs::Eaches::table_known, crate::proofs::Eaches::table_missing))]
    pub fn read(word: &'a [u8]) -> Option<Entries<'a>>
        ensures { result ≡ table_of word.now }
    {
        is_table(word).then_some(Entries { word })
    }

    /// The entries in order.
    fn numbers(&self, alloc: Global) -> Result<Vec<u8>, AllocError>
        ensures { IfOk result (λ v. v.items ≡ self.now) }
    {
        let mut table = Vec::new(alloc);
        for row in rows(self.word) {
            add_row(&mut table, row)?;
        }
        Ok(table)
    }
}

/// The prefix of a word of distances for the fallback orders that a kernel builds.
const KERNEL: &[u8] = b"kernel:";

/// Whether a word of distances begins with `kernel:`, so that fallback orders are those that a
/// kernel builds.
pub(crate) fn has_kernel_orders(word: &[u8]) -> bool
    ensures { result ≡ has_kernel_orders word.now }
{
    word.starts_with(KERNEL)
}

/// A word of distances without the prefix `kernel:`, if it has one.
fn behind_kernel(word: &[u8]) -> &[u8]
    ensures { result.now ≡ behind_kernel word.now }
{
    match word.strip_prefix(KERNEL) {
        Some(written) => written,
        None => word,
    }
}

impl<'a> Distances<'a> {
    /// The distances of a word, after the prefix `kernel:`, if it has one: `flat`, or a table in
    /// which each item is a distance.
    #[tactic(auto, unfolding(crate::specs::Machines::distances_of))]
    pub fn read(word: &'a [u8]) -> Option<Distances<'a>>
        ensures { result ≡ distances_of word.now }
    {
        Distances::written(behind_kernel(word))
    }

    /// The distances of a word: `flat`, or a table in which each item is a distance.
    fn written(word: &'a [u8]) -> Option<Distances<'a>>
        ensures { result ≡ written_distances word.now }
    {
        if word == b"flat".as_slice() {
            return Some(Distances::Flat);
        }
        Some(Distances::Table(Entries::read(word)?))
    }

    /// The entries of the distance table of `nodes` nodes, row by row: `flat` makes one for each
    /// two nodes, and a table is as it was written, whatever the number of nodes.
    ///
    /// # Errors
    /// `AllocError`: out of memory.
    pub fn for_nodes(&self, alloc: Global, nodes: u32) -> Result<Vec<u8>, AllocError>
        requires { nodes ≤ 256 }
        ensures { IfOk result (λ v. v.items ≡ distances_for nodes self.now) }
    {
        match self {
            Distances::Flat => flat_table(alloc, nodes),
            Distances::Table(entries) => entries.numbers(alloc),
        }
    }
}

/// The distance between two nodes if all are equally far apart.
fn flat_distance(from: u32, to: u32) -> u8
    ensures { result ≡ flat_distance from to }
{
    if from == to { 10 } else { 20 }
}

/// Appends the row of a node: 10 to itself and 20 to every other.
#[tactic(auto, using(crate::proofs::Eaches::row_more))]
fn add_flat_row(table: &mut Vec<u8>, nodes: u32, from: u32) -> Result<(), AllocError>
    ensures { OnOk result (table.new.items ≡ table.old.items ++ flat_row nodes from) }
{
    for to in 0..nodes {
        table.push(flat_distance(from, to))?;
    }
    Ok(())
}

/// The table in which each node is at distance 10 from itself and 20 from every other.
#[tactic(auto, using(crate::proofs::Eaches::table_more))]
fn flat_table(alloc: Global, nodes: u32) -> Result<Vec<u8>, AllocError>
    ensures { IfOk result (λ v. v.items ≡ flat_map (flat_row nodes) (range_with_len 0 nodes)) }
{
    let mut table = Vec::new(alloc);
    for from in 0..nodes {
        add_flat_row(&mut table, nodes, from)?;
    }
    Ok(table)
}
