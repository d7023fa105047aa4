//! The ranges of a picture or a page: the largest by themselves, and the others summed.

use crate::sheet::fields::{RangeRow, placed_of};
use crate::sheet::largest::Largest;
use crate::sheet::nodes::{NodePages, list_nodes};
use crate::sheet::scale::scale_of;
use crate::sheet::{objects, pictures};
use numa_requests::PAGE_BYTES;
use numa_sheets::{Scale, Touch, Written};
use numa_space::Space;
use std::alloc::AllocError;

/// The ranges of a picture or a page.
#[derive(Clone, Copy)]
pub(crate) struct Drawing {
    // How many ranges are shown by themselves, and which.
    number: u32,
    largest: Largest,
    scale: Scale,
    // The number of ranges that were shown so far, and of the others, with their pages and the
    // number of those that go to each node.
    rows: u64,
    others: u64,
    pages: u64,
    counts: [u64; 256],
}

/// The number of rows of a picture of this many ranges, of which `number` have a row each.
fn row_count(ranges: usize, number: u32) -> u64 {
    let ranges = ranges as u64;
    let number = u64::from(number);
    if ranges > number {
        return number.saturating_add(1);
    }
    ranges
}

impl Drawing {
    /// Before the first range of these sizes, of which the largest `number` are shown by
    /// themselves.
    pub(crate) fn of(sizes: &[u64], number: u32) -> Drawing {
        let largest = Largest::of(sizes, number);
        Drawing {
            number,
            largest,
            scale: scale_of(sizes, largest),
            rows: 0,
            others: 0,
            pages: 0,
            counts: [0; 256],
        }
    }

    /// Begins a picture.
    pub(crate) fn put_head(&self, text: &mut Written, version: u64, touch: Touch, space: &Space) {
        let rows = row_count(space.ranges(), self.number);
        let nodes = space.machine().nodes() as usize;
        pictures::put_head(text, version, touch, rows, nodes, &self.scale);
    }

    /// Adds pages by node to those of the ranges that aren't shown by themselves.
    fn sum(&mut self, pages: u64, nodes: &[NodePages]) {
        self.others = self.others.saturating_add(1);
        self.pages = self.pages.saturating_add(pages);
        for one in nodes {
            let node = (one.node % 256) as usize;
            self.counts[node] = self.counts[node].saturating_add(one.pages);
        }
    }

    /// Whether the next range is shown by itself, as row number `self.rows`; else it is summed.
    fn shows(&mut self, row: RangeRow<'_>) -> bool {
        let pages = row.end.saturating_sub(row.start) / PAGE_BYTES;
        if !self.largest.takes(pages) {
            self.sum(pages, row.placed.nodes);
            return false;
        }
        self.rows = self.rows.saturating_add(1);
        true
    }

    /// Draws a range, or adds it to those that aren't drawn by themselves.
    pub(crate) fn put_range(&mut self, text: &mut Written, row: RangeRow<'_>, cells: &[u8]) {
        let before = self.rows;
        if self.shows(row) {
            let pages = row.end.saturating_sub(row.start) / PAGE_BYTES;
            pictures::put_range(text, before, row, cells, self.scale.width(pages));
        }
    }

    /// Writes a range as an object, or adds it to those that aren't written by themselves.
    pub(crate) fn put_object(&mut self, text: &mut Written, row: RangeRow<'_>) {
        let before = self.rows;
        if self.shows(row) {
            objects::put_range(text, row, before == 0);
        }
    }

    /// Draws the sum of the ranges that aren't drawn by themselves, if there are any, and returns
    /// how many rows there are. `fills` says whether pages that find no free page are counted; the
    /// list is written over.
    pub(crate) fn end(
        &mut self,
        text: &mut Written,
        listed: &mut Vec<NodePages>,
        fills: bool,
    ) -> Result<u64, AllocError> {
        if self.others == 0 {
            return Ok(self.rows);
        }
        list_nodes(listed, &self.counts)?;
        let placed = placed_of(listed, self.pages, fills);
        let width = self.scale.width(self.pages);
        pictures::put_rest(text, self.rows, self.others, placed, width);
        Ok(self.rows.saturating_add(1))
    }

    /// Writes the same sum as an object, if there are such ranges.
    pub(crate) fn end_objects(
        &mut self,
        text: &mut Written,
        listed: &mut Vec<NodePages>,
        fills: bool,
    ) -> Result<(), AllocError> {
        if self.others == 0 {
            return Ok(());
        }
        list_nodes(listed, &self.counts)?;
        let placed = placed_of(listed, self.pages, fills);
        objects::put_others(text, self.others, placed);
        Ok(())
    }
}
