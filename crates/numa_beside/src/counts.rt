//! Pages by node in the lines of `predict` and of `moves`.

use crate::ranges::number_in;
use numa_mask::Parts;

/// The pages of 4 KiB of one of 2 MiB.
const PARTS: u64 = 512;

/// What a line counts, in pages of 4 KiB: those that are, or come to be, on each node, and those
/// without room.
#[derive(Clone, Copy)]
pub(crate) struct Counts {
    pub(crate) nodes: [u64; 256],
    pub(crate) lacking: u64,
    pub(crate) pages: u64,
    // Whether the line counts any, and whether the next words name pages without room.
    is_counted: bool,
    is_lacking: bool,
}

/// The node that a word `N0=7`, or behind the arrow `N2->N0=7`, counts pages of, and how many.
fn pages_in(word: &[u8]) -> Option<(u64, u64)> {
    let mut parts = Parts::new(word.strip_prefix(b"N")?, b'=');
    let node = last_node(parts.next()?)?;
    let pages = number_in(parts.next()?)?;
    Some((node, pages))
}

/// The node behind an arrow, or else the node itself: `2->N0`, `0`.
fn last_node(text: &[u8]) -> Option<u64> {
    let mut node = None;
    for part in Parts::new(text, b'>') {
        node = number_in(part.strip_prefix(b"N").unwrap_or(part));
    }
    node
}

impl Counts {
    /// No pages.
    fn none() -> Counts {
        Counts {
            nodes: [0; 256],
            lacking: 0,
            pages: 0,
            is_counted: false,
            is_lacking: false,
        }
    }

    /// Adds pages of a node, or without room.
    fn add(&mut self, node: u64, pages: u64) {
        self.pages = self.pages.saturating_add(pages);
        if self.is_lacking {
            self.lacking = self.lacking.saturating_add(pages);
            return;
        }
        let place = (node % 256) as usize;
        self.nodes[place] = self.nodes[place].saturating_add(pages);
    }

    /// Takes the pages for such of 2 MiB.
    fn enlarge(&mut self) {
        for node in 0..256usize {
            self.nodes[node] = self.nodes[node].saturating_mul(PARTS);
        }
        self.lacking = self.lacking.saturating_mul(PARTS);
        self.pages = self.pages.saturating_mul(PARTS);
    }

    /// Reads a word.
    fn read(&mut self, word: &[u8]) {
        if word.starts_with(b"anon=") || word.starts_with(b"placed=") {
            self.is_counted = true;
        } else if word.starts_with(b"noroom=") {
            self.is_lacking = true;
        } else if word == b"kernelpagesize_kB=2048".as_slice() {
            self.enlarge();
        } else if let Some(lacking) = word.strip_prefix(b"exhausted=") {
            self.is_lacking = true;
            self.add(0, number_in(lacking).unwrap_or(0));
        } else if let Some((node, pages)) = pages_in(word) {
            self.add(node, pages);
        }
    }
}

/// What a line counts, if it counts pages. What stands behind a word `#` is no part of that.
pub(crate) fn counts_in(line: &[u8]) -> Option<Counts> {
    let mut counts = Counts::none();
    for word in Parts::new(line, b' ') {
        if word == b"#".as_slice() {
            break;
        }
        counts.read(word);
    }
    if counts.is_counted {
        return Some(counts);
    }
    None
}
