//! The counting kernels as they run, beside a plain tally: spans of every length to 257, and of
//! lengths past a block of 8,160 pages and past eight. What no script reaches: plans count by runs.
use crate::tests::same::same;
use numa_examples::{set_of, tallied};
use numa_lanes::{count_all, count_in, count_node};
use numa_mask::NodeMask;
use std::alloc::Global;
use std::process::Abort;

/// The longest span.
const LONGEST: usize = 65_536;

/// The nodes at both ends of each of four words of 64 nodes.
const BORDERS: [u8; 8] = [0, 63, 64, 127, 128, 191, 192, 255];

/// One node, two nodes that alternate, and the nodes at the ends of words in turn.
const MIXES: [[u8; 8]; 3] = [[191; 8], [3, 4, 3, 4, 3, 4, 3, 4], BORDERS];

/// The length at a place, of 262.
fn length_at(place: usize) -> usize {
    match place {
        0..=257 => place,
        258 => 1_024,
        259 => 8_160,
        260 => 8_193,
        _ => LONGEST,
    }
}

/// A span with these nodes in turn.
fn placed(rt: &impl Abort, alloc: Global, mix: [u8; 8]) -> Vec<u8> {
    let mut span = Vec::new(alloc);
    for page in 0..LONGEST {
        span.push(mix[page % 8]).expect(rt, "memory");
    }
    span
}

/// Of how many nodes a kernel counts other pages than these.
fn miscounted(span: &[u8], counts: &[u64; 256]) -> u32 {
    let mut all = [7u64; 256];
    count_all(span, &mut all);
    let mut wrong = 0u32;
    for number in 0..=255u8 {
        let wanted = counts[usize::from(number)];
        let found = (all[usize::from(number)], count_node(span, number));
        wrong = wrong.wrapping_add(u32::from(found != (wanted, wanted)));
    }
    wrong
}

/// How many pages are on the nodes at the ends of words.
fn sum_of_borders(counts: &[u64; 256]) -> u64 {
    let mut sum = 0u64;
    for number in BORDERS {
        sum = sum.wrapping_add(counts[usize::from(number)]);
    }
    sum
}

/// The kernels count the first pages of a span as the tally does.
fn expect_part(rt: &impl Abort, span: &[u8], length: usize, borders: &NodeMask) {
    let part = span.get(..length).expect(rt, "a long span");
    let counts = tallied(part);
    let found = (length, miscounted(part, &counts), count_in(part, borders));
    same(rt, &found, &(length, 0, sum_of_borders(&counts)));
}

#[test]
fn counts_of_every_length(rt: HostRuntime) {
    let borders = set_of(&BORDERS);
    for mix in MIXES {
        let span = placed(&rt, rt.alloc(), mix);
        for place in 0..262 {
            expect_part(&rt, &span, length_at(place), &borders);
        }
        drop(span);
    }
}
