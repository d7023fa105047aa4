//! The largest of several sizes.
use numa_space::Space;
use std::alloc::{AllocError, Global};

/// The largest of some sizes; of equal ones the first.
#[derive(Clone, Copy)]
pub struct Largest {
    // Sizes above this are among them, and of those that equal it so many more.
    least: u64,
    equals: u64,
}

/// The number of sizes above a bound.
fn above(sizes: &[u64], bound: u64) -> u64 {
    let mut count = 0u64;
    for size in sizes {
        if *size > bound {
            count = count.saturating_add(1);
        }
    }
    count
}

/// The least bound above which there are at most this many sizes.
fn bound_of(sizes: &[u64], number: u64) -> u64 {
    let mut low = 0u64;
    let mut high = u64::MAX;
    for _ in 0..64 {
        let middle = low.saturating_add(high.saturating_sub(low) / 2);
        if above(sizes, middle) <= number {
            high = middle;
        } else {
            low = middle.saturating_add(1);
        }
    }
    high
}

/// The pages of each range of a space.
///
/// # Errors
/// `AllocError`: out of memory.
pub(crate) fn sizes_of(alloc: Global, space: &Space) -> Result<Vec<u64>, AllocError> {
    let mut sizes = Vec::new(alloc);
    for range in space.range_iter() {
        sizes.push(range.pages)?;
    }
    Ok(sizes)
}

impl Largest {
    /// The largest `number` of these sizes.
    pub fn of(sizes: &[u64], number: u32) -> Largest {
        let number = u64::from(number);
        let least = bound_of(sizes, number);
        Largest {
            least,
            equals: number.saturating_sub(above(sizes, least)),
        }
    }

    /// The largest `number` of a space's ranges.
    ///
    /// # Errors
    /// `AllocError`: out of memory.
    pub fn of_ranges(alloc: Global, space: &Space, number: u32) -> Result<Largest, AllocError> {
        let sizes = sizes_of(alloc, space)?;
        Ok(Largest::of(sizes.as_slice(), number))
    }

    /// Whether the next size is among them; each is asked for once, in their order.
    pub fn takes(&mut self, size: u64) -> bool {
        if size == self.least && self.equals > 0 {
            self.equals -= 1;
            return true;
        }
        size > self.least
    }
}
