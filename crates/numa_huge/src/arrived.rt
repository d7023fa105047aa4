//! What first touches of the pages of a span did.
ghost use Rattle.std.specs.Prelude.{◌<◌, ◌^◌, ℕ, Option, slice_index};
ghost use Rattle.numa_huge.specs.Huge.{HugeLying};
ghost use Rattle.numa_huge.specs.Moves.{HugeArrival, touch_from, with_given};
ghost use Rattle.numa_huge.specs.Tallies.{HasArrived};

/// What a task's first touches of the pages of 2 MiB of a span did.
#[derive(Clone, Copy, Drop)]
pub struct HugeArrived {
    /// The number of pages that went to a node.
    pub placed: u64,
    /// The number of pages that no node gave.
    pub exhausted: u64,
    /// By node, the number of pages that went there.
    pub on: [u64; 256],
}

impl HugeArrived {
    /// No page was touched yet.
    pub(crate) fn new() -> HugeArrived
        ensures { (huge : HugeLying) → HasArrived result (touch_from huge).arrived }
    {
        HugeArrived {
            placed: 0,
            exhausted: 0,
            on: [0; 256],
        }
    }

    /// One more page was touched, which a node gave, or none.
    pub(crate) fn count(&mut self, given: Option<u8>)
        requires placed { self.old.placed < 2 ^ 63 }
        requires exhausted { self.old.exhausted < 2 ^ 63 }
        requires on { (node : ℕ) → node < 256 → slice_index self.old.on node < 2 ^ 63 }
        ensures { (told : HugeArrival) → HasArrived self.old told
            → HasArrived self.new (with_given given told) }
    {
        let Some(node) = given else {
            self.exhausted += 1;
            return;
        };
        self.placed += 1;
        self.on[node as usize] += 1;
    }
}
