//! Whether a seat holds all taken frames at the end.
ghost use Rattle.std.specs.Prelude.{◌≡◌, ◌↔◌, ℕ, Bool, IsTrue, List, slice_index};
ghost use Rattle.numa_machine.specs.declared.frame.Frame.{Frame};
ghost use Rattle.numa_pool.specs.Frames.{held_on};
ghost use Rattle.numa_pool.specs.Seats.{Closes};

/// A closing seat holds all taken frames exactly if of each node as many frames are taken as it
/// holds.
pub fn alone_by_counts()
    ensures { (frames : List ℕ) (held : List Frame) (taken : List ℕ) (alone : Bool) →
        Closes frames held taken alone
        → IsTrue alone ↔ ((n : ℕ) → slice_index taken n ≡ held_on n held) }
{}
