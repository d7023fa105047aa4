//! The mean distance of accesses.
ghost use Rattle.std.specs.Prelude.{◌≡◌, ◌≤◌, ◌+◌, ◌*◌, ◌^◌, length, sum};
ghost use Rattle.numa_traces.specs.Means.{MeanOf, all_far};

/// A number of accesses, and the sum of their distances.
#[derive(Clone, Copy)]
struct Far {
    accesses: u128,
    all: u128,
}

/// With so many more accesses at a distance.
#[tactic(auto, using(crate::proofs::Farther::near_by))]
fn farther(far: Far, distance: u8, count: u64) -> Far
    requires few { far.accesses ≤ 255 * 2 ^ 64 }
    requires near { far.all ≤ 255 * far.accesses }
    ensures accesses { result.accesses ≡ far.accesses + count }
    ensures all { result.all ≡ far.all + distance * count }
    ensures few { result.accesses ≤ far.accesses + 2 ^ 64 }
    ensures near { result.all ≤ 255 * result.accesses }
{
    let count = u128::from(count);
    let more = u128::from(distance) * count;
    Far {
        accesses: far.accesses + count,
        all: far.all + more,
    }
}

/// The accesses of which so many are at each distance, from 0 on, and the sum of their distances.
fn far_of(counts: &[u64]) -> Far
    requires { length counts.now ≤ 256 }
    ensures accesses { result.accesses ≡ sum counts.now }
    ensures all { result.all ≡ all_far counts.now }
    ensures few { result.accesses ≤ 256 * 2 ^ 64 }
    ensures near { result.all ≤ 255 * result.accesses }
{
    let mut far = Far {
        accesses: 0,
        all: 0,
    };
    let mut distance = 0usize;
    for count in counts {
        far = farther(far, distance as u8, *count);
        distance += 1;
    }
    far
}

/// The mean distance of accesses, of which so many are at each from 0 on, in thousandths: rounded,
/// a half up. `None` without accesses.
#[tactic(auto, using(crate::proofs::Farther::mean_below, crate::proofs::Farther::mean_is))]
pub(crate) fn mean_of(counts: &[u64]) -> Option<u64>
    requires { length counts.now ≤ 256 }
    ensures { MeanOf counts.now result }
{
    let far = far_of(counts);
    if far.accesses == 0 {
        return None;
    }
    let mean = (2000 * far.all + far.accesses) / (2 * far.accesses);
    Some(mean as u64)
}
