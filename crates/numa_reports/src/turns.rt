//! Filling many periods of pages at once.
//!
//! The fallback lists of a range's pages repeat after a period. If each node has more free pages
//! than some periods take of it, all these periods take the same, since none of their pages finds a
//! node without a free page.
ghost use Rattle.std.specs.Prelude.{◌≡◌, ◌-◌, ◌*◌, ◌≤◌, length};
ghost use Rattle.numa_reports.specs.Turns.{AllLast, AreLeftBehind, Lasts};

/// The number of further times, at most `most`, that a node can give as many pages as it gave of
/// `before` free ones, and have one left.
fn times_left(before: u64, after: u64, most: u64) -> u64
    ensures few { result ≤ most }
    ensures lasts { Lasts before after result }
{
    let took = before.saturating_sub(after);
    if took == 0 {
        return most;
    }
    most.min(after.saturating_sub(1) / took)
}

/// The number of further times, at most `most`, that all nodes can.
pub(crate) fn all_times_left(before: &[u64; 256], after: &[u64; 256], most: u64) -> u64
    ensures few { result ≤ most }
    ensures last { AllLast before.now after.now result }
{
    let mut times = most;
    for node in 0..256 {
        times = times_left(before[node], after[node], times);
    }
    times
}

/// The number of free pages of a node after `times` further times.
fn left_behind(before: u64, after: u64, times: u64) -> u64
    requires { Lasts before after times }
    ensures { result ≡ after - times * (before - after) }
{
    after - times * before.saturating_sub(after)
}

/// The number of free pages of each node after `times` further times.
pub(crate) fn all_left_behind(before: &[u64; 256], after: &[u64; 256], times: u64) -> [u64; 256]
    requires { AllLast before.now after.now times }
    ensures left { AreLeftBehind before.now after.now times result }
    ensures sized { length result ≡ 256 }
{
    let mut left = [0u64; 256];
    for node in 0..256 {
        left[node] = left_behind(before[node], after[node], times);
    }
    left
}
