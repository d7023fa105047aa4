//! Keeping the threads of a storm at one pace.
use crate::setting::POLICIES;
use numa_fault::Gate;
use std::sync::atomic::{AtomicU64, Ordering};
use std::thread;

/// The number of turns that a worker waits for the first requests of the others. In each turn it
/// gives its processor away, so a turn takes under a microsecond on an idle machine and many where
/// others want to run: without memory for a thread, all of these turns pass.
const FIRST_TURNS: u64 = 1_000_000;

/// The number of turns that workers and policies wait for each other.
const TURNS: u64 = 100_000;

/// The number of requests that begin from one policy to the next.
const STEP: u64 = 32;

/// More requests than a storm has.
const ALL_CALLED: u64 = 1 << 32;

/// Lets the first requests of all workers begin together. From then on it lets neither the workers
/// nor the policy thread run ahead, so that there are placements of many versions however the
/// threads are scheduled: policy n begins after 32 n + 16 requests have begun, and request i after
/// i / 32 policies. If one side waits in vain, the two continue independently: without memory for a
/// thread, one has to end before the other begins.
#[derive(Drop)]
pub struct Together {
    workers: u32,
    // A bit for each worker whose first request has begun.
    called: AtomicU64,
    // 1 once one of these ran out of turns.
    late: AtomicU64,
    // The number of requests that have begun.
    requests: AtomicU64,
    // The number of policies that have begun.
    policies: AtomicU64,
    // 1 once workers or policies waited in vain for the others.
    apart: AtomicU64,
}

/// Waits until the word is at least `least`, and returns whether that came before the turns ran
/// out.
fn wait_for(word: &AtomicU64, least: u64, turns: u64) -> bool {
    for _ in 0..turns {
        if word.load(Ordering::SeqCst) >= least {
            return true;
        }
        thread::yield_now();
    }
    false
}

impl Together {
    /// A gate for `workers` workers, at most 64.
    pub fn new(workers: u32) -> Together {
        Together {
            workers,
            called: AtomicU64::new(0),
            late: AtomicU64::new(0),
            requests: AtomicU64::new(0),
            policies: AtomicU64::new(0),
            apart: AtomicU64::new(0),
        }
    }

    /// The bits of all workers, the greatest value of their word.
    fn all(&self) -> u64 {
        1u64.wrapping_shl(self.workers).wrapping_sub(1)
    }

    /// Whether the first request of each worker has begun, and none of them ran out of turns.
    pub fn is_sound(&self) -> bool {
        self.called.load(Ordering::SeqCst) == self.all() && self.late.load(Ordering::SeqCst) == 0
    }

    /// Says that no request will begin any more, so that no policy waits for one. The crew may have
    /// been refused before any began.
    pub fn end(&self) {
        self.requests.store(ALL_CALLED, Ordering::SeqCst);
    }

    /// Waits for the other side, unless one side did so in vain before.
    fn keep_up(&self, word: &AtomicU64, least: u64) {
        if self.apart.load(Ordering::SeqCst) == 0 && !wait_for(word, least, TURNS) {
            self.apart.store(1, Ordering::SeqCst);
        }
    }

    /// To be called before policy number `place` is submitted.
    pub fn begin_policy(&self, place: u32) {
        self.keep_up(&self.requests, u64::from(place) * STEP + STEP / 2);
        self.policies.fetch_add(1, Ordering::SeqCst);
    }
}

impl Gate for Together {
    fn before(&self, request: usize) {
        self.requests.fetch_add(1, Ordering::SeqCst);
        if request < self.workers as usize {
            let own = 1u64.wrapping_shl(request as u32);
            self.called.fetch_or(own, Ordering::SeqCst);
            let is_late = self.late.load(Ordering::SeqCst) == 1;
            if !is_late && !wait_for(&self.called, self.all(), FIRST_TURNS) {
                self.late.store(1, Ordering::SeqCst);
            }
        }
        let begun = (request as u64 / STEP).min(u64::from(POLICIES));
        self.keep_up(&self.policies, begun);
    }

    fn after(&self, _request: usize) {}
}
