//! What a space shows, as a few numbers: made without memory, so that it can be told between the
//! marks too.
use numa_mode::Record;
use numa_space::Space;

/// A sum of what came before and one number more, in which their order counts (FNV-1a).
pub fn mixed(sum: u64, number: u64) -> u64 {
    (sum ^ number).wrapping_mul(0x0100_0000_01b3)
}

/// With a policy: its text, which has its nodes, and its home.
pub fn with_policy(sum: u64, policy: &Option<Record>) -> u64 {
    let Some(policy) = policy else {
        return mixed(sum, 1);
    };
    let mut all = sum;
    for letter in policy.policy_text().as_str().as_bytes() {
        all = mixed(all, u64::from(*letter));
    }
    match policy.home() {
        Some(home) => mixed(all, u64::from(home)),
        None => mixed(all, 256),
    }
}

/// The ranges, each with its pages, its index and its policy.
fn ranges_of(space: &Space) -> u64 {
    let mut sum = 0xcbf2_9ce4_8422_2325u64;
    for range in space.range_iter() {
        sum = mixed(mixed(mixed(sum, range.first), range.pages), range.index);
        sum = with_policy(sum, &range.value.policy());
    }
    sum
}

/// The tasks, each with its policy.
fn tasks_of(space: &Space) -> u64 {
    let mut sum = 0xcbf2_9ce4_8422_2325u64;
    for place in 0..space.task_count() {
        if let Some(held) = space.task_at(place) {
            sum = with_policy(mixed(sum, u64::from(held.0)), &Some(held.1));
        }
    }
    sum
}

/// The weights of the first four nodes.
fn weights_of(space: &Space) -> u64 {
    let mut sum = 0u64;
    for node in 0..4u32 {
        sum = mixed(sum, u64::from(space.weights().get(node)));
    }
    sum
}

/// The allowed nodes.
fn allowed_in(space: &Space) -> u64 {
    let mut sum = 0u64;
    for word in space.allowed().words() {
        sum = mixed(sum, word);
    }
    sum
}

/// What a space shows now: its version, how many ranges there are, and a sum of what they hold, of
/// its tasks, its weights and its allowed nodes.
pub fn shown(space: &Space) -> (u64, usize, u64) {
    let sum = mixed(ranges_of(space), tasks_of(space));
    let sum = mixed(mixed(sum, weights_of(space)), allowed_in(space));
    (space.version(), space.ranges(), sum)
}

/// The same as one sum.
pub fn summed(space: &Space) -> u64 {
    let (version, ranges, sum) = shown(space);
    mixed(mixed(sum, version), ranges as u64)
}
