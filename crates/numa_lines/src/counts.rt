//! How many answers of worked scripts were compared.
ghost use Rattle.std.specs.Prelude.{◌≡◌, ◌↔◌, IsTrue};
ghost use Rattle.numa_lines.specs.Counts.{one_more};

/// How many lines of answers were compared; a long answer has several. Counts stop at 2^64 - 1.
#[derive(Clone, Copy)]
pub struct Counts {
    /// As expected.
    pub same: u64,
    /// Not as expected, expected but missing, beyond what was expected, or an error in answer to a
    /// line for which the worked script expects nothing.
    pub different: u64,
    /// Answers other than errors to script lines for which the worked script expects nothing.
    pub uncompared: u64,
    /// Worked scripts that expect no answer.
    pub idle: u64,
}

/// Counts one more.
pub(crate) fn add_one(count: &mut u64)
    ensures { count.new ≡ one_more count.old }
{
    *count = count.saturating_add(1);
}

impl Counts {
    /// All counts are 0.
    pub fn new() -> Counts
        ensures { result ≡ record { same = 0; different = 0; uncompared = 0; idle = 0 } }
    {
        Counts {
            same: 0,
            different: 0,
            uncompared: 0,
            idle: 0,
        }
    }

    /// Whether each worked script expects an answer, and all that were compared are as expected.
    pub fn are_as_wanted(&self) -> bool
        ensures { IsTrue result ↔ ((self.now.different ≡ 0) × (self.now.idle ≡ 0)) }
    {
        self.different == 0 && self.idle == 0
    }
}
