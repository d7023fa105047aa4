//! Limits on the size of a space.
ghost use Rattle.std.specs.Prelude.{◌≡◌, ◌≤◌, ◌↔◌, IsSome, IfSome};

use std::marker::Model;

/// The most ranges, task policies and accepted commands of a space.
#[derive(Clone, Copy, Debug, PartialEq, Eq)]
pub struct Limits {
    max_ranges: u32,
    max_tasks: u32,
    max_commands: u32,
}

impl Model for Limits {
    ghost use Rattle.numa_requests.specs.Limited.{Bounds, AreBounds};

    ghost Value = { Bounds };

    ghost view = { λ a. a };

    ghost invariant = { AreBounds };

    ghost inverse = { λ b. b };
}

impl Limits {
    /// Limits of at most 65,536 ranges, 1,024 task policies and 4,294,967,295 commands; `None`
    /// above any of these.
    ///
    /// # Examples
    /// ```
    /// let limits = Limits::new(64, 8, 1_000)?;
    /// ```
    pub fn new(max_ranges: u32, max_tasks: u32, max_commands: u32) -> Option<Limits>
        ensures exists { IsSome result ↔ ((max_ranges ≤ 65536) × (max_tasks ≤ 1024)) }
        ensures value { IfSome result (λ limits. limits
            ≡ record {
              max_ranges = max_ranges;
              max_tasks = max_tasks;
              max_commands = max_commands;
            }) }
    {
        if max_ranges <= 65_536 && max_tasks <= 1_024 {
            Some(Limits {
                max_ranges,
                max_tasks,
                max_commands,
            })
        } else {
            None
        }
    }

    /// The most ranges.
    pub fn max_ranges(&self) -> u32
        ensures limit { result ≡ self.now.max_ranges }
        ensures at_most { result ≤ 65536 }
    {
        self.max_ranges
    }

    /// The most tasks with a policy.
    pub fn max_tasks(&self) -> u32
        ensures limit { result ≡ self.now.max_tasks }
        ensures at_most { result ≤ 1024 }
    {
        self.max_tasks
    }

    /// The most accepted commands.
    pub fn max_commands(&self) -> u32
        ensures limit { result ≡ self.now.max_commands }
    {
        self.max_commands
    }
}
