//! Counting steps for contracts.
ghost use Rattle.std.specs.Prelude.{◌≡◌};
ghost use Rattle.numa_plan.specs.Counted.{no_steps, one_comparison, one_run, more_runs};
ghost use Rattle.numa_plan.specs.Counted.{one_rule};

use numa_ghost::Count;

/// A counter of steps: comparisons of a page with the first page of a run, written runs, and
/// written rules. It has no bytes, and only contracts can read it.
#[derive(Drop)]
pub struct Steps {
    comparisons: Count,
    runs: Count,
    rules: Count,
}

impl Steps {
    /// No steps.
    pub fn new() -> Steps
        ensures { result ≡ no_steps }
    {
        Steps {
            comparisons: Count::zero(),
            runs: Count::zero(),
            rules: Count::zero(),
        }
    }

    /// A page was compared with the first page of a run.
    pub(crate) fn compared(&mut self)
        ensures { self.new ≡ one_comparison self.old }
    {
        self.comparisons = self.comparisons.next();
    }

    /// A run was written.
    pub(crate) fn run_written(&mut self)
        ensures { self.new ≡ one_run self.old }
    {
        self.runs = self.runs.next();
    }

    /// `runs` runs were written.
    pub(crate) fn runs_written(&mut self, runs: usize)
        ensures { self.new ≡ more_runs runs self.old }
    {
        for _ in 0..runs {
            self.run_written();
        }
    }

    /// A rule was written.
    pub(crate) fn rule_written(&mut self)
        ensures { self.new ≡ one_rule self.old }
    {
        self.rules = self.rules.next();
    }
}
