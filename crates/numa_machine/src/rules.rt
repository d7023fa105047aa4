//! Whose rules a machine follows.
ghost use Rattle.std.specs.Prelude.{◌≡◌};
ghost use Rattle.numa_machine.specs.Rules.{is_linux};

/// Whose rules apply where Linux's documents and its kernel differ (docs/KERNEL.md).
#[derive(Clone, Copy, Debug, PartialEq, Eq)]
pub enum Rules {
    /// Those of the documents: the manual pages and the kernel's administration guide.
    Document,
    /// Those of the running kernel, 6.1 to 6.12.
    Linux,
}

impl Rules {
    /// Whether these are the rules of the running kernel.
    pub fn is_linux(self) -> bool
        ensures { result ≡ is_linux self }
    {
        match self {
            Rules::Document => false,
            Rules::Linux => true,
        }
    }
}
