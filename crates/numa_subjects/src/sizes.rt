//! Whether an answer is about pages of 2 MiB.
ghost use Rattle.std.specs.Prelude.{◌≡◌};
ghost use Rattle.std.specs.List.{list_any};
ghost use Rattle.numa_machine.specs.Sizes.{is_part};
ghost use Rattle.numa_subjects.specs.Sizes.{has_parts};

use crate::subject::Subject;
use numa_host::Process;
use numa_machine::is_part;
use numa_space::Space;

/// Whether a range has pages of 2 MiB.
fn has_huge(space: &Space) -> bool
    ensures { result ≡ list_any (λ range. is_part range.index) space.now.ranges }
{
    for range in space.range_iter() {
        if is_part(range.index) {
            return true;
        }
    }
    false
}

/// Whether one of some processes has mapped such pages.
fn one_has_huge(processes: &[Process]) -> bool
    ensures { result ≡ list_any has_parts processes.now }
{
    processes.iter().any(|process| has_huge(&process.space))
}

/// Whether what an answer is about has mapped pages of 2 MiB.
pub fn maps_huge(subject: Subject<'_>) -> bool {
    match subject {
        Subject::One(space, _) => has_huge(space),
        Subject::Each(host) => one_has_huge(host.processes()),
    }
}
