//! What a space answers, as a host's refusal.
ghost use Rattle.std.specs.Prelude.{◌≡◌};
ghost use Rattle.numa_requests.specs.HostErrors.{of_space};

use numa_requests::{HostRefusal, Refusal};

/// What a space answered, as a host's refusal: want of memory is one cause for both.
pub(crate) fn of_space(refusal: Refusal) -> HostRefusal
    ensures { result ≡ of_space refusal }
{
    match refusal {
        Refusal::NoMemory => HostRefusal::NoMemory,
        other => HostRefusal::OfSpace(other),
    }
}
