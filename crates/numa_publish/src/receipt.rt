//! Receipts of published versions.
ghost use Rattle.std.specs.Prelude.{◌≡◌, length, slice_get, Some};
ghost use Rattle.numa_publish.specs.Batches.{history_of, versions_of};

use crate::ghosts::About;
use crate::log::Front;
use std::marker::Model;

/// What was published at one time. It has no bytes but the version, and can be sent to another
/// thread. A reader that learns it sees that version or a later one at its next look.
///
/// Contracts see its desk, the history that was published, and the versions published up to it.
/// `laws::equal_versions_agree` says what two receipts of one desk have in common.
#[derive(Drop)]
pub struct Receipt {
    pub(crate) front: Front,
    machine: About,
    version: u64,
}

impl Model for Receipt {
    ghost use Rattle.std.specs.Prelude.{◌≡◌, length};
    ghost use Rattle.numa_publish.specs.Shown.{ReceiptState};
    ghost use Rattle.numa_publish.specs.Batches.{history_of, versions_of};

    ghost Value = { ReceiptState };

    ghost view = { λ r. record {
      desk = record { book = r.front.book; machine = r.machine };
      history = history_of r.front.log;
      versions = versions_of r.front.log;
    } };

    ghost invariant = { λ r. r.version ≡ length (history_of r.front.log) };
}

impl Receipt {
    /// The receipt of this prefix of the log.
    pub(crate) fn new(front: &Front, machine: About, version: u64) -> Receipt
        requires { version ≡ length (history_of front.now.log) }
        ensures desk { result.desk ≡ record { book = front.now.book; machine = machine } }
        ensures history { result.history ≡ history_of front.now.log }
        ensures versions { result.versions ≡ versions_of front.now.log }
    {
        Receipt {
            front: front.again(),
            machine,
            version,
        }
    }

    /// The published version: the number of commands accepted up to it.
    pub fn version(&self) -> u64
        ensures length { result ≡ length self.now.history }
        ensures newest { slice_get self.now.versions 0 ≡ Some result }
    {
        self.version
    }
}
