//! A law on receipts of one desk, whether from the desk, a publish, or a view.
ghost use Rattle.std.specs.Prelude.{◌≡◌, ◌≤◌, length};
ghost use Rattle.numa_publish.specs.Batches.{Extends};

use crate::receipt::Receipt;

/// Equal version numbers mean equal lists. Of two receipts of one desk, the one with the higher
/// version has the other's commands and versions behind its newer ones: so what one of them shows
/// was published before what the other shows. Receipts of one version show the same commands and
/// the same versions. It does nothing at run time.
pub fn equal_versions_agree(one: &Receipt, other: &Receipt)
    requires { other.now.desk ≡ one.now.desk }
    ensures begins { length other.now.history ≤ length one.now.history
        → Extends other.now.history one.now.history
        × Extends other.now.versions one.now.versions }
    ensures same { length other.now.history ≡ length one.now.history
        → (other.now.history ≡ one.now.history) × (other.now.versions ≡ one.now.versions) }
{
    let mut both = one.front.again();
    both.learn(&other.front);
}
