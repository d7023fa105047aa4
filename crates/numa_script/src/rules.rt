//! Rules as a word.
ghost use Rattle.std.specs.Prelude.{◌≡◌};
ghost use Rattle.numa_script.specs.Machines.{rules_of};

use numa_machine::Rules;

/// The rules that a word names: `document` or `linux`.
pub(crate) fn read_rules(word: &[u8]) -> Option<Rules>
    ensures { result ≡ rules_of word.now }
{
    if word == b"document".as_slice() {
        return Some(Rules::Document);
    }
    if word == b"linux".as_slice() {
        return Some(Rules::Linux);
    }
    None
}
