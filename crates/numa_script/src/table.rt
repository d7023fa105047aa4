//! Looking words up in tables.
ghost use Rattle.std.specs.Prelude.{◌≡◌, ℕ, List, Option, map};
ghost use Rattle.numa_script.specs.Tables.{meaning_of};

/// The meaning of a word in the table: that of the first matching entry.
pub(crate) fn meaning<T: Copy>(table: &[(&[u8], T)], word: &[u8]) -> Option<T>
    ensures { result ≡ meaning_of (map (λ entry. (entry.0.now, entry.1)) table.now) word.now }
{
    for (name, meaning) in table {
        if word == *name {
            return Some(*meaning);
        }
    }
    None
}
