//! The parts of a line: its words, the items of a list, the rows of a table.
ghost use Rattle.std.specs.Prelude.{◌≡◌};
ghost use Rattle.numa_script.specs.Parts.{words_of, items_of, rows_of};

use numa_mask::Parts;

/// The words of a line, separated by single spaces: between two spaces in a row is an empty word.
pub fn words(line: &[u8]) -> Parts<'_>
    ensures { result ≡ words_of line.now }
{
    Parts::new(line, b' ')
}

/// The items of a list, separated by commas.
pub fn items(word: &[u8]) -> Parts<'_>
    ensures { result ≡ items_of word.now }
{
    Parts::new(word, b',')
}

/// The rows of a table, separated by semicolons.
pub fn rows(word: &[u8]) -> Parts<'_>
    ensures { result ≡ rows_of word.now }
{
    Parts::new(word, b';')
}
