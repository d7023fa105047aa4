//! Several readers, read as one.
ghost use Rattle.std.specs.Prelude.{◌≡◌, ◌++◌, false, option_to_list};
ghost use Rattle.std.specs.Vec.Iter.{into_iter_items};
ghost use Rattle.numa_lines.specs.Joined.{bytes_in_turn, joined_bytes};

use std::io;
use std::io::Read;
use std::vec::IntoIter;

/// Readers in turn, as one. If the bytes of a reader don't end with a line feed, one is added, by a
/// `read` that returns it alone.
#[derive(Drop)]
pub struct Joined<R> {
    reader: Option<R>,
    others: IntoIter<R>,
    // Whether the reader's last byte was other than a line feed.
    is_open: bool,
}

impl<R: Read + Drop> Joined<R> {
    /// Reads from the first reader next.
    pub fn new(readers: Vec<R>) -> Joined<R>
        ensures { joined_bytes R.remaining result ≡ bytes_in_turn R.remaining readers.items }
    {
        let mut others = readers.into_iter();
        let reader = others.next();
        Joined {
            reader,
            others,
            is_open: false,
        }
    }

    /// Moves to the next reader, and returns whether a line was open.
    fn go_on(&mut self) -> bool
        ensures others { into_iter_items self.old.others
            ≡ option_to_list self.new.reader ++ into_iter_items self.new.others }
        ensures was_open { result ≡ self.old.is_open }
        ensures bytes { joined_bytes R.remaining self.new
            ≡ bytes_in_turn R.remaining (into_iter_items self.old.others) }
    {
        let was_open = self.is_open;
        self.is_open = false;
        self.reader = self.others.next();
        was_open
    }
}

impl<R: Read + Drop> Read for Joined<R> {
    ghost remaining = { joined_bytes R.remaining };

    fn read(&mut self, buffer: &mut [u8]) -> io::Result<usize> {
        if buffer.is_empty() {
            return Ok(0);
        }
        while let Some(reader) = &mut self.reader {
            let count = reader.read(buffer)?;
            if count > 0 {
                self.is_open = buffer[count - 1] != b'\n';
                return Ok(count);
            }
            if self.go_on() {
                buffer[0] = b'\n';
                return Ok(1);
            }
        }
        Ok(0)
    }
}
