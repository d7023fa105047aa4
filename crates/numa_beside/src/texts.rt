//! The names of areas in an answer as text: behind each line that begins with a range, or is
//! about the pages that it explains.

use crate::naming::{Naming, PutLine, PutName, put_names};
use crate::ranges::{process_in, range_of};
use numa_sheets::Written;

/// Names behind a line: `  # heap, stack`.
pub(crate) struct Behind;

impl PutLine for Behind {
    fn put_line(&self, naming: &mut Naming<'_>, line: &[u8]) {
        naming.text.put(line);
        if let Some(range) = range_of(line) {
            put_names(naming, range.start, range.end, self);
        }
        naming.process = process_in(line).or(naming.process);
    }
}

impl PutName for Behind {
    fn put_before(&self, text: &mut Written, is_first: bool) {
        text.put(if is_first { b"  # ".as_slice() } else { b", " });
    }

    fn put_name(&self, text: &mut Written, name: &[u8]) -> bool {
        for byte in name {
            match byte {
                b' '..=b'~' => text.put(&[*byte]),
                _ => text.put(b"\xEF\xBF\xBD"),
            }
        }
        true
    }

    fn put_end(&self, _text: &mut Written) {}
}
