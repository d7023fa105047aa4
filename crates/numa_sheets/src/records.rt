//! Tables as CSV: records that are written one by one.
use crate::Written;
use csv::{Writer, WriterBuilder};
use std::alloc::Global;

/// Records that are written one by one. After it ran out of memory no more are written.
#[derive(Drop)]
pub struct Records {
    writer: Writer<Vec<u8>>,
    lacks_memory: bool,
}

impl Records {
    /// No records.
    pub fn new(alloc: Global) -> Records {
        Records {
            writer: WriterBuilder::new().from_writer(Vec::new(alloc)),
            lacks_memory: false,
        }
    }

    /// Writes a record.
    pub fn put(&mut self, record: &[&[u8]]) {
        if !self.lacks_memory {
            self.lacks_memory = self.writer.write_fields(record).is_err();
        }
    }

    /// Appends the records to a text.
    pub fn end(self, text: &mut Written) {
        match self.writer.into_inner() {
            Ok(part) if !self.lacks_memory => text.put(part.as_slice()),
            _ => text.lack(),
        }
    }
}
