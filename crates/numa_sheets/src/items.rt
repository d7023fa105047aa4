//! JSON lists.

use crate::bytes_text::text_of;
use crate::object::Object;
use numa_mask::Parts;
use serde_json::{ToValue, Value};
use std::alloc::{AllocError, Global};

/// A list that is built item by item. After it ran out of memory nothing more is added.
#[derive(Drop)]
pub struct Items {
    alloc: Global,
    items: Vec<Value>,
    lacks_memory: bool,
}

impl Items {
    /// A list without items.
    pub fn new(alloc: Global) -> Items {
        Items {
            alloc,
            items: Vec::new(alloc),
            lacks_memory: false,
        }
    }

    /// Its allocator.
    pub fn alloc(&self) -> Global {
        self.alloc
    }

    /// Adds an item, unless it is an error.
    fn push(&mut self, item: Result<Value, AllocError>) {
        if self.lacks_memory {
            return;
        }
        match item {
            Ok(item) => self.lacks_memory = self.items.push(item).is_err(),
            Err(_) => self.lacks_memory = true,
        }
    }

    /// Adds a number.
    pub fn push_number(&mut self, number: u64) {
        self.push(Ok(Value::from(number)));
    }

    /// Adds a text.
    pub fn push_text(&mut self, text: &str) {
        self.push(text.to_value(self.alloc));
    }

    /// Adds a text of bytes; U+FFFD stands for each that isn't ASCII, if they aren't UTF-8.
    fn push_bytes(&mut self, bytes: &[u8]) {
        match text_of(self.alloc, bytes) {
            Ok(text) => self.push_text(text.as_str()),
            Err(_) => self.lacks_memory = true,
        }
    }

    /// Adds each line of a text, which ends with a line feed or is empty.
    pub fn push_lines(&mut self, text: &[u8]) {
        let Some((_, lines)) = text.split_last() else {
            return;
        };
        for line in Parts::new(lines, b'\n') {
            self.push_bytes(line);
        }
    }

    /// Adds a list.
    pub fn push_items(&mut self, items: Items) {
        self.push(items.made());
    }

    /// Adds an object.
    pub fn push_object(&mut self, object: Object) {
        self.push(object.made());
    }

    /// Returns the list, if there was memory for all its items.
    ///
    /// # Errors
    /// `AllocError`: out of memory, now or when an item was added.
    pub fn made(self) -> Result<Value, AllocError> {
        if self.lacks_memory {
            return Err(AllocError);
        }
        Ok(Value::from(self.items))
    }
}
