//! JSON objects, with their members in the order of their names.

use crate::bytes_text::text_of;
use crate::items::Items;
use serde_json::{Map, ToValue, Value, put};
use std::alloc::{AllocError, Global};

/// An object that is built member by member. After it ran out of memory nothing more is added.
#[derive(Drop)]
pub struct Object {
    alloc: Global,
    members: Map<String, Value>,
    lacks_memory: bool,
}

impl Object {
    /// An object without members.
    pub fn new(alloc: Global) -> Object {
        Object {
            alloc,
            members: Map::new(alloc),
            lacks_memory: false,
        }
    }

    /// Its allocator.
    pub fn alloc(&self) -> Global {
        self.alloc
    }

    /// Adds a member, unless its value is an error.
    pub fn put(&mut self, name: &str, value: Result<Value, AllocError>) {
        if self.lacks_memory {
            return;
        }
        match value {
            Ok(value) => {
                self.lacks_memory = put(&mut self.members, self.alloc, name, value).is_err();
            }
            Err(_) => self.lacks_memory = true,
        }
    }

    /// Adds a number.
    pub fn put_number(&mut self, name: &str, number: u64) {
        self.put(name, Ok(Value::from(number)));
    }

    /// Adds a text.
    pub fn put_text(&mut self, name: &str, text: &str) {
        self.put(name, text.to_value(self.alloc));
    }

    /// Adds a text, or `null` if there is none.
    pub fn put_if_text(&mut self, name: &str, text: Option<&str>) {
        match text {
            Some(text) => self.put_text(name, text),
            None => self.put(name, Ok(Value::Null)),
        }
    }

    /// Adds a text of bytes, as [`text_of`] makes it.
    pub fn put_bytes(&mut self, name: &str, bytes: &[u8]) {
        match text_of(self.alloc, bytes) {
            Ok(text) => self.put_text(name, text.as_str()),
            Err(_) => self.lacks_memory = true,
        }
    }

    /// Adds `true` or `false`.
    pub fn put_flag(&mut self, name: &str, flag: bool) {
        self.put(name, Ok(Value::from(flag)));
    }

    /// Adds a list.
    pub fn put_items(&mut self, name: &str, items: Items) {
        self.put(name, items.made());
    }

    /// Adds an object.
    pub fn put_object(&mut self, name: &str, object: Object) {
        self.put(name, object.made());
    }

    /// Returns the object, if there was memory for all its members.
    ///
    /// # Errors
    /// `AllocError`: out of memory, now or when a member was added.
    pub fn made(self) -> Result<Value, AllocError> {
        if self.lacks_memory {
            return Err(AllocError);
        }
        Ok(Value::Object(self.members))
    }

    /// Appends the object as a line, if there was memory for all its members.
    ///
    /// # Errors
    /// `AllocError`: out of memory, now or when a member was added. A part may have been appended.
    pub fn say_line(self, text: &mut Vec<u8>) -> Result<(), AllocError> {
        let alloc = self.alloc;
        let value = self.made()?;
        let line = value.to_vec(alloc)?;
        text.extend_from_slice(line.as_slice())?;
        text.extend_from_slice(b"\n")
    }
}
