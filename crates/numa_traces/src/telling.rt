//! Summaries as lines and as objects.
use crate::range_parts::PageSpan;
use crate::summary::Summary;
use numa_sheets::{Object, Written};
use serde_json::Value;
use std::alloc::{AllocError, Global};
use std::num::nearest_u64_to_f64;

/// Writes the parts of a summary. After it ran out of memory nothing more is written.
trait Tell {
    /// Writes a number under its name.
    fn tell_number(&mut self, name: &str, number: u64);

    /// Writes each count that isn't 0, with its index: under the names of the list and of an entry,
    /// or in a format with both.
    fn tell_counts(&mut self, all: &str, one: &str, form: &[u8], counts: &[u64; 256]);

    /// Writes the mean distance, in thousandths, if there is one.
    fn tell_mean(&mut self, mean: Option<u64>);
}

/// Writes the summary of a task, or the total, with the mean distance or without.
fn tell_summary<T: Tell>(teller: &mut T, said: &Summary, has_mean: bool) {
    teller.tell_number("accesses", said.accesses);
    teller.tell_counts("nodes", "node", b" N$=$", &said.nodes);
    teller.tell_counts("distances", "distance", b" D$=$", &said.distances);
    if has_mean {
        teller.tell_mean(said.mean());
    }
    teller.tell_number("placed", said.placed);
    teller.tell_number("exhausted", said.exhausted);
    teller.tell_number("unserved", said.unserved);
}

impl Tell for Written {
    fn tell_number(&mut self, name: &str, number: u64) {
        self.put(b" ");
        self.put(name.as_bytes());
        self.put(b"=");
        self.put_number(number);
    }

    fn tell_counts(&mut self, _all: &str, _one: &str, form: &[u8], counts: &[u64; 256]) {
        for number in 0..256 {
            if counts[number] > 0 {
                self.put_form(form, &[number as u64, counts[number]]);
            }
        }
    }

    fn tell_mean(&mut self, mean: Option<u64>) {
        let Some(mean) = mean else {
            return;
        };
        let part = mean % 1000;
        let digits = [mean / 1000, part / 100, part / 10 % 10, part % 10];
        self.put_form(b" mean=$.$$$", &digits);
    }
}

/// A count, with its index under this name.
fn count_value(alloc: Global, name: &str, number: usize, count: u64) -> Result<Value, AllocError> {
    let mut object = Object::new(alloc);
    object.put_number(name, number as u64);
    object.put_number("accesses", count);
    object.made()
}

/// Appends each count that isn't 0, with its index under this name.
fn push_values(
    alloc: Global,
    items: &mut Vec<Value>,
    name: &str,
    counts: &[u64; 256],
) -> Result<(), AllocError> {
    for number in 0..256 {
        if counts[number] > 0 {
            items.push(count_value(alloc, name, number, counts[number])?)?;
        }
    }
    Ok(())
}

/// The counts that aren't 0, each with its index under this name.
fn count_values(alloc: Global, name: &str, counts: &[u64; 256]) -> Result<Value, AllocError> {
    let mut items = Vec::new(alloc);
    match push_values(alloc, &mut items, name, counts) {
        Ok(()) => Ok(Value::from(items)),
        Err(fault) => {
            drop(items);
            Err(fault)
        }
    }
}

impl Tell for Object {
    fn tell_number(&mut self, name: &str, number: u64) {
        self.put_number(name, number);
    }

    fn tell_counts(&mut self, all: &str, one: &str, _form: &[u8], counts: &[u64; 256]) {
        self.put(all, count_values(self.alloc(), one, counts));
    }

    fn tell_mean(&mut self, mean: Option<u64>) {
        let value = match mean {
            Some(mean) => Value::from(nearest_u64_to_f64(mean) / 1000.0),
            None => Value::Null,
        };
        self.put("mean", Ok(value));
    }
}

/// What a summary is of.
#[derive(Clone, Copy)]
pub(crate) enum Of {
    Task(u32),
    Range(PageSpan),
    All,
}

/// Adds the members that say what an object is of.
fn put_members(object: &mut Object, of: Of) {
    match of {
        Of::Task(task) => object.put_number("task", task as u64),
        Of::Range(span) => {
            let (start, end) = span.addresses();
            object.put_number("start", start);
            object.put_number("end", end);
        }
        Of::All => (),
    }
}

/// Writes what a line is of.
fn put_words(written: &mut Written, of: Of) {
    match of {
        Of::Task(task) => written.put_form(b"task $", &[task as u64]),
        Of::Range(span) => {
            let (start, end) = span.addresses();
            written.put(b"range ");
            written.put_addresses(start, end);
        }
        Of::All => written.put(b"total"),
    }
}

/// The object of a task or a range, or of the total.
fn summary_text(
    alloc: Global,
    of: Of,
    said: &Summary,
    has_mean: bool,
) -> Result<Vec<u8>, AllocError> {
    let mut object = Object::new(alloc);
    put_members(&mut object, of);
    tell_summary(&mut object, said, has_mean);
    match object.made() {
        Ok(value) => value.to_vec(alloc),
        Err(fault) => Err(fault),
    }
}

/// Writes the object of a task or a range, or of the total.
pub(crate) fn say_object(written: &mut Written, of: Of, said: &Summary, has_mean: bool) {
    match summary_text(written.alloc(), of, said, has_mean) {
        Ok(object) => written.put(object.as_slice()),
        Err(_) => written.lack(),
    }
}

/// Writes the line of a task or a range, or of the total.
pub(crate) fn say_line(written: &mut Written, of: Of, said: &Summary, has_mean: bool) {
    put_words(written, of);
    tell_summary(written, said, has_mean);
    written.put(b"\n");
}
