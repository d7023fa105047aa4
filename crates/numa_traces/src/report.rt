//! The report of a replay, as text or JSON.
use crate::form::ReplayForm;
use crate::moments::{Moment, TakeRoute, has_between, moment_before, take_between};
use crate::range_parts::RangesMet;
use crate::range_report::say_ranges;
use crate::records::{range_records_text, records_text};
use crate::summary::Summary;
use crate::tallies::{AccessCounts, Route};
use crate::telling::{Of, say_line, say_object};
use numa_machine::Machine;
use numa_sheets::{Format, Object, Written};
use std::alloc::{AllocError, Global};

/// The object with the text of a phase.
fn phase_text(alloc: Global, text: Option<&[u8]>) -> Result<Vec<u8>, AllocError> {
    let mut object = Object::new(alloc);
    match text {
        Some(text) => object.put_bytes("phase", text),
        None => object.put_if_text("phase", None),
    }
    match object.made() {
        Ok(value) => value.to_vec(alloc),
        Err(fault) => Err(fault),
    }
}

/// Begins the object of a phase.
fn begin_phase(written: &mut Written, text: Option<&[u8]>) {
    match phase_text(written.alloc(), text) {
        Ok(object) => {
            let object = object.as_slice();
            written.put(object.strip_suffix(b"}").unwrap_or(object));
            written.put(b",");
        }
        Err(_) => written.lack(),
    }
}

/// A report being written.
#[derive(Drop)]
struct Sheet<'a> {
    machine: &'a Machine,
    form: ReplayForm,
    // Whether accesses are told by task.
    by_task: bool,
    written: Written,
    // The task whose accesses are being added up, if there is one, and the text before its object.
    task: Option<u32>,
    before: &'static str,
    of_task: Summary,
    of_all: Summary,
}

impl TakeRoute for Sheet<'_> {
    fn take_route(&mut self, route: &Route, counts: &AccessCounts) {
        let (task, cpu, node) = *route;
        if self.by_task && self.task != Some(task) {
            self.end_task();
            self.task = Some(task);
            self.of_task = Summary::new();
        }
        let place = place_of(self.machine, cpu, node);
        self.of_task.add(place, counts);
        self.of_all.add(place, counts);
    }
}

impl<'a> Sheet<'a> {
    /// The state before the first phase.
    fn new(alloc: Global, machine: &'a Machine, form: ReplayForm, by_task: bool) -> Sheet<'a> {
        Sheet {
            machine,
            form,
            by_task,
            written: Written::new(alloc),
            task: None,
            before: "\n",
            of_task: Summary::new(),
            of_all: Summary::new(),
        }
    }

    /// Whether the report is of objects.
    fn has_objects(&self) -> bool {
        match self.form.format {
            Format::Json | Format::Html(_) => true,
            _ => false,
        }
    }

    /// Writes the task whose accesses were added up, if there is one.
    fn end_task(&mut self) {
        let Some(task) = self.task else {
            return;
        };
        let (has_objects, has_mean) = (self.has_objects(), self.form.has_mean);
        let written = &mut self.written;
        if has_objects {
            written.put(self.before.as_bytes());
            self.before = ",\n";
            say_object(written, Of::Task(task), &self.of_task, has_mean);
            return;
        }
        say_line(written, Of::Task(task), &self.of_task, has_mean);
    }

    /// Begins a phase, or all of them, before the first task.
    fn begin(&mut self) {
        self.task = None;
        self.before = "\n";
        self.of_all = Summary::new();
        if self.by_task && self.has_objects() {
            self.written.put(b"\"tasks\":[");
        }
    }

    /// Writes the total.
    fn end(&mut self) {
        self.end_task();
        let (has_objects, has_mean) = (self.has_objects(), self.form.has_mean);
        let written = &mut self.written;
        if !has_objects {
            say_line(written, Of::All, &self.of_all, has_mean);
            return;
        }
        if self.by_task {
            written.put(b"\n],");
        }
        written.put(b"\"total\":");
        say_object(written, Of::All, &self.of_all, has_mean);
    }

    /// Writes what was counted between two moments.
    fn say_between(&mut self, before: Option<&Moment<'_>>, after: &Moment<'_>) {
        self.begin();
        take_between(self, before, after);
        self.end();
    }

    /// Writes a phase, which follows so many others.
    fn say_phase(&mut self, number: usize, before: Option<&Moment<'_>>, after: &Moment<'_>) {
        if self.has_objects() {
            let written = &mut self.written;
            written.put(if number == 0 {
                b"\n"
            } else {
                b",\n".as_slice()
            });
            begin_phase(written, after.text);
            self.say_between(before, after);
            self.written.put(b"}");
            return;
        }
        match after.text {
            Some(text) => {
                self.written.put(b"phase ");
                self.written.put(text);
                self.written.put(b"\n");
            }
            None => self.written.put(b"after the last mark\n"),
        }
        self.say_between(before, after);
    }

    /// Writes the phases; of that which no mark closes only if something was counted in it.
    fn say_phases(&mut self, moments: &[Moment<'_>]) {
        for number in 0..moments.len() {
            let before = moment_before(moments, number);
            let after = &moments[number];
            if after.text.is_some() || has_between(before, after) {
                self.say_phase(number, before, after);
            }
        }
    }

    /// Writes what ranges met, if that is known.
    fn say_met(&mut self, met: Option<RangesMet<'_>>) {
        if let Some(met) = met {
            say_ranges(&mut self.written, self.machine, met, self.form);
        }
    }

    /// Writes the phases between these texts, if there are marks.
    fn say_marked(&mut self, moments: &[Moment<'_>], before: &[u8], behind: &[u8]) {
        if moments.len() > 1 {
            self.written.put(before);
            self.say_phases(moments);
            self.written.put(behind);
        }
    }

    /// Writes what was counted of one process: by phase, if there are marks, in all, and by range,
    /// if that is known.
    fn say(&mut self, moments: &[Moment<'_>], met: Option<RangesMet<'_>>) {
        let Some(last) = moments.last() else {
            return;
        };
        if self.has_objects() {
            self.written.put(b"{");
            self.say_marked(moments, b"\"phases\":[", b"\n],");
            self.say_between(None, last);
            self.say_met(met);
            self.written.put(b"}\n");
            return;
        }
        self.say_marked(moments, b"", b"all phases\n");
        self.say_between(None, last);
        self.say_met(met);
    }

    /// The same of all processes of a host. Objects go on with the members of one that has begun.
    fn say_all(&mut self, moments: &[Moment<'_>]) {
        let Some(last) = moments.last() else {
            return;
        };
        if self.has_objects() {
            self.say_between(None, last);
            self.say_marked(moments, b",\"phases\":[", b"\n]");
            return;
        }
        self.say_marked(moments, b"", b"all phases\n");
        self.say_between(None, last);
    }
}

/// The node of an access's page, and its distance from the CPU's node; the machine has both nodes.
pub(crate) fn place_of(machine: &Machine, cpu: u32, node: Option<u8>) -> Option<(u8, u8)> {
    let Some(node) = node else {
        return None;
    };
    let nodes = machine.nodes();
    if cpu < nodes && (node as u32) < nodes {
        return Some((node, machine.distance(cpu, node as u32)));
    }
    Some((node, 255))
}

/// The report of what was counted of one process, by phase where a trace has marks, by task and in
/// total: the accesses by the page's node and by its distance from the CPU's node, the faults that
/// placed a page and those that found no frame, and the accesses that therefore went nowhere, and
/// the mean distance if it is wanted; then by range, if `met` says it. As CSV it has a record for
/// each route of each phase, or of each range. The machine is that of the replay.
///
/// # Errors
/// `AllocError`: out of memory.
pub fn report_text(
    alloc: Global,
    machine: &Machine,
    moments: &[Moment<'_>],
    met: Option<RangesMet<'_>>,
    form: ReplayForm,
) -> Result<Vec<u8>, AllocError> {
    match (form.format, met) {
        (Format::Csv, Some(met)) => return range_records_text(alloc, machine, met),
        (Format::Csv, None) => return records_text(alloc, machine, moments),
        _ => (),
    }
    let mut sheet = Sheet::new(alloc, machine, form, true);
    sheet.say(moments, met);
    sheet.written.take()
}

/// The accesses of all processes of a host: by phase, where a trace has marks, and in all the sums
/// that [`report_text`] has in total, as lines, or as further members of an object. The machine is
/// that of the replay. CSV has no sums.
///
/// # Errors
/// `AllocError`: out of memory.
pub fn total_text(
    alloc: Global,
    machine: &Machine,
    moments: &[Moment<'_>],
    form: ReplayForm,
) -> Result<Vec<u8>, AllocError> {
    if let Format::Csv = form.format {
        return Ok(Vec::new(alloc));
    }
    let mut sheet = Sheet::new(alloc, machine, form, false);
    sheet.say_all(moments);
    sheet.written.take()
}
