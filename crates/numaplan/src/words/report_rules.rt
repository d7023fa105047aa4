//! Which range goes by which rule, as text: each rule, and below it its ranges with their pages.
use numa_host::Host;
use numa_host_script::HostScript;
use numa_lines::RunFault;
use numa_mask::Parts;
use numa_questions::AskedPages;
use numa_reports::Largest;
use numa_sheets::{Format, LISTED, Touch, Written};
use numa_space::Space;
use numa_subjects::{Halt, Subject};
use numa_words::{ExplainAsked, explanation};
use std::alloc::{AllocError, Global};

/// A range, and the process of a host that has mapped it, if it is one's.
#[derive(Clone, Copy)]
pub struct RangeOf {
    pub process: Option<u32>,
    pub first: u64,
    pub pages: u64,
}

/// Adds the ranges of a space.
fn add_ranges(
    space: &Space,
    process: Option<u32>,
    ranges: &mut Vec<RangeOf>,
) -> Result<(), AllocError> {
    for range in space.range_iter() {
        ranges.push(RangeOf {
            process,
            first: range.first,
            pages: range.pages,
        })?;
    }
    Ok(())
}

/// Adds those of all processes.
fn add_all_ranges(host: &Host, ranges: &mut Vec<RangeOf>) -> Result<(), AllocError> {
    for process in host.processes() {
        add_ranges(&process.space, Some(process.id), ranges)?;
    }
    Ok(())
}

/// The ranges of what is told of, in the order in which answers tell of them. `process` is the one
/// of a host that is asked about, if not all are.
///
/// # Errors
/// `AllocError`: out of memory.
pub fn ranges_of(
    alloc: Global,
    subject: Subject<'_>,
    process: Option<u32>,
) -> Result<Vec<RangeOf>, AllocError> {
    let mut ranges = Vec::new(alloc);
    match subject {
        Subject::One(space, _) => add_ranges(space, process, &mut ranges)?,
        Subject::Each(host) => add_all_ranges(host, &mut ranges)?,
    }
    Ok(ranges)
}

/// The largest `number` of these ranges.
///
/// # Errors
/// `AllocError`: out of memory.
pub fn largest_of(alloc: Global, ranges: &[RangeOf], number: u32) -> Result<Largest, AllocError> {
    let mut sizes = Vec::new(alloc);
    for range in ranges {
        sizes.push(range.pages)?;
    }
    Ok(Largest::of(sizes.as_slice(), number))
}

/// The line of a range, and the rule by which its pages go.
#[derive(Drop)]
struct Ruled<'a> {
    line: &'a [u8],
    rule: Vec<u8>,
}

/// A prediction by rules: its ranges with theirs, its other lines, and what isn't listed.
#[derive(Drop)]
struct Listing<'a> {
    ruled: Vec<Ruled<'a>>,
    others: Written,
    hidden: u64,
    hidden_pages: u64,
}

/// A text without its first line.
fn behind_first(text: &[u8]) -> &[u8] {
    let mut place = 0usize;
    for byte in text {
        place = place.saturating_add(1);
        if *byte == b'\n' {
            return text.get(place..).unwrap_or(&[]);
        }
    }
    &[]
}

/// By which rule the pages of a range go, in lines; with `tells_process` the first says of which
/// process it is.
fn rule_of(
    alloc: Global,
    script: &HostScript,
    touch: Touch,
    range: RangeOf,
    tells_process: bool,
) -> Result<Vec<u8>, Halt> {
    let pages = AskedPages {
        page: range.first,
        pages: Some(1),
    };
    let asked = ExplainAsked {
        touch,
        pages,
        format: Format::Text,
    };
    let said = explanation(alloc, script, None, range.process, asked, &[])?;
    let mut rule = Written::new(alloc);
    if let (true, Some(process)) = (tells_process, range.process) {
        rule.put_form(b"process $\n", &[u64::from(process)]);
    }
    rule.put(behind_first(said.as_slice()));
    drop(said);
    Ok(rule.take()?)
}

/// Whether a line begins with an address, as those of ranges do.
fn is_range(line: &[u8]) -> bool {
    let Some(digits) = line.get(..8) else {
        return false;
    };
    digits
        .iter()
        .all(|digit| matches!(*digit, b'0'..=b'9' | b'a'..=b'f'))
}

impl<'a> Listing<'a> {
    /// Adds the line of a range.
    fn add(&mut self, line: &'a [u8], rule: Vec<u8>) -> Result<(), Halt> {
        match self.ruled.push(Ruled { line, rule }) {
            Ok(()) => Ok(()),
            Err(_) => Err(Halt::Stopped(RunFault::Memory)),
        }
    }

    /// Adds a line of something else.
    fn add_other(&mut self, line: &[u8]) {
        self.others.put(line);
        self.others.put(b"\n");
    }

    /// Counts a range that isn't listed.
    fn hide(&mut self, range: RangeOf) {
        self.hidden = self.hidden.saturating_add(1);
        self.hidden_pages = self.hidden_pages.saturating_add(range.pages);
    }
}

/// Adds the lines of a prediction; of many ranges the largest are listed.
fn add_lines<'a>(
    alloc: Global,
    script: &HostScript,
    touch: Touch,
    ranges: &[RangeOf],
    tells_process: bool,
    prediction: &'a [u8],
    listing: &mut Listing<'a>,
) -> Result<(), Halt> {
    let mut largest = largest_of(alloc, ranges, LISTED)?;
    let mut place = 0usize;
    for line in Parts::new(prediction.strip_suffix(b"\n").unwrap_or(prediction), b'\n') {
        let (true, Some(range)) = (is_range(line), ranges.get(place)) else {
            listing.add_other(line);
            continue;
        };
        place = place.saturating_add(1);
        if largest.takes(range.pages) {
            let rule = rule_of(alloc, script, touch, *range, tells_process)?;
            listing.add(line, rule)?;
        } else {
            listing.hide(*range);
        }
    }
    Ok(())
}

/// Whether one of some ranges goes by a rule.
fn has_rule(some: &[Ruled<'_>], rule: &[u8]) -> bool {
    some.iter().any(|one| one.rule.as_slice() == rule)
}

/// Writes a rule, and its ranges.
fn put_rule(text: &mut Written, rule: &[u8], some: &[Ruled<'_>]) {
    text.put(rule);
    for one in some {
        if one.rule.as_slice() == rule {
            text.put(b"  ");
            text.put(one.line);
            text.put(b"\n");
        }
    }
    text.put(b"\n");
}

/// Writes each rule with its ranges.
fn put_rules(text: &mut Written, ruled: &[Ruled<'_>]) {
    for place in 0..ruled.len() {
        let rule = ruled[place].rule.as_slice();
        if !has_rule(&ruled[..place], rule) {
            put_rule(text, rule, &ruled[place..]);
        }
    }
}

/// Writes a prediction by rules, and takes the text out.
fn listed(alloc: Global, listing: &mut Listing<'_>) -> Result<Vec<u8>, AllocError> {
    let mut text = Written::new(alloc);
    put_rules(&mut text, listing.ruled.as_slice());
    if listing.hidden > 0 {
        text.put_form(b"$ smaller ranges with ", &[listing.hidden]);
        text.put_amount(listing.hidden_pages);
        text.put(b"\n\n");
    }
    let others = listing.others.take()?;
    text.put(others.as_slice());
    drop(others);
    text.take()
}

/// A prediction, which is a text with a line for each of these ranges, by the rules by which they
/// go; of many ranges the largest are listed. With `tells_process` each rule is of one process of a
/// host.
///
/// # Errors
/// `NoNode`, or `Stopped`: out of memory.
pub fn by_rules(
    alloc: Global,
    script: &HostScript,
    touch: Touch,
    ranges: &[RangeOf],
    tells_process: bool,
    prediction: &[u8],
) -> Result<Vec<u8>, Halt> {
    let mut listing = Listing {
        ruled: Vec::new(alloc),
        others: Written::new(alloc),
        hidden: 0,
        hidden_pages: 0,
    };
    let added = add_lines(
        alloc,
        script,
        touch,
        ranges,
        tells_process,
        prediction,
        &mut listing,
    );
    let text = match added {
        Ok(()) => listed(alloc, &mut listing),
        Err(halt) => {
            drop(listing);
            return Err(halt);
        }
    };
    drop(listing);
    Ok(text?)
}
