//! What a trace met by range, as lines or as objects.
use crate::form::ReplayForm;
use crate::range_parts::{PageSpan, RangesMet, busiest, routes_in};
use crate::report::place_of;
use crate::summary::Summary;
use crate::tallies::{AccessCounts, Route};
use crate::telling::{Of, say_line, say_object};
use numa_machine::Machine;
use numa_sheets::{Format, Written};
use std::alloc::AllocError;

/// The sums of routes.
fn sum_of(machine: &Machine, routes: &[(Route, AccessCounts)]) -> Summary {
    let mut sum = Summary::new();
    for (route, counts) in routes {
        let (_, cpu, node) = *route;
        sum.add(place_of(machine, cpu, node), counts);
    }
    sum
}

/// Writes what a range met, which follows so many others.
fn say_range(
    written: &mut Written,
    form: ReplayForm,
    number: usize,
    span: PageSpan,
    sum: &Summary,
) {
    match form.format {
        Format::Json | Format::Html(_) => {
            written.put(if number == 0 {
                b"\n"
            } else {
                b",\n".as_slice()
            });
            say_object(written, Of::Range(span), sum, form.has_mean);
        }
        _ => say_line(written, Of::Range(span), sum, form.has_mean),
    }
}

/// Writes what each range met, the busiest first.
fn say_parts(
    written: &mut Written,
    machine: &Machine,
    met: RangesMet<'_>,
    form: ReplayForm,
) -> Result<(), AllocError> {
    let routes = routes_in(written.alloc(), met.tallies)?;
    let parts = busiest(written.alloc(), routes.as_slice())?;
    for number in 0..parts.len() {
        let part = parts[number];
        let of_part = routes.as_slice().get(part.begin..part.behind);
        if let (Some(span), Some(of_part)) = (part.span(met.spans), of_part) {
            say_range(written, form, number, span, &sum_of(machine, of_part));
        }
    }
    Ok(())
}

/// Writes what ranges met: lines, or a further member of an object.
pub(crate) fn say_ranges(
    written: &mut Written,
    machine: &Machine,
    met: RangesMet<'_>,
    form: ReplayForm,
) {
    let has_objects = match form.format {
        Format::Json | Format::Html(_) => true,
        _ => false,
    };
    if has_objects {
        written.put(b",\"ranges\":[");
    }
    if let Err(_) = say_parts(written, machine, met, form) {
        written.lack();
    }
    if has_objects {
        written.put(b"\n]");
    }
}
