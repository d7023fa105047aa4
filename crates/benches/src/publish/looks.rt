//! Looks at what is published, and the least that they could be made of.
use crate::many::page_of;
use numa_plan::Steps;
use numa_publish::PlanReader;
use numa_requests::Request;
use std::hint::black_box;

/// Looks `count` times, and sums the versions that are seen.
pub fn looks(mut reader: PlanReader, count: u64) -> (PlanReader, u64) {
    let mut sum = 0u64;
    for _ in 0..count {
        reader = match reader.enter() {
            Ok(view) => {
                sum = sum.wrapping_add(view.version());
                view.leave()
            }
            Err(reader) => reader,
        };
    }
    (reader, sum)
}

/// Looks `count` times and asks for a page's list each time, and sums the lengths of the lists.
pub fn choices(mut reader: PlanReader, count: u64) -> (PlanReader, u64) {
    let mut sum = 0u64;
    for i in 0..count {
        let request = Request {
            task: 1,
            page: black_box(page_of(i)),
            cpu: 3,
        };
        reader = match reader.enter() {
            Ok(view) => {
                if let Ok(row) = view.choice(request, &mut Steps::new()) {
                    sum = sum.wrapping_add(row.len() as u64);
                }
                view.leave()
            }
            Err(reader) => reader,
        };
    }
    (reader, sum)
}
