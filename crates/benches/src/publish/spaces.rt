//! What is published.
use crate::many::{RANGES, bind, bind_page, eight_nodes, map, policy};
use numa_publish::Desk;
use numa_requests::{Command, Limits};
use std::alloc::Global;

/// Accepts a policy of task 1, another one for each number.
fn change(desk: &mut Desk, number: u64) {
    if let Some(spec) = policy(number) {
        let _ = desk.accept(&Command::SetTask { task: 1, spec });
    }
}

/// Accepts one of two policies for the middle page of the middle range, the other one each time.
pub fn bind_middle(desk: &mut Desk, number: u64) {
    let middle = RANGES / 2;
    if let Some(spec) = policy(middle + 1 + number % 2) {
        let _ = desk.accept(&bind_page(middle, spec));
    }
}

/// Accepts `ranges` ranges, with the policies in turn.
fn spread(desk: &mut Desk, ranges: u64) {
    for number in 0..ranges {
        let _ = desk.accept(&map(number));
        if let Some(spec) = policy(number) {
            let _ = desk.accept(&bind(number, spec));
        }
    }
}

/// A desk that has published `ranges` ranges.
pub fn desk_of(alloc: Global, ranges: u64) -> Option<Desk> {
    let limits = Limits::new(65_536, 8, 4_000_000_000)?;
    let mut desk = Desk::new(alloc, eight_nodes(alloc)?, limits, 4).ok()?;
    spread(&mut desk, ranges);
    change(&mut desk, 0);
    let _ = desk.publish();
    Some(desk)
}
