//! Many versions on a desk.
use crate::tests::setting::{desk_for, prefer, same};
use numa_publish::Desk;
use numa_requests::Command;

/// How often a desk publishes, one command each time.
const PUBLISHES: u64 = 1_000_000;

/// Whether a command is accepted and published.
fn is_published(desk: &mut Desk, command: &Command) -> bool {
    desk.accept(command).is_ok() && desk.publish().is_ok()
}

#[test]
fn a_million_publishes(rt: HostRuntime) {
    let mut desk = desk_for(&rt, rt.alloc(), 1);
    let commands = [prefer(&rt, 0), prefer(&rt, 1)];
    let mut refused = 0u64;
    for turn in 0..PUBLISHES {
        let command = &commands[if turn % 2 == 0 { 0 } else { 1 }];
        if !is_published(&mut desk, command) {
            refused = refused.saturating_add(1);
        }
    }
    let left = (desk.published(), desk.pending());
    desk.end();
    same(&rt, &(refused, left), &(0, (PUBLISHES, 0)));
}
