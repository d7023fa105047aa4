//! Workers place pages while policies change.
ghost use Rattle.numa_stress.specs.Crew.{IsCrew};

use numa_console::fail;
use numa_lines::Watched;
use std::io;
use std::process::ExitCode;
use std::sync::Wait;
use std::thread::Threads;

/// Lets this many workers place pages while policies change.
pub fn show<R: Threads + Wait + Sync + Print + Eprint + AllocGlobal>(
    rt: &R,
    workers: u32,
) -> ExitCode
    requires { IsCrew workers }
{
    let mut output = Watched::new(io::writer(rt));
    let storm = numa_stress::storm(rt, rt.alloc(), workers, &mut output);
    drop(output);
    match storm {
        Ok(status) => ExitCode::from(status),
        Err(fault) => fail(rt, fault),
    }
}
