//! Reports what is wrong with scripts.
use numa_command_line::Outlet;
use numa_console::ended;
use numa_play::Scripts;
use numa_sheets::Format;
use std::io;
use std::io::Read;
use std::process::ExitCode;

/// Checks the scripts.
pub fn check<R, S>(rt: &R, scripts: Scripts<S>, format: Format) -> ExitCode
where
    R: Print + Eprint + AllocGlobal,
    S: Read + Drop,
{
    let outlet = Outlet::new();
    let output = outlet.writer(io::writer(rt));
    let answer = numa_play::check(rt.alloc(), scripts, format, output);
    ended(rt, "", answer, false, &outlet)
}
