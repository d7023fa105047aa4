//! Replays a trace of accesses.
use numa_command_line::{JobFault, Outlet, open_all};
use numa_console::{StandardError, ended, with_progress};
use numa_play::Scripts;
use numa_sheets::{Format, FreePages};
use numa_subjects::Twin;
use numa_words::Traced;
use std::io;
use std::io::{IsTerminal, Read};
use std::process::ExitCode;
use std::rt::{Clock, Files};

/// A trace that is to be replayed after scripts.
#[derive(Clone, Copy)]
pub struct TraceAsked<'a> {
    /// Its file.
    pub files: &'a [String],
    /// For how many more pages nodes have room, where pages take room.
    pub free: &'a [FreePages],
    pub format: Format,
    /// Whether the mean distance is told too.
    pub has_mean: bool,
    /// Whether what it meets is told by range too.
    pub by_range: bool,
    /// Whether malformed and refused lines of scripts are no error.
    pub lenient: bool,
    /// Whether standard error shows how far reading is.
    pub tells: bool,
}

/// Replays a trace after scripts.
fn replay<R, S, T>(
    rt: &R,
    scripts: Scripts<S>,
    asked: TraceAsked<'_>,
    traces: Vec<(String, T)>,
) -> ExitCode
where
    R: Print + Eprint + AllocGlobal,
    S: Read + Drop,
    T: Read + Drop,
{
    let outlet = Outlet::new();
    let mut output = outlet.writer(io::writer(rt));
    let traced = Traced {
        texts: traces,
        free: asked.free,
        format: asked.format,
        has_mean: asked.has_mean,
        by_range: asked.by_range,
    };
    let answer = numa_words::replay(
        rt.alloc(),
        scripts,
        traced,
        Twin::UnlessChosen,
        &mut output,
        StandardError { rt },
    );
    let name = match asked.files.first() {
        Some(name) => name.as_str(),
        None => "",
    };
    ended(rt, name, answer, asked.lenient, &outlet)
}

/// Replays the trace of a file after scripts.
///
/// # Errors
/// `Usage`: the trace can't be opened. `NoMemory`: out of memory.
pub fn answer<R, S>(
    rt: &R,
    scripts: Scripts<S>,
    asked: TraceAsked<'_>,
) -> Result<ExitCode, JobFault>
where
    R: Clock + Files + Input + Print + Eprint + AllocGlobal,
    R::Reader: IsTerminal,
    S: Read + Drop,
{
    match open_all(rt, asked.files) {
        Ok(traces) => match with_progress(rt, traces, asked.tells) {
            Ok(traces) => Ok(replay(rt, scripts, asked, traces)),
            Err(_) => {
                drop(scripts);
                Err(JobFault::NoMemory)
            }
        },
        Err(fault) => {
            drop(scripts);
            Err(fault)
        }
    }
}
