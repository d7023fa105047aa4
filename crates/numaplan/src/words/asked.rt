//! Questions about the state that scripts lead to: where pages would go or lie, which would go
//! elsewhere, why, and what becomes of those that are there.
use crate::words::texts::{reading_of, text_of};
use numa_command_line::{JobFault, Outlet, Texts, open_all};
use numa_console::{Asking, Paced, PacedPages, StandardError, answered, with_progress};
use numa_play::Scripts;
use numa_sheets::Watch;
use numa_subjects::{Ended, Halt};
use numa_words::play_there;
use std::io;
use std::io::{IsTerminal, Read};
use std::process::ExitCode;
use std::rt::{Clock, Files};

/// Plays scripts, and answers.
fn answer_to<R, S, A, P>(
    rt: &R,
    scripts: Scripts<S>,
    texts_at: Vec<(String, A)>,
    asking: Asking<'_>,
    outlet: &Outlet,
    watch: &mut P,
) -> Result<Ended, Halt>
where
    R: Print + Eprint + AllocGlobal,
    S: Read + Drop,
    A: Read + Drop,
    P: Watch,
{
    let (alloc, process) = (rt.alloc(), scripts.process);
    let how = reading_of(asking);
    let mut played = play_there(alloc, scripts, texts_at, how, StandardError { rt })?;
    let text = text_of(alloc, &mut played, process, asking, watch);
    let mut output = outlet.writer(io::writer(rt));
    let ended = played.write(text, &mut output);
    drop(output);
    ended
}

/// Answers, and ends.
fn answer_by<R, S, A>(
    rt: &R,
    scripts: Scripts<S>,
    texts_at: Vec<(String, A)>,
    asking: Asking<'_>,
) -> ExitCode
where
    R: Clock + Print + Eprint + AllocGlobal,
    S: Read + Drop,
    A: Read + Drop,
{
    let outlet = Outlet::new();
    let mut watch = PacedPages::new(rt, asking.tells);
    let answer = answer_to(rt, scripts, texts_at, asking, &outlet, &mut watch);
    watch.end();
    answered(rt, asking, answer, &outlet)
}

/// The file that states where pages lie; none if none is named.
fn open_at<R>(rt: &R, at: &[String]) -> Result<Texts<R>, JobFault>
where
    R: Files + Input + Eprint + AllocGlobal,
    R::Reader: IsTerminal,
{
    if at.is_empty() {
        return Ok(Vec::new(rt.alloc()));
    }
    open_all(rt, at)
}

/// Opens the file that states where pages lie, if one is named. With `tells`, standard error shows
/// how far reading of the scripts is.
///
/// # Errors
/// `Usage`: the file can't be opened. `NoMemory`: out of memory.
fn opened<'a, R, S>(
    rt: &'a R,
    scripts: Scripts<S>,
    at: &[String],
    tells: bool,
) -> Result<(Scripts<Paced<'a, R, S>>, Texts<R>), JobFault>
where
    R: Clock + Files + Input + Eprint + AllocGlobal,
    R::Reader: IsTerminal,
    S: Read + Drop,
{
    let texts_at = match open_at(rt, at) {
        Ok(texts) => texts,
        Err(fault) => {
            drop(scripts);
            return Err(fault);
        }
    };
    let Scripts {
        texts,
        rules,
        process,
    } = scripts;
    match with_progress(rt, texts, tells) {
        Ok(texts) => {
            let scripts = Scripts {
                texts,
                rules,
                process,
            };
            Ok((scripts, texts_at))
        }
        Err(_) => {
            drop(texts_at);
            Err(JobFault::NoMemory)
        }
    }
}

/// Answers a question about the state that scripts lead to.
///
/// # Errors
/// `Usage`: a file can't be opened. `NoMemory`: out of memory.
pub fn answer<R, S>(rt: &R, scripts: Scripts<S>, asking: Asking<'_>) -> Result<ExitCode, JobFault>
where
    R: Clock + Files + Input + Print + Eprint + AllocGlobal,
    R::Reader: IsTerminal,
    S: Read + Drop,
{
    match opened(rt, scripts, asking.at, asking.tells) {
        Ok((scripts, texts_at)) => Ok(answer_by(rt, scripts, texts_at, asking)),
        Err(fault) => Err(fault),
    }
}
