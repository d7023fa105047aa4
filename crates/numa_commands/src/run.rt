//! Answers scripts.
use numa_answers::Answers;
use numa_command_line::without_names;
use numa_console::{Answering, Notice, fail, noticed_by};
use numa_host_script::run_by;
use numa_lines::{Echo, Joined, RunFault, TakeLine, Watched};
use numa_play::Scripts;
use numa_sheets::Format;
use numa_traces::read_by;
use std::alloc::{AllocError, Global};
use std::io;
use std::io::Read;
use std::process::ExitCode;

/// Answers scripts, as one.
fn answer_all<R, S>(rt: &R, scripts: Scripts<S>) -> Result<(), RunFault>
where
    R: Print + AllocGlobal,
    S: Read + Drop,
{
    let Scripts { texts, rules, .. } = scripts;
    let Ok(sources) = without_names(rt.alloc(), texts) else {
        return Err(RunFault::Memory);
    };
    let mut input = Watched::new(Joined::new(sources));
    let mut output = Watched::new(io::writer(rt));
    let run = run_by(rt.alloc(), rules, &mut input, &mut output);
    drop(output);
    drop(input);
    run
}

/// Hands the lines of texts to a taker, and lets it go.
fn hand_to<S: Read + Drop, T: TakeLine<()> + Drop>(
    alloc: Global,
    texts: Vec<(String, S)>,
    taker: T,
) -> Result<(), RunFault> {
    match read_by(alloc, texts, taker) {
        Ok(taker) => {
            drop(taker);
            Ok(())
        }
        Err(why) => Err(why),
    }
}

/// Answers scripts in a format; with `echo`, writes each line too, as lines of JSON do anyway.
fn answer_by<R, S>(rt: &R, scripts: Scripts<S>, echo: bool, format: Format) -> Result<(), RunFault>
where
    R: Print + AllocGlobal,
    S: Read + Drop,
{
    let alloc = rt.alloc();
    let rules = scripts.rules;
    match format {
        Format::Json => {
            let answers = Answers::new(alloc, Answering::new(alloc, rules), io::writer(rt));
            hand_to(alloc, scripts.texts, answers)
        }
        _ if echo => {
            let echo = Echo::new(alloc, Answering::new(alloc, rules), io::writer(rt));
            hand_to(alloc, scripts.texts, echo)
        }
        _ => answer_all(rt, scripts),
    }
}

/// The names of texts.
fn names_of<S>(alloc: Global, texts: &[(String, S)]) -> Result<Vec<String>, AllocError> {
    let mut names = Vec::new(alloc);
    for (name, _) in texts {
        names.push(String::from_str(alloc, name.as_str())?)?;
    }
    Ok(names)
}

/// Tells that a script holds answers, if one does.
fn tell_answers<R: Eprint>(rt: &R, names: &[String], notice: &Notice) {
    let Some((text, line)) = notice.place() else {
        return;
    };
    if let Some(name) = names.get(text) {
        let _ = eprintln!(rt; "{name}:{line}: answers follow =>; numaplan expect compares them");
    }
}

/// Answers scripts, and notes where one holds an answer.
fn answer_noticed<R, S>(
    rt: &R,
    scripts: Scripts<S>,
    echo: bool,
    format: Format,
    notice: &Notice,
) -> Result<(), RunFault>
where
    R: Print + AllocGlobal,
    S: Read + Drop,
{
    let Scripts {
        texts,
        rules,
        process,
    } = scripts;
    match noticed_by(rt.alloc(), texts, notice) {
        Ok(texts) => {
            let scripts = Scripts {
                texts,
                rules,
                process,
            };
            answer_by(rt, scripts, echo, format)
        }
        Err(_) => Err(RunFault::Memory),
    }
}

/// Answers scripts; with `echo`, writes each line too, as lines of JSON do anyway. At the end a
/// line on standard error tells that a script holds answers, if one does.
pub fn answer<R, S>(rt: &R, scripts: Scripts<S>, echo: bool, format: Format) -> ExitCode
where
    R: Print + Eprint + AllocGlobal,
    S: Read + Drop,
{
    let Ok(names) = names_of(rt.alloc(), scripts.texts.as_slice()) else {
        drop(scripts);
        return fail(rt, RunFault::Memory);
    };
    let notice = Notice::new();
    let run = answer_noticed(rt, scripts, echo, format, &notice);
    if run.is_ok() {
        tell_answers(rt, names.as_slice(), &notice);
    }
    drop(names);
    match run {
        Ok(()) => ExitCode::SUCCESS,
        Err(fault) => fail(rt, fault),
    }
}
