//! The worked scripts of folders.
use crate::files::{Source, Texts, add_file, open_fault, open_file};
use crate::jobs::JobFault;
use numa_lines::{RunFault, is_worked};
use std::alloc::AllocError;
use std::io::IsTerminal;
use std::rt::Files;
use std::{fs, io};

/// Whether this is the name of a folder.
fn is_folder<R: Files>(rt: &R, name: &str) -> bool {
    match fs::metadata(rt, name) {
        Ok(metadata) => metadata.is_dir(),
        Err(_) => false,
    }
}

/// Whether the script of this path holds an answer. One that can't be read counts as if it did, and
/// is reported when it is opened.
fn holds_answer<R: Files + AllocGlobal>(rt: &R, path: &str) -> Result<bool, AllocError> {
    let Ok(file) = open_file(rt, path) else {
        return Ok(true);
    };
    match is_worked(rt.alloc(), file) {
        Ok(holds) => Ok(holds),
        Err(RunFault::Memory) => Err(AllocError),
        Err(_) => Ok(true),
    }
}

/// Whether a file in a folder is a worked script: one named `*.answers`, or `*.numaplan` if it
/// holds an answer. Hidden files aren't.
fn is_taken<R: Files + AllocGlobal>(rt: &R, name: &str, path: &str) -> Result<bool, AllocError> {
    if name.starts_with('.') {
        return Ok(false);
    }
    if name.ends_with(".numaplan") {
        return holds_answer(rt, path);
    }
    Ok(name.ends_with(".answers"))
}

/// The paths of a folder's worked scripts, in the order of their names.
fn worked_in<R: Files + AllocGlobal>(rt: &R, folder: &str) -> io::Result<Vec<String>> {
    let mut paths = Vec::new(rt.alloc());
    for entry in fs::read_dir(&rt, folder)? {
        let entry = entry?;
        let path = entry.path().as_str();
        if is_taken(rt, entry.file_name(), path)? {
            paths.push(String::from_str(rt.alloc(), path)?)?;
        }
    }
    paths.sort()?;
    Ok(paths)
}

/// Opens a folder's worked scripts, and appends them to the open files. A folder without one counts
/// as a script without a line.
fn add_folder<R>(rt: &R, folder: &str, texts: &mut Texts<R>) -> Result<(), JobFault>
where
    R: Files + Input + Eprint + AllocGlobal,
    R::Reader: IsTerminal,
{
    let paths = match worked_in(rt, folder) {
        Ok(paths) => paths,
        Err(error) => return Err(open_fault(rt.alloc(), folder, &error)),
    };
    for path in &paths {
        add_file(rt, path.as_str(), texts)?;
    }
    if paths.is_empty() {
        let named = String::from_str(rt.alloc(), folder)?;
        if let Err(_) = texts.push((named, Source::Nothing)) {
            return Err(JobFault::NoMemory);
        }
    }
    Ok(())
}

/// Opens a file or a folder's worked scripts by its name, and appends them to the open files.
fn add_named<R>(rt: &R, name: &str, texts: &mut Texts<R>) -> Result<(), JobFault>
where
    R: Files + Input + Eprint + AllocGlobal,
    R::Reader: IsTerminal,
{
    if is_folder(rt, name) {
        add_folder(rt, name, texts)
    } else {
        add_file(rt, name, texts)
    }
}

/// Opens worked scripts, each with its name: files, standard input, and those of folders.
///
/// # Errors
/// `Usage`: a file or a folder can't be opened, with its name and the cause.
pub fn open_worked<R>(rt: &R, names: &[String]) -> Result<Texts<R>, JobFault>
where
    R: Files + Input + Eprint + AllocGlobal,
    R::Reader: IsTerminal,
{
    let mut texts = Vec::new(rt.alloc());
    for name in names {
        if let Err(fault) = add_named(rt, name.as_str(), &mut texts) {
            return Err(fault);
        }
    }
    Ok(texts)
}
