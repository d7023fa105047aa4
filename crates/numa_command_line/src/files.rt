//! The files of a command line: `-` is standard input, which is also read without files.
use crate::jobs::JobFault;
use std::alloc::{AllocError, Global};
use std::fs::OpenFile;
use std::io::{ErrorKind, IsTerminal, Read};
use std::rt::Files;
use std::{fs, io};

/// The message at a terminal.
const AWAITED: &str = "numaplan: a script is awaited, line by line; Ctrl-D ends it";

/// A file, standard input, or nothing.
#[derive(Drop)]
pub enum Source<F, I> {
    File(F),
    // On the heap, since it has a buffer of 8 KiB and a source is handed on by value.
    Standard(Box<I>),
    Nothing,
}

impl<F: Read, I: Read> Read for Source<F, I> {
    fn read(&mut self, buffer: &mut [u8]) -> io::Result<usize> {
        match self {
            Source::File(file) => file.read(buffer),
            Source::Standard(input) => input.read(buffer),
            Source::Nothing => Ok(0),
        }
    }
}

/// Standard input. At a terminal a message says that a script is awaited.
fn standard_input<R: Input + Eprint>(rt: &R) -> R::Reader
where
    R::Reader: IsTerminal,
{
    let reader = rt.reader();
    if reader.is_terminal() {
        let _ = eprintln!(rt; "{AWAITED}");
    }
    reader
}

/// A file that can be read; a folder can't.
pub(crate) fn open_file<R: Files>(rt: &R, name: &str) -> io::Result<R::File> {
    let file = fs::open(rt, name)?;
    if file.metadata()?.is_dir() {
        return Err(io::Error::from(ErrorKind::IsADirectory));
    }
    Ok(file)
}

/// The error of a file that can't be opened.
pub(crate) fn open_fault(alloc: Global, name: &str, error: &io::Error) -> JobFault {
    if error.kind() == ErrorKind::OutOfMemory {
        return JobFault::NoMemory;
    }
    match format!(in alloc; "error: can't open '{name}': {error}\n") {
        Ok(text) => JobFault::Usage(text),
        Err(_) => JobFault::NoMemory,
    }
}

/// Opens a file, or standard input, by its name.
fn open<R>(rt: &R, name: &str) -> Result<Source<R::File, R::Reader>, JobFault>
where
    R: Files + Input + Eprint + AllocGlobal,
    R::Reader: IsTerminal,
{
    if name == "-" {
        return match Box::new(rt.alloc(), standard_input(rt)) {
            Ok(input) => Ok(Source::Standard(input)),
            Err(_) => Err(JobFault::NoMemory),
        };
    }
    match open_file(rt, name) {
        Ok(file) => Ok(Source::File(file)),
        Err(error) => Err(open_fault(rt.alloc(), name, &error)),
    }
}

/// The open files, each with its name.
pub type Texts<R> = Vec<(String, Source<<R as Files>::File, <R as Input>::Reader>)>;

/// Opens a file by its name, and appends it to the open ones.
pub(crate) fn add_file<R>(rt: &R, name: &str, texts: &mut Texts<R>) -> Result<(), JobFault>
where
    R: Files + Input + Eprint + AllocGlobal,
    R::Reader: IsTerminal,
{
    let Ok(named) = String::from_str(rt.alloc(), name) else {
        return Err(JobFault::NoMemory);
    };
    match open(rt, name) {
        Ok(source) => match texts.push((named, source)) {
            Ok(()) => Ok(()),
            Err(_) => Err(JobFault::NoMemory),
        },
        Err(fault) => {
            drop(named);
            Err(fault)
        }
    }
}

/// Opens the files in order, or standard input without files.
fn add_files<R>(rt: &R, names: &[String], texts: &mut Texts<R>) -> Result<(), JobFault>
where
    R: Files + Input + Eprint + AllocGlobal,
    R::Reader: IsTerminal,
{
    if names.is_empty() {
        return add_file(rt, "-", texts);
    }
    for name in names {
        add_file(rt, name.as_str(), texts)?;
    }
    Ok(())
}

/// Opens the files, or standard input without files, each with its name.
///
/// # Errors
/// `Usage`: a file can't be opened, with its name and the cause.
pub fn open_all<R>(
    rt: &R,
    names: &[String],
) -> Result<Vec<(String, Source<R::File, R::Reader>)>, JobFault>
where
    R: Files + Input + Eprint + AllocGlobal,
    R::Reader: IsTerminal,
{
    let mut texts = Vec::new(rt.alloc());
    match add_files(rt, names, &mut texts) {
        Ok(()) => Ok(texts),
        Err(fault) => Err(fault),
    }
}

/// Opens files, each with its name, and then standard input, of the name `-`, unless a file is
/// that.
///
/// # Errors
/// `Usage`: a file can't be opened, with its name and the cause.
pub fn open_with_typed<R>(rt: &R, names: &[String]) -> Result<Texts<R>, JobFault>
where
    R: Files + Input + Eprint + AllocGlobal,
    R::Reader: IsTerminal,
{
    let mut texts = open_all(rt, names)?;
    if names.is_empty() || names.iter().any(|name| name.as_str() == "-") {
        return Ok(texts);
    }
    match add_file(rt, "-", &mut texts) {
        Ok(()) => Ok(texts),
        Err(fault) => {
            drop(texts);
            Err(fault)
        }
    }
}

/// The open files without their names.
///
/// # Errors
/// `AllocError`: out of memory.
pub fn without_names<S: Drop>(
    alloc: Global,
    texts: Vec<(String, S)>,
) -> Result<Vec<S>, AllocError> {
    let mut sources = Vec::new(alloc);
    for (_, source) in texts {
        sources.push(source)?;
    }
    Ok(sources)
}
