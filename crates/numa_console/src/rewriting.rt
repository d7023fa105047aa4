//! Writing files anew.
use numa_answers::Updated;
use std::alloc::AllocError;
use std::fs::OpenFile;
use std::io::Write;
use std::rt::Files;
use std::{fs, io};

/// A file that couldn't be written anew, and why.
#[derive(Drop)]
pub struct RewriteFault {
    pub name: String,
    pub error: io::Error,
}

/// Writes a text to a file that isn't there yet, with the permissions of another.
fn write_new<R: Files>(rt: &R, name: &str, like: &str, text: &[u8]) -> io::Result<()> {
    let permissions = fs::metadata(rt, like)?.permissions();
    let mut file = fs::OpenOptions::new()
        .write(true)
        .create_new(true)
        .open(rt, name)?;
    file.set_permissions(permissions)?;
    file.write_all(text)?;
    file.sync_all()
}

/// Writes a text to a new file beside that of a name, and gives it this name: at every moment a
/// whole text stands there, the old one or the new one.
fn rewrite<R: Files + AllocGlobal>(rt: &R, name: &str, text: &[u8]) -> io::Result<()> {
    let place = fs::canonicalize(rt, name)?;
    let mut beside = String::from_str(rt.alloc(), place.as_str())?;
    beside.push_str(".new")?;
    let written = write_new(rt, beside.as_str(), place.as_str(), text);
    match written {
        Ok(()) => fs::rename(rt, beside.as_str(), place.as_str()),
        Err(error) if error.kind() == io::ErrorKind::AlreadyExists => Err(error),
        Err(error) => {
            let _ = fs::remove_file(rt, beside.as_str());
            Err(error)
        }
    }
}

/// Writes each of these texts to the file of its name, and returns the first that couldn't be
/// written; those behind it are as they were.
///
/// # Errors
/// `AllocError`: out of memory.
pub fn rewrite_all<R: Files + AllocGlobal>(
    rt: &R,
    texts: &[Updated],
) -> Result<Option<RewriteFault>, AllocError> {
    for (name, text) in texts {
        if let Err(error) = rewrite(rt, name.as_str(), text.as_slice()) {
            let name = String::from_str(rt.alloc(), name.as_str())?;
            return Ok(Some(RewriteFault { name, error }));
        }
    }
    Ok(None)
}
