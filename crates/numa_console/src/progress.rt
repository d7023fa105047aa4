//! How far reading and counting are, on standard error.
use numa_sheets::Watch;
use std::alloc::AllocError;
use std::io::Read;
use std::rt::{Clock, Files};
use std::time::Instant;
use std::{fs, io};

/// The seconds after which it is told how far work is.
const PATIENCE: u64 = 2;

/// The pages after which the clock is looked at again.
const PAGES: u64 = 1 << 20;

/// The bytes of a megabyte, after which the clock is looked at again.
const MEGABYTE: u64 = 1 << 20;

/// The seconds since work began, if that is long ago and wasn't told in this second.
fn due<R: Clock>(rt: &R, began: Option<Instant>, told: u64) -> Option<u64> {
    let Ok(elapsed) = began?.elapsed(rt) else {
        return None;
    };
    let seconds = elapsed.as_secs();
    if seconds >= PATIENCE && seconds > told {
        Some(seconds)
    } else {
        None
    }
}

/// A text that tells how far it has been read, if that takes long.
#[derive(Drop)]
pub struct Paced<'a, R, S> {
    rt: &'a R,
    source: S,
    // When reading began; `None` if nothing is to be told.
    began: Option<Instant>,
    // The size of the text in bytes, 0 if it isn't known, and how many were read.
    size: u64,
    bytes: u64,
    // The bytes after which the clock is looked at, and the seconds when it was last told.
    next: u64,
    told: u64,
}

impl<R: Clock + Eprint, S> Paced<'_, R, S> {
    /// Tells how far reading is after this many seconds.
    fn tell(&mut self, seconds: u64) {
        self.told = seconds;
        let done = self.bytes / MEGABYTE;
        let size = self.size / MEGABYTE;
        let _ = if size > 0 {
            eprint!(self.rt; "\rnumaplan: {done} of {size} MB read in {seconds} s ")
        } else {
            eprint!(self.rt; "\rnumaplan: {done} MB read in {seconds} s ")
        };
    }

    /// Looks at the clock, and tells how far reading is, once a second.
    fn look(&mut self) {
        self.next = self.bytes.saturating_add(MEGABYTE);
        if let Some(seconds) = due(self.rt, self.began, self.told) {
            self.tell(seconds);
        }
    }

    /// Ends what was told.
    fn end(&mut self) {
        if self.told > 0 {
            self.told = 0;
            let _ = eprintln!(self.rt; "");
        }
    }
}

impl<R: Clock + Eprint, S: Read> Read for Paced<'_, R, S> {
    fn read(&mut self, buffer: &mut [u8]) -> io::Result<usize> {
        let count = self.source.read(buffer)?;
        self.bytes = self.bytes.saturating_add(count as u64);
        if count == 0 {
            self.end();
        } else if self.bytes >= self.next {
            self.look();
        }
        Ok(count)
    }
}

/// The size of a file, 0 if it isn't known.
fn size_of(rt: &impl Files, name: &str) -> u64 {
    match fs::metadata(rt, name) {
        Ok(metadata) if metadata.is_file() => metadata.len(),
        _ => 0,
    }
}

/// A text that tells how far it has been read, if `tells`.
fn begun<'a, R: Clock + Files, S>(
    rt: &'a R,
    name: &str,
    source: S,
    tells: bool,
) -> Paced<'a, R, S> {
    let began = if tells { Instant::now(rt).ok() } else { None };
    Paced {
        rt,
        source,
        began,
        size: size_of(rt, name),
        bytes: 0,
        next: MEGABYTE,
        told: 0,
    }
}

/// Texts with their names, each of which tells how far it has been read, if `tells` and that takes
/// longer than two seconds.
///
/// # Errors
/// `AllocError`: out of memory.
pub fn with_progress<'a, R, S: Drop>(
    rt: &'a R,
    texts: Vec<(String, S)>,
    tells: bool,
) -> Result<Vec<(String, Paced<'a, R, S>)>, AllocError>
where
    R: Clock + Files + AllocGlobal,
{
    let mut all = Vec::new(rt.alloc());
    for (name, source) in texts {
        let text = begun(rt, name.as_str(), source, tells);
        all.push((name, text))?;
    }
    Ok(all)
}

/// Tells how far work over pages is, if that takes long.
#[derive(Drop)]
pub struct PacedPages<'a, R> {
    rt: &'a R,
    // Whether anything is to be told, and when the work began.
    tells: bool,
    began: Option<Instant>,
    // The pages of the work, and how many are done.
    pages: u64,
    done: u64,
    // The pages after which the clock is looked at, and the seconds when it was last told.
    next: u64,
    told: u64,
}

impl<'a, R: Clock + Eprint> PacedPages<'a, R> {
    /// Before the work; nothing is told unless `tells`.
    pub fn new(rt: &'a R, tells: bool) -> PacedPages<'a, R> {
        PacedPages {
            rt,
            tells,
            began: None,
            pages: 0,
            done: 0,
            next: 0,
            told: 0,
        }
    }

    /// Looks at the clock, and tells how far the work is, once a second.
    fn look(&mut self) {
        self.next = self.done.saturating_add(PAGES);
        let Some(seconds) = due(self.rt, self.began, self.told) else {
            return;
        };
        self.told = seconds;
        let percent = self
            .done
            .saturating_mul(100)
            .checked_div(self.pages)
            .unwrap_or(100);
        let _ = eprint!(self.rt; "\rnumaplan: {percent} % in {seconds} s ");
    }
}

impl<R: Clock + Eprint> Watch for PacedPages<'_, R> {
    fn begin(&mut self, pages: u64) {
        self.pages = pages;
        self.done = 0;
        self.next = PAGES;
        self.began = if self.tells {
            Instant::now(self.rt).ok()
        } else {
            None
        };
    }

    fn pass(&mut self, pages: u64) {
        self.done = self.done.saturating_add(pages);
        if self.done >= self.next {
            self.look();
        }
    }

    fn end(&mut self) {
        if self.told > 0 {
            self.told = 0;
            let _ = eprintln!(self.rt; "");
        }
    }
}
