//! The jobs of the program.
ghost use Rattle.numa_command_line.specs.Jobs.{IsRefusal};

use numa_machine::Rules;
use numa_sheets::{AddressAsked, Format, FreePages, TouchAsked};
use std::alloc::{AllocError, Global};

/// A question about pages that a task would touch.
#[derive(Drop)]
pub enum PageQuestion {
    /// Where pages would go; nodes that `free` names have that many free pages. With a file `at`,
    /// pages that are there stay where they lie.
    Predict {
        at: Vec<String>,
        format: Format,
        free: Vec<FreePages>,
    },
    /// Which pages would go elsewhere after these further lines. With a file `at`, what becomes of
    /// the pages that are there, too.
    Diff {
        at: Vec<String>,
        lines: Vec<String>,
        format: Format,
    },
    /// Why the page of this address goes where it goes; with `pages`, by which rules the pages go
    /// from it on, as many as that. With a file `at`, the page lies where that says, too.
    Explain {
        at: Vec<String>,
        address: AddressAsked,
        pages: Option<u32>,
        format: Format,
    },
    /// All of these on one page, before and after these further lines, if there are some.
    Report {
        lines: Vec<String>,
    },
}

/// What to do with scripts, which are read in order.
#[derive(Drop)]
pub enum ScriptJob {
    /// Answer them; with `echo`, write each line beside its answer.
    Run {
        echo: bool,
        format: Format,
    },
    /// Report what is wrong with them.
    Check {
        format: Format,
    },
    /// Compare worked scripts with the answers to their lines, with `any_version` whatever their
    /// versions; with `update`, write the answers that they get into their files.
    Expect {
        format: Format,
        any_version: bool,
        update: bool,
    },
    /// Answer a question about the state that they lead to. With `lenient`, malformed and refused
    /// lines are no error; with `names`, a text has the names of areas.
    Ask {
        asked: TouchAsked,
        question: PageQuestion,
        lenient: bool,
        names: bool,
    },
    /// Tell what becomes of pages when these further lines move them. They lie as lines of the
    /// scripts and of the file `at` state, or where the task would touch them.
    Moves {
        at: Vec<String>,
        lines: Vec<String>,
        asked: Option<TouchAsked>,
        free: Vec<FreePages>,
        format: Format,
        lenient: bool,
        names: bool,
    },
    /// Replay the trace of the file `trace` after them, leniently. With `free` pages take room:
    /// these nodes have so much, and the others never fill. With `mean` the mean distance is told
    /// too, with `ranges` what each range meets.
    Replay {
        trace: Vec<String>,
        free: Vec<FreePages>,
        format: Format,
        mean: bool,
        ranges: bool,
        lenient: bool,
    },
    /// Play them, and answer the lines that are typed then.
    Shell,
}

/// The jobs of the program.
#[derive(Drop)]
pub enum Job {
    /// Do this with the scripts of these files; `-` is standard input, which is also read without
    /// files. These rules apply unless a line of a script says otherwise. Of a host this process is
    /// asked for; all are if none is named.
    Scripts {
        files: Vec<String>,
        rules: Rules,
        process: Option<u32>,
        work: ScriptJob,
    },
    /// Let this many workers place pages while policies change.
    Storm(u32),
}

/// Why there is no job, or it wasn't begun.
#[derive(Drop)]
pub enum JobFault {
    /// Help or the version was asked for: its text.
    Help(String),
    /// The command line is invalid: the message.
    Usage(String),
    /// There was no memory.
    NoMemory,
}

impl JobFault {
    /// An invalid command line with its message.
    pub fn usage(alloc: Global, words: &str) -> JobFault
        ensures { IsRefusal result }
    {
        match String::from_str(alloc, words) {
            Ok(text) => JobFault::Usage(text),
            Err(_) => JobFault::NoMemory,
        }
    }
}

impl From<AllocError> for JobFault {
    ghost use Rattle.std.specs.Prelude.{◌≡◌};
    ghost use Rattle.numa_command_line.specs.declared.jobs.JobFault.TheVariants.{NoMemory};

    ghost from_gives = { λ _ fault. fault ≡ NoMemory };

    fn from(_error: AllocError) -> JobFault {
        JobFault::NoMemory
    }
}
