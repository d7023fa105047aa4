//! Exit statuses and messages.
use crate::asking::{Asking, Question};
use numa_command_line::{JobFault, Outlet};
use numa_lines::RunFault;
use numa_sheets::AddressAsked;
use numa_subjects::{Ended, Halt, NOTHING_SERVED};
use std::io;
use std::io::{ErrorKind, Write};
use std::process::ExitCode;

/// The status if lines of the scripts are malformed or refused, if they make no machine, or if a
/// line of the trace can't be replayed.
const NOT_AS_ASKED: u8 = 3;

/// The message if no machine is ready.
const NO_MACHINE: &str = "error: no machine is ready after the scripts";

/// The message if a process is asked for, and the scripts are of one process.
const NO_HOST: &str = "error: '--process <P>': no line of the scripts is 'host'";

/// The message if an answer is about one process, and none of a host's is named.
const MANY_PROCESSES: &str = "error: a host may have many processes, and this answer is about one; \
name it by '--process <P>'";

/// Standard error, as a writer of UTF-8.
#[derive(Drop)]
pub struct StandardError<'a, R> {
    pub rt: &'a R,
}

impl<R: Eprint> Write for StandardError<'_, R> {
    fn write(&mut self, bytes: &[u8]) -> io::Result<usize> {
        let Ok(text) = str::from_utf8(bytes) else {
            return Err(io::Error::from(ErrorKind::InvalidData));
        };
        eprint!(self.rt; "{text}")?;
        Ok(bytes.len())
    }

    fn flush(&mut self) -> io::Result<()> {
        Ok(())
    }
}

/// Ends with the text of an I/O error on standard error, and status 1.
pub fn fail(rt: &impl Eprint, fault: RunFault) -> ExitCode {
    let _ = eprintln!(rt; "numaplan: {fault}");
    ExitCode::FAILURE
}

/// Ends because a file can't be written, with its name and the cause, and status 1.
pub fn fail_to_write(rt: &impl Eprint, name: &str, error: &io::Error) -> ExitCode {
    let _ = eprintln!(rt; "numaplan: can't write '{name}': {error}");
    ExitCode::FAILURE
}

/// Ends without a job: with status 0 after help was asked for, with 2 if the command line is
/// invalid.
pub fn tell_fault<R: Print + Eprint>(rt: &R, fault: JobFault) -> ExitCode {
    match fault {
        JobFault::Help(text) => match print!(rt; "{text}") {
            Ok(()) => ExitCode::SUCCESS,
            Err(error) if error.kind() == ErrorKind::BrokenPipe => ExitCode::FAILURE,
            Err(_) => fail(rt, RunFault::Write),
        },
        JobFault::Usage(text) => {
            let _ = eprint!(rt; "{text}");
            ExitCode::from(2)
        }
        JobFault::NoMemory => fail(rt, RunFault::Memory),
    }
}

/// Ends after reading ended early; silently if nobody reads the answer any more.
pub fn stop_quietly(rt: &impl Eprint, why: RunFault, outlet: &Outlet) -> ExitCode {
    match why {
        RunFault::Write if outlet.is_shut() => ExitCode::FAILURE,
        _ => fail(rt, why),
    }
}

/// Ends with a message on standard error, and this status.
fn end_with(rt: &impl Eprint, status: u8, words: &str) -> ExitCode {
    let _ = eprintln!(rt; "{words}");
    ExitCode::from(status)
}

/// Ends because an option, named by the words before the node, has a node that a machine with
/// `nodes` nodes lacks.
fn lack_node(rt: &impl Eprint, words: &str, node: u32, behind: &str, nodes: u32) -> ExitCode {
    let last = nodes.saturating_sub(1);
    let _ = eprintln!(rt; "error: '{words}{node}{behind}': the machine's nodes are 0 to {last}");
    ExitCode::from(2)
}

/// Ends because the host has no process of this number.
fn lack_process(rt: &impl Eprint, process: u32) -> ExitCode {
    let _ = eprintln!(rt;
        "error: '--process {process}': there is no such process after the scripts"
    );
    ExitCode::from(2)
}

/// Ends because a line of this trace can't be replayed.
fn end_trace(rt: &impl Eprint, trace: &str, place: u64, why: &str) -> ExitCode {
    let _ = eprintln!(rt; "{trace}:{place}: {why}");
    ExitCode::from(NOT_AS_ASKED)
}

/// Ends because no page of this trace finds a place.
fn end_served(rt: &impl Eprint, trace: &str) -> ExitCode {
    let _ = eprintln!(rt; "{trace}: {NOTHING_SERVED}");
    ExitCode::from(NOT_AS_ASKED)
}

/// The status of an answer after lines that ended so; with `lenient`, malformed and refused ones
/// don't matter.
pub fn status_of(ended: Ended, lenient: bool) -> ExitCode {
    match ended {
        Ended::Faulty if !lenient => ExitCode::from(NOT_AS_ASKED),
        Ended::Faulty | Ended::Clean => ExitCode::SUCCESS,
    }
}

/// Ends because the page of an address isn't mapped, by either reading of its digits.
fn lack_page(rt: &impl Eprint, asked: AddressAsked) -> ExitCode {
    let first = asked.value;
    let _ = match asked.hexadecimal {
        Some(other) if other != first => eprintln!(rt;
            "error: no page is mapped after the scripts at address {first}, nor at {other:#x}"
        ),
        _ => eprintln!(rt; "error: no page is mapped after the scripts at address {first:#x}"),
    };
    ExitCode::from(2)
}

/// Ends because the digits of an address may be decimal or hexadecimal, and both pages are mapped.
fn lack_radix(rt: &impl Eprint, asked: AddressAsked) -> ExitCode {
    let first = asked.value;
    let other = asked.hexadecimal.unwrap_or(first);
    let _ = eprintln!(rt;
        "error: address {first} is mapped as decimal digits, and so it is as hexadecimal ones; \
write {first:#x} or {other:#x}"
    );
    ExitCode::from(2)
}

/// Ends with the answer to a question about played scripts, or the reason why there is none.
pub fn answered(
    rt: &impl Eprint,
    asking: Asking<'_>,
    answer: Result<Ended, Halt>,
    outlet: &Outlet,
) -> ExitCode {
    match (answer, asking.question) {
        (Err(Halt::NoNode(nodes)), _) => lack_node(rt, "--node ", asking.node(), "", nodes),
        (Err(Halt::Unmapped), Question::Explain(asked, _)) => lack_page(rt, asked),
        (Err(Halt::TwoPages), Question::Explain(asked, _)) => lack_radix(rt, asked),
        (answer, _) => ended(rt, "", answer, asking.lenient, outlet),
    }
}

/// Ends because no task is given, and lines name several.
fn lack_task(rt: &impl Eprint, first: u32, second: u32) -> ExitCode {
    let _ = eprintln!(rt;
        "error: '--task <T>' is wanted: lines name several tasks, such as {first} and {second}"
    );
    ExitCode::from(2)
}

/// Ends with an answer about played scripts and this trace, or the reason why there is none.
pub fn ended(
    rt: &impl Eprint,
    trace: &str,
    answer: Result<Ended, Halt>,
    lenient: bool,
    outlet: &Outlet,
) -> ExitCode {
    match answer {
        Ok(ended) => status_of(ended, lenient),
        Err(Halt::Stopped(why)) => stop_quietly(rt, why, outlet),
        Err(Halt::NoMachine) => end_with(rt, NOT_AS_ASKED, NO_MACHINE),
        Err(Halt::NoNode(_)) => ExitCode::from(2),
        Err(Halt::NoFreeNode(node, nodes)) => {
            lack_node(rt, "--free ", u32::from(node), "=..", nodes)
        }
        Err(Halt::Unmapped | Halt::TwoPages) => ExitCode::from(2),
        Err(Halt::ManyTasks(first, second)) => lack_task(rt, first, second),
        Err(Halt::BadAccess(place, fault)) => end_trace(rt, trace, place, fault.text()),
        Err(Halt::NothingServed) => end_served(rt, trace),
        Err(Halt::NoHost) => end_with(rt, 2, NO_HOST),
        Err(Halt::NoProcess(process)) => lack_process(rt, process),
        Err(Halt::ManyProcesses) => end_with(rt, 2, MANY_PROCESSES),
    }
}
