//! What the words of the program answer, over scripts in memory.
ghost use Rattle.std.specs.Prelude.{◌≡◌, ◌≢◌, true, IfOk, IfErr};
ghost use Rattle.numaplan_c.specs.Reports.{Reported, TellsReport, end_code, faulty_number};
ghost use Rattle.numaplan_c.specs.Reports.{format_of, halt_code, is_untold};

use crate::codes::Code;
use numa_sheets::{DRAWN, Format, LISTED, Touch};
use numa_subjects::{Ended, Halt};
use numaplan_handles::copy_items;
use numaplan_reports::Report;
use std::alloc::AllocError;

/// A question about pages that a task would touch on a CPU of node `cpu`; whose rules count unless
/// a line says otherwise, and the format of the answer.
#[repr(C)]
#[derive(Clone, Copy)]
pub struct NpQuestion {
    pub task: u32,
    pub cpu: u32,
    pub rules: u32,
    pub format: u32,
}

const _: () = prove!(size_of::<NpQuestion>() == 16);

/// A number of free pages of a node.
#[repr(C)]
#[derive(Clone, Copy)]
pub struct NpFree {
    pub pages: u64,
    pub node: u8,
}

const _: () = prove!(size_of::<NpFree>() == 16);

/// The bytes of an answer, and of the messages behind it; 1 if lines were faulty.
#[repr(C)]
#[derive(Clone, Copy)]
pub struct NpReport {
    pub answer: usize,
    pub messages: usize,
    pub faulty: u64,
}

const _: () = prove!(size_of::<NpReport>() == 24);

/// The format with this number.
fn format_of(number: u32) -> Option<Format>
    ensures { result ≡ format_of number }
{
    match number {
        0 => Some(Format::Text),
        1 => Some(Format::Json),
        2 => Some(Format::Csv),
        3 => Some(Format::Svg(DRAWN)),
        4 => Some(Format::Html(LISTED)),
        _ => None,
    }
}

/// The task and the node of a question.
pub(crate) fn touch_of(asked: &NpQuestion) -> Touch {
    Touch {
        task: asked.task,
        cpu: asked.cpu,
    }
}

/// The format with this number, or the code of what is wrong with it.
pub(crate) fn known_format(number: u32) -> Result<Format, u32>
    ensures { IfErr result (λ code. is_untold code ≡ true) }
{
    match format_of(number) {
        Some(format) => Ok(format),
        None => Err(Code::BadFormat as u32),
    }
}

/// The code of a question that has no answer.
fn halt_code(halt: Halt) -> u32
    ensures { result ≡ halt_code halt }
{
    match halt {
        Halt::Stopped(_) => Code::NoMemory as u32,
        Halt::NoMachine => Code::NoMachine as u32,
        Halt::NoNode(_) => Code::BadCpu as u32,
        Halt::NoFreeNode(_, _) => 17,
        Halt::Unmapped => Code::Unmapped as u32,
        Halt::BadAccess(_, _) | Halt::NothingServed => Code::BadAccess as u32,
        Halt::NoHost | Halt::NoProcess(_) | Halt::ManyProcesses => Code::ManyProcesses as u32,
        // (A task and a page are always given.)
        Halt::ManyTasks(_, _) | Halt::TwoPages => Code::Unmapped as u32,
    }
}

/// The code of a report.
fn end_code(ended: Result<Ended, Halt>) -> u32
    ensures { result ≡ end_code ended }
{
    match ended {
        Ok(_) => 0,
        Err(halt) => halt_code(halt),
    }
}

/// Whether lines were faulty, as a number.
fn faulty_number(ended: Result<Ended, Halt>) -> u64
    ensures { result ≡ faulty_number ended }
{
    match ended {
        Ok(Ended::Faulty) => 1,
        _ => 0,
    }
}

/// A report that was made, if there was memory for all of it; else the code of that.
pub(crate) fn made(report: Result<Report, AllocError>) -> Result<Report, u32>
    ensures ok { IfOk result (λ said. end_code said.ended ≢ 3) }
    ensures err { IfErr result (λ code. code ≡ 3) }
{
    let Ok(report) = report else {
        return Err(Code::NoMemory as u32);
    };
    if end_code(report.ended) == 3 {
        drop(report);
        return Err(Code::NoMemory as u32);
    }
    Ok(report)
}

/// Writes a report.
fn tell(said: &Report, text: &mut [u8], report: &mut NpReport) -> u32
    ensures { TellsReport said.now result text.old text.new report.new }
{
    *report = NpReport {
        answer: said.answer,
        messages: said.text.len() - said.answer,
        faulty: faulty_number(said.ended),
    };
    match copy_items(said.text.as_slice(), text) {
        Ok(_) => end_code(said.ended),
        Err(_) => Code::NoRoom as u32,
    }
}

/// Writes a report that was made, or returns why none was.
pub(crate) fn tell_made(made: Result<Report, u32>, text: &mut [u8], report: &mut NpReport) -> u32
    requires err { IfErr made (λ code. is_untold code ≡ true) }
    ensures { Reported result text.old text.new report.old report.new }
{
    match made {
        Ok(said) => {
            let code = tell(&said, text, report);
            drop(said);
            code
        }
        Err(code) => code,
    }
}
