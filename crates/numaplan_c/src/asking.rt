//! The words of the program, over scripts in memory, and about pages that are there.
ghost use Rattle.std.specs.Prelude.{◌≡◌, true, IfErr};
ghost use Rattle.numaplan_c.specs.Reports.{Reported, is_untold};

use crate::codes::Code;
use crate::options::rules_of;
use crate::reports::{NpFree, NpQuestion, NpReport, known_format, made, tell_made, touch_of};
use numa_sheets::{Format, FreePages, Touch};
use numaplan_reports::{
    Origin, Report, ScriptText, check, diff, explain, explain_at, moves, predict, predict_at,
    replay,
};
use std::alloc::{AllocError, Global};

/// A question about the pages after a script and the lines behind it.
#[derive(Drop)]
struct Question<'a> {
    script: ScriptText<'a>,
    touch: Touch,
    format: Format,
}

/// The question about a script, if its rules and its format are known.
fn question_of<'a>(text: &'a [u8], then: &'a [u8], asked: &NpQuestion) -> Result<Question<'a>, u32>
    ensures { IfErr result (λ code. is_untold code ≡ true) }
{
    let Some(rules) = rules_of(asked.rules) else {
        return Err(Code::BadRules as u32);
    };
    let format = known_format(asked.format)?;
    Ok(Question {
        script: ScriptText { text, then, rules },
        touch: touch_of(asked),
        format,
    })
}

/// What is wrong with the lines of a script.
fn checked(alloc: Global, script: &[u8], asked: &NpQuestion) -> Result<Report, u32>
    ensures { IfErr result (λ code. is_untold code ≡ true) }
{
    let asked = question_of(script, b"", asked)?;
    made(check(alloc, asked.script, asked.format))
}

/// Writes what is wrong with the lines of a script.
#[unsafe(no_mangle)]
pub extern "C" fn np_check(
    alloc: Global,
    script: &[u8],
    asked: &NpQuestion,
    text: &mut [u8],
    report: &mut NpReport,
) -> u32
    ensures { Reported result text.old text.new report.old report.new }
{
    tell_made(checked(alloc, script, asked), text, report)
}

/// The free pages of nodes, in the types of the crates below.
fn free_pages(alloc: Global, free: &[NpFree]) -> Result<Vec<FreePages>, AllocError> {
    let mut named = Vec::with_capacity(alloc, free.len())?;
    for one in free {
        named.push(FreePages {
            node: one.node,
            pages: one.pages,
        })?;
    }
    Ok(named)
}

/// The same, or the code of out of memory.
pub(crate) fn free_by_node(alloc: Global, free: &[NpFree]) -> Result<Vec<FreePages>, u32>
    ensures { IfErr result (λ code. is_untold code ≡ true) }
{
    match free_pages(alloc, free) {
        Ok(free) => Ok(free),
        Err(_) => Err(Code::NoMemory as u32),
    }
}

/// Where all mapped pages would go after a script.
fn predicted(
    alloc: Global,
    script: &[u8],
    lines: &[u8],
    asked: &NpQuestion,
    free: &[NpFree],
) -> Result<Report, u32>
    ensures { IfErr result (λ code. is_untold code ≡ true) }
{
    let asked = question_of(script, lines, asked)?;
    let free = free_by_node(alloc, free)?;
    let report = predict(
        alloc,
        asked.script,
        asked.touch,
        asked.format,
        free.as_slice(),
    );
    drop(free);
    made(report)
}

/// Writes where all mapped pages would go after a script and its lines.
#[unsafe(no_mangle)]
pub extern "C" fn np_predict(
    alloc: Global,
    script: &[u8],
    lines: &[u8],
    asked: &NpQuestion,
    free: &[NpFree],
    text: &mut [u8],
    report: &mut NpReport,
) -> u32
    ensures { Reported result text.old text.new report.old report.new }
{
    tell_made(predicted(alloc, script, lines, asked, free), text, report)
}

/// Which pages go to another node after the lines than before them.
fn compared(alloc: Global, script: &[u8], lines: &[u8], asked: &NpQuestion) -> Result<Report, u32>
    ensures { IfErr result (λ code. is_untold code ≡ true) }
{
    let asked = question_of(script, lines, asked)?;
    made(diff(alloc, asked.script, asked.touch, asked.format))
}

/// Writes which pages would go to another node after the lines behind a script.
#[unsafe(no_mangle)]
pub extern "C" fn np_diff(
    alloc: Global,
    script: &[u8],
    lines: &[u8],
    asked: &NpQuestion,
    text: &mut [u8],
    report: &mut NpReport,
) -> u32
    ensures { Reported result text.old text.new report.old report.new }
{
    tell_made(compared(alloc, script, lines, asked), text, report)
}

/// Why a page would go where it goes.
fn explained(
    alloc: Global,
    script: &[u8],
    lines: &[u8],
    asked: &NpQuestion,
    page: u64,
) -> Result<Report, u32>
    ensures { IfErr result (λ code. is_untold code ≡ true) }
{
    let asked = question_of(script, lines, asked)?;
    made(explain(alloc, asked.script, asked.touch, page, asked.format))
}

/// Writes why a page would go where it goes after a script and its lines.
#[unsafe(no_mangle)]
pub extern "C" fn np_explain(
    alloc: Global,
    script: &[u8],
    lines: &[u8],
    asked: &NpQuestion,
    page: u64,
    text: &mut [u8],
    report: &mut NpReport,
) -> u32
    ensures { Reported result text.old text.new report.old report.new }
{
    tell_made(explained(alloc, script, lines, asked, page), text, report)
}

/// What a trace meets.
fn replayed(
    alloc: Global,
    script: &[u8],
    lines: &[u8],
    trace: &[u8],
    asked: &NpQuestion,
) -> Result<Report, u32>
    ensures { IfErr result (λ code. is_untold code ≡ true) }
{
    let asked = question_of(script, lines, asked)?;
    made(replay(alloc, asked.script, trace, asked.format))
}

/// Writes what a trace meets after a script and its lines.
#[unsafe(no_mangle)]
pub extern "C" fn np_replay(
    alloc: Global,
    script: &[u8],
    lines: &[u8],
    trace: &[u8],
    asked: &NpQuestion,
    text: &mut [u8],
    report: &mut NpReport,
) -> u32
    ensures { Reported result text.old text.new report.old report.new }
{
    tell_made(replayed(alloc, script, lines, trace, asked), text, report)
}

/// A question about pages that are there, and the free pages of nodes.
#[derive(Drop)]
struct There<'a> {
    asked: Question<'a>,
    free: Vec<FreePages>,
}

/// The question, if its rules and its format are known, and there is memory for it.
fn there_of<'a>(
    alloc: Global,
    script: &'a [u8],
    lines: &'a [u8],
    asked: &NpQuestion,
    free: &[NpFree],
) -> Result<There<'a>, u32>
    ensures { IfErr result (λ code. is_untold code ≡ true) }
{
    let asked = question_of(script, lines, asked)?;
    let free = free_by_node(alloc, free)?;
    Ok(There { asked, free })
}

/// Where all mapped pages would go after a script, but that those that are there stay.
fn predicted_at(alloc: Global, there: Result<There<'_>, u32>, at: &[u8]) -> Result<Report, u32>
    requires { IfErr there (λ code. is_untold code ≡ true) }
    ensures { IfErr result (λ code. is_untold code ≡ true) }
{
    let There { asked, free } = match there {
        Ok(there) => there,
        Err(code) => return Err(code),
    };
    let Question {
        script,
        touch,
        format,
    } = asked;
    let report = predict_at(alloc, script, at, touch, format, free.as_slice());
    drop(free);
    made(report)
}

/// Writes where all mapped pages would go after a script and its lines, but that those that are
/// there stay.
#[unsafe(no_mangle)]
pub extern "C" fn np_predict_at(
    alloc: Global,
    script: &[u8],
    lines: &[u8],
    at: &[u8],
    asked: &NpQuestion,
    free: &[NpFree],
    text: &mut [u8],
    report: &mut NpReport,
) -> u32
    ensures { Reported result text.old text.new report.old report.new }
{
    tell_made(
        predicted_at(alloc, there_of(alloc, script, lines, asked, free), at),
        text,
        report,
    )
}

/// Why a page would go where it goes, and how it came where it lies.
fn explained_at(
    alloc: Global,
    asked: Result<Question<'_>, u32>,
    at: &[u8],
    page: u64,
) -> Result<Report, u32>
    requires { IfErr asked (λ code. is_untold code ≡ true) }
    ensures { IfErr result (λ code. is_untold code ≡ true) }
{
    let Question {
        script,
        touch,
        format,
    } = match asked {
        Ok(asked) => asked,
        Err(code) => return Err(code),
    };
    made(explain_at(alloc, script, at, touch, page, format))
}

/// Writes why a page would go where it goes after a script and its lines, and how it came where it
/// lies by them and by the lines of a further text.
#[unsafe(no_mangle)]
pub extern "C" fn np_explain_at(
    alloc: Global,
    script: &[u8],
    lines: &[u8],
    at: &[u8],
    asked: &NpQuestion,
    page: u64,
    text: &mut [u8],
    report: &mut NpReport,
) -> u32
    ensures { Reported result text.old text.new report.old report.new }
{
    let asked = question_of(script, lines, asked);
    tell_made(explained_at(alloc, asked, at, page), text, report)
}

/// What becomes of pages by the lines of a question.
fn moved(alloc: Global, there: Result<There<'_>, u32>, origin: Origin<'_>) -> Result<Report, u32>
    requires { IfErr there (λ code. is_untold code ≡ true) }
    ensures { IfErr result (λ code. is_untold code ≡ true) }
{
    let There { asked, free } = match there {
        Ok(there) => there,
        Err(code) => return Err(code),
    };
    let report = moves(alloc, asked.script, origin, asked.format, free.as_slice());
    drop(free);
    made(report)
}

/// Writes what becomes of pages that lie where lines state it, by the lines behind a script.
#[unsafe(no_mangle)]
pub extern "C" fn np_moves_at(
    alloc: Global,
    script: &[u8],
    lines: &[u8],
    at: &[u8],
    asked: &NpQuestion,
    free: &[NpFree],
    text: &mut [u8],
    report: &mut NpReport,
) -> u32
    ensures { Reported result text.old text.new report.old report.new }
{
    let there = there_of(alloc, script, lines, asked, free);
    tell_made(moved(alloc, there, Origin::Stated(at)), text, report)
}

/// Writes what becomes of pages that a task has touched, by the lines behind a script.
#[unsafe(no_mangle)]
pub extern "C" fn np_moves_touched(
    alloc: Global,
    script: &[u8],
    lines: &[u8],
    asked: &NpQuestion,
    free: &[NpFree],
    text: &mut [u8],
    report: &mut NpReport,
) -> u32
    ensures { Reported result text.old text.new report.old report.new }
{
    let there = there_of(alloc, script, lines, asked, free);
    let touched = Origin::Touched(touch_of(asked));
    tell_made(moved(alloc, there, touched), text, report)
}
