//! Scripts: whole ones, and line by line.
ghost use Rattle.std.specs.Prelude.{◌≡◌, ◌≢◌, ℕ, List, None, true, Result};
ghost use Rattle.std.specs.Prelude.{is_some, IfSome, MatchOption};
ghost use Rattle.numaplan_handles.specs.Handles.{dialog_in};
ghost use Rattle.numaplan_handles.specs.Dialogs.{IsFresh, ServesKept};
ghost use Rattle.numaplan_handles.specs.declared.dialog.LineRefusal.{LineRefusal};
ghost use Rattle.numaplan_c.specs.Border.{AskedInto, Called, Opens, is_done};
ghost use Rattle.numaplan_c.specs.Options.{rules_of};
ghost use Rattle.numaplan_c.specs.Scripts.{AreAnswers, line_code, length_told};
ghost use Rattle.numaplan_c.specs.Texts.{IsWritten};

use crate::codes::Code;
use crate::keeping::{ensure_closed, if_open, memory_code};
use crate::options::rules_of;
use crate::texts::{copy_code, length_copied, write};
use numa_host_script::run_by;
use numa_lines::Watched;
use numa_machine::Rules;
use numaplan_handles::{LineRefusal, ScriptHandle};
use std::alloc::Global;

/// The answers to a whole script, if there is memory for them.
fn answers_to(alloc: Global, script: &[u8]) -> Option<Vec<u8>>
    ensures { IfSome result (λ answers. AreAnswers script.now answers.items) }
{
    let mut input = Watched::new(script);
    let mut output = Watched::new(Vec::new(alloc));
    match run_by(alloc, Rules::Document, &mut input, &mut output) {
        Ok(()) => Some(output.inner),
        Err(_) => None,
    }
}

/// Answers a whole script.
#[unsafe(no_mangle)]
pub extern "C" fn np_script_run(
    alloc: Global,
    script: &[u8],
    room: &mut [u8],
    length: &mut usize,
) -> u32
    ensures answers { result ≢ 3 → (answers : List ℕ) × AreAnswers script.now answers
        × IsWritten answers result room.old room.new length.new }
    ensures starved { result ≡ 3 → (room.new ≡ room.old) × (length.new ≡ length.old) }
{
    match answers_to(alloc, script) {
        Some(answers) => write(&answers, room, length),
        None => Code::NoMemory as u32,
    }
}

/// Opens a script before its first line.
#[unsafe(no_mangle)]
pub extern "C" fn np_script_open(alloc: Global, script: &mut ScriptHandle) -> u32
    ensures opens { Opens (dialog_in script.old) result (dialog_in script.new) }
    ensures fresh { dialog_in script.old ≡ None →
        IfSome (dialog_in script.new) (IsFresh Rules.Document) }
    ensures open { is_some (dialog_in script.old) ≡ true → result ≡ 2 }
    ensures done { dialog_in script.old ≡ None → is_done result ≡ true }
{
    ensure_closed!(script);
    memory_code(script.open(alloc, Rules::Document))
}

/// Opens a script before its first line, with the rules of this number unless a line says
/// otherwise.
#[unsafe(no_mangle)]
pub extern "C" fn np_script_open_by(alloc: Global, script: &mut ScriptHandle, rules: u32) -> u32
    ensures opens { Opens (dialog_in script.old) result (dialog_in script.new) }
    ensures fresh { dialog_in script.old ≡ None → IfSome (dialog_in script.new) (λ made.
        IfSome (rules_of rules) (λ these. IsFresh these made)) }
    ensures open { is_some (dialog_in script.old) ≡ true → result ≡ 2 }
    ensures done { dialog_in script.old ≡ None → MatchOption (rules_of rules) (result ≡ 56)
        (λ these. is_done result ≡ true) }
{
    ensure_closed!(script);
    let Some(rules) = rules_of(rules) else {
        return Code::BadRules as u32;
    };
    memory_code(script.open(alloc, rules))
}

/// The code of the result of a line.
fn line_code(answer: Result<usize, LineRefusal>) -> u32
    ensures { result ≡ line_code answer }
{
    match answer {
        Ok(_) => 0,
        Err(LineRefusal::NoMemory) => Code::NoMemory as u32,
        Err(LineRefusal::AnswerLost) => Code::AnswerLost as u32,
    }
}

/// The length of the answer to a line, if there is one.
fn length_told(answer: Result<usize, LineRefusal>, length: usize) -> usize
    ensures { result ≡ length_told answer length }
{
    match answer {
        Ok(told) => told,
        Err(_) => length,
    }
}

/// Serves a line, and keeps its answer.
#[unsafe(no_mangle)]
pub extern "C" fn np_script_line(
    alloc: Global,
    script: &mut ScriptHandle,
    line: &[u8],
    length: &mut usize,
) -> u32
    ensures { Called (dialog_in script.old) result (dialog_in script.new)
        (length.new ≡ length.old) (λ kept. (answer : Result ℕ LineRefusal)
        × (result ≡ line_code answer)
        × ServesKept line.now (dialog_in script.old) (dialog_in script.new) answer
        × (length.new ≡ length_told answer length.old)) }
{
    if_open!(script.line(alloc, line), answer => {
        *length = length_told(answer, *length);
        line_code(answer)
    })
}

/// Copies the answer to the last line.
#[unsafe(no_mangle)]
pub extern "C" fn np_script_answer(
    alloc: Global,
    script: &mut ScriptHandle,
    room: &mut [u8],
    length: &mut usize,
) -> u32
    ensures { AskedInto (dialog_in script.old) (dialog_in script.new) result room.old room.new
        length.old length.new
        (λ kept. IsWritten kept.answer.items result room.old room.new length.new) }
{
    if_open!(script.answer(alloc, room), told => {
        *length = length_copied(told);
        copy_code(told)
    })
}

/// Frees a script.
#[unsafe(no_mangle)]
pub extern "C" fn np_script_close(alloc: Global, script: &mut ScriptHandle)
    ensures { dialog_in script.new ≡ None }
{
    script.handle.close(alloc)
}
