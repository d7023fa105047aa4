//! Script lines with their answers, in the form of worked scripts.
ghost use Rattle.std.specs.Prelude.{◌≡◌, ◌++◌, OnOk};
ghost use Rattle.numa_lines.specs.Echo.{echo_of, is_one_line, with_marks};

use crate::expect::Respond;
use crate::fault::RunFault;
use crate::lines::TakeLine;
use crate::watched::Watched;
use memchr::memchr;
use std::alloc::{AllocError, Global};
use std::io::Write;

/// Whether the answer is one line, with its line feed.
fn is_one_line(answer: &[u8]) -> bool
    ensures { result ≡ is_one_line answer.now }
{
    match memchr(b'\n', answer) {
        Some(end) => end + 1 == answer.len(),
        None => false,
    }
}

/// Appends an answer with `=> ` before each of its lines.
#[tactic(auto, using(crate::proofs::Marking::marking))]
fn say_with_marks(text: &mut Vec<u8>, answer: &[u8]) -> Result<(), AllocError>
    ensures { OnOk result (text.new.items ≡ text.old.items ++ with_marks answer.now) }
{
    let mut begins = true;
    let mut rest = answer;
    while let Some((byte, after)) = rest.split_first() {
        if begins {
            if let Err(fault) = text.extend_from_slice(b"=> ") {
                return Err(fault);
            }
        }
        if let Err(_) = text.push(*byte) {
            return Err(AllocError);
        }
        begins = *byte == b'\n';
        rest = after;
    }
    Ok(())
}

/// Appends a script line and its answer: an answer of one line on the same line, after ` => `, and
/// each line of a longer one on a line of its own, after `=> `. An answer is whole lines with their
/// line feeds, or nothing.
///
/// # Errors
/// `AllocError`: out of memory; part of it may have been appended.
#[tactic(auto, using(crate::proofs::Marking::echoing))]
pub fn say_echo(text: &mut Vec<u8>, line: &[u8], answer: &[u8]) -> Result<(), AllocError>
    ensures { OnOk result (text.new.items ≡ text.old.items ++ echo_of line.now answer.now) }
{
    if let Err(fault) = text.extend_from_slice(line) {
        return Err(fault);
    }
    if is_one_line(answer) {
        if let Err(fault) = text.extend_from_slice(b" => ") {
            return Err(fault);
        }
        return text.extend_from_slice(answer);
    }
    if let Err(fault) = text.extend_from_slice(b"\n") {
        return Err(fault);
    }
    say_with_marks(text, answer)
}

/// Has script lines answered, and writes each with its answer.
#[derive(Drop)]
pub struct Echo<A, W> {
    answerer: A,
    output: Watched<W>,
    answer: Vec<u8>,
    text: Vec<u8>,
}

impl<A: Respond, W: Write> Echo<A, W> {
    /// Before the first line.
    pub fn new(alloc: Global, answerer: A, output: W) -> Echo<A, W> {
        Echo {
            answerer,
            output: Watched::gathering(alloc, output),
            answer: Vec::new(alloc),
            text: Vec::new(alloc),
        }
    }
}

impl<A: Respond, W: Write> TakeLine<()> for Echo<A, W> {
    fn take(&mut self, _: &str, _: u64, line: &[u8], _: &mut ()) -> Result<(), RunFault> {
        self.answer.clear();
        self.text.clear();
        let Ok(()) = self.answerer.respond(line, &mut self.answer) else {
            return Err(RunFault::Memory);
        };
        let Ok(()) = say_echo(&mut self.text, line, self.answer.as_slice()) else {
            return Err(RunFault::Memory);
        };
        self.output.say(self.text.as_slice());
        Ok(())
    }

    fn hand_over(&mut self, _: &mut ()) -> Result<(), RunFault> {
        self.output.hand_over()
    }
}
