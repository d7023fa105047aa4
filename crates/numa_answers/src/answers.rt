//! The answers of scripts, as lines of JSON.
use numa_lines::{Respond, RunFault, TakeLine, Watched};
use numa_sheets::{Items, Object};
use std::alloc::{AllocError, Global};
use std::io::Write;

/// Has script lines answered, and writes each that has an answer, and the answer, as a line of
/// JSON.
#[derive(Drop)]
pub struct Answers<A, W> {
    alloc: Global,
    answerer: A,
    output: Watched<W>,
    answer: Vec<u8>,
    text: Vec<u8>,
}

/// Appends the object of an answer.
fn put_answer(
    alloc: Global,
    text: &mut Vec<u8>,
    name: &str,
    place: u64,
    line: &[u8],
    answer: &[u8],
    is_fault: bool,
) -> Result<(), AllocError> {
    let mut lines = Items::new(alloc);
    lines.push_lines(answer);
    let mut object = Object::new(alloc);
    object.put_text("kind", "answer");
    object.put_text("file", name);
    object.put_number("line", place);
    object.put_bytes("script", line);
    object.put_items("answer", lines);
    object.put_flag("fault", is_fault);
    object.say_line(text)
}

impl<A: Respond, W: Write> Answers<A, W> {
    /// Before the first line.
    pub fn new(alloc: Global, answerer: A, output: W) -> Answers<A, W> {
        let mut answers = Answers {
            alloc,
            answerer,
            output: Watched::new(output),
            answer: Vec::new(alloc),
            text: Vec::new(alloc),
        };
        // If that fails, each text is written at once.
        let _ = answers.output.gather(alloc);
        answers
    }
}

impl<A: Respond, W: Write> TakeLine<()> for Answers<A, W> {
    fn take(&mut self, name: &str, place: u64, line: &[u8], _: &mut ()) -> Result<(), RunFault> {
        self.answer.clear();
        let Ok(()) = self.answerer.respond(line, &mut self.answer) else {
            return Err(RunFault::Memory);
        };
        if self.answer.is_empty() {
            return Ok(());
        }
        self.text.clear();
        let answer = self.answer.as_slice();
        let is_fault = self.answerer.tells_fault(answer);
        let text = &mut self.text;
        let Ok(()) = put_answer(self.alloc, text, name, place, line, answer, is_fault) else {
            return Err(RunFault::Memory);
        };
        self.output.say(self.text.as_slice());
        Ok(())
    }

    fn hand_over(&mut self, _output: &mut ()) -> Result<(), RunFault> {
        self.output.hand_over()
    }
}
