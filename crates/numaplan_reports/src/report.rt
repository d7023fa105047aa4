//! What a word of the program answered.
ghost use Rattle.std.specs.Prelude.{◌≡◌, ◌≤◌, ◌++◌, length, IfOk};

use numa_subjects::{Ended, Halt};
use std::alloc::AllocError;

/// What a word of the program answered.
#[derive(Drop)]
pub struct Report {
    /// The answer, and behind it the messages about lines.
    pub text: Vec<u8>,
    /// How many bytes of these are the answer.
    pub answer: usize,
    /// The lines on which the answer is based, or why there is none.
    pub ended: Result<Ended, Halt>,
    ghost within: { answer ≤ length text.items },
}

/// The report of an answer and the messages about lines.
///
/// # Errors
/// `AllocError`: out of memory.
pub(crate) fn report_of(
    answer: Vec<u8>,
    messages: Vec<u8>,
    ended: Result<Ended, Halt>,
) -> Result<Report, AllocError>
    ensures text { IfOk result (λ report. report.text.items ≡ answer.items ++ messages.items) }
    ensures answer { IfOk result (λ report. report.answer ≡ length answer.items) }
    ensures ended { IfOk result (λ report. report.ended ≡ ended) }
{
    let count = answer.len();
    let mut text = answer;
    let put = text.extend_from_slice(messages.as_slice());
    drop(messages);
    match put {
        Ok(()) => Ok(Report {
            text,
            answer: count,
            ended,
        }),
        Err(fault) => {
            drop(text);
            Err(fault)
        }
    }
}
