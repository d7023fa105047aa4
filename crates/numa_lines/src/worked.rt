//! Worked scripts: script lines with their expected answers.
//!
//! A line of a worked script is one of three:
//!
//! - `LINE => ANSWER`: a script line and its expected answer, or the first line of that;
//! - `=> ANSWER`: the next line of the expected answer to the script line above;
//! - anything else, and each line that begins with `#`: a script line.
//!
//! A script line ends at the last ` => ` that begins after at most 4,097 bytes, so that a script
//! line may contain one itself. No answer does.
ghost use Rattle.std.specs.Prelude.{◌≡◌, ◌+◌, ◌≤◌, ◌<◌, true, codes, drop, length, take, IfSome};
ghost use Rattle.numa_lines.specs.Worked.{begins_with, last_mark, form_of, IsWithin};

use memchr::memrchr;

/// How many bytes of a line show its form: those that show that a script line is too long, and
/// ` => `.
pub const HEAD: usize = 4101;

/// The mark between a script line and its answer on the same line.
const MARK: &[u8] = b" => ";

/// The form of a line of a worked script.
#[derive(Clone, Copy)]
pub enum LineForm {
    /// A script line.
    Script,
    /// A script line of this many bytes, and 4 bytes further its expected answer.
    Answered(usize),
    /// From byte 3 on, the next line of the expected answer to the script line above.
    Answer,
}

/// Whether ` => ` begins there.
fn begins_mark(text: &[u8], place: usize) -> bool
    requires { place < length text.now }
    ensures value { result ≡ begins_with (codes " => ") (drop place text.now) }
    ensures within { result ≡ true → place + 4 ≤ length text.now }
{
    text[place..].starts_with(MARK)
}

/// Where the last ` => ` of a text begins, sought from the end by its `>`: answers are short, and
/// few bytes are `>`.
fn last_mark(text: &[u8]) -> Option<usize>
    ensures value { result ≡ last_mark text.now }
    ensures within { IfSome result (λ place. place + 4 ≤ length text.now) }
{
    let mut end = text.len();
    while let Some(place) = memrchr(b'>', &text[..end]) {
        if place < 2 {
            return None;
        }
        if begins_mark(text, place - 2) {
            return Some(place - 2);
        }
        end = place;
    }
    None
}

/// The first 4,101 bytes of a line.
#[tactic(auto, using(crate::proofs::Marks::all_taken, crate::proofs::Marks::full_head))]
fn head_of(line: &[u8]) -> &[u8]
    ensures { result.now ≡ take 4101 line.now }
{
    if line.len() <= HEAD {
        line
    } else {
        &line[..HEAD]
    }
}

/// The form of a line of a worked script, by its first 4,101 bytes, without its line feed.
pub fn read_form(line: &[u8]) -> LineForm
    ensures value { result ≡ form_of line.now }
    ensures within { IsWithin line.now result }
{
    if line.starts_with(b"#") {
        return LineForm::Script;
    }
    match last_mark(head_of(line)) {
        Some(end) => LineForm::Answered(end),
        None if line.starts_with(b"=> ") => LineForm::Answer,
        None => LineForm::Script,
    }
}
