//! The report of a storm.
ghost use Rattle.std.specs.Prelude.{◌≡◌, ◌++◌, codes};
ghost use Rattle.numa_lines.specs.Written.{Said};
ghost use Rattle.numa_stress.specs.Storm.{line_of, match_line, status_of, text_of};

use numa_lines::Watched;
use std::io::Write;

/// The results of a storm.
#[derive(Clone, Copy, PartialEq, Eq, Debug, Drop)]
pub struct StormReport {
    /// The number of workers.
    pub workers: u32,
    /// The number of requests that were answered by a placement.
    pub placed: usize,
    /// The number that were answered by `Exhausted`.
    pub exhausted: usize,
    /// Whether each placement is right by the space of its version.
    pub plans_match: bool,
    /// The number of frames that were taken at the end.
    pub held: u64,
    /// Whether one seat held them all, and the workers began together.
    pub is_sound: bool,
}

impl StormReport {
    /// The exit status: 0 if all went as it must on any schedule, else 1.
    pub fn status(&self) -> u8
        ensures { result ≡ status_of self.now }
    {
        let counts = self.placed == 256 && self.exhausted == 64 && self.held == 256;
        if counts && self.plans_match && self.is_sound {
            0
        } else {
            1
        }
    }
}

/// Writes a line of a name and a number.
#[tactic(auto, unfolding(crate::specs::Storm::line_of))]
fn say_line<W: Write>(output: &mut Watched<W>, name: &[u8], number: u64)
    ensures { Said W.contents output.old output.new (line_of name.now number) }
{
    output.say(name);
    output.say(b" ");
    output.say_number(number);
    output.say(b"\n");
}

/// Writes whether each placement is right by the space of its version.
#[tactic(auto, unfolding(crate::specs::Storm::match_line))]
fn say_match<W: Write>(output: &mut Watched<W>, plans_match: bool)
    ensures { Said W.contents output.old output.new (match_line plans_match) }
{
    match plans_match {
        true => output.say(b"plans match yes\n"),
        false => output.say(b"plans match no\n"),
    }
}

/// Writes the number of workers, and how their requests were answered.
fn say_answers<W: Write>(output: &mut Watched<W>, report: &StormReport)
    ensures { Said W.contents output.old output.new (line_of (codes "workers") report.now.workers
        ++ line_of (codes "placed") report.now.placed
        ++ line_of (codes "exhausted") report.now.exhausted) }
{
    say_line(output, b"workers", u64::from(report.workers));
    say_line(output, b"placed", report.placed as u64);
    say_line(output, b"exhausted", report.exhausted as u64);
}

/// Writes the five lines.
pub fn say_report<W: Write>(output: &mut Watched<W>, report: &StormReport)
    ensures { Said W.contents output.old output.new (text_of report.now) }
{
    say_answers(output, report);
    say_match(output, report.plans_match);
    say_line(output, b"frames held", report.held);
}
