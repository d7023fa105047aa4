//! Answering a script line by line, into texts.
use numa_host_script::HostScript;
use numa_lines::{Respond, Watched};
use numa_machine::Rules;
use numa_script::line::parse;
use std::alloc::{AllocError, Global};
use std::io::Write;
use std::mem;

/// A script being answered.
pub struct Answering {
    alloc: Global,
    // The rules that apply unless a line says otherwise.
    rules: Rules,
    script: HostScript,
}

// (By hand, so that it is proved here alone: a derived one is proved in each crate that drops.)
impl Drop for Answering {
    fn drop(self) {
        let Answering {
            alloc: _,
            rules: _,
            script,
        } = self;
        drop(script);
    }
}

impl Answering {
    /// The state before the first line; these rules apply unless a line says otherwise.
    pub fn new(alloc: Global, rules: Rules) -> Answering {
        Answering {
            alloc,
            rules,
            script: HostScript::by(rules),
        }
    }
}

/// Answers a line, and returns whether memory ran out. (It is a function of its own so that the
/// contract of `serve_line`, which isn't needed here, stays out of every goal.)
fn serve<W: Write>(
    script: &mut HostScript,
    alloc: Global,
    line: &[u8],
    output: &mut Watched<W>,
) -> bool {
    script.serve_line(alloc, &parse(line), output)
}

impl Respond for Answering {
    ghost use Rattle.numa_subjects.specs.Faults.{tells_fault as says_fault};

    ghost is_fault = { says_fault };

    fn begin(&mut self) {
        drop(mem::replace(&mut self.script, HostScript::by(self.rules)));
    }

    fn respond(&mut self, line: &[u8], answer: &mut Vec<u8>) -> Result<(), AllocError> {
        let mut output = Watched::new(mem::replace(answer, Vec::new(self.alloc)));
        let is_starved = serve(&mut self.script, self.alloc, line, &mut output);
        let handed_over = output.hand_over();
        *answer = output.inner;
        match handed_over {
            Ok(()) if !is_starved => Ok(()),
            _ => Err(AllocError),
        }
    }

    fn tells_fault(&self, answer: &[u8]) -> bool {
        numa_subjects::tells_fault(answer)
    }
}
