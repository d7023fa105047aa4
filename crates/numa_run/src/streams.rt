//! Running a script from a reader to a writer.
ghost use Rattle.std.specs.Prelude.{◌≤◌, ◌+◌, OnOk, IsErrOf};
ghost use Rattle.numa_lines.specs.Runs.{AnswersAll, NeverBegins, StopsAtRead, StopsAtWrite};
ghost use Rattle.numa_lines.specs.Runs.{most_reads};
ghost use Rattle.numa_lines.specs.Watching.{read_count};
ghost use Rattle.numa_run.specs.Answers.{start, answer_to, after_bytes};

use crate::script::Script;
use numa_lines::{RunFault, Watched, serve_script};
use std::alloc::Global;
use std::io::{Read, Write};

/// Reads a script and writes its answers. Each answer is written before the next read. It makes at
/// most 4,294,967,295 reads. Clears any earlier I/O error of the reader and the writer.
///
/// # Errors
/// `Read`: a read failed, or one more than that was needed. `Write`: a write failed or took no
/// byte, after which nothing more is read or written. `Memory`: there was no memory for the current
/// line and the answers, before anything was read.
///
/// # Examples
/// Answers a script of one line:
///
/// ```
/// let mut input = Watched::new(b"x\n".as_slice());
/// let result = run(rt.alloc(), &mut input, &mut output);
/// ```
pub fn run<R: Read, W: Write>(
    alloc: Global,
    input: &mut Watched<R>,
    output: &mut Watched<W>,
) -> Result<(), RunFault>
    ensures ok { OnOk result (AnswersAll R.remaining W.contents answer_to after_bytes start
        input.old input.new output.old output.new) }
    ensures read { IsErrOf result RunFault.Read → StopsAtRead R.remaining W.contents answer_to
        after_bytes start input.old input.new output.old output.new }
    ensures write { IsErrOf result RunFault.Write → StopsAtWrite R.remaining W.contents answer_to
        after_bytes start input.old input.new output.old output.new }
    ensures memory { IsErrOf result RunFault.Memory →
        NeverBegins R.remaining W.contents input.old input.new output.old output.new }
    ensures reads { read_count input.new ≤ read_count input.old + most_reads }
{
    serve_script(alloc, Script::new(), input, output)
}
