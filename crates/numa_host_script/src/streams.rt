//! Running a script from a reader to a writer.
ghost use Rattle.std.specs.Prelude.{◌≤◌, ◌+◌, OnOk, IsErrOf};
ghost use Rattle.numa_lines.specs.Runs.{AnswersAll, NeverBegins, StopsAtRead, StopsAtWrite};
ghost use Rattle.numa_lines.specs.Runs.{most_reads};
ghost use Rattle.numa_lines.specs.Watching.{read_count};
ghost use Rattle.numa_host_script.specs.Sessions.{session_after_bytes, session_answer_to};
ghost use Rattle.numa_host_script.specs.Sessions.{session_by};

use crate::script::HostScript;
use numa_lines::{RunFault, Watched, serve_script};
use numa_machine::Rules;
use std::alloc::Global;
use std::io::{Read, Write};

/// Reads a script and writes its answers, as `run` of `numa_run` does; its lines may be a
/// host's. Each answer is written before the next read. These rules apply unless a line says
/// otherwise.
///
/// # Errors
/// `Read`: a read failed, or one more than 4,294,967,295 was needed. `Write`: a write failed or
/// took no byte, after which nothing more is read or written. `Memory`: there was no memory for the
/// current line and the answers, before anything was read.
pub fn run_by<R: Read, W: Write>(
    alloc: Global,
    rules: Rules,
    input: &mut Watched<R>,
    output: &mut Watched<W>,
) -> Result<(), RunFault>
    ensures ok { OnOk result (AnswersAll R.remaining W.contents session_answer_to
        session_after_bytes (session_by rules) input.old input.new output.old output.new) }
    ensures read { IsErrOf result RunFault.Read → StopsAtRead R.remaining W.contents
        session_answer_to session_after_bytes (session_by rules) input.old input.new output.old
        output.new }
    ensures write { IsErrOf result RunFault.Write → StopsAtWrite R.remaining W.contents
        session_answer_to session_after_bytes (session_by rules) input.old input.new output.old
        output.new }
    ensures memory { IsErrOf result RunFault.Memory →
        NeverBegins R.remaining W.contents input.old input.new output.old output.new }
    ensures reads { read_count input.new ≤ read_count input.old + most_reads }
{
    serve_script(alloc, HostScript::by(rules), input, output)
}
