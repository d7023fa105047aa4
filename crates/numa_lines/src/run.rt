//! A script from a reader, and its answers to a writer.
ghost use Rattle.std.specs.Prelude.{◌≤◌, ◌+◌, OnOk, IsErrOf};
ghost use Rattle.numa_lines.specs.Output.{SeesEnough};
ghost use Rattle.numa_lines.specs.Runs.{AnswersAll, NeverBegins, StopsAtRead, StopsAtWrite};
ghost use Rattle.numa_lines.specs.Runs.{most_reads};
ghost use Rattle.numa_lines.specs.Watching.{read_count};

use crate::fault::RunFault;
use crate::lines::Lines;
use crate::reading::{READS, read_text};
use crate::serve::Serve;
use crate::served::Served;
use crate::watched::Watched;
use std::alloc::Global;
use std::io::{Read, Write};

/// Reads a script, has the server answer its lines, and writes the answers; those to the lines that
/// have ended are written before the next read. Makes at most 4,294,967,295 reads. Clears any
/// earlier error of reader or writer. The server must answer a line as its first 4,097 bytes.
///
/// # Errors
/// `Read`: a read failed, or one more was needed. `Write`: a write failed or took no byte, after
/// which nothing more is read or written. `Memory`: out of memory for the open line and the
/// answers, before anything is read.
pub fn serve_script<S: Serve + Drop, R: Read, W: Write>(
    alloc: Global,
    server: S,
    input: &mut Watched<R>,
    output: &mut Watched<W>,
) -> Result<(), RunFault>
    requires enough { SeesEnough S.answer_of S.after }
    ensures ok { (start : S.State) → S.stands_for server start
        → OnOk result (AnswersAll R.remaining W.contents S.answer_of S.after start
        input.old input.new output.old output.new) }
    ensures read { (start : S.State) → S.stands_for server start
        → IsErrOf result RunFault.Read → StopsAtRead R.remaining W.contents S.answer_of S.after
        start input.old input.new output.old output.new }
    ensures write { (start : S.State) → S.stands_for server start
        → IsErrOf result RunFault.Write → StopsAtWrite R.remaining W.contents S.answer_of S.after
        start input.old input.new output.old output.new }
    ensures memory { IsErrOf result RunFault.Memory →
        NeverBegins R.remaining W.contents input.old input.new output.old output.new }
    ensures reads { read_count input.new ≤ read_count input.old + most_reads }
{
    let Ok(mut lines) = Lines::new(alloc, Served { alloc, server }) else {
        return Err(RunFault::Memory);
    };
    let Ok(()) = output.gather(alloc) else {
        return Err(RunFault::Memory);
    };
    input.begin();
    output.begin();
    let Ok(()) = output.hand_over() else {
        return Err(RunFault::Write);
    };
    match read_text(input, READS, &mut lines, output) {
        Ok(_) => {}
        Err(why) => return Err(why),
    }
    match lines.finish(output) {
        Ok(()) => Ok(()),
        Err(why) => Err(why),
    }
}
