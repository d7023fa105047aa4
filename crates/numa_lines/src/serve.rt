//! Servers, which answer the lines of a script.
ghost use Rattle.std.specs.Prelude.{ℕ, List};
ghost use Rattle.numa_lines.specs.Written.{Said};

use crate::watched::Watched;
use std::alloc::Global;
use std::io::Write;

/// A server of the lines of a script, one after the other.
pub trait Serve {
    /// The state that the lines so far lead to.
    ghost State: { Type 0 };

    /// That a server is in a state.
    ghost stands_for: { Self → State → Type 0 };

    /// What memory may lack for while a line is served.
    ghost Lack: { Type 0 };

    /// It lacked for nothing.
    ghost plenty: { Lack };

    /// The answer to a line in a state, where memory lacked for this while it was served.
    ghost answer_of: { Lack → State → List ℕ → List ℕ };

    /// The state after a line.
    ghost after: { Lack → State → List ℕ → State };

    /// Serves a line, without its line feed, and writes its answer. Of a line of more than 4,097
    /// bytes it gets the first 4,097.
    fn serve<W: Write>(&mut self, alloc: Global, line: &[u8], output: &mut Watched<W>)
        ensures { (state : State) → stands_for self.old state
            → (refused : Lack) × stands_for self.new (after refused state line.now)
            × Said W.contents output.old output.new (answer_of refused state line.now) };
}
