//! A server as a consumer of lines.
use crate::fault::RunFault;
use crate::lines::TakeLine;
use crate::serve::Serve;
use crate::watched::Watched;
use std::alloc::Global;
use std::io::Write;

/// A server whose answers go to a writer.
#[derive(Drop)]
pub(crate) struct Served<S> {
    pub(crate) alloc: Global,
    pub(crate) server: S,
}

impl<S: Serve + Drop, W: Write> TakeLine<Watched<W>> for Served<S> {
    ghost use Rattle.numa_lines.specs.Progress.{Progress, IsHanded};

    ghost has_taken = { λ first begun now output lines.
        (start : S.State) → S.stands_for first.server start
        → Progress W.contents S.plenty S.answer_of S.after start (S.stands_for now.server)
        begun output lines };

    ghost fails = { λ _. ⊥ };

    ghost handed = { IsHanded };

    fn take(
        &mut self,
        _name: &str,
        _place: u64,
        line: &[u8],
        output: &mut Watched<W>,
    ) -> Result<(), RunFault> {
        self.server.serve(self.alloc, line, output);
        Ok(())
    }

    fn hand_over(&mut self, output: &mut Watched<W>) -> Result<(), RunFault> {
        output.hand_over()
    }
}
