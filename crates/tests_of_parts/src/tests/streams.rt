//! A script that is answered by a writer on which a call has failed before.
use crate::tests::same::same;
use numa_lines::{RunFault, Watched};
use numa_run::run;
use std::io;
use std::io::Write;

/// Fails at its first write, and counts the bytes that it takes after that.
#[derive(Drop)]
struct FailsOnce {
    has_failed: bool,
    taken: usize,
}

impl Write for FailsOnce {
    fn write(&mut self, buf: &[u8]) -> io::Result<usize> {
        if !self.has_failed {
            self.has_failed = true;
            return Err(io::Error::other("refused"));
        }
        self.taken = self.taken.wrapping_add(buf.len());
        Ok(buf.len())
    }

    fn flush(&mut self) -> io::Result<()> {
        Ok(())
    }
}

#[test]
fn earlier_faults_are_forgotten(rt: HostRuntime) {
    let mut output = Watched::new(FailsOnce {
        has_failed: false,
        taken: 0,
    });
    same(&rt, &output.put(b"lost"), &Err(RunFault::Write));
    let mut input = Watched::new(b"x\n".as_slice());
    let result = run(rt.alloc(), &mut input, &mut output);
    // "bad words" and the end of its line.
    let found = (result, output.failed(), output.inner.taken);
    same(&rt, &found, &(Ok(()), false, 10));
}
