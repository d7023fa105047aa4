//! Marks for tests of which one growth is refused. `tests/refused-growths/run-built` plays each
//! such test once for every growth between its two marks, with that one refused; run by itself,
//! none is refused.
use std::alloc::Global;

/// How many bytes a mark allocates: a size that no test has of its own.
const MARK: usize = 1_000_003;

/// Marks the beginning and the end of the growths that may be refused, and returns whether there
/// was memory for the mark.
pub fn mark(alloc: Global) -> bool {
    Vec::<u8>::with_capacity(alloc, MARK).is_ok()
}

/// Makes something between two marks, and again if memory was refused. `None` if there was no
/// memory for a mark, or still none.
pub fn made<T: Drop, F: Fn() -> Option<T>>(alloc: Global, make: &F) -> Option<T>
    requires { F.IsAlwaysCallable make.now }
{
    if !mark(alloc) {
        return None;
    }
    let first = make();
    if !mark(alloc) {
        return None;
    }
    match first {
        Some(made) => Some(made),
        None => make(),
    }
}
