//! One comparison for all tests, so that it is proved once, and marks.
use std::alloc::Global;
use std::fmt::Debug;
use std::process::Abort;

/// What was found is what was wanted. Where it was found goes with both, in a tuple.
pub fn same<T: PartialEq + Debug>(rt: &impl Abort, found: &T, wanted: &T) {
    assert_eq!(rt; *found, *wanted);
}

/// Marks the beginning and the end of the growths that may be refused.
pub fn mark(rt: &impl Abort, alloc: Global) {
    assert!(rt; numa_examples::mark(alloc));
}
