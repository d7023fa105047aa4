//! The tests, a module a crate.
mod alike;
mod dice;
mod lanes;
mod mode;
mod plan;
mod pool;
mod recompiling;
mod refused_edits;
mod refused_rows;
mod same;
mod streams;
