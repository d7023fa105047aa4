//! The tests, a module for what is changed. tests/refused-growths/run-built plays each once for
//! every growth between its two marks, with that growth refused; run by itself, none is refused.
mod cores;
mod desks;
mod edits;
mod placed;
mod plans;
mod ranges;
mod same;
mod shown;
mod spaces;
