//! Whether malformed and refused lines are no error: `--lenient`.
use crate::usage::{Argument, Takes};

/// The option `--lenient`.
pub const LENIENT: Argument = Argument {
    name: "lenient",
    value: "",
    help: "Ends with status 0 even if lines were faulty or refused",
    is_required: false,
    takes: Takes::Nothing,
};
