//! Whether a text has the names of areas: `--names`.
use crate::usage::{Argument, Takes};

/// The option `--names`.
pub const NAMES: Argument = Argument {
    name: "names",
    value: "",
    help: "Writes behind ranges the names of their areas: comments `# name: NAME`, each before a \
line map",
    is_required: false,
    takes: Takes::Nothing,
};
