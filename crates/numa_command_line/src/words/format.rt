//! The format of an answer: `--format FORMAT`.
ghost use Rattle.std.specs.Prelude.{◌≡◌};
ghost use Rattle.clap.specs.Words.{found_of, rows_of};
ghost use Rattle.numa_command_line.specs.Asked.{is_drawn, is_page};
ghost use Rattle.numa_command_line.specs.Values.{format_in, format_named};

use crate::found::{small_at, text_at};
use crate::usage::{Argument, Takes};
use clap::ArgMatches;
use numa_sheets::{DRAWN, Format, LISTED};

/// The option `--format FORMAT` of a subcommand that answers as text or in one of these formats.
macro_rules! format_option {
    ($($name:literal),*) => {
        Argument {
            name: "format",
            value: "FORMAT",
            help: "How the answer is written",
            is_required: false,
            takes: Takes::OneOf("text", &["text", $($name),*]),
        }
    };
}

/// The option `--format FORMAT` of a subcommand that answers as text or JSON.
pub const PLAIN: Argument = format_option!["json"];

/// The option `--format FORMAT` of `expect`.
pub const TESTED: Argument = format_option!["json", "tap"];

/// The option `--format FORMAT` of `predict`.
pub const PREDICTED: Argument = format_option!["json", "csv", "svg", "html"];

/// The option `--format FORMAT` of `diff`.
pub const COMPARED: Argument = format_option!["json", "svg", "html"];

/// The option `--format FORMAT` of `moves` and `explain`.
pub const DRAWN_TOO: Argument = format_option!["json", "svg"];

/// The option `--format FORMAT` of `replay`.
pub const REPLAYED: Argument = format_option!["json", "csv", "html"];

/// The option `--largest N` of a subcommand that answers by a picture or a page.
pub const LARGEST: Argument = Argument {
    name: "largest",
    value: "N",
    help: "Shows the N largest ranges by themselves, and the others as a sum; without it 40 \
in a picture, 400 in a page",
    is_required: false,
    takes: Takes::Number,
};

/// The format with this name, and with so many ranges, if it shows some.
fn format_of(name: &str, largest: Option<u32>) -> Format
    ensures { result ≡ format_named largest name.now }
{
    match name {
        "json" => Format::Json,
        "csv" => Format::Csv,
        "svg" => Format::Svg(largest.unwrap_or(DRAWN)),
        "html" => Format::Html(largest.unwrap_or(LISTED)),
        "tap" => Format::Tap,
        _ => Format::Text,
    }
}

/// The requested format.
pub fn format_in(matches: &ArgMatches<'_>) -> Format
    ensures { result ≡ format_in (rows_of (found_of matches.now)) }
{
    match text_at(matches, "format") {
        Some(name) => format_of(name, small_at(matches, "largest")),
        None => Format::Text,
    }
}

/// Whether a format is a page.
pub fn is_page(format: Format) -> bool
    ensures { result ≡ is_page format }
{
    match format {
        Format::Html(_) => true,
        _ => false,
    }
}

/// Whether a format is a picture or a page.
pub fn is_drawn(format: Format) -> bool
    ensures { result ≡ is_drawn format }
{
    match format {
        Format::Svg(_) => true,
        _ => is_page(format),
    }
}
