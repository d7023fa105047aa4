//! Formats of answers.

/// How many ranges a picture shows by themselves, where nothing else is wanted.
pub const DRAWN: u32 = 40;

/// The same of a page.
pub const LISTED: u32 = 400;

/// The format of an answer. Each answer has some of them, and is text where it lacks the wanted
/// one.
#[derive(Clone, Copy)]
pub enum Format {
    /// Lines to be read; those of a prediction are in the form of numa_maps (numa(7)).
    Text,
    /// JSON (RFC 8259): one object, or one on each line.
    Json,
    /// Records with a header (RFC 4180, lines ended by a line feed).
    Csv,
    /// A picture (SVG 1.1) of so many ranges, the largest; the others are one bar.
    Svg(u32),
    /// A page to explore in a browser (HTML 5), with its data as JSON: so many ranges, the largest,
    /// and the sum of the others.
    Html(u32),
    /// A test for each compared answer (Test Anything Protocol 13).
    Tap,
}
