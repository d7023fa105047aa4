//! How what a trace met is told.
ghost use Rattle.std.specs.Prelude.{◌≡◌, false};

use numa_sheets::Format;

/// How what a trace met is told.
#[derive(Clone, Copy)]
pub struct ReplayForm {
    pub format: Format,
    /// Whether the mean distance is told too, in text, objects and pages.
    pub has_mean: bool,
    /// Whether it is told by range too.
    pub by_range: bool,
}

impl ReplayForm {
    /// In this format, without the mean distance, and not by range.
    pub fn plain(format: Format) -> ReplayForm
        ensures format { result.format ≡ format }
        ensures mean { result.has_mean ≡ false }
        ensures ranges { result.by_range ≡ false }
    {
        ReplayForm {
            format,
            has_mean: false,
            by_range: false,
        }
    }

    /// The same in another format.
    pub fn with(self, format: Format) -> ReplayForm
        ensures format { result.format ≡ format }
        ensures mean { result.has_mean ≡ self.has_mean }
        ensures ranges { result.by_range ≡ self.by_range }
    {
        ReplayForm {
            format,
            has_mean: self.has_mean,
            by_range: self.by_range,
        }
    }
}
