//! How long the bars of a picture are.
use crate::written::Written;

/// The pixels of the longest bar, and the most of a page.
const LONGEST: u64 = 888;

const PAGE: u64 = 24;

/// How many times larger a range may be than another, if their bars are in proportion.
const TIMES: u64 = 1000;

/// How long bars are, in words.
const LOGARITHMS: &str = "The length of a bar is the logarithm of its pages: some have over 1,000 \
times those of others. Colours are nodes'";

const PROPORTION: &str = "The length of a bar is in proportion to its pages. Colours are nodes'";

/// How long bars are.
#[derive(Clone, Copy)]
pub struct Scale {
    // The pages of the longest bar.
    most: u64,
    is_log: bool,
}

/// A logarithm of a number of pages, with 64 steps to each doubling, and 64 for one page.
fn level(pages: u64) -> u64 {
    let bits = 63u32.saturating_sub(pages.leading_zeros()).min(63);
    let part = pages.saturating_mul(64) >> bits;
    (bits as u64).saturating_mul(64).saturating_add(part)
}

/// A part of a length: `part` of `whole`.
pub fn share(length: u64, part: u64, whole: u64) -> u64 {
    length.saturating_mul(part).checked_div(whole).unwrap_or(0)
}

impl Scale {
    /// The scale of no bars.
    pub fn none() -> Scale {
        Scale {
            most: 0,
            is_log: false,
        }
    }

    /// The scale of bars of which the shortest and the longest have so many pages.
    pub fn between(least: u64, most: u64) -> Scale {
        Scale {
            most,
            is_log: most > least.saturating_mul(TIMES),
        }
    }

    /// Writes how long bars are, in a row of pixels.
    pub fn put_line(&self, text: &mut Written, row: u64) {
        text.put_form(b"<text x=\"16\" y=\"$\" fill=\"#555555\">", &[row]);
        text.put(if self.is_log {
            LOGARITHMS.as_bytes()
        } else {
            PROPORTION.as_bytes()
        });
        text.put(b"</text>\n");
    }

    /// The pixels of a bar: none without pages, else at least one.
    pub fn width(&self, pages: u64) -> u64 {
        if pages == 0 {
            return 0;
        }
        if self.is_log {
            return share(LONGEST, level(pages), level(self.most)).max(1);
        }
        let longest = self.most.saturating_mul(PAGE).min(LONGEST);
        share(longest, pages, self.most).max(1)
    }
}
