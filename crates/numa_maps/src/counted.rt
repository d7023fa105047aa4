//! A line of the listing by counts of pages, whatever they lie there for.
ghost use Rattle.std.specs.Prelude.{◌≡◌, ℕ, ◌+◌, ◌<◌, ◌≤◌, ◌^◌, ◌++◌, length, slice_index};
ghost use Rattle.arrayvec.specs.ArrayString.{array_string_len};
ghost use Rattle.numa_lines.specs.Written.{Said};
ghost use Rattle.numa_maps.specs.Listing.{counted_line, counted_text, huge_line, size_text};

use crate::line::{LineText, push_address, push_nodes, push_number, push_policy};
use numa_lines::Watched;
use numa_mode::Record;
use std::io::Write;

/// The size of a page in KiB, as a word of the line.
fn size_word(huge: bool) -> &'static str
    ensures word { result.now ≡ size_text huge }
    ensures short { length result.now ≤ 23 }
{
    if huge {
        " kernelpagesize_kB=2048"
    } else {
        " kernelpagesize_kB=4"
    }
}

/// Appends how many pages lie somewhere, if any do: all, and those on each node. They are pages of
/// 4 KiB or, if they are `huge`, of 2 MiB.
pub(crate) fn push_counts(text: &mut LineText, count: u64, pages: &[u64; 256], huge: bool)
    requires room { array_string_len text.old + 6705 ≤ 8192 }
    ensures bytes { text.new.bytes ≡ text.old.bytes
        ++ counted_text huge count (λ node. slice_index pages.now node) }
    ensures short { array_string_len text.new ≤ array_string_len text.old + 6705 }
{
    if count > 0 {
        push_number(text, " anon=", count);
        push_nodes(text, pages);
        text.push_str(size_word(huge));
    }
}

/// Replaces the text by the line of a range.
fn write_counted(
    text: &mut LineText,
    policy: Option<Record>,
    first: u64,
    count: u64,
    pages: &[u64; 256],
)
    requires { first < 2 ^ 36 }
    ensures { text.new.bytes
        ≡ counted_line policy first count (λ node. slice_index pages.now node) }
{
    text.clear();
    push_address(text, first);
    text.push(' ');
    push_policy(text, policy);
    push_counts(text, count, pages, false);
    text.push('\n');
}

/// Writes the line of one range, as [`write_maps`](crate::write_maps) does: a range of pages of
/// 4 KiB that begins at page `first`, whose pages have this policy, and of which `count` lie
/// somewhere, `pages[n]` of them on node n.
pub fn say_counted<W: Write>(
    policy: Option<Record>,
    first: u64,
    count: u64,
    pages: &[u64; 256],
    output: &mut Watched<W>,
)
    requires { first < 2 ^ 36 }
    ensures { Said W.contents output.old output.new
        (counted_line policy first count (λ node. slice_index pages.now node)) }
{
    let mut line = LineText::new();
    write_counted(&mut line, policy, first, count, pages);
    output.say(line.as_str().as_bytes());
}

/// Replaces the text by the line of a range of pages of 2 MiB.
fn write_huge(
    text: &mut LineText,
    policy: Option<Record>,
    first: u64,
    count: u64,
    pages: &[u64; 256],
)
    requires { first < 2 ^ 36 }
    ensures { text.new.bytes
        ≡ huge_line policy first count (λ node. slice_index pages.now node) }
{
    text.clear();
    push_address(text, first);
    text.push(' ');
    push_policy(text, policy);
    text.push_str(" huge");
    push_counts(text, count, pages, true);
    text.push('\n');
}

/// Writes the line of one range as [`say_counted`] does, whose pages have 2 MiB.
pub fn say_huge<W: Write>(
    policy: Option<Record>,
    first: u64,
    count: u64,
    pages: &[u64; 256],
    output: &mut Watched<W>,
)
    requires { first < 2 ^ 36 }
    ensures { Said W.contents output.old output.new
        (huge_line policy first count (λ node. slice_index pages.now node)) }
{
    let mut line = LineText::new();
    write_huge(&mut line, policy, first, count, pages);
    output.say(line.as_str().as_bytes());
}
