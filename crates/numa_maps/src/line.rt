//! One line of the listing.
ghost use Rattle.std.specs.Prelude.{◌≡◌, ℕ, ◌+◌, ◌<◌, ◌≤◌, ◌^◌, ◌++◌, [], decimal, length};
ghost use Rattle.std.specs.Prelude.{slice_index};
ghost use Rattle.arrayvec.specs.ArrayString.{array_string_len};
ghost use Rattle.numa_machine.specs.Sizes.{is_part};
ghost use Rattle.numa_maps.specs.Listing.{address_text, counted_in, node_text, nodes_text};
ghost use Rattle.numa_maps.specs.Listing.{placed_text, policy_or_default, range_line};
ghost use Rattle.numa_ranges.specs.Runs.{end_of};

use crate::counted::push_counts;
use crate::hex::push_hex;
use crate::resident::Resident;
use arrayvec::ArrayString;
use itoa::Buffer;
use numa_machine::is_part;
use numa_mode::Record;
use numa_ranges::Run;
use numa_requests::PAGE_BYTES;
use numa_space::RangeRecord;

/// The text of a line. It has room for an address of 16 digits, a space, a policy of 1024 bytes, a
/// word of 5 bytes, the number of placed pages in 26 bytes, 256 nodes of 26 bytes each, the size of
/// a page in 23 bytes, and a line feed.
pub(crate) type LineText = ArrayString<8192>;

/// Appends a word and a number.
pub(crate) fn push_number(text: &mut LineText, word: &str, number: u64)
    requires { array_string_len text.old + length word.now + length (decimal number) ≤ 8192 }
    ensures { text.new.bytes ≡ text.old.bytes ++ word.now ++ decimal number }
{
    text.push_str(word);
    text.push_str(Buffer::new().format(number));
}

/// Appends the address of a page.
pub(crate) fn push_address(text: &mut LineText, page: u64)
    requires page { page < 2 ^ 36 }
    requires room { array_string_len text.old + 16 ≤ 8192 }
    ensures bytes { text.new.bytes ≡ text.old.bytes ++ address_text page }
    ensures short { array_string_len text.new ≤ array_string_len text.old + 16 }
{
    push_hex(text, page * PAGE_BYTES, 8);
}

/// Appends a policy, or `default` without one.
pub(crate) fn push_policy(text: &mut LineText, policy: Option<Record>)
    requires room { array_string_len text.old + 1024 ≤ 8192 }
    ensures bytes { text.new.bytes ≡ text.old.bytes ++ policy_or_default policy }
    ensures short { array_string_len text.new ≤ array_string_len text.old + 1024 }
{
    match policy {
        Some(policy) => text.push_str(policy.policy_text().as_str()),
        None => text.push_str("default"),
    }
}

/// Appends a node and its number of pages, if it has any.
fn push_node(text: &mut LineText, node: usize, pages: u64)
    requires node { node < 256 }
    requires room { array_string_len text.old + 26 ≤ 8192 }
    ensures bytes { text.new.bytes ≡ text.old.bytes ++ node_text node pages }
    ensures short { array_string_len text.new ≤ array_string_len text.old + 26 }
{
    if pages > 0 {
        push_number(text, " N", node as u64);
        push_number(text, "=", pages);
    }
}

/// Appends each node that has pages, in ascending order.
pub(crate) fn push_nodes(text: &mut LineText, pages: &[u64; 256])
    requires room { array_string_len text.old + 6656 ≤ 8192 }
    ensures bytes { text.new.bytes ≡ text.old.bytes
        ++ nodes_text (λ node. slice_index pages.now node) }
    ensures short { array_string_len text.new ≤ array_string_len text.old + 6656 }
{
    for node in 0..256 {
        push_node(text, node, pages[node]);
    }
}

/// Appends the placed pages of a range, if there are any; a page of 2 MiB lies where the lowest of
/// its placed parts does.
fn push_placed(text: &mut LineText, resident: &Resident, range: &Run<RangeRecord>)
    requires range { end_of range.now ≤ 2 ^ 35 }
    requires room { array_string_len text.old + 6705 ≤ 8192 }
    ensures bytes { text.new.bytes ≡ text.old.bytes
        ++ placed_text (is_part range.now.index) (counted_in resident.now range.now) }
    ensures short { array_string_len text.new ≤ array_string_len text.old + 6705 }
{
    if is_part(range.index) {
        let count = resident.huge_in(range);
        push_counts(text, count as u64, &resident.huge_by_node(range), true);
        return;
    }
    let count = resident.count_in(range);
    push_counts(text, count as u64, &resident.pages_by_node(range), false);
}

/// Replaces the text by the line of a range whose pages have this policy.
pub(crate) fn write_line(
    text: &mut LineText,
    policy: Option<Record>,
    resident: &Resident,
    range: &Run<RangeRecord>,
)
    requires { end_of range.now ≤ 2 ^ 35 }
    ensures { text.new.bytes ≡ range_line policy resident.now range.now }
{
    text.clear();
    push_address(text, range.first);
    text.push(' ');
    push_policy(text, policy);
    push_placed(text, resident, range);
    text.push('\n');
}
