//! Lists of nodes as text, as in `0,2-3,5`: the form that the kernel's bitmap_parselist reads,
//! without its strides, and that `/sys/devices/system/node/online` shows.
ghost use Rattle.std.specs.Prelude.{◌≡◌, ◌≢◌, ℕ, ◌+◌, ◌-◌, ◌*◌, ◌<◌, ◌≤◌, ◌++◌};
ghost use Rattle.std.specs.Prelude.{List, length, Ok, Err, Some, None};
ghost use Rattle.numa_mask.specs.NodeSet.{has, with_node};
ghost use Rattle.std.specs.List.{fold};
ghost use Rattle.numa_mask.specs.Lists.{list_of, item_of, ends_of, digit_of, numeral_of};
ghost use Rattle.numa_mask.specs.Lists.{nodes_between, starts_run, run_end, run_text, text_of};

use crate::mask::NodeMask;
use crate::node::NodeId;
use crate::parts::{Parts, first_place};

/// Why a text isn't a list of nodes.
#[derive(Clone, Copy, Debug, PartialEq, Eq, Drop)]
pub enum ListFault {
    /// An empty item, as in the empty text.
    Empty,
    /// An item that is neither `a` nor `a-b` with numbers of 1 to 4 decimal digits.
    BadDigit,
    /// A range whose first number is above its last.
    BackRange,
    /// A number of 256 or more.
    NodeTooHigh,
}

/// The value of a decimal digit.
#[tactic(auto, unfolding(crate::specs::Lists::digit_of))]
fn digit(byte: u8) -> Option<u32>
    ensures { result ≡ digit_of byte }
{
    char::from(byte).to_digit(10)
}

/// The value of 1 to 4 decimal digits.
fn numeral(digits: &[u8]) -> Option<u32>
    ensures { result ≡ numeral_of digits.now }
{
    if digits.is_empty() || digits.len() > 4 {
        return None;
    }
    let mut value = 0;
    for byte in digits {
        value = value * 10 + digit(*byte)?;
    }
    Some(value)
}

/// The two ends of an item `a-b`; of an item `a` both are its number.
fn ends(item: &[u8]) -> Option<(u32, u32)>
    ensures { result ≡ ends_of item.now }
{
    match first_place(item, b'-') {
        Some(dash) => {
            let first = numeral(&item[..dash])?;
            let last = numeral(&item[dash + 1..])?;
            Some((first, last))
        }
        None => {
            let number = numeral(item)?;
            Some((number, number))
        }
    }
}

/// The first and the last node of an item, or what is wrong with it first.
fn read_item(item: &[u8]) -> Result<(u8, u8), ListFault>
    ensures { result ≡ item_of item.now }
{
    if item.is_empty() {
        return Err(ListFault::Empty);
    }
    let Some((first, last)) = ends(item) else {
        return Err(ListFault::BadDigit);
    };
    if last < first {
        return Err(ListFault::BackRange);
    }
    if last > 255 {
        return Err(ListFault::NodeTooHigh);
    }
    Ok((first as u8, last as u8))
}

/// Adds the nodes from `first` to `last`, both included.
fn insert_between(set: &mut NodeMask, first: u8, last: u8)
    ensures { set.new ≡ fold with_node set.old (nodes_between first last) }
{
    for number in first..=last {
        set.insert(NodeId::of(number));
    }
}

/// Reads a list of nodes: items separated by commas, each of them `a` or `a-b`, where a and b are
/// numbers of 1 to 4 decimal digits. Items may overlap and come in any order.
///
/// # Errors
/// The first cause of the first bad item, from the left: `Empty`, an item has no byte; `BadDigit`,
/// it is neither `a` nor `a-b`; `BackRange`, a is above b; `NodeTooHigh`, a number is above 255.
///
/// # Examples
/// ```
/// let both = read_list(b"0-1").ok()?;
/// ```
pub fn read_list(text: &[u8]) -> Result<NodeMask, ListFault>
    ensures { result ≡ list_of text.now }
{
    let mut set = NodeMask::empty();
    for item in Parts::new(text, b',') {
        let (first, last) = read_item(item)?;
        insert_between(&mut set, first, last);
    }
    Ok(set)
}
