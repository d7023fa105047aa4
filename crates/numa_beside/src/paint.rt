//! How bars are drawn at a terminal.

use numa_sheets::{Written, fill_of, ink_of};

/// How bars are drawn.
#[derive(Clone, Copy, PartialEq, Eq)]
pub enum Paint {
    /// By letters alone.
    Plain,
    /// In the nearest of a terminal's 256 colours.
    Near,
    /// In the colours of pictures.
    True,
}

/// A colour: red, green and blue, 0 to 255 each.
#[derive(Clone, Copy)]
struct Colour {
    red: u64,
    green: u64,
    blue: u64,
}

/// The value of a hexadecimal digit.
fn digit_of(byte: u8) -> u64 {
    match byte {
        b'0'..=b'9' => u64::from(byte).saturating_sub(48),
        _ => u64::from(byte).saturating_sub(87),
    }
}

/// The value of two hexadecimal digits at a place.
fn pair_at(text: &[u8], place: usize) -> u64 {
    match text.get(place..place.saturating_add(2)) {
        Some([high, low]) => digit_of(*high)
            .saturating_mul(16)
            .saturating_add(digit_of(*low)),
        _ => 0,
    }
}

/// A colour of pictures, `#rrggbb`.
fn colour_of(text: &str) -> Colour {
    let text = text.as_bytes();
    Colour {
        red: pair_at(text, 1),
        green: pair_at(text, 3),
        blue: pair_at(text, 5),
    }
}

/// The number of the nearest colour among a terminal's six by six by six.
fn near(colour: Colour) -> u64 {
    let step = |value: u64| value.saturating_add(25) / 51;
    let red = step(colour.red).saturating_mul(36);
    let green = step(colour.green).saturating_mul(6);
    red.saturating_add(green)
        .saturating_add(step(colour.blue))
        .saturating_add(16)
}

/// Writes the change to a colour, of the ground (48) or of letters (38).
fn put_colour(text: &mut Written, paint: Paint, what: u64, colour: Colour) {
    match paint {
        Paint::Plain => (),
        Paint::Near => text.put_form(b"\x1b[$;5;$m", &[what, near(colour)]),
        Paint::True => text.put_form(
            b"\x1b[$;2;$;$;$m",
            &[what, colour.red, colour.green, colour.blue],
        ),
    }
}

/// Changes to the colours of a node.
pub(crate) fn begin_node(text: &mut Written, paint: Paint, node: u64) {
    put_colour(text, paint, 48, colour_of(fill_of(node)));
    put_colour(text, paint, 38, colour_of(ink_of(node)));
}

/// Goes back to the colours of other text.
pub(crate) fn end_node(text: &mut Written, paint: Paint) {
    if paint != Paint::Plain {
        text.put(b"\x1b[0m");
    }
}
