//! The colours of nodes, in pictures and pages.

use crate::written::Written;

/// Sixteen colours that readers tell apart who see all, and those who see no red, no green or no
/// blue; in grey print neighbours differ by a quarter of the way from black to white. Nodes whose
/// numbers differ by a multiple of 16 share one.
static FILLS: [&str; 16] = [
    "#2aaa00", "#2a2a80", "#d4d4ff", "#805555", "#ff80ff", "#802a00", "#8080aa", "#aaff00",
    "#552a2a", "#ff00ff", "#00ff80", "#002aff", "#d48080", "#5500aa", "#ffd4d4", "#8055aa",
];

/// Whether letters on them are white; else they are black.
static IS_DARK: [bool; 16] = [
    false, true, false, true, false, true, false, false, true, false, false, true, false, true,
    false, true,
];

/// The background colour of a node.
pub fn fill_of(node: u64) -> &'static str {
    FILLS[(node % 16) as usize]
}

/// The colour of letters on it.
pub fn ink_of(node: u64) -> &'static str {
    if IS_DARK[(node % 16) as usize] {
        "#ffffff"
    } else {
        "#000000"
    }
}

/// Writes the colours as a list of a page's script: of each node in turn its background and that of
/// letters on it.
pub fn put_colours(text: &mut Written) {
    text.put(b"[");
    for node in 0..16u64 {
        text.put(if node == 0 { b"['".as_slice() } else { b", ['" });
        text.put(fill_of(node).as_bytes());
        text.put(b"', '");
        text.put(ink_of(node).as_bytes());
        text.put(b"']");
    }
    text.put(b"]");
}
