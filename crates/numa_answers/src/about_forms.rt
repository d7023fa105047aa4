//! Rows of text at the end of a picture, and of a page.

use numa_mask::Parts;
use numa_sheets::{Written, height_of};
use std::alloc::{AllocError, Global};

/// The rows of pixels of a row of text, and those above the first and below the last.
const ROW: u64 = 16;

const ABOVE: u64 = 24;

const BELOW: u64 = 8;

/// What a picture ends with, and a page.
const PICTURE_END: &[u8] = b"</svg>\n";

const PAGE_END: &[u8] = b"</body>\n</html>\n";

/// The rows of pixels that rows of text take.
pub(crate) fn height_of_rows(rows: &[u8]) -> u64 {
    let mut count = 0u64;
    for byte in rows {
        if *byte == b'\n' {
            count = count.saturating_add(1);
        }
    }
    count.saturating_mul(ROW).saturating_add(ABOVE)
}

/// A copy of a text.
fn same(alloc: Global, text: &[u8]) -> Result<Vec<u8>, AllocError> {
    let mut copy = Written::new(alloc);
    copy.put(text);
    copy.take()
}

/// What stands behind the head of a picture with this height.
fn behind_head(alloc: Global, picture: &[u8], height: u64) -> Result<&[u8], AllocError> {
    let mut head = Written::new(alloc);
    head.begin_picture(height);
    let head = head.take()?;
    let body = picture.strip_prefix(head.as_slice()).unwrap_or(picture);
    drop(head);
    Ok(body)
}

/// Draws rows of text below a row of pixels, as a group of this class.
pub(crate) fn put_rows(text: &mut Written, class: &[u8], rows: &[u8], top: u64) {
    text.put(b"<g class=\"");
    text.put(class);
    text.put_form(
        b"\" fill=\"#333333\"><path d=\"M16,$ L904,$\" stroke=\"#333333\"/>\n",
        &[top.saturating_add(4), top.saturating_add(4)],
    );
    let mut line = top.saturating_add(ABOVE);
    for row in Parts::new(rows.strip_suffix(b"\n").unwrap_or(rows), b'\n') {
        text.put_form(b"<text x=\"16\" y=\"$\" xml:space=\"preserve\">", &[line]);
        text.put(row);
        text.put(b"</text>\n");
        line = line.saturating_add(ROW);
    }
    text.put(b"</g>\n");
}

/// A picture with rows of text at its end; what is no picture stays as it is.
pub(crate) fn picture_with(
    alloc: Global,
    picture: &[u8],
    rows: &[u8],
) -> Result<Vec<u8>, AllocError> {
    let Some(whole) = picture.strip_suffix(PICTURE_END) else {
        return same(alloc, picture);
    };
    let height = height_of(picture);
    let body = behind_head(alloc, whole, height)?;
    let more = height_of_rows(rows).saturating_add(BELOW);
    let mut text = Written::new(alloc);
    text.begin_picture(height.saturating_add(more));
    text.put(body);
    put_rows(&mut text, b"about", rows, height);
    text.put(PICTURE_END);
    text.take()
}

/// A page with rows of text at its end; what is no page stays as it is.
pub(crate) fn page_with(alloc: Global, page: &[u8], rows: &[u8]) -> Result<Vec<u8>, AllocError> {
    let Some(body) = page.strip_suffix(PAGE_END) else {
        return same(alloc, page);
    };
    let mut text = Written::new(alloc);
    text.put(body);
    text.put(b"<h2>What this is of</h2>\n<pre id='about'>");
    text.put(rows);
    text.put(b"</pre>\n");
    text.put(PAGE_END);
    text.take()
}
