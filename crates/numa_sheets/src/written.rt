//! A text that is written part by part.

use crate::boxes::put_hatching;
use crate::object::Object;
use itoa::Buffer;
use std::alloc::{AllocError, Global};
use std::mem::replace;

/// The last eight hexadecimal digits of a number.
fn last_digits(number: u64) -> [u8; 8] {
    let low = number & 0xFFFF_FFFF;
    let halves = (low | (low << 16)) & 0x0000_FFFF_0000_FFFF;
    let pairs = (halves | (halves << 8)) & 0x00FF_00FF_00FF_00FF;
    let values = (pairs | (pairs << 4)) & 0x0F0F_0F0F_0F0F_0F0F;
    // Has 1 in each byte whose digit is a letter. In ASCII the letters a to f are 39 codes further
    // on than the digits would continue.
    let letters = (values.wrapping_add(0x0606_0606_0606_0606) >> 4) & 0x0101_0101_0101_0101;
    let digits = values.wrapping_add(letters.wrapping_mul(39));
    digits.wrapping_add(0x3030_3030_3030_3030).to_be_bytes()
}

/// The pages of a mebibyte, and how many of a unit are one of the next.
const MEBIBYTE: u64 = 256;

const TIMES: u64 = 1024;

/// A text that is written part by part. After it ran out of memory nothing more is written.
#[derive(Drop)]
pub struct Written {
    alloc: Global,
    text: Vec<u8>,
    lacks_memory: bool,
}

impl Written {
    /// An empty text.
    pub fn new(alloc: Global) -> Written {
        Written {
            alloc,
            text: Vec::new(alloc),
            lacks_memory: false,
        }
    }

    /// Its allocator.
    pub fn alloc(&self) -> Global {
        self.alloc
    }

    /// Notes that there was no memory for a part.
    pub fn lack(&mut self) {
        self.lacks_memory = true;
    }

    /// Writes a part.
    #[inline(always)]
    pub fn put(&mut self, part: &[u8]) {
        if !self.lacks_memory {
            self.lacks_memory = self.text.extend_from_slice(part).is_err();
        }
    }

    /// Writes a number in decimal digits.
    pub fn put_number(&mut self, number: u64) {
        if number < 10 {
            self.put(&[b'0' + number as u8]);
            return;
        }
        let mut buffer = Buffer::new();
        self.put(buffer.format(number).as_bytes());
    }

    /// Writes a number in at least eight hexadecimal digits.
    pub fn put_address(&mut self, number: u64) {
        let zeros = (number.leading_zeros() / 4) as usize;
        if zeros < 8 {
            let digits = last_digits(number >> 32);
            self.put(&digits[zeros..]);
        }
        self.put(&last_digits(number));
    }

    /// Writes the address of a first byte, and that after the last.
    pub fn put_addresses(&mut self, start: u64, end: u64) {
        self.put_address(start);
        self.put(b"-");
        self.put_address(end);
    }

    /// Writes a number in decimal digits, with commas between thousands.
    pub fn put_grouped(&mut self, number: u64) {
        let mut buffer = Buffer::new();
        let digits = buffer.format(number).as_bytes();
        let mut left = digits.len();
        for digit in digits {
            if left % 3 == 0 && left < digits.len() {
                self.put(b",");
            }
            self.put(&[*digit]);
            left = left.saturating_sub(1);
        }
    }

    /// Writes so many pages in a unit with this many, with a decimal if they are less than ten
    /// units.
    fn put_units(&mut self, pages: u64, unit: u64, name: &[u8]) {
        let half = unit / 2;
        let tenths = pages.saturating_mul(10).saturating_add(half);
        let tenths = tenths.checked_div(unit).unwrap_or(0);
        if tenths < 100 && tenths % 10 > 0 {
            self.put_form(b"$.$", &[tenths / 10, tenths % 10]);
        } else {
            let units = pages.saturating_add(half);
            self.put_grouped(units.checked_div(unit).unwrap_or(0));
        }
        self.put(name);
    }

    /// Writes the size of so many pages, rounded, in a unit of which there are 1 to 1,024: `520
    /// KiB`, `1.5 GiB`.
    pub fn put_size(&mut self, pages: u64) {
        let gibibyte = MEBIBYTE * TIMES;
        let tebibyte = gibibyte * TIMES;
        if pages < MEBIBYTE {
            self.put_form(b"$ KiB", &[pages * 4]);
        } else if pages < gibibyte {
            self.put_units(pages, MEBIBYTE, b" MiB");
        } else if pages < tebibyte {
            self.put_units(pages, gibibyte, b" GiB");
        } else {
            self.put_units(pages, tebibyte, b" TiB");
        }
    }

    /// Writes the words that stand behind the number of things: those for one, or for several.
    pub fn put_either(&mut self, number: u64, one: &[u8], several: &[u8]) {
        self.put(if number == 1 { one } else { several });
    }

    /// Writes a number of pages with their size: `33,291 pages (130 MiB)`.
    pub fn put_amount(&mut self, pages: u64) {
        self.put_grouped(pages);
        self.put_either(pages, b" page (", b" pages (");
        self.put_size(pages);
        self.put(b")");
    }

    /// Writes words of others as text of a picture. U+FFFD stands for each byte that isn't
    /// printable ASCII.
    pub fn put_escaped(&mut self, words: &[u8]) {
        for byte in words {
            match byte {
                b'&' => self.put(b"&amp;"),
                b'<' => self.put(b"&lt;"),
                b'>' => self.put(b"&gt;"),
                b'"' => self.put(b"&quot;"),
                b'\'' => self.put(b"&#39;"),
                b' '..=b'~' => self.put(&[*byte]),
                _ => self.put(b"\xEF\xBF\xBD"),
            }
        }
    }

    /// Writes a number of pages in words.
    pub fn put_pages(&mut self, pages: u64) {
        self.put_number(pages);
        self.put_either(pages, b" page", b" pages");
    }

    /// Writes a format in which each `$` stands for the next of the numbers.
    pub fn put_form(&mut self, form: &[u8], numbers: &[u64]) {
        let mut rest = numbers;
        for byte in form {
            if *byte != b'$' {
                self.put(&[*byte]);
            } else if let Some((number, behind)) = rest.split_first() {
                self.put_number(*number);
                rest = behind;
            }
        }
    }

    /// Begins a picture with this many rows of pixels.
    pub fn begin_picture(&mut self, height: u64) {
        self.put_form(
            b"<?xml version=\"1.0\" encoding=\"UTF-8\"?>\n\
            <svg xmlns=\"http://www.w3.org/2000/svg\" version=\"1.1\" \
            width=\"920\" height=\"$\" viewBox=\"0 0 920 $\" \
            font-family=\"monospace\" font-size=\"12\">\n\
            <rect width=\"920\" height=\"100%\" fill=\"#ffffff\"/>\n",
            &[height, height],
        );
        put_hatching(self);
    }

    /// Writes how many of a picture's pages that move are in parts of this kind that aren't drawn,
    /// if there are such parts.
    pub fn put_undrawn(&mut self, kind: &[u8], parts: u64, moved: u64) {
        if parts == 0 {
            return;
        }
        self.put(b", of them ");
        self.put_grouped(moved);
        self.put_form(b" in $ ", &[parts]);
        self.put(kind);
        self.put_either(parts, b" that isn't drawn", b"s that aren't drawn");
    }

    /// Writes a JSON object.
    pub fn put_object(&mut self, object: Object) {
        let Ok(value) = object.made() else {
            self.lack();
            return;
        };
        match value.to_vec(self.alloc) {
            Ok(text) => self.put(text.as_slice()),
            Err(_) => self.lack(),
        }
    }

    /// The number of bytes written so far.
    pub fn len(&self) -> usize {
        self.text.len()
    }

    /// Whether there was memory for all of it.
    ///
    /// # Errors
    /// `AllocError`: out of memory when the text was written.
    pub fn checked(&self) -> Result<(), AllocError> {
        if self.lacks_memory {
            return Err(AllocError);
        }
        Ok(())
    }

    /// Takes the whole text out; it is empty afterwards.
    ///
    /// # Errors
    /// `AllocError`: out of memory, now or when the text was written.
    pub fn take(&mut self) -> Result<Vec<u8>, AllocError> {
        self.checked()?;
        Ok(replace(&mut self.text, Vec::new(self.alloc)))
    }
}
