//! A text that is written part by part.
use itoa::Buffer;
use std::alloc::AllocError;
use std::mem::replace;

/// The digits of hexadecimal numbers.
static DIGITS: [u8; 16] = *b"0123456789abcdef";

/// A text that is being appended to. After it ran out of memory nothing more is appended.
#[derive(Drop)]
pub struct Text {
    bytes: Vec<u8>,
    outcome: Result<(), AllocError>,
}

impl Text {
    /// Takes over some bytes until `end`.
    pub fn of(bytes: &mut Vec<u8>) -> Text {
        let none = Vec::new(*bytes.allocator());
        Text {
            bytes: replace(bytes, none),
            outcome: Ok(()),
        }
    }

    /// Appends some bytes.
    pub fn put_bytes(&mut self, bytes: &[u8]) {
        if let Ok(()) = self.outcome {
            self.outcome = self.bytes.extend_from_slice(bytes);
        }
    }

    /// Appends words.
    pub fn put(&mut self, words: &str) {
        self.put_bytes(words.as_bytes());
    }

    /// Appends words and a decimal number.
    pub fn put_number(&mut self, words: &str, number: u64) {
        let mut buffer = Buffer::new();
        self.put(words);
        self.put(buffer.format(number));
    }

    /// Appends words and a hexadecimal number with `0x`.
    pub fn put_hex(&mut self, words: &str, number: u64) {
        let zeros = number.leading_zeros() / 4;
        self.put(words);
        self.put("0x");
        for place in zeros.min(15)..16 {
            let digit = (number >> (60 - 4 * place)) % 16;
            self.put_bytes(&[DIGITS[digit as usize]]);
        }
    }

    /// Appends a format in which each `$` stands for the next of the numbers.
    pub fn put_form(&mut self, form: &str, numbers: &[u64]) {
        let mut rest = numbers;
        for letter in form.as_bytes() {
            if *letter != b'$' {
                self.put_bytes(&[*letter]);
            } else if let Some((number, behind)) = rest.split_first() {
                self.put_number("", *number);
                rest = behind;
            }
        }
    }

    /// Gives the bytes back.
    ///
    /// # Errors
    /// `AllocError`: there wasn't memory for all of them.
    pub fn end(self, bytes: &mut Vec<u8>) -> Result<(), AllocError> {
        *bytes = self.bytes;
        self.outcome
    }
}
