//! Copying texts into a caller's buffer.
ghost use Rattle.std.specs.Prelude.{◌≡◌};
ghost use Rattle.numaplan_c.specs.Texts.{IsTold, IsWritten, copy_code, length_copied};

use crate::codes::Code;
use numaplan_handles::copy_items;

/// The code of the result of a copy.
pub(crate) fn copy_code(told: Result<usize, usize>) -> u32
    ensures { result ≡ copy_code told }
{
    match told {
        Ok(_) => 0,
        Err(_) => Code::NoRoom as u32,
    }
}

/// The length of what was to be copied.
pub(crate) fn length_copied(told: Result<usize, usize>) -> usize
    ensures { result ≡ length_copied told }
{
    match told {
        Ok(length) => length,
        Err(length) => length,
    }
}

/// Copies a text into the buffer, writes its length, and returns a code.
pub(crate) fn write(text: &[u8], room: &mut [u8], length: &mut usize) -> u32
    ensures { IsWritten text.now result room.old room.new length.new }
{
    let told = copy_items(text, room);
    *length = length_copied(told);
    copy_code(told)
}

/// Copies what a number says into the buffer, and writes its length, unless it says nothing.
pub(crate) fn write_told(text: &[u8], room: &mut [u8], length: &mut usize) -> u32
    ensures { IsTold text.now result room.old room.new length.old length.new }
{
    if text.is_empty() {
        return Code::Unknown as u32;
    }
    write(text, room, length)
}
