//! Copying into a C caller's buffer.
ghost use Rattle.numaplan_handles.specs.Room.{Copies};

/// Copies items to the beginning of `room`, and returns their number.
///
/// # Errors
/// Their number, if `room` is too short.
pub fn copy_items<T: Copy>(items: &[T], room: &mut [T]) -> Result<usize, usize>
    ensures { Copies items.now result room.old room.new }
{
    let count = items.len();
    if count > room.len() {
        return Err(count);
    }
    room[..count].copy_from_slice(items);
    Ok(count)
}
