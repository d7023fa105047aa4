//! Pages that move to frames of other nodes.
ghost use Rattle.std.specs.Prelude.{◌≡◌, Result};
ghost use Rattle.numa_machine.specs.declared.frame.Frame.{Frame};
ghost use Rattle.numa_pool.specs.declared.owned_seat.ExchangeRefusal.{ExchangeRefusal};
ghost use Rattle.numaplan_handles.specs.Handles.{seat_in};
ghost use Rattle.numaplan_handles.specs.Seats.{Migrates};
ghost use Rattle.numaplan_c.specs.Border.{Called};
ghost use Rattle.numaplan_c.specs.Migrations.{exchange_code, TellsFrame};

use crate::codes::Code;
use crate::keeping::if_open;
use crate::pools::{NpFrame, frame_told};
use numa_machine::Frame;
use numa_pool::ExchangeRefusal;
use numaplan_handles::SeatHandle;
use std::alloc::Global;

/// Writes the frame that was got for another one, and returns the code of the result.
fn tell_frame(answer: Result<Frame, ExchangeRefusal>, frame: &mut NpFrame) -> u32
    ensures { (result ≡ exchange_code answer) × TellsFrame answer frame.old frame.new }
{
    match answer {
        Ok(found) => {
            *frame = frame_told(found);
            0
        }
        Err(ExchangeRefusal::NotOwned) => Code::NotOwned as u32,
        Err(ExchangeRefusal::Exhausted) => Code::AllTaken as u32,
    }
}

/// Exchanges a frame that a seat holds for one of a node.
#[unsafe(no_mangle)]
pub extern "C" fn np_seat_migrate(
    alloc: Global,
    seat: &mut SeatHandle,
    node: u8,
    number: u16,
    to: u8,
    frame: &mut NpFrame,
) -> u32
    ensures { Called (seat_in seat.old) result (seat_in seat.new) (frame.new ≡ frame.old) (λ kept.
        (answer : Result Frame ExchangeRefusal) × (result ≡ exchange_code answer)
        × Migrates (record { node = node; number = number }) to (seat_in seat.old)
        (seat_in seat.new) answer × TellsFrame answer frame.old frame.new) }
{
    let answer = seat.migrate(alloc, Frame { node, number }, to);
    if_open!(answer, answer => tell_frame(answer, frame))
}
