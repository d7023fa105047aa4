//! The lines of workers.
ghost use Rattle.std.specs.Prelude.{◌≡◌, ℕ, List, Option};
ghost use Rattle.numa_script.specs.Workers.{request_of, frame_of, publish_work, begin_work};
ghost use Rattle.numa_script.specs.Workers.{look_work, try_work, give_work, touch_work};
ghost use Rattle.numa_script.specs.Workers.{release_work};

use crate::number::{frame_number, node, page, small};
use crate::reading::{three, two, two_words};
use crate::words::Words;
use numa_machine::Frame;
use numa_requests::{Event, PAGE_BYTES, Request};

/// Work for a worker, or the publication of the commands so far. Workers are numbered from 0.
#[derive(Clone, Copy, Debug, PartialEq, Eq)]
pub enum Work {
    /// One event of the core, for `publish`, `begin`, `look`, `try` and `give`; never a command.
    Event(Event),
    /// The worker finds a frame for the request, and the page keeps it.
    Touch(u32, Request),
    /// The worker gives back the frame of the page with this number.
    Release(u32, u64),
}

/// `TASK ADDR CPU`
#[inline(always)]
fn request(words: Words) -> Option<Request>
    ensures { result ≡ request_of words.entry }
{
    let (task, address, cpu): (u32, u64, u32) = three(words)?;
    let page = address / PAGE_BYTES;
    Some(Request { task, page, cpu })
}

/// `NODE FRAME`
fn frame(words: Words) -> Option<Frame>
    ensures { result ≡ frame_of words.entry }
{
    let (node_word, number_word) = two_words(words)?;
    Some(Frame {
        node: node(node_word)?,
        number: frame_number(number_word)?,
    })
}

/// `publish`. `None` is a malformed line.
pub fn publish(mut words: Words) -> Option<Work>
    ensures { result ≡ publish_work words.entry }
{
    match words.next() {
        None => Some(Work::Event(Event::Publish)),
        Some(_) => None,
    }
}

/// `begin W TASK ADDR CPU`. `None` is a malformed line.
pub fn begin(mut words: Words) -> Option<Work>
    ensures { result ≡ begin_work words.entry }
{
    Some(Work::Event(Event::Begin(small(words.next()?)?, request(words)?)))
}

/// `look W WORD`. `None` is a malformed line.
pub fn look(words: Words) -> Option<Work>
    ensures { result ≡ look_work words.entry }
{
    let (worker, word) = two(words)?;
    Some(Work::Event(Event::Look(worker, word)))
}

/// `try W NODE FRAME`. `None` is a malformed line.
pub fn try_frame(mut words: Words) -> Option<Work>
    ensures { result ≡ try_work words.entry }
{
    Some(Work::Event(Event::Try(small(words.next()?)?, frame(words)?)))
}

/// `give W NODE FRAME`. `None` is a malformed line.
pub fn give(mut words: Words) -> Option<Work>
    ensures { result ≡ give_work words.entry }
{
    Some(Work::Event(Event::Give(small(words.next()?)?, frame(words)?)))
}

/// `touch W TASK ADDR CPU`. `None` is a malformed line.
#[inline(always)]
pub fn touch(mut words: Words) -> Option<Work>
    ensures { result ≡ touch_work words.entry }
{
    Some(Work::Touch(small(words.next()?)?, request(words)?))
}

/// `release W ADDR`. `None` is a malformed line.
#[inline(always)]
pub fn release(words: Words) -> Option<Work>
    ensures { result ≡ release_work words.entry }
{
    let (worker, address) = two_words(words)?;
    Some(Work::Release(small(worker)?, page(address)?))
}
