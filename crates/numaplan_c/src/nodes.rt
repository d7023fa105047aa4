//! Sets of nodes.
ghost use Rattle.std.specs.Prelude.{◌≡◌, MatchResult};
ghost use Rattle.numa_mask.specs.Lists.{list_of, text_of};
ghost use Rattle.numa_mask.specs.Words.{number_of};
ghost use Rattle.numaplan_c.specs.Codes.{list_code};
ghost use Rattle.numaplan_c.specs.Texts.{IsWritten};

use crate::codes::list_code;
use crate::keeping::or_return;
use crate::texts::write;
use numa_mask::{NodeMask, list_text, read_list};

/// A set of nodes: node n is a member if bit n % 64 of word n / 64 is 1.
#[repr(C)]
#[derive(Clone, Copy)]
pub struct NpNodes {
    pub words: [u64; 4],
}

const _: () = prove!(size_of::<NpNodes>() == 32);

/// Reads a list of nodes.
#[unsafe(no_mangle)]
pub extern "C" fn np_nodes_read(text: &[u8], nodes: &mut NpNodes) -> u32
    ensures { MatchResult (list_of text.now)
        (λ set. (result ≡ 0) × (number_of nodes.new.words ≡ set))
        (λ fault. (result ≡ list_code fault) × (nodes.new ≡ nodes.old)) }
{
    let set = or_return!(read_list(text), list_code);
    nodes.words = set.words();
    0
}

/// Writes a set as a list of nodes.
#[unsafe(no_mangle)]
pub extern "C" fn np_nodes_write(nodes: &NpNodes, room: &mut [u8], length: &mut usize) -> u32
    ensures { IsWritten (text_of (number_of nodes.now.words)) result room.old room.new length.new }
{
    let text = list_text(&NodeMask::from_words(nodes.words));
    write(text.as_str().as_bytes(), room, length)
}
