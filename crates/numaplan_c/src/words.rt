//! The result codes in words: what each says, and what to do.
ghost use Rattle.std.specs.Prelude.{◌≡◌};
ghost use Rattle.numaplan_c.specs.Texts.{IsTold};
ghost use Rattle.numaplan_c.specs.Words.{answer_words, call_words, fault_words, late_words};
ghost use Rattle.numaplan_c.specs.Names.{name_in};

use crate::names::name_in;
use crate::texts::write_told;

/// Writes what a result code says in words.
#[unsafe(no_mangle)]
pub extern "C" fn np_answer_words(code: u32, room: &mut [u8], length: &mut usize) -> u32
    ensures { IsTold (answer_words code) result room.old room.new length.old length.new }
{
    write_told(answer_words(code), room, length)
}

/// What a code says in words, empty if there is none.
#[tactic(auto, unfolding(crate::specs::Words::answer_words))]
fn answer_words(code: u32) -> &'static [u8]
    ensures { result.now ≡ answer_words code }
{
    if code < 50 {
        return call_words(code);
    }
    if code < 90 {
        return fault_words(code);
    }
    late_words(code)
}

/// What a code below 50 says, empty if it has none.
fn call_words(code: u32) -> &'static [u8]
    ensures { result.now ≡ name_in call_words code }
{
    name_in(&CALL_WORDS, code)
}

/// The words of the codes below 50.
static CALL_WORDS: [(u32, &[u8]); 35] = [
    (0, b"it is done"),
    (
        1,
        b"this keeps nothing, since it was closed; open a new one",
    ),
    (2, b"this keeps something already; close it first"),
    (
        3,
        b"out of memory; nothing has changed, so free some and call again",
    ),
    (
        4,
        b"the answer is longer than the room for it; call again with what it needs",
    ),
    (
        5,
        b"no answer has this number; numaplan.h has those that there are",
    ),
    (
        6,
        b"the line was served, without memory for its answer; free some and ask again",
    ),
    (
        10,
        b"as many commands as the limits allow were accepted; open a core with a higher \
          max_commands",
    ),
    (
        11,
        b"the start is no multiple of 4096, or start, end or offset lies inside a page of \
          2 MiB; round to whole pages",
    ),
    (12, b"the span ends above address 2^47; use lower addresses"),
    (13, b"the length is 0; map at least one byte"),
    (
        14,
        b"the offset is 2^35 or more; it is in pages, not in bytes",
    ),
    (15, b"a page of the span is mapped already; unmap it first"),
    (
        16,
        b"a page of the span isn't mapped; map it first, or bind each mapped part by itself",
    ),
    (
        17,
        b"the machine lacks the node; its nodes are numbered from 0",
    ),
    (
        18,
        b"the weight is 0 or above 255; choose one from 1 to 255",
    ),
    (
        19,
        b"the policy would have no node, or no node of set_mems has memory; name one that \
          is allowed and has memory",
    ),
    (
        20,
        b"a page of the span has a policy that takes no home; leave it out",
    ),
    (
        21,
        b"as many tasks as the limits allow have a policy; set one to default, or open a \
          core with a higher max_tasks",
    ),
    (
        22,
        b"there would be more ranges than the limits allow; unmap some, or open a core \
          with a higher max_ranges",
    ),
    (
        23,
        b"by the kernel's rules some page of the span needs a policy of its own; bind one first",
    ),
    (
        24,
        b"by the kernel's rules the span ends too high; use lower addresses",
    ),
    (25, b"by the kernel's rules set_mems needs a node; name one"),
    (
        30,
        b"there are not so many workers; they are numbered from 0",
    ),
    (
        31,
        b"the worker looks for a frame; let it win one, or exhaust its list, by look and \
          try_frame",
    ),
    (32, b"the worker looks for no frame; begin first"),
    (
        33,
        b"the current node lacks the frame, or the worker has met it; touch finds a frame \
          by itself",
    ),
    (
        34,
        b"the frame isn't held here; give it back where it was taken, and once",
    ),
    (
        35,
        b"the machine lacks the node of the CPU; its nodes are numbered from 0",
    ),
    (
        36,
        b"the page isn't mapped, or isn't published yet where a worker looks; map it, or \
          look at its number, which is address / 4096",
    ),
    (37, b"there are not so many ranges; they are counted from 0"),
    (
        38,
        b"two of the placements are of one page; hand in one for each page",
    ),
    (40, b"the worker goes on; it has a current node"),
    (
        41,
        b"each frame of each listed node is taken; give one back, and begin anew",
    ),
    (
        42,
        b"each frame of each listed node is taken; give one back first",
    ),
];

/// What a code of an error in a machine, a list, a policy word or a question about a script says,
/// empty if it has none.
fn fault_words(code: u32) -> &'static [u8]
    ensures { result.now ≡ name_in fault_words code }
{
    name_in(&FAULT_WORDS, code)
}

/// The words of the codes of errors in machines, lists, policy words and questions about scripts.
static FAULT_WORDS: [(u32, &[u8]); 23] = [
    (
        50,
        b"no node, more than 256, or not one distance from each node to each; give one \
          number of frames and one row of distances for each node",
    ),
    (
        51,
        b"no node has memory, or one that the machine lacks; name some of its nodes",
    ),
    (
        52,
        b"a node isn't 10 from itself, or is 10 or less from another",
    ),
    (
        53,
        b"a node has more than 4096 frames, or some and no memory, or all have more than \
          65536; use less",
    ),
    (
        54,
        b"max_ranges is above 65536, or max_tasks above 1024; use less",
    ),
    (55, b"no worker, or more than 16; use 1 to 16"),
    (
        56,
        b"no rules have this number; numaplan.h has those that there are",
    ),
    (
        57,
        b"no orders have this number; numaplan.h has those that there are",
    ),
    (
        58,
        b"no format has this number; numaplan_reports.h has those that there are",
    ),
    (
        60,
        b"nothing stands where a node should; name one, or leave out the comma",
    ),
    (
        61,
        b"an item of the list is neither a nor a-b, in decimal of 1 to 4 digits",
    ),
    (62, b"a range of the list falls; turn it round"),
    (63, b"a number of the list is above 255; nodes are 0 to 255"),
    (
        70,
        b"what stands before the colon is no policy with its flag; write as bind=static:0-1",
    ),
    (71, b"static and relative exclude each other; choose one"),
    (72, b"default and local take no list; leave it out"),
    (
        73,
        b"local takes no flag, nor does prefer without a list, nor a home; leave it out, \
          or name nodes",
    ),
    (74, b"the policy wants nodes; name them after a colon"),
    (75, b"default is no policy; name one"),
    (76, b"no node is allowed; name one"),
    (
        80,
        b"no line of the script makes a machine; begin with one, as machine 2 0-1 8 flat",
    ),
    (
        81,
        b"a line of the trace can't be replayed; the last message says which, and why",
    ),
    (
        82,
        b"the script is a host's, and the answer is about one process",
    ),
];

/// The words of the codes of causes that only a host or pages have.
static LATE_WORDS: [(u32, &[u8]); 28] = [
    (90, b"there is a group of this number; choose another"),
    (
        91,
        b"there is no group of this number, or not so many; make it by new_group",
    ),
    (
        92,
        b"there are 1024 groups below the root, as many as a host may have",
    ),
    (
        93,
        b"the root has no list of its own; make a group below it, and attach processes to that",
    ),
    (
        94,
        b"a process is in the group or below it, so its list can't be taken away; give it \
          another list, or attach the process to another group first",
    ),
    (95, b"there is a process of this number; choose another"),
    (
        96,
        b"there is no process of this number, or not so many; make it by new_process or fork",
    ),
    (
        97,
        b"there are 4096 processes, as many as a host may have; let one exit first",
    ),
    (
        98,
        b"the nodes that a process is allowed are those of its group; give the group a \
          list, or attach the process to another",
    ),
    (
        100,
        b"there would be more than 1048576 runs of pages that lie on one node; state \
          fewer, or move whole spans",
    ),
    (
        101,
        b"a page of the span lies on a node for which the policy doesn't ask; move it \
          first, or bind without strict",
    ),
    (
        102,
        b"the machine lacks the node to move to, or it has no memory; its nodes are \
          numbered from 0",
    ),
    (
        103,
        b"the node to move to isn't allowed; name one that is, or allow it by set_mems",
    ),
    (
        104,
        b"the page that is to move isn't mapped; map it, and state where it lies",
    ),
    (105, b"the page lies nowhere; state where it lies, by place"),
    (
        106,
        b"the node has no room for the page, or for so many; move others away from it, or \
          give it room by set_room",
    ),
    (107, b"the page lies somewhere already; unmap it first"),
    (
        108,
        b"the machine lacks the node of the task's CPU; its nodes are numbered from 0",
    ),
    (
        109,
        b"a page of the span isn't mapped; map it first, or touch each mapped part",
    ),
    (
        110,
        b"the machine lacks the node, and so its pool; its nodes are numbered from 0",
    ),
    (
        111,
        b"the node or the others together have more surplus pages than pages, where Linux \
          takes all the node's memory; let surplus pages end first",
    ),
    (
        112,
        b"too few pages of 2 MiB are free and not reserved, or too few on the nodes that may \
          give them; ask the pools, and resize them",
    ),
    (
        113,
        b"no node of the page's list has room for it; move others away, or give a node room \
          by set_room",
    ),
    (
        114,
        b"no node of the page's list gives a page of 2 MiB, and the task gets SIGBUS; resize \
          the pools, or reserve the page when it is mapped",
    ),
    (
        115,
        b"the desk has as many readers as it can; close one, or open it for more",
    ),
    (
        116,
        b"the reader's desk was closed; the reader answers by what it took last",
    ),
    (
        117,
        b"the newest version that could be taken is older than that; enter again",
    ),
    (
        118,
        b"there is no reader, or there are more than 64; open it for 1 to 64",
    ),
];

/// What a code of a cause that only a host, pages or a desk have says, empty if it has none.
fn late_words(code: u32) -> &'static [u8]
    ensures { result.now ≡ name_in late_words code }
{
    name_in(&LATE_WORDS, code)
}
