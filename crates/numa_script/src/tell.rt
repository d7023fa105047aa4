//! Writing replies and the answers to questions to a watched writer. Once a write has failed,
//! nothing more is written.
ghost use Rattle.std.specs.Prelude.{◌≡◌, ℕ, ◌+◌, ◌≤◌, ◌++◌, List, Option, length, decimal, codes};
ghost use Rattle.std.specs.Prelude.{flat_map, slice_index, true};
ghost use Rattle.numa_lines.specs.Written.{Said};
ghost use Rattle.numa_requests.specs.Errors.{errno_of};
ghost use Rattle.numa_requests.specs.NodeCounts.{node_text as count_of_node};
ghost use Rattle.numa_requests.specs.NodeCounts.{nodes_text as counts_text};
ghost use Rattle.numa_script.specs.HostTexts.{host_cause};
ghost use Rattle.numa_script.specs.Names.{cause_name, errno_name, place_name, refusal_name};
ghost use Rattle.numa_script.specs.PageTexts.{late_words, moved_words, placed_words, sent_text};
ghost use Rattle.numa_script.specs.Texts.{counts_answer, frame_text, nodes_answer, ranges_answer};
ghost use Rattle.numa_script.specs.Replies.{is_wider};
ghost use Rattle.numa_script.specs.Texts.{refused_text, text_of, win_answer, word_text};

use crate::huge_line::huge_cause;
use crate::names::{Named, host_errno_name, host_refusal_name, move_cause, placed_cause};
use crate::nodes::{FEW, MORE, say_each_node, say_few, say_more};
use crate::policy::WordError;
use crate::reply::{Reply, Win};
use crate::short::ShortText;
use numa_lines::Watched;
use numa_machine::{Frame, PlaceRefusal};
use numa_requests::{CoreRefusal, HostRefusal, Refusal};
use std::io::Write;

/// Writes two texts as a line.
fn say_line<W: Write>(output: &mut Watched<W>, text: &[u8], name: &[u8])
    ensures { Said W.contents output.old output.new (text.now ++ name.now ++ codes "\n") }
{
    output.say(text);
    output.say(name);
    output.say(b"\n");
}

/// Writes a text and a number.
fn say_number<W: Write>(output: &mut Watched<W>, text: &[u8], number: u64)
    ensures { Said W.contents output.old output.new (text.now ++ decimal number) }
{
    output.say(text);
    output.say_number(number);
}

/// Writes a short text and a number as a line.
#[inline(always)]
fn say_count<W: Write>(output: &mut Watched<W>, text: &[u8], count: u64)
    requires { length text.now ≤ 16 }
    ensures { Said W.contents output.old output.new (text.now ++ decimal count ++ codes "\n") }
{
    let mut line = ShortText::<96>::new();
    line.put(b"\n");
    line.put_number(count);
    line.put(text);
    output.say(line.bytes());
}

/// Writes what is wrong with a list of nodes or a policy.
fn say_word_fault<W: Write>(output: &mut Watched<W>, fault: WordError)
    ensures { Said W.contents output.old output.new (word_text fault ++ codes "\n") }
{
    match fault {
        WordError::List(fault) => say_line(output, b"bad list ", Named::List(fault).name()),
        WordError::Policy(fault) => say_line(output, b"bad policy ", Named::Policy(fault).name()),
    }
}

/// Writes a refusal without an error number.
fn say_refused<W: Write>(output: &mut Watched<W>, name: &[u8])
    ensures { Said W.contents output.old output.new (refused_text name.now) }
{
    say_line(output, b"refused ", name);
}

/// Writes that memory ran out: `refused NoMemory`.
pub fn say_starved<W: Write>(output: &mut Watched<W>)
    ensures { Said W.contents output.old output.new (refused_text (codes "NoMemory")) }
{
    say_refused(output, b"NoMemory");
}

/// Writes a question's refusal: `refused` and its name.
pub fn say_place_refusal<W: Write>(output: &mut Watched<W>, refusal: PlaceRefusal)
    ensures { Said W.contents output.old output.new (refused_text (place_name refusal)) }
{
    say_refused(output, Named::Place(refusal).name());
}

/// Writes a command's refusal.
fn say_refusal<W: Write>(output: &mut Watched<W>, refusal: Refusal)
    ensures { Said W.contents output.old output.new
        (codes "refused " ++ refusal_name refusal ++ codes " " ++ errno_name (errno_of refusal)
        ++ codes "\n") }
{
    output.say(b"refused ");
    output.say(Named::Refusal(refusal).name());
    say_line(output, b" ", Named::Errno(refusal.errno()).name());
}

/// Writes why a command or a worker's step is refused.
fn say_cause<W: Write>(output: &mut Watched<W>, cause: CoreRefusal)
    ensures { Said W.contents output.old output.new (refused_text (cause_name cause)) }
{
    match cause {
        CoreRefusal::Command(refusal) => say_refusal(output, refusal),
        CoreRefusal::NoSuchWorker => say_refused(output, b"NoSuchWorker"),
        CoreRefusal::Busy => say_refused(output, b"Busy"),
        CoreRefusal::Idle => say_refused(output, b"Idle"),
        CoreRefusal::BadTry => say_refused(output, b"BadTry"),
        CoreRefusal::NotOwned => say_refused(output, b"NotOwned"),
        CoreRefusal::BadCpu => say_refused(output, b"BadCpu"),
        CoreRefusal::Unmapped(_) => say_refused(output, b"Unmapped"),
        CoreRefusal::NoSuchNode => say_refused(output, b"NoSuchNode"),
        CoreRefusal::NoMemory => say_refused(output, b"NoMemory"),
    }
}

/// Puts a frame before a text: its node, and its number on that node.
#[inline(always)]
fn put_frame(text: &mut ShortText<96>, node: u8, number: u16)
    requires { length text.old ≤ 60 }
    ensures text { text.new ≡ frame_text node number ++ text.old }
    ensures short { length text.new ≤ length text.old + 36 }
{
    text.put_number(u64::from(number));
    text.put(b" frame ");
    text.put_node(node);
    text.put(b" node ");
}

/// Writes a frame that was won.
fn say_win<W: Write>(output: &mut Watched<W>, win: &Win)
    ensures { Said W.contents output.old output.new (win_answer win.now) }
{
    let mut line = ShortText::<96>::new();
    line.put(b"\n");
    line.put_number(u64::from(win.rank));
    line.put(b" rank ");
    put_frame(&mut line, win.node, win.frame);
    line.put_number(win.version);
    line.put(b"won v");
    output.say(line.bytes());
}

/// Writes what became of a frame, and the frame.
#[inline(always)]
fn say_frame<W: Write>(output: &mut Watched<W>, word: &[u8], frame: Frame)
    requires { length word.now ≤ 16 }
    ensures { Said W.contents output.old output.new
        (word.now ++ frame_text frame.node frame.number ++ codes "\n") }
{
    let mut line = ShortText::<96>::new();
    line.put(b"\n");
    put_frame(&mut line, frame.node, frame.number);
    line.put(word);
    output.say(line.bytes());
}

/// Writes a version, with which answers to questions begin.
fn say_version<W: Write>(output: &mut Watched<W>, version: u64)
    ensures { Said W.contents output.old output.new (codes "v" ++ decimal version ++ codes ":") }
{
    say_number(output, b"v", version);
    output.say(b":");
}

/// Writes the nodes of a page, or of pages, at a version: `v2: 0 1`.
pub fn say_nodes<W: Write>(output: &mut Watched<W>, version: u64, nodes: &[u8])
    ensures { Said W.contents output.old output.new (nodes_answer version nodes.now) }
{
    if nodes.len() <= FEW {
        say_few(output, version, nodes);
        return;
    }
    if nodes.len() <= MORE {
        say_more(output, version, nodes);
        return;
    }
    say_version(output, version);
    say_each_node(output, nodes);
    output.say(b"\n");
}

/// Writes a node and its number of pages, if it has any.
fn say_count_of<W: Write>(output: &mut Watched<W>, node: usize, pages: u64)
    ensures { Said W.contents output.old output.new (count_of_node node pages) }
{
    if pages > 0 {
        say_number(output, b" N", node as u64);
        say_number(output, b"=", pages);
    }
}

/// Writes each node that has pages, in ascending order: ` N0=3 N1=1`. `pages[n]` is the number for
/// node n.
pub fn say_each_count<W: Write>(output: &mut Watched<W>, pages: &[u64; 256])
    ensures { Said W.contents output.old output.new
        (counts_text (λ node. slice_index pages.now node)) }
{
    for node in 0..256 {
        say_count_of(output, node, pages[node]);
    }
}

/// Writes the number of pages of each node that has any, at a version: `v2: N0=3 N1=1`. `pages[n]`
/// is the number for node n.
pub fn say_counts<W: Write>(output: &mut Watched<W>, version: u64, pages: &[u64; 256])
    ensures { Said W.contents output.old output.new
        (counts_answer version (λ node. slice_index pages.now node)) }
{
    say_version(output, version);
    say_each_count(output, pages);
    output.say(b"\n");
}

/// Writes the number of ranges: `ranges 3`.
pub fn say_ranges<W: Write>(output: &mut Watched<W>, count: u64)
    ensures { Said W.contents output.old output.new (ranges_answer count) }
{
    say_count(output, b"ranges ", count);
}

/// Writes a host's refusal, with its error number.
fn say_host_refusal<W: Write>(output: &mut Watched<W>, refusal: HostRefusal)
    ensures { Said W.contents output.old output.new (refused_text (host_cause refusal)) }
{
    output.say(b"refused ");
    output.say(host_refusal_name(refusal));
    say_line(output, b" ", host_errno_name(refusal.errno()));
}

/// Writes how many pages moved, and how many stayed.
pub fn say_moved_words<W: Write>(output: &mut Watched<W>, moved: u64, left: u64)
    ensures { Said W.contents output.old output.new (moved_words moved left) }
{
    say_number(output, b"moved ", moved);
    say_number(output, b" left ", left);
}

/// Writes what a move did: `moved 3 left 0`.
fn say_moved<W: Write>(output: &mut Watched<W>, moved: u64, left: u64)
    ensures { Said W.contents output.old output.new (moved_words moved left ++ codes "\n") }
{
    say_moved_words(output, moved, left);
    output.say(b"\n");
}

/// Writes how many pages went to a node, and how many found no room.
pub fn say_placed_words<W: Write>(output: &mut Watched<W>, placed: u64, exhausted: u64)
    ensures { Said W.contents output.old output.new (placed_words placed exhausted) }
{
    say_number(output, b"placed ", placed);
    say_number(output, b" exhausted ", exhausted);
}

/// Writes that pages stayed that had to go, if that is told.
fn say_late<W: Write>(output: &mut Watched<W>, late: bool)
    ensures { Said W.contents output.old output.new (late_words late) }
{
    if late {
        output.say(b" EIO");
    }
}

/// Writes that a policy was set and pages went: `ok 4 moved 5 left 1`.
fn say_sent<W: Write>(output: &mut Watched<W>, version: u64, moved: u64, left: u64, late: bool)
    ensures { Said W.contents output.old output.new (sent_text version moved left late) }
{
    say_number(output, b"ok ", version);
    output.say(b" ");
    say_moved_words(output, moved, left);
    say_late(output, late);
    output.say(b"\n");
}

/// Writes a reply that only scripts of hosts or with lines about pages have.
#[inline(never)]
#[tactic(auto, unfolding(crate::specs::Texts::text_of))]
fn say_wider<W: Write>(output: &mut Watched<W>, reply: &Reply)
    requires { is_wider reply.now ≡ true }
    ensures { Said W.contents output.old output.new (text_of reply.now) }
{
    match reply {
        Reply::Placed => say_refused(output, b"Placed"),
        Reply::HostReady => output.say(b"host ok\n"),
        Reply::HostRefused(cause) => say_host_refusal(output, *cause),
        Reply::AtOk => output.say(b"at ok\n"),
        Reply::RoomOk => output.say(b"room ok\n"),
        Reply::MemoryMigrateOk => output.say(b"memory-migrate ok\n"),
        Reply::Moved { moved, left } => say_moved(output, *moved, *left),
        Reply::MovedTo(node) => say_count(output, b"node ", u64::from(*node)),
        Reply::Sent {
            version,
            moved,
            left,
            late,
        } => say_sent(output, *version, *moved, *left, *late),
        Reply::PlacedRefused(cause) => say_refused(output, placed_cause(*cause)),
        Reply::MoveRefused(cause) => say_refused(output, move_cause(*cause)),
        Reply::HugeRefused(cause) => say_refused(output, huge_cause(*cause)),
        _ => unreachable!(),
    }
}

/// Writes a reply as a line; nothing for `Silent`.
#[tactic(auto, unfolding(crate::specs::Texts::text_of))]
pub fn say_reply<W: Write>(output: &mut Watched<W>, reply: &Reply)
    ensures { Said W.contents output.old output.new (text_of reply.now) }
{
    match reply {
        Reply::Silent => {}
        Reply::BadWords => output.say(b"bad words\n"),
        Reply::BadState => output.say(b"bad state\n"),
        Reply::LimitsOk => output.say(b"limits ok\n"),
        Reply::BadLimits => output.say(b"bad limits\n"),
        Reply::RulesOk => output.say(b"rules ok\n"),
        Reply::CpusOk => output.say(b"cpus ok\n"),
        Reply::Ready => output.say(b"ready\n"),
        Reply::BadMachine(fault) => {
            say_line(output, b"bad machine ", Named::Machine(*fault).name())
        }
        Reply::BadWord(fault) => say_word_fault(output, *fault),
        Reply::Accepted(version) => say_count(output, b"ok ", *version),
        Reply::Published(version) => say_count(output, b"published ", *version),
        Reply::Still => output.say(b"still\n"),
        Reply::Exhausted(version) => say_count(output, b"exhausted v", *version),
        Reply::Won(win) => say_win(output, win),
        Reply::Found(frame) => say_frame(output, b"found", *frame),
        Reply::Full => output.say(b"full\n"),
        Reply::Given => output.say(b"given\n"),
        Reply::Back(frame) => say_frame(output, b"back", *frame),
        Reply::Refused(cause) => say_cause(output, *cause),
        _ => say_wider(output, reply),
    }
}
