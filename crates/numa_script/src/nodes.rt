//! Nodes as text, gathered before they are written.
ghost use Rattle.std.specs.Prelude.{◌≡◌, ◌+◌, ◌*◌, ◌≤◌, ◌++◌, ◌∷◌, [], codes, decimal, length};
ghost use Rattle.numa_lines.specs.Written.{Said};
ghost use Rattle.numa_script.specs.Texts.{nodes_answer, nodes_text};

use crate::short::ShortText;
use numa_lines::Watched;
use std::io::Write;

/// The most nodes that are gathered.
const BLOCK: usize = 60;

/// The most nodes whose line has at most 96 bytes, with a version before them.
pub(crate) const FEW: usize = 18;

/// The most nodes that are written together with their version.
pub(crate) const MORE: usize = 58;

/// Puts a space and a node before a text.
#[inline(always)]
fn put_node<const ROOM: usize>(text: &mut ShortText<ROOM>, node: u8)
    requires { length text.old + 4 ≤ ROOM }
    ensures text { text.new ≡ 32 ∷ decimal node ++ text.old }
    ensures short { length text.new ≤ length text.old + 4 }
{
    text.put_node(node);
    text.put(b" ");
}

/// Puts nodes before a text, each after a space.
fn put_nodes<const ROOM: usize>(text: &mut ShortText<ROOM>, nodes: &[u8])
    requires { length text.old + 4 * length nodes.now ≤ ROOM }
    ensures text { text.new ≡ nodes_text nodes.now ++ text.old }
    ensures short { length text.new ≤ length text.old + 4 * length nodes.now }
{
    let mut left = nodes.len();
    while left > 0 {
        left -= 1;
        put_node(text, nodes[left]);
    }
}

/// Writes a block of nodes, each after a space.
fn say_block<W: Write>(output: &mut Watched<W>, nodes: &[u8])
    requires { length nodes.now ≤ 60 }
    ensures { Said W.contents output.old output.new (nodes_text nodes.now) }
{
    let mut text = ShortText::<256>::new();
    put_nodes(&mut text, nodes);
    output.say(text.bytes());
}

/// Puts a version and nodes into an empty text, as a line: `v2: 0 1`.
fn put_line<const ROOM: usize>(text: &mut ShortText<ROOM>, version: u64, nodes: &[u8])
    requires empty { text.old ≡ [] }
    requires room { 23 + 4 * length nodes.now ≤ ROOM }
    ensures { text.new ≡ nodes_answer version nodes.now }
{
    text.put(b"\n");
    put_nodes(text, nodes);
    text.put(b":");
    text.put_number(version);
    text.put(b"v");
}

/// Writes a version and a few nodes as a line: `v2: 0 1`.
pub(crate) fn say_few<W: Write>(output: &mut Watched<W>, version: u64, nodes: &[u8])
    requires { length nodes.now ≤ 18 }
    ensures { Said W.contents output.old output.new (nodes_answer version nodes.now) }
{
    let mut text = ShortText::<96>::new();
    put_line(&mut text, version, nodes);
    output.say(text.bytes());
}

/// Writes a version and more nodes as a line.
#[inline(never)]
pub(crate) fn say_more<W: Write>(output: &mut Watched<W>, version: u64, nodes: &[u8])
    requires { length nodes.now ≤ 58 }
    ensures { Said W.contents output.old output.new (nodes_answer version nodes.now) }
{
    let mut text = ShortText::<256>::new();
    put_line(&mut text, version, nodes);
    output.say(text.bytes());
}

/// Writes nodes, each after a space.
pub(crate) fn say_each_node<W: Write>(output: &mut Watched<W>, nodes: &[u8])
    ensures { Said W.contents output.old output.new (nodes_text nodes.now) }
{
    let mut rest = nodes;
    while rest.len() > BLOCK {
        let (block, after) = rest.split_at(BLOCK);
        say_block(output, block);
        rest = after;
    }
    say_block(output, rest);
}
