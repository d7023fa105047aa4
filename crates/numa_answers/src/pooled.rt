//! The pools that pages of 2 MiB come from: what they have for one that wasn't touched yet, and
//! where all would lie once they were, as text or JSON.
ghost use Rattle.std.specs.Prelude.{◌≡◌};
ghost use Rattle.numa_pools.specs.Pools.{giver};

use numa_pools::Pools;
use numa_rules::Text;
use numa_sheets::{Format, Items, Object, Written};
use std::alloc::{AllocError, Global};

/// A page of 2 MiB that lies nowhere yet, and the pools.
#[derive(Clone, Copy)]
pub struct Pooled<'a> {
    pub pools: &'a Pools,
    /// Whether a free page is reserved for it.
    pub is_reserved: bool,
    /// The node that gives it, if one does.
    pub giver: Option<u8>,
}

impl<'a> Pooled<'a> {
    /// A page for which these nodes are asked.
    pub fn of(pools: &'a Pools, is_reserved: bool, nodes: &[u8]) -> Pooled<'a>
        ensures pools { result.pools.now ≡ pools.now }
        ensures reserved { result.is_reserved ≡ is_reserved }
        ensures giver { result.giver ≡ giver pools.now nodes.now is_reserved }
    {
        Pooled {
            pools,
            is_reserved,
            giver: pools.giver(nodes, is_reserved),
        }
    }
}

/// How many free pages all pools have.
fn free_in(pools: &Pools) -> u64 {
    let mut sum = 0u64;
    for node in 0..256u32 {
        sum = sum.saturating_add(pools.free((node % 256) as u8));
    }
    sum
}

/// Writes the pool of a node as `pool` does: its free pages, all, and the surplus ones.
fn put_pool(text: &mut Text, pools: &Pools, node: u8) {
    let surplus = pools.surplus(node);
    let counts = [u64::from(node), pools.free(node), pools.total(node)];
    text.put_form(" N$=$/$", &counts);
    if surplus > 0 {
        text.put_number("+", surplus);
    }
}

/// Writes what the pools have.
fn put_pools(text: &mut Text, pools: &Pools) {
    let memory = pools.memory();
    text.put("pools:");
    for node in memory.iter() {
        put_pool(text, pools, node.number());
    }
    text.put_number(" reserved ", pools.reserved());
}

/// Why no node gives a page.
fn lack_words(pooled: Pooled<'_>) -> &'static str {
    let free = free_in(pooled.pools);
    if !pooled.is_reserved && free > 0 && free <= pooled.pools.reserved() {
        return ", and all free ones are for others: SIGBUS";
    }
    ", and no node that is asked has a free one: SIGBUS"
}

/// Writes the line that says what the pools have, and which node gives the page, or why none does.
pub(crate) fn put_pooled(text: &mut Text, pooled: Pooled<'_>) {
    put_pools(text, pooled.pools);
    text.put(if pooled.is_reserved {
        "; one is reserved for this page"
    } else {
        "; none is reserved for this page"
    });
    match pooled.giver {
        Some(node) => text.put_number(", which comes from node ", u64::from(node)),
        None => text.put(lack_words(pooled)),
    }
    text.put("\n");
}

/// The pools, each with its free pages, all, and the surplus ones.
fn items_of(alloc: Global, pools: &Pools) -> Items {
    let mut items = Items::new(alloc);
    let memory = pools.memory();
    for node in memory.iter() {
        let node = node.number();
        let mut object = Object::new(alloc);
        object.put_number("node", u64::from(node));
        object.put_number("free", pools.free(node));
        object.put_number("pages", pools.total(node));
        object.put_number("surplus", pools.surplus(node));
        items.push_object(object);
    }
    items
}

/// Adds the same as an object.
pub(crate) fn put_pooled_object(alloc: Global, object: &mut Object, pooled: Pooled<'_>) {
    let mut inner = Object::new(alloc);
    inner.put_items("nodes", items_of(alloc, pooled.pools));
    inner.put_number("reserved", pooled.pools.reserved());
    inner.put_flag("is_reserved", pooled.is_reserved);
    if let Some(node) = pooled.giver {
        inner.put_number("node", u64::from(node));
    }
    object.put_object("pools", inner);
}

/// Where all mapped pages of 2 MiB lie once each was touched, in pages of this size.
#[derive(Clone, Copy)]
pub struct FromPools {
    /// By node, the pages that lie there.
    pub on: [u64; 256],
    /// The pages that no node gave.
    pub exhausted: u64,
}

impl FromPools {
    /// The number of pages that a node gave.
    fn given(&self) -> u64 {
        let mut sum = 0u64;
        for node in 0..256usize {
            sum = sum.saturating_add(self.on[node]);
        }
        sum
    }

    /// The number of all pages.
    pub fn pages(&self) -> u64 {
        self.given().saturating_add(self.exhausted)
    }
}

/// Writes a line of them, in the form of those of other pages.
fn put_line(text: &mut Written, said: &FromPools) {
    text.put_form(b"pools anon=$", &[said.given()]);
    for node in 0..256usize {
        if said.on[node] > 0 {
            text.put_form(b" N$=$", &[node as u64, said.on[node]]);
        }
    }
    if said.exhausted > 0 {
        text.put_form(b" exhausted=$", &[said.exhausted]);
    }
    text.put(b" kernelpagesize_kB=2048\n");
}

/// The nodes with pages.
fn nodes_of(alloc: Global, said: &FromPools) -> Items {
    let mut items = Items::new(alloc);
    for node in 0..256usize {
        if said.on[node] > 0 {
            let mut object = Object::new(alloc);
            object.put_number("node", node as u64);
            object.put_number("pages", said.on[node]);
            items.push_object(object);
        }
    }
    items
}

/// Writes an object with one more member, which tells of them.
fn put_member(text: &mut Written, whole: &[u8], said: &FromPools) {
    let Some(open) = whole.strip_suffix(b"}\n") else {
        text.put(whole);
        return;
    };
    let mut inner = Object::new(text.alloc());
    inner.put_number("anon", said.given());
    inner.put_items("nodes", nodes_of(text.alloc(), said));
    inner.put_number("exhausted", said.exhausted);
    inner.put_number("kernelpagesize_kB", 2_048);
    text.put(open);
    text.put(b",\"pools\":");
    text.put_object(inner);
    text.put(b"}\n");
}

/// Writes records of them behind others, each of which may begin with a process.
fn put_records(text: &mut Written, whole: &[u8], said: &FromPools) {
    let given = said.given();
    let by_process = whole.strip_prefix(b"process,").is_some();
    let front = if by_process {
        b",,,pools,".as_slice()
    } else {
        b",,pools,"
    };
    text.put(whole);
    for node in 0..256usize {
        if said.on[node] > 0 {
            text.put(front);
            text.put_form(b"$,$,$\n", &[given, node as u64, said.on[node]]);
        }
    }
    if said.exhausted > 0 {
        text.put(front);
        text.put_form(b"$,,$\n", &[given, said.exhausted]);
    }
}

/// A prediction that tells where pages of 2 MiB would come from: a text in one more line, an object
/// in one more member, records in some more. Others are as they are.
///
/// # Errors
/// `AllocError`: out of memory.
pub fn with_pools(
    alloc: Global,
    format: Format,
    whole: Vec<u8>,
    said: &FromPools,
) -> Result<Vec<u8>, AllocError> {
    let mut text = Written::new(alloc);
    match format {
        Format::Text => {
            text.put(whole.as_slice());
            put_line(&mut text, said);
        }
        Format::Json => put_member(&mut text, whole.as_slice(), said),
        Format::Csv => put_records(&mut text, whole.as_slice(), said),
        _ => return Ok(whole),
    }
    drop(whole);
    text.take()
}
