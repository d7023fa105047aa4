//! The causes of errors and refusals in a few words, each with what to do, if anything.
use numa_machine::MachineFault;
use numa_mask::ListFault;
use numa_mode::SpecError;
use numa_requests::{CoreRefusal, Refusal};

/// What is wrong with a node list.
pub(crate) fn list_words(fault: ListFault) -> &'static str {
    match fault {
        ListFault::Empty => "nothing stands where a node should; name one, or leave out the comma",
        ListFault::BadDigit => {
            "an item is neither a nor a-b, in decimal of 1 to 4 digits, as in 0,2-3"
        }
        ListFault::BackRange => "a range falls; turn it round",
        ListFault::NodeTooHigh => "a number is above 255",
    }
}

/// What is wrong with a policy.
pub(crate) fn policy_words(fault: SpecError) -> &'static str {
    match fault {
        SpecError::UnknownMode => {
            "what stands before the colon is none of default, local, bind, prefer, many, \
interleave and weighted, nor one of these with =static or =relative"
        }
        SpecError::BothFlags => "static and relative exclude each other; choose one",
        SpecError::NodesForbidden => "default and local take no list; leave it out",
        SpecError::FlagsForbidden => {
            "local takes no flag, nor does prefer without a list; leave it out, or name nodes"
        }
        SpecError::NodesMissing => "the policy wants nodes; name them after a colon",
    }
}

/// What is wrong with a machine.
pub(crate) fn machine_words(fault: MachineFault) -> &'static str {
    match fault {
        MachineFault::NodeCount => {
            "NODES isn't from 1 to 256, DIST or FRAMES have another number of entries, or cpus \
names another node"
        }
        MachineFault::NoMemoryNode => {
            "MEM names a node that the machine lacks; nodes are 0 to NODES - 1"
        }
        MachineFault::BadDistance => {
            "a node isn't 10 from itself, or is 10 or less from another"
        }
        MachineFault::TooManyFrames => {
            "a node has more than 4096 frames, or some and no memory, or all have more than 65536"
        }
        MachineFault::NoMemory => "the program found no memory for it",
    }
}

/// Why a command is refused, without naming a page or a count.
pub(crate) fn command_words(refusal: Refusal) -> &'static str {
    match refusal {
        Refusal::CommandsSpent =>
            "as many commands as the limits allow were accepted; raise C of limits",
        Refusal::Unaligned => "START is no multiple of 4096; round it down, and LENGTH up",
        Refusal::OutOfSpace => {
            "the span ends above address 2^47, or 2^47 - 4096 by linux rules; use lower addresses"
        },
        Refusal::BadSpan => {
            "the span ends above 2^47 - 4096, or 2^64 - 1 for mbind and home; use lower addresses"
        }
        Refusal::EmptyLength => "LENGTH is 0; name at least one byte",
        Refusal::BadOffset => "OFFSET is 2^35 or more; it is in pages, not in bytes",
        Refusal::Overlap => "a page is mapped already; unmap it first",
        Refusal::Hole => "a page isn't mapped; map it first, or bind each mapped part by itself",
        Refusal::NoSuchNode => "the machine lacks the node",
        Refusal::BadWeight => "a weight is from 1 to 255",
        Refusal::NodesNotAllowed => {
            "the policy would have no node now; name an allowed one, or allow it first by mems"
        }
        Refusal::NoNodes => "no node is named; name one",
        Refusal::NotSupported => "a page has a policy that takes no home; leave that page out",
        Refusal::NoPolicy => "no page has a policy of its own; bind one first",
        Refusal::TooManyTasks => {
            "as many tasks as the limits allow have a policy; raise T, or set one to default"
        }
        Refusal::TooManyRanges =>
            "there would be more ranges than the limits allow; raise R of limits",
        Refusal::NoMemory => "the program found no memory for it",
    }
}

/// Why a command is refused that a host's process is told, without naming a page or a count.
pub(crate) fn told_words(refusal: Refusal) -> &'static str {
    match refusal {
        Refusal::NodesNotAllowed => {
            "the policy would have no node now; name an allowed one, or allow it first by \
cgroup-mems"
        }
        refusal => command_words(refusal),
    }
}

/// Why a worker or a question is refused, without naming a page.
pub(crate) fn worker_words(cause: CoreRefusal) -> &'static str {
    match cause {
        CoreRefusal::Command(refusal) => command_words(refusal),
        CoreRefusal::NoSuchWorker => "workers are 0 to 3",
        CoreRefusal::Busy => {
            "the worker looks for a frame; let it win one, or exhaust its list, by look and try"
        }
        CoreRefusal::Idle => "the worker looks for no frame; begin first",
        CoreRefusal::BadTry => {
            "the current node lacks it, or the worker has met it; touch finds a frame by itself"
        }
        CoreRefusal::NotOwned => "the worker owns no such frame, or the page keeps none",
        CoreRefusal::BadCpu => "the machine lacks the node of CPU",
        CoreRefusal::Unmapped(_) => "a page isn't mapped; map it, or look at the address",
        CoreRefusal::NoSuchNode => "the machine lacks the node, or the node has no frames",
        CoreRefusal::NoMemory => "the program found no memory for it",
    }
}
