//! Why a host refuses commands, as text.
use crate::finding::Detail;
use crate::finding_text::put_refusal;
use numa_requests::{CoreRefusal, HostRefusal, Refusal};
use numa_rules::Text;
use numa_script::names::{host_errno_name, host_refusal_name};

/// The words before and after the number of a group or a process in question.
fn number_words(refusal: HostRefusal) -> Option<(&'static str, &'static str)> {
    match refusal {
        HostRefusal::GroupExists => Some(("group ", " is there already; name another")),
        HostRefusal::NoSuchGroup => Some(("there is no group ", "; make it by cgroup first")),
        HostRefusal::ProcessExists => Some(("process ", " is there already; name another")),
        HostRefusal::NoSuchProcess => {
            Some(("there is no process ", "; make it by process or fork first"))
        }
        _ => None,
    }
}

/// Why a command of a host is refused, without naming a number.
fn refusal_words(refusal: HostRefusal) -> &'static str {
    match refusal {
        HostRefusal::GroupExists => "there is a group of this number; name another",
        HostRefusal::NoSuchGroup => "there is no group of this number; make it by cgroup first",
        HostRefusal::TooManyGroups => "a host has at most 1024 groups below the root",
        HostRefusal::RootGroup => "the root has no list of its own; name a group below it",
        HostRefusal::Populated => {
            "a process is in the group or below it; move it away by attach first"
        }
        HostRefusal::ProcessExists => "there is a process of this number; name another",
        HostRefusal::NoSuchProcess => {
            "there is no process of this number; make it by process or fork first"
        }
        HostRefusal::TooManyProcesses => {
            "a host has at most 4096 processes; end one by exit first"
        }
        HostRefusal::GroupMems => {
            "the allowed nodes are the group's; change them by cgroup-mems or attach"
        }
        _ => "",
    }
}

/// The refusal of a space with the same cause, if there is one.
fn of_space(refusal: HostRefusal) -> Option<Refusal> {
    match refusal {
        HostRefusal::CommandsSpent => Some(Refusal::CommandsSpent),
        HostRefusal::NoSuchNode => Some(Refusal::NoSuchNode),
        HostRefusal::OfSpace(refusal) => Some(refusal),
        HostRefusal::NoMemory => Some(Refusal::NoMemory),
        _ => None,
    }
}

/// Appends why a command of a host is refused.
fn put_words(text: &mut Text, refusal: HostRefusal, detail: Detail) {
    if let Some(refusal) = of_space(refusal) {
        put_refusal(text, CoreRefusal::Command(refusal), detail);
        return;
    }
    match (detail, number_words(refusal)) {
        (Detail::Number(number), Some((before, behind))) => {
            text.put_number(before, number as u64);
            text.put(behind);
        }
        _ => text.put(refusal_words(refusal)),
    }
}

/// Appends a refusal of a host: its name and its cause.
pub(crate) fn put_host_refused(text: &mut Text, refusal: HostRefusal, detail: Detail) {
    text.put("refused ");
    text.put_bytes(host_refusal_name(refusal));
    text.put(" ");
    text.put_bytes(host_errno_name(refusal.errno()));
    text.put(": ");
    put_words(text, refusal, detail);
}
