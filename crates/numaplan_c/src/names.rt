//! The names of result codes, and their error numbers.
ghost use Rattle.std.specs.Prelude.{◌≡◌, ◌≢◌, [], map};
ghost use Rattle.numaplan_c.specs.Names.{answer_name, answer_errno, errno_number};
ghost use Rattle.numaplan_c.specs.Names.{call_names, fault_names, late_names, name_in};
ghost use Rattle.numaplan_c.specs.Names.{refusal_numbered, row_of};
ghost use Rattle.numaplan_c.specs.Names.{host_errno_number, host_numbered, other_errno};
ghost use Rattle.numaplan_c.specs.Names.{placed_errno};
ghost use Rattle.numaplan_c.specs.Texts.{IsTold};

use crate::codes::Code;
use crate::texts::write_told;
use numa_requests::{
    Errno, HostErrno, HostRefusal, HugeRefusal, MoveRefusal, PlacedRefusal, Refusal,
};
use numa_script::names::Named;

/// The command's refusal with this code.
fn refusal_numbered(code: u32) -> Option<Refusal>
    ensures { result ≡ refusal_numbered code }
{
    match code {
        3 => Some(Refusal::NoMemory),
        10 => Some(Refusal::CommandsSpent),
        11 => Some(Refusal::Unaligned),
        12 => Some(Refusal::OutOfSpace),
        13 => Some(Refusal::EmptyLength),
        14 => Some(Refusal::BadOffset),
        15 => Some(Refusal::Overlap),
        16 => Some(Refusal::Hole),
        17 => Some(Refusal::NoSuchNode),
        18 => Some(Refusal::BadWeight),
        19 => Some(Refusal::NodesNotAllowed),
        20 => Some(Refusal::NotSupported),
        21 => Some(Refusal::TooManyTasks),
        22 => Some(Refusal::TooManyRanges),
        23 => Some(Refusal::NoPolicy),
        24 => Some(Refusal::BadSpan),
        25 => Some(Refusal::NoNodes),
        _ => None,
    }
}

/// The names of the codes below 50 that aren't refusals of commands.
static CALL_NAMES: [(u32, &[u8]); 18] = [
    (0, b"Ok"),
    (1, b"Closed"),
    (2, b"Open"),
    (4, b"NoRoom"),
    (5, b"Unknown"),
    (6, b"AnswerLost"),
    (30, b"NoSuchWorker"),
    (31, b"Busy"),
    (32, b"Idle"),
    (33, b"BadTry"),
    (34, b"NotOwned"),
    (35, b"BadCpu"),
    (36, b"Unmapped"),
    (37, b"NoRange"),
    (38, b"PlacedTwice"),
    (40, b"Still"),
    (41, b"Exhausted"),
    (42, b"AllTaken"),
];

/// The names of the codes of errors in machines, lists, policy words and questions about scripts.
static FAULT_NAMES: [(u32, &[u8]); 23] = [
    (50, b"BadNodeCount"),
    (51, b"NoMemoryNode"),
    (52, b"BadDistance"),
    (53, b"TooManyFrames"),
    (54, b"BadLimits"),
    (55, b"BadWorkers"),
    (56, b"BadRules"),
    (57, b"BadOrders"),
    (58, b"BadFormat"),
    (60, b"ListEmpty"),
    (61, b"ListBadDigit"),
    (62, b"ListBackwards"),
    (63, b"ListTooHigh"),
    (70, b"UnknownMode"),
    (71, b"BothFlags"),
    (72, b"NodesForbidden"),
    (73, b"FlagsForbidden"),
    (74, b"NodesMissing"),
    (75, b"NoPolicy"),
    (76, b"NoNodeAllowed"),
    (80, b"NoMachine"),
    (81, b"BadAccess"),
    (82, b"ManyProcesses"),
];

/// The names of the codes of causes that only a host or pages have.
static LATE_NAMES: [(u32, &[u8]); 28] = [
    (90, b"GroupExists"),
    (91, b"NoSuchGroup"),
    (92, b"TooManyGroups"),
    (93, b"RootGroup"),
    (94, b"Populated"),
    (95, b"ProcessExists"),
    (96, b"NoSuchProcess"),
    (97, b"TooManyProcesses"),
    (98, b"GroupMems"),
    (100, b"TooManyRuns"),
    (101, b"Astray"),
    (102, b"NoSuchTarget"),
    (103, b"TargetNotAllowed"),
    (104, b"PageUnmapped"),
    (105, b"NotPlaced"),
    (106, b"NodeFull"),
    (107, b"Occupied"),
    (108, b"NoSuchCpu"),
    (109, b"SpanUnmapped"),
    (110, b"NoSuchPool"),
    (111, b"Unsure"),
    (112, b"NoHugePages"),
    (113, b"NodesFull"),
    (114, b"NoPageFree"),
    (115, b"NoPlace"),
    (116, b"Ended"),
    (117, b"NotYet"),
    (118, b"BadReaders"),
];

/// The text of a code in a table, empty if it has none.
pub(crate) fn name_in(names: &[(u32, &'static [u8])], code: u32) -> &'static [u8]
    ensures { result.now ≡ name_in (map row_of names.now) code }
{
    for row in names {
        if code == row.0 {
            return row.1;
        }
    }
    b""
}

/// The name of a code below 50 that isn't a refusal of a command.
fn call_name(code: u32) -> &'static [u8]
    ensures { result.now ≡ name_in call_names code }
{
    name_in(&CALL_NAMES, code)
}

/// The name of a code of errors in machines, lists, policy words and questions about scripts.
fn fault_name(code: u32) -> &'static [u8]
    ensures { result.now ≡ name_in fault_names code }
{
    name_in(&FAULT_NAMES, code)
}

/// The name of a code of a cause that only a host, pages or a desk have.
fn late_name(code: u32) -> &'static [u8]
    ensures { result.now ≡ name_in late_names code }
{
    name_in(&LATE_NAMES, code)
}

/// The name of a code, empty if there is none.
#[tactic(auto, unfolding(crate::specs::Names::answer_name))]
fn answer_name(code: u32) -> &'static [u8]
    ensures { result.now ≡ answer_name code }
{
    if code == 23 {
        return b"NoPolicyThere";
    }
    if let Some(cause) = refusal_numbered(code) {
        return Named::Refusal(cause).name();
    }
    if code < 50 {
        return call_name(code);
    }
    if code < 90 {
        return fault_name(code);
    }
    late_name(code)
}

/// Writes the name of a result code.
#[unsafe(no_mangle)]
pub extern "C" fn np_answer_name(code: u32, room: &mut [u8], length: &mut usize) -> u32
    ensures { IsTold (answer_name code) result room.old room.new length.old length.new }
{
    write_told(answer_name(code), room, length)
}

/// The number of an error (errno(3)).
fn errno_number(errno: Errno) -> u32
    ensures { result ≡ errno_number errno }
{
    match errno {
        Errno::EInval => 22,
        Errno::ENoMem => 12,
        Errno::EExist => 17,
        Errno::EFault => 14,
        Errno::ENoSpc => 28,
        Errno::EOpNotSupp => 95,
        Errno::ENoEnt => 2,
    }
}

/// The host's cause with this code.
fn host_numbered(code: u32) -> Option<HostRefusal>
    ensures { result ≡ host_numbered code }
{
    match code {
        90 => Some(HostRefusal::GroupExists),
        91 => Some(HostRefusal::NoSuchGroup),
        92 => Some(HostRefusal::TooManyGroups),
        93 => Some(HostRefusal::RootGroup),
        94 => Some(HostRefusal::Populated),
        95 => Some(HostRefusal::ProcessExists),
        96 => Some(HostRefusal::NoSuchProcess),
        97 => Some(HostRefusal::TooManyProcesses),
        98 => Some(HostRefusal::GroupMems),
        _ => None,
    }
}

/// The number of an error of a host.
fn host_errno_number(errno: HostErrno) -> u32
    ensures { result ≡ host_errno_number errno }
{
    match errno {
        HostErrno::OfSpace(errno) => errno_number(errno),
        HostErrno::ESrch => 3,
        HostErrno::EAcces => 13,
        HostErrno::EPerm => 1,
        HostErrno::EAgain => 11,
    }
}

/// The error number of a code of pages or of desks, 0 if there is none.
fn placed_errno(code: u32) -> u32
    ensures { result ≡ placed_errno code }
{
    match code {
        100 => PlacedRefusal::TooManyRuns.errno(),
        101 => PlacedRefusal::Astray.errno(),
        102 => MoveRefusal::NoSuchNode.errno(),
        103 => MoveRefusal::NodesNotAllowed.errno(),
        104 => MoveRefusal::Unmapped.errno(),
        105 => MoveRefusal::NotPlaced.errno(),
        106 => MoveRefusal::NoRoom.errno(),
        107 => PlacedRefusal::Occupied.errno(),
        108 => PlacedRefusal::BadCpu.errno(),
        109 => PlacedRefusal::Unmapped.errno(),
        110 => HugeRefusal::NoSuchNode.errno(),
        111 => HugeRefusal::Unsure.errno(),
        112 => HugeRefusal::NoHugePages.errno(),
        113 => HugeRefusal::Exhausted.errno(),
        114 => HugeRefusal::Killed.errno(),
        // EAGAIN, ESHUTDOWN, EAGAIN, EINVAL
        115 => 11,
        116 => 108,
        117 => 11,
        118 => 22,
        _ => 0,
    }
}

/// The error number of a code that isn't that of a command's refusal, 0 if there is none.
fn other_errno(code: u32) -> u32
    ensures { result ≡ other_errno code }
{
    match host_numbered(code) {
        Some(cause) => host_errno_number(cause.errno()),
        None => {
            if 70 <= code && code <= 74 {
                return 22;
            }
            placed_errno(code)
        }
    }
}

/// The error number of a result code, 0 if there is none.
fn answer_errno(code: u32) -> u32
    ensures { result ≡ answer_errno code }
{
    match refusal_numbered(code) {
        Some(cause) => errno_number(cause.errno()),
        None => other_errno(code),
    }
}

/// Returns the error number of a result code.
#[unsafe(no_mangle)]
pub extern "C" fn np_answer_errno(code: u32, number: &mut u32) -> u32
    ensures known { answer_name code ≢ [] → (result ≡ 0) × (number.new ≡ answer_errno code) }
    ensures unknown { answer_name code ≡ [] → (result ≡ 5) × (number.new ≡ number.old) }
{
    if answer_name(code).is_empty() {
        return Code::Unknown as u32;
    }
    *number = answer_errno(code);
    0
}
