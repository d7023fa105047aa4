//! Calls of mbind: of a core with its pages, and of a host's processes.
ghost use Rattle.numa_pages.specs.Changes.{Accepts, BindsMoving, BindsStrictly};
ghost use Rattle.numa_script.specs.Policies.{policy_of};
ghost use Rattle.numa_requests.specs.declared.command.Command.{Command};
ghost use Rattle.numaplan_c.specs.Bound.{bound_spec, host_rules_in, page_rules_in, spec_by};
ghost use Rattle.numaplan_c.specs.Codes.{word_code};
ghost use Rattle.numaplan_c.specs.Placed.{PagesAnswer, PagesAnswerRead, PagesBind, PagesBindRead};
ghost use Rattle.numaplan_c.specs.Placed.{TellsBound, change_code};
ghost use Rattle.numaplan_handles.specs.Handles.{host_in, pages_in};
ghost use Rattle.std.specs.Prelude.{◌≡◌};
ghost use Rattle.numa_requests.specs.declared.host_command.HostCommand.{HostCommand};
ghost use Rattle.numaplan_c.specs.Hosts.{HostAnswersRead, reply_code};
ghost use Rattle.numa_script.specs.declared.page_line.BoundPages.{BoundPages};
ghost use Rattle.numaplan_c.specs.Hosted.{HostBind, HostBindRead, HostDoes, HostDoesRead};
ghost use Rattle.numaplan_c.specs.Hosted.{TellsSent, late_number};
ghost use Rattle.numaplan_handles.specs.Hosted.{Binds};

use crate::binding::{bound_spec, host_rules, page_rules, spec_by};
use crate::codes::word_code;
use crate::host_codes::reply_code;
use crate::host_commands::obey;
use crate::keeping::{if_open, or_return};
use crate::moves::NpBound;
use crate::nodes::NpNodes;
use crate::placed_codes::{changed, changed_code};
use crate::placed_commands::obey as obey_core;
use numa_mode::PolicySpec;
use numa_page_state::{Rebinding, Toucher};
use numa_pages::{ChangeRefusal, Rebound};
use numa_requests::{Command, HostCommand};
use numa_script::policy::read_policy;
use numa_script::{BoundPages, MoveWords, Reply, WordError};
use numaplan_handles::{HostHandle, PagesHandle};
use std::alloc::Global;

/// Writes what moving pages to where a policy puts them did, if it wasn't refused.
fn tell_bound(answer: &Result<Rebound, ChangeRefusal>, bound: &mut NpBound)
    ensures { TellsBound bound.old bound.new answer.now }
{
    if let Ok(done) = answer {
        *bound = NpBound {
            moved: done.bound.moved,
            left: done.bound.left,
            error: done.errno,
        };
    }
}

/// Sets the policy of a span's pages, wherever they lie, as it was read.
fn bind(
    alloc: Global,
    pages: &mut PagesHandle,
    start: u64,
    length: u64,
    said: Result<PolicySpec, WordError>,
) -> u32
    ensures { PagesAnswerRead (bound_spec (page_rules_in (pages_in pages.old)) length said)
        word_code change_code (λ spec. Accepts (Command.Mbind start length spec)) pages.old result
        pages.new }
{
    let rules = page_rules(alloc, pages);
    let spec = or_return!(bound_spec(rules, length, said), word_code);
    obey_core(
        alloc,
        pages,
        Command::Mbind {
            start,
            length,
            spec,
        },
    )
}

/// Sets the policy of a span's pages, wherever they lie.
#[unsafe(no_mangle)]
pub extern "C" fn np_pages_mbind(
    alloc: Global,
    pages: &mut PagesHandle,
    start: u64,
    length: u64,
    policy: &[u8],
) -> u32
    ensures { PagesAnswerRead (bound_spec (page_rules_in (pages_in pages.old)) length
        (policy_of policy.now)) word_code change_code
        (λ spec. Accepts (Command.Mbind start length spec)) pages.old result pages.new }
{
    bind(alloc, pages, start, length, read_policy(policy))
}

/// The same by a mode word and a set of nodes.
#[unsafe(no_mangle)]
pub extern "C" fn np_pages_mbind_by(
    alloc: Global,
    pages: &mut PagesHandle,
    start: u64,
    length: u64,
    mode: u32,
    nodes: &NpNodes,
) -> u32
    ensures { PagesAnswerRead (bound_spec (page_rules_in (pages_in pages.old)) length
        (spec_by mode nodes.now)) word_code change_code
        (λ spec. Accepts (Command.Mbind start length spec)) pages.old result pages.new }
{
    bind(alloc, pages, start, length, spec_by(mode, nodes))
}

/// Sets a policy for a span, unless a page lies on another node than it asks for.
fn strict(alloc: Global, pages: &mut PagesHandle, start: u64, length: u64, spec: PolicySpec) -> u32
    ensures { PagesAnswer change_code (BindsStrictly start length spec) pages.old result pages.new }
{
    changed!(pages.bind_strictly(alloc, start, length, spec))
}

/// The same for a policy as it was read.
fn bind_strictly(
    alloc: Global,
    pages: &mut PagesHandle,
    start: u64,
    length: u64,
    said: Result<PolicySpec, WordError>,
) -> u32
    ensures { PagesAnswerRead (bound_spec (page_rules_in (pages_in pages.old)) length said)
        word_code change_code (BindsStrictly start length) pages.old result pages.new }
{
    let rules = page_rules(alloc, pages);
    let spec = or_return!(bound_spec(rules, length, said), word_code);
    strict(alloc, pages, start, length, spec)
}

/// Sets the policy of a span's pages, unless one lies on another node than it asks for.
#[unsafe(no_mangle)]
pub extern "C" fn np_pages_mbind_strictly(
    alloc: Global,
    pages: &mut PagesHandle,
    start: u64,
    length: u64,
    policy: &[u8],
) -> u32
    ensures { PagesAnswerRead (bound_spec (page_rules_in (pages_in pages.old)) length
        (policy_of policy.now)) word_code change_code (BindsStrictly start length) pages.old result
        pages.new }
{
    bind_strictly(alloc, pages, start, length, read_policy(policy))
}

/// The same by a mode word and a set of nodes.
#[unsafe(no_mangle)]
pub extern "C" fn np_pages_mbind_strictly_by(
    alloc: Global,
    pages: &mut PagesHandle,
    start: u64,
    length: u64,
    mode: u32,
    nodes: &NpNodes,
) -> u32
    ensures { PagesAnswerRead (bound_spec (page_rules_in (pages_in pages.old)) length
        (spec_by mode nodes.now)) word_code change_code (BindsStrictly start length) pages.old
        result pages.new }
{
    bind_strictly(alloc, pages, start, length, spec_by(mode, nodes))
}

/// Sets a policy, and moves the pages that lie on other nodes than it asks for.
fn rebind(
    alloc: Global,
    pages: &mut PagesHandle,
    said: Rebinding,
    strict: bool,
    toucher: Toucher,
    bound: &mut NpBound,
) -> u32
    ensures { PagesBind (BindsMoving said.start said.length said.spec strict toucher.task
        toucher.cpu) pages.old result pages.new bound.old bound.new }
{
    if_open!(pages.bind_moving(alloc, said, strict, toucher), answer => {
        tell_bound(&answer, bound);
        changed_code(answer)
    })
}

/// The same for a policy as it was read.
fn bind_moving(
    alloc: Global,
    pages: &mut PagesHandle,
    start: u64,
    length: u64,
    said: Result<PolicySpec, WordError>,
    words: MoveWords,
    bound: &mut NpBound,
) -> u32
    ensures { PagesBindRead said length
        (λ spec. BindsMoving start length spec words.strict words.task words.cpu) pages.old result
        pages.new bound.old bound.new }
{
    let rules = page_rules(alloc, pages);
    let spec = or_return!(bound_spec(rules, length, said), word_code);
    let said = Rebinding {
        start,
        length,
        spec,
    };
    let MoveWords { strict, task, cpu } = words;
    rebind(alloc, pages, said, strict, Toucher { task, cpu }, bound)
}

/// Sets the policy of a span's pages, and moves those that lie on other nodes than it asks for.
#[unsafe(no_mangle)]
pub extern "C" fn np_pages_mbind_moving(
    alloc: Global,
    pages: &mut PagesHandle,
    start: u64,
    length: u64,
    policy: &[u8],
    strict: bool,
    task: u32,
    cpu: u32,
    bound: &mut NpBound,
) -> u32
    ensures { PagesBindRead (policy_of policy.now) length
        (λ spec. BindsMoving start length spec strict task cpu) pages.old result pages.new
        bound.old bound.new }
{
    let words = MoveWords { strict, task, cpu };
    let said = read_policy(policy);
    bind_moving(alloc, pages, start, length, said, words, bound)
}

/// The same by a mode word and a set of nodes.
#[unsafe(no_mangle)]
pub extern "C" fn np_pages_mbind_moving_by(
    alloc: Global,
    pages: &mut PagesHandle,
    start: u64,
    length: u64,
    mode: u32,
    nodes: &NpNodes,
    strict: bool,
    task: u32,
    cpu: u32,
    bound: &mut NpBound,
) -> u32
    ensures { PagesBindRead (spec_by mode nodes.now) length
        (λ spec. BindsMoving start length spec strict task cpu) pages.old result pages.new
        bound.old bound.new }
{
    let words = MoveWords { strict, task, cpu };
    let said = spec_by(mode, nodes);
    bind_moving(alloc, pages, start, length, said, words, bound)
}

// ---- of processes of a host

/// Sets the policy of the pages of a process's span, as it was read.
fn bind_in(
    alloc: Global,
    host: &mut HostHandle,
    process: u32,
    start: u64,
    length: u64,
    said: Result<PolicySpec, WordError>,
) -> u32
    ensures { HostAnswersRead (bound_spec (host_rules_in (host_in host.old)) length said) word_code
        (λ spec. HostCommand.In process (Command.Mbind start length spec)) (host_in host.old)
        result (host_in host.new) }
{
    let rules = host_rules(alloc, host);
    let spec = or_return!(bound_spec(rules, length, said), word_code);
    let command = Command::Mbind {
        start,
        length,
        spec,
    };
    obey(alloc, host, HostCommand::In { process, command })
}

/// Sets the policy of the pages of a process's span.
#[unsafe(no_mangle)]
pub extern "C" fn np_host_mbind(
    alloc: Global,
    host: &mut HostHandle,
    process: u32,
    start: u64,
    length: u64,
    policy: &[u8],
) -> u32
    ensures { HostAnswersRead (bound_spec (host_rules_in (host_in host.old)) length
        (policy_of policy.now)) word_code
        (λ spec. HostCommand.In process (Command.Mbind start length spec)) (host_in host.old)
        result (host_in host.new) }
{
    bind_in(alloc, host, process, start, length, read_policy(policy))
}

/// The same by a mode word and a set of nodes.
#[unsafe(no_mangle)]
pub extern "C" fn np_host_mbind_by(
    alloc: Global,
    host: &mut HostHandle,
    process: u32,
    start: u64,
    length: u64,
    mode: u32,
    nodes: &NpNodes,
) -> u32
    ensures { HostAnswersRead (bound_spec (host_rules_in (host_in host.old)) length
        (spec_by mode nodes.now)) word_code
        (λ spec. HostCommand.In process (Command.Mbind start length spec)) (host_in host.old)
        result (host_in host.new) }
{
    bind_in(alloc, host, process, start, length, spec_by(mode, nodes))
}

/// Sets a policy for a span of a process, unless a page lies on another node than it asks for.
fn bind_strictly_in(alloc: Global, host: &mut HostHandle, process: u32, said: Rebinding) -> u32
    ensures { HostDoes reply_code
        (Binds process said.start said.length said.spec BoundPages.Strict) host.old result
        host.new }
{
    if_open!(host.bind(alloc, process, said, &BoundPages::Strict), answer => reply_code(&answer))
}

/// The same for a policy as it was read.
fn bind_strictly_read(
    alloc: Global,
    host: &mut HostHandle,
    process: u32,
    start: u64,
    length: u64,
    said: Result<PolicySpec, WordError>,
) -> u32
    ensures { HostDoesRead said length
        (λ spec. Binds process start length spec BoundPages.Strict) host.old result host.new }
{
    let rules = host_rules(alloc, host);
    let spec = or_return!(bound_spec(rules, length, said), word_code);
    let said = Rebinding {
        start,
        length,
        spec,
    };
    bind_strictly_in(alloc, host, process, said)
}

/// Sets the policy of the pages of a process's span, unless one lies on another node than it asks
/// for.
#[unsafe(no_mangle)]
pub extern "C" fn np_host_mbind_strictly(
    alloc: Global,
    host: &mut HostHandle,
    process: u32,
    start: u64,
    length: u64,
    policy: &[u8],
) -> u32
    ensures { HostDoesRead (policy_of policy.now) length
        (λ spec. Binds process start length spec BoundPages.Strict) host.old result host.new }
{
    bind_strictly_read(alloc, host, process, start, length, read_policy(policy))
}

/// The same by a mode word and a set of nodes.
#[unsafe(no_mangle)]
pub extern "C" fn np_host_mbind_strictly_by(
    alloc: Global,
    host: &mut HostHandle,
    process: u32,
    start: u64,
    length: u64,
    mode: u32,
    nodes: &NpNodes,
) -> u32
    ensures { HostDoesRead (spec_by mode nodes.now) length
        (λ spec. Binds process start length spec BoundPages.Strict) host.old result host.new }
{
    bind_strictly_read(alloc, host, process, start, length, spec_by(mode, nodes))
}

/// The error number that mbind(2) answers all the same.
fn late_number(late: bool) -> u32
    ensures { result ≡ late_number late }
{
    if late {
        return 5;
    }
    0
}

/// Writes what a policy did to the pages that it moved, if it was set.
fn tell_sent(answer: &Reply, bound: &mut NpBound)
    ensures { TellsSent bound.old bound.new answer.now }
{
    if let Reply::Sent {
        version: _,
        moved,
        left,
        late,
    } = answer
    {
        *bound = NpBound {
            moved: *moved,
            left: *left,
            error: late_number(*late),
        };
    }
}

/// Sets a policy for a span of a process, and moves the pages that lie on other nodes than it asks
/// for.
fn rebind_in(
    alloc: Global,
    host: &mut HostHandle,
    process: u32,
    said: Rebinding,
    words: MoveWords,
    bound: &mut NpBound,
) -> u32
    ensures { HostBind (Binds process said.start said.length said.spec (BoundPages.Move words))
        host.old result host.new bound.old bound.new }
{
    if_open!(host.bind(alloc, process, said, &BoundPages::Move(words)), answer => {
        tell_sent(&answer, bound);
        reply_code(&answer)
    })
}

/// The same for a policy as it was read.
fn rebind_read(
    alloc: Global,
    host: &mut HostHandle,
    process: u32,
    start: u64,
    length: u64,
    said: Result<PolicySpec, WordError>,
    words: MoveWords,
    bound: &mut NpBound,
) -> u32
    ensures { HostBindRead said length
        (λ spec. Binds process start length spec (BoundPages.Move words)) host.old result host.new
        bound.old bound.new }
{
    let rules = host_rules(alloc, host);
    let spec = or_return!(bound_spec(rules, length, said), word_code);
    let said = Rebinding {
        start,
        length,
        spec,
    };
    rebind_in(alloc, host, process, said, words, bound)
}

/// Sets the policy of the pages of a process's span, and moves those that lie on other nodes than
/// it asks for.
#[unsafe(no_mangle)]
pub extern "C" fn np_host_mbind_moving(
    alloc: Global,
    host: &mut HostHandle,
    process: u32,
    start: u64,
    length: u64,
    policy: &[u8],
    strict: bool,
    task: u32,
    cpu: u32,
    bound: &mut NpBound,
) -> u32
    ensures { HostBindRead (policy_of policy.now) length (λ spec. Binds process start length spec
        (BoundPages.Move (record { strict = strict; task = task; cpu = cpu }))) host.old result
        host.new bound.old bound.new }
{
    let words = MoveWords { strict, task, cpu };
    let said = read_policy(policy);
    rebind_read(alloc, host, process, start, length, said, words, bound)
}

/// The same by a mode word and a set of nodes.
#[unsafe(no_mangle)]
pub extern "C" fn np_host_mbind_moving_by(
    alloc: Global,
    host: &mut HostHandle,
    process: u32,
    start: u64,
    length: u64,
    mode: u32,
    nodes: &NpNodes,
    strict: bool,
    task: u32,
    cpu: u32,
    bound: &mut NpBound,
) -> u32
    ensures { HostBindRead (spec_by mode nodes.now) length (λ spec. Binds process start length spec
        (BoundPages.Move (record { strict = strict; task = task; cpu = cpu }))) host.old result
        host.new bound.old bound.new }
{
    let words = MoveWords { strict, task, cpu };
    let said = spec_by(mode, nodes);
    rebind_read(alloc, host, process, start, length, said, words, bound)
}
