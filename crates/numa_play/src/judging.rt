//! Passing lines to a script, and what is wrong with them.
ghost use Rattle.std.specs.Prelude.{◌≡◌};
ghost use Rattle.numa_script.specs.Lines.{alone};
ghost use Rattle.numa_script.specs.declared.line.Line.TheVariants as line;
ghost use Rattle.numa_play.specs.Checks.{Checks, Judged};
ghost use Rattle.numa_play.specs.Turned.{rules_instead, turned};

use numa_diagnose::{Detail, Finding, finding_in, finding_in_host};
use numa_host_script::HostScript;
use numa_machine::Rules;
use numa_requests::{CoreRefusal, HostRefusal, Refusal};
use numa_rules::other_rules;
use numa_script::{Line, Malformed, PageLine, Reply, ScriptLine};
use numa_space::Space;
use std::alloc::Global;

/// The space of the script of one process, if a machine is ready.
fn space_of(script: &HostScript) -> Option<&Space> {
    match script.script()?.core() {
        Some(core) => Some(core.space()),
        None => None,
    }
}

/// What is wrong with a line that this fault or refusal answers, by the script after it.
fn finding_of(script: &HostScript, line: &[u8], said: &ScriptLine<'_>, fault: Reply) -> Finding
    ensures { result.fault ≡ fault }
{
    match script.host() {
        Some(host) => finding_in_host(host, line, said, fault),
        None => finding_in(space_of(script), line, said, fault),
    }
}

/// Carries out a line, which is `said` in bytes without a line feed, and returns what is wrong with
/// it: `Some` exactly if its answer is an error or a refusal, and then that one. A question is
/// judged and not answered.
pub fn judge(
    alloc: Global,
    script: &mut HostScript,
    line: &[u8],
    said: &ScriptLine<'_>,
) -> Option<Finding>
    ensures { Checks script.old said.now result script.new }
{
    match script.judge(alloc, said) {
        None => None,
        Some(fault) => Some(finding_of(script, line, said, fault)),
    }
}

/// Why a line is malformed, where it stands behind so many bytes.
fn malformed_behind(malformed: Malformed, before: usize) -> Malformed {
    Malformed {
        cause: malformed.cause,
        column: malformed.column.saturating_add(before),
    }
}

/// What is wrong with a line, with the column where it stands behind so many bytes.
fn detail_behind(detail: Detail, before: usize) -> Detail {
    match detail {
        Detail::Malformed(malformed) => Detail::Malformed(malformed_behind(malformed, before)),
        Detail::MalformedMore(malformed) => {
            Detail::MalformedMore(malformed_behind(malformed, before))
        }
        _ => detail,
    }
}

/// The same as `judge`, of a line that stands behind so many bytes.
pub(crate) fn judge_behind(
    alloc: Global,
    script: &mut HostScript,
    line: &[u8],
    said: &ScriptLine<'_>,
    before: usize,
) -> Option<Finding>
    ensures { Checks script.old said.now result script.new }
{
    match judge(alloc, script, line, said) {
        None => None,
        Some(finding) => Some(Finding {
            fault: finding.fault,
            detail: detail_behind(finding.detail, before),
            process: finding.process,
        }),
    }
}

/// The rules that a line chooses instead where it chooses the others.
fn rules_instead(said: &Line<'_>) -> Option<Rules>
    ensures { result ≡ rules_instead said.now }
{
    match said {
        Line::Rules(rules) => Some(other_rules(*rules)),
        _ => None,
    }
}

/// The line that chooses these rules.
fn rules_line<'a>(rules: Rules) -> ScriptLine<'a>
    ensures { result ≡ alone (line.Rules rules) }
{
    ScriptLine {
        process: None,
        line: Line::Rules(rules),
    }
}

/// Carries out a line, but takes a line `rules` for one with the other rules, and returns what is
/// wrong with it. So of two scripts that begin with different rules and are given the same lines,
/// one by `judge` and one by this, each follows its own set of rules.
pub(crate) fn judge_by_other(
    alloc: Global,
    script: &mut HostScript,
    said: &ScriptLine<'_>,
) -> Option<Reply>
    ensures { Judged script.old (turned said.now) result script.new }
{
    match rules_instead(&said.line) {
        Some(rules) => script.judge(alloc, &rules_line(rules)),
        None => script.judge(alloc, said),
    }
}

/// Whether a line is refused only for the number of commands, as by a kernel's rules too.
pub(crate) fn is_spent(finding: &Finding) -> bool {
    match finding.fault {
        Reply::Refused(cause) => cause == CoreRefusal::Command(Refusal::CommandsSpent),
        Reply::HostRefused(refusal) => refusal == HostRefusal::CommandsSpent,
        _ => false,
    }
}

/// Whether a line says where pages lie.
pub(crate) fn is_at(said: &ScriptLine<'_>) -> bool {
    match said.line {
        Line::Pages(Ok(PageLine::At { .. })) => true,
        _ => false,
    }
}
