//! Compares worked scripts with the answers to their lines, and writes them anew.
use numa_answers::{Comparing, Comparison, Updated};
use numa_command_line::Outlet;
use numa_console::{Answering, Lack, Noting, fail, fail_to_write, rewrite_all, stop_quietly};
use numa_lines::{Expect, RunFault, read_all};
use numa_play::Scripts;
use numa_sheets::Format;
use std::io;
use std::io::{Read, Write};
use std::process::ExitCode;
use std::rt::Files;

/// The status if an answer isn't as expected, or a worked script expects none.
const DIFFERENT: u8 = 3;

/// Reads worked scripts, writes the counts, and returns whether all answers are as expected.
fn compare_by<S: Read + Drop, W: Write>(
    texts: Vec<(String, S)>,
    expect: &mut Expect<Noting<'_>, W>,
) -> Result<bool, RunFault> {
    read_all(texts, expect, &mut ())?;
    expect.tell_counts()?;
    Ok(expect.counts().are_as_wanted())
}

/// Compares worked scripts, and returns whether all answers are as expected.
fn compare<R, S>(rt: &R, scripts: Scripts<S>, outlet: &Outlet) -> Result<bool, RunFault>
where
    R: Print + AllocGlobal,
    S: Read + Drop,
{
    let Scripts { texts, rules, .. } = scripts;
    let lack = Lack::new();
    let answering = lack.noted_by(Answering::new(rt.alloc(), rules));
    let output = lack.heeded_by(outlet.writer(io::writer(rt)));
    let mut expect = Expect::new(rt.alloc(), answering, output);
    let is_same = compare_by(texts, &mut expect);
    drop(expect);
    is_same
}

/// Whether all answers are as expected, and the scripts that hold others.
type Compared = (bool, Vec<Updated>);

/// Reads worked scripts, and writes the counts.
fn compare_all_by<S: Read + Drop, W: Write>(
    texts: Vec<(String, S)>,
    comparing: &mut Comparing<Answering, W>,
) -> Result<Compared, RunFault> {
    read_all(texts, comparing, &mut ())?;
    comparing.tell_counts()?;
    Ok((comparing.is_as_wanted(), comparing.take_changed()))
}

/// Compares worked scripts in other ways than by text and exactly.
fn compare_otherwise<R, S>(
    rt: &R,
    scripts: Scripts<S>,
    how: Comparison,
    outlet: &Outlet,
) -> Result<Compared, RunFault>
where
    R: Print + AllocGlobal,
    S: Read + Drop,
{
    let Scripts { texts, rules, .. } = scripts;
    let answering = Answering::new(rt.alloc(), rules);
    let output = outlet.writer(io::writer(rt));
    let mut comparing = Comparing::new(rt.alloc(), how, answering, output);
    let compared = compare_all_by(texts, &mut comparing);
    drop(comparing);
    compared
}

/// The status of a comparison.
fn status_of(is_same: bool) -> ExitCode {
    if is_same {
        ExitCode::SUCCESS
    } else {
        ExitCode::from(DIFFERENT)
    }
}

/// Writes scripts anew, and ends with this status.
fn end_update<R>(rt: &R, changed: &[Updated], is_same: bool) -> ExitCode
where
    R: Files + Eprint + AllocGlobal,
{
    match rewrite_all(rt, changed) {
        Ok(None) => status_of(is_same),
        Ok(Some(fault)) => fail_to_write(rt, fault.name.as_str(), &fault.error),
        Err(_) => fail(rt, RunFault::Memory),
    }
}

/// Compares worked scripts, each as a separate script, and writes those anew that hold other
/// answers than they get, if that is asked for.
pub fn check<R, S>(rt: &R, scripts: Scripts<S>, how: Comparison) -> ExitCode
where
    R: Files + Print + Eprint + AllocGlobal,
    S: Read + Drop,
{
    let outlet = Outlet::new();
    if let Comparison {
        format: Format::Text,
        any_version: false,
        update: false,
    } = how
    {
        return match compare(rt, scripts, &outlet) {
            Ok(is_same) => status_of(is_same),
            Err(why) => stop_quietly(rt, why, &outlet),
        };
    }
    match compare_otherwise(rt, scripts, how, &outlet) {
        Ok((is_same, changed)) => {
            let code = end_update(rt, changed.as_slice(), is_same);
            drop(changed);
            code
        }
        Err(why) => stop_quietly(rt, why, &outlet),
    }
}
