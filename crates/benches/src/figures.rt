//! Figures: the time of a call and that of a baseline, in turn, the best of some rounds of each.
use std::io;
use std::mem::replace;
use std::rt::Clock;
use std::time::Instant;

/// A call that is timed.
pub trait Timed {
    /// What it does, and how often.
    fn told(&self) -> (&'static str, u64);
}

/// What is measured: a value, with the calls that its figures compare.
pub trait Subject<R> {
    /// Its calls, and those that are their baselines.
    type Call: Timed;

    /// Prints checksums of what its calls answer, the same in each run.
    fn checksums(&mut self, rt: &R) -> io::Result<()>;

    /// Makes a call. All that the call answers has part in this number, so that none is left out.
    fn make(&mut self, rt: &R, call: &Self::Call) -> u64;

    /// Restores everything after a call; it isn't timed.
    fn settle(&mut self);
}

/// A figure: a call and its baseline.
pub type Figure<C> = (C, C);

/// How many rounds of a figure are timed.
const ROUNDS: u32 = 30;

/// The time since then in nanoseconds, 0 where the clock can't be read.
fn nanos_since(rt: &impl Clock, start: Option<Instant>) -> u64 {
    let Some(start) = start else {
        return 0;
    };
    match start.elapsed(rt) {
        Ok(spent) => u64::try_from(spent.as_nanos()).unwrap_or(u64::MAX),
        Err(_) => 0,
    }
}

/// The best times of a call and of its baseline, in nanoseconds, and the sum of what all answered.
#[derive(Clone, Copy)]
struct Times {
    call: u64,
    baseline: u64,
    sum: u64,
}

/// The time of a call, and what it answered.
fn time<R: Clock, S: Subject<R>>(rt: &R, subject: &mut S, call: &S::Call) -> (u64, u64) {
    let start = Instant::now(rt).ok();
    let answered = subject.make(rt, call);
    let spent = nanos_since(rt, start);
    subject.settle();
    (spent, answered)
}

/// The times of a figure.
fn times_of<R: Clock, S: Subject<R>>(rt: &R, subject: &mut S, figure: &Figure<S::Call>) -> Times {
    let mut times = Times {
        call: u64::MAX,
        baseline: u64::MAX,
        sum: 0,
    };
    for _ in 0..ROUNDS {
        let (call, answered) = time(rt, subject, &figure.0);
        let (baseline, beside) = time(rt, subject, &figure.1);
        times = Times {
            call: times.call.min(call),
            baseline: times.baseline.min(baseline),
            sum: times.sum.wrapping_add(answered).wrapping_add(beside),
        };
    }
    times
}

/// The time for one of `count` calls, in picoseconds.
fn each(spent: u64, count: u64) -> u128 {
    u128::from(spent) * 1_000 / u128::from(count.max(1))
}

/// Prints a figure: the ratio of its times for one call, and both times.
fn print_ratio<C: Timed>(rt: &impl Print, figure: &Figure<C>, times: Times) -> io::Result<()> {
    let (name, count) = figure.0.told();
    let (base, base_count) = figure.1.told();
    let call = each(times.call, count);
    let baseline = each(times.baseline, base_count);
    let ratio = call.saturating_mul(100) / baseline.max(1);
    let (whole, part) = (ratio / 100, ratio % 100);
    let (call, baseline) = (call / 1_000, baseline / 1_000);
    println!(rt; "{name} over {base}: {whole}.{part:02} ({call} ns over {baseline} ns)")
}

/// Prints the figures, and the sum of what all calls answered.
fn measure<R: Print + Clock, S: Subject<R>>(
    rt: &R,
    subject: &mut S,
    figures: &[Figure<S::Call>],
) -> io::Result<()> {
    let mut sum = 0u64;
    for figure in figures {
        let times = times_of(rt, subject, figure);
        print_ratio(rt, figure, times)?;
        sum = sum.wrapping_add(times.sum);
    }
    println!(rt; "sum of answers {sum}")
}

/// Prints the figures of a subject, or its checksums; it ends then. Where it couldn't be made, that
/// is printed.
pub fn print<R: Print + Clock, S: Subject<R> + Drop>(
    rt: &R,
    made: Option<S>,
    measures: bool,
    figures: &[Figure<S::Call>],
) -> io::Result<()> {
    let Some(mut subject) = made else {
        return println!(rt; "no memory");
    };
    let done = if measures {
        measure(rt, &mut subject, figures)
    } else {
        subject.checksums(rt)
    };
    drop(subject);
    done
}

/// Puts a value in the place of another, which ends then.
pub fn put<T: Drop>(place: &mut T, value: T) {
    drop(replace(place, value));
}
