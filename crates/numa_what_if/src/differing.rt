//! Differences of a space, or of each process of a host, from a state before.
use numa_answers::{About, PageData, add_answer, page_of, reported, shown_as, told_of, view_text};
use numa_host::{Host, Process};
use numa_lines::RunFault;
use numa_reports::{
    ByProcess, DifferenceRequest, MoveSum, Outlook, PredictionRequest, difference_more,
    difference_text, outlook_of,
};
use numa_sheets::{Format, Touch, Watch};
use numa_space::Space;
use numa_subjects::{Added, Halt, Subject, member, nodes_with};
use std::alloc::{AllocError, Global};

/// The state of a space.
pub(crate) fn outlook_in(alloc: Global, space: &Space) -> Result<Outlook, Halt> {
    reported(outlook_of(alloc, space), space.machine().nodes())
}

/// The state of a process of a host, or of the one space, and in a page its object too.
#[derive(Drop)]
struct ProcessOutlook {
    process: Option<u32>,
    outlook: Outlook,
    view: Vec<u8>,
}

/// What a difference is asked of: the states before, of the one space or of each process.
pub struct StatesBefore {
    outlooks: Vec<ProcessOutlook>,
}

// (By hand, so that it is proved here alone: a derived one is proved in each crate that drops.)
impl Drop for StatesBefore {
    fn drop(self) {
        let StatesBefore { outlooks } = self;
        drop(outlooks);
    }
}

/// A difference that is asked for.
#[derive(Clone, Copy)]
pub struct DiffAsked<'a> {
    /// How pages are touched.
    pub touch: Touch,
    /// Text, JSON, SVG or HTML.
    pub format: Format,
    /// The lines that make the difference.
    pub added: Added<'a>,
}

/// The object of a state, if a page is asked for.
pub(crate) fn view_in(
    alloc: Global,
    space: &Space,
    outlook: &Outlook,
    asked: DiffAsked<'_>,
) -> Result<Vec<u8>, Halt> {
    let Format::Html(number) = asked.format else {
        return Ok(Vec::new(alloc));
    };
    let request = PredictionRequest::of(space, &outlook.plan, asked.touch);
    let view = view_text(alloc, request, number, &mut ());
    reported(view, space.machine().nodes())
}

/// The state of a space, as that of a process.
fn outlook_of_process(
    alloc: Global,
    process: Option<u32>,
    space: &Space,
    asked: DiffAsked<'_>,
) -> Result<ProcessOutlook, Halt> {
    let outlook = outlook_in(alloc, space)?;
    match view_in(alloc, space, &outlook, asked) {
        Ok(view) => Ok(ProcessOutlook {
            process,
            outlook,
            view,
        }),
        Err(halt) => {
            drop(outlook);
            Err(halt)
        }
    }
}

/// Adds the state of a process.
fn add_outlook(
    alloc: Global,
    outlooks: &mut Vec<ProcessOutlook>,
    process: Option<u32>,
    space: &Space,
    asked: DiffAsked<'_>,
) -> Result<(), Halt> {
    let one = outlook_of_process(alloc, process, space, asked)?;
    match outlooks.push(one) {
        Ok(()) => Ok(()),
        Err(_) => Err(Halt::Stopped(RunFault::Memory)),
    }
}

/// Adds the states of processes.
fn add_outlooks(
    alloc: Global,
    processes: &[Process],
    outlooks: &mut Vec<ProcessOutlook>,
    asked: DiffAsked<'_>,
) -> Result<(), Halt> {
    for process in processes {
        add_outlook(alloc, outlooks, Some(process.id), &process.space, asked)?;
    }
    Ok(())
}

/// The data of a page with a difference, and the states before and after.
fn data_of(
    alloc: Global,
    difference: &[u8],
    before: &[u8],
    after: &[u8],
) -> Result<Vec<u8>, AllocError> {
    let mut data = PageData::new(alloc);
    data.put("difference", difference);
    data.put("before", before);
    data.put("after", after);
    data.end()
}

/// The difference between two states, on machines with up to so many nodes.
fn request_of<'a>(
    before: &'a Outlook,
    after: &'a Outlook,
    nodes: u32,
    asked: DiffAsked<'_>,
) -> DifferenceRequest<'a> {
    DifferenceRequest {
        before,
        after,
        nodes,
        touch: asked.touch,
        format: asked.format,
    }
}

/// The difference to an outlook, on machines with up to so many nodes, as a text, or as a page.
pub(crate) fn difference_to<'a, P: Watch>(
    alloc: Global,
    before: &'a Outlook,
    view: &[u8],
    space: &Space,
    after: &'a Outlook,
    nodes: u32,
    asked: DiffAsked<'_>,
    watch: &mut P,
) -> Result<Vec<u8>, Halt> {
    let text = difference_text(alloc, request_of(before, after, nodes, asked), watch);
    let text = reported(text, nodes)?;
    let Format::Html(_) = asked.format else {
        return Ok(text);
    };
    let view_after = view_in(alloc, space, after, asked)?;
    let data = data_of(alloc, &text, view, &view_after)?;
    Ok(page_of(alloc, "difference", data.as_slice())?)
}

/// The difference to the state of the one space.
fn difference_of_one<P: Watch>(
    alloc: Global,
    before: &StatesBefore,
    space: &Space,
    asked: DiffAsked<'_>,
    watch: &mut P,
) -> Result<Vec<u8>, Halt> {
    let Some(one) = before.outlooks.first() else {
        return Err(Halt::NoMachine);
    };
    let after = outlook_in(alloc, space)?;
    let view = one.view.as_slice();
    let nodes = space.machine().nodes();
    let text = difference_to(
        alloc,
        &one.outlook,
        view,
        space,
        &after,
        nodes,
        asked,
        watch,
    );
    drop(after);
    text
}

/// Differences by process, that are added one by one, and what they come to in all, on machines
/// with up to so many nodes.
#[derive(Drop)]
struct Differences<'a, P> {
    nodes: u32,
    asked: DiffAsked<'a>,
    answers: ByProcess,
    sum: MoveSum,
    watch: &'a mut P,
}

impl<'a, P: Watch> Differences<'a, P> {
    /// Before the first of them.
    fn new(
        alloc: Global,
        nodes: u32,
        asked: DiffAsked<'a>,
        watch: &'a mut P,
    ) -> Result<Differences<'a, P>, Halt> {
        let nodes = nodes_with(nodes, asked.touch.cpu)?;
        let format = match asked.format {
            // (Differences have no records.)
            Format::Csv | Format::Tap => Format::Text,
            format => format,
        };
        let sum = MoveSum::new(alloc)?;
        Ok(Differences {
            nodes,
            asked,
            answers: ByProcess::of_touch(alloc, format, asked.touch),
            sum,
            watch,
        })
    }

    /// The difference of a process to its state now: a text, or the data of a page.
    fn text_of(
        &mut self,
        alloc: Global,
        one: &ProcessOutlook,
        space: &Space,
        after: &Outlook,
    ) -> Result<Vec<u8>, Halt> {
        let (asked, nodes) = (self.asked, space.machine().nodes());
        let request = request_of(&one.outlook, after, nodes, asked);
        let text = difference_more(alloc, request, &mut self.sum, &mut *self.watch);
        let text = reported(text, nodes)?;
        let Format::Html(_) = asked.format else {
            return Ok(text);
        };
        let view = view_in(alloc, space, after, asked)?;
        Ok(data_of(alloc, &text, &one.view, &view)?)
    }

    /// Adds the difference of a process.
    fn add(&mut self, alloc: Global, one: &ProcessOutlook, now: &Process) -> Result<(), Halt> {
        let after = outlook_in(alloc, &now.space)?;
        let text = self.text_of(alloc, one, &now.space, &after);
        drop(after);
        add_answer(&mut self.answers, now, text)
    }

    /// Adds the differences of the processes that are there before and after.
    fn add_all(&mut self, alloc: Global, before: &StatesBefore, host: &Host) -> Result<(), Halt> {
        for one in &before.outlooks {
            if let Some(now) = member_of(host, one.process) {
                self.add(alloc, one, now)?;
            }
        }
        Ok(())
    }

    /// Ends them with what they come to.
    fn end(&mut self, alloc: Global) -> Result<Vec<u8>, Halt> {
        self.answers.end_moves(&self.sum, self.nodes);
        let text = self.answers.take()?;
        shown_as(alloc, self.asked.format, "difference", text)
    }
}

/// The process of a host with this number, if there is one.
fn member_of(host: &Host, process: Option<u32>) -> Option<&Process> {
    member(host, process?)
}

/// The differences to the states of all processes, by process and in all, if they can be begun.
fn difference_of_each<P: Watch>(
    alloc: Global,
    begun: Result<Differences<'_, P>, Halt>,
    before: &StatesBefore,
    host: &Host,
) -> Result<Vec<u8>, Halt> {
    let mut differences = begun?;
    let text = match differences.add_all(alloc, before, host) {
        Ok(()) => differences.end(alloc),
        Err(halt) => Err(halt),
    };
    drop(differences);
    text
}

/// A difference, which says what it is of if it is a picture or a page.
pub(crate) fn told_of_difference(
    alloc: Global,
    subject: Subject<'_>,
    asked: DiffAsked<'_>,
    text: Result<Vec<u8>, Halt>,
) -> Result<Vec<u8>, Halt> {
    match text {
        Ok(text) => {
            let about = About::of(subject, Some(asked.touch), asked.added).counting(subject);
            told_of(alloc, asked.format, &about, text)
        }
        Err(halt) => Err(halt),
    }
}

/// The states of the one space or of each process, with which [`difference_since`] compares.
///
/// # Errors
/// `NoNode`, or `Stopped`: out of memory.
pub fn states_of(
    alloc: Global,
    subject: Subject<'_>,
    asked: DiffAsked<'_>,
) -> Result<StatesBefore, Halt> {
    let mut outlooks = Vec::new(alloc);
    let added = match subject {
        Subject::One(space, _) => add_outlook(alloc, &mut outlooks, None, space, asked),
        Subject::Each(host) => add_outlooks(alloc, host.processes(), &mut outlooks, asked),
    };
    match added {
        Ok(()) => Ok(StatesBefore { outlooks }),
        Err(halt) => {
            drop(outlooks);
            Err(halt)
        }
    }
}

/// Which pages go elsewhere since these states, as a text.
///
/// # Errors
/// Why there is no answer.
pub fn difference_since<P: Watch>(
    alloc: Global,
    before: &StatesBefore,
    subject: Subject<'_>,
    asked: DiffAsked<'_>,
    watch: &mut P,
) -> Result<Vec<u8>, Halt> {
    let text = match subject {
        Subject::One(space, _) => difference_of_one(alloc, before, space, asked, watch),
        Subject::Each(host) => {
            let begun = Differences::new(alloc, host.machine().nodes(), asked, watch);
            difference_of_each(alloc, begun, before, host)
        }
    };
    told_of_difference(alloc, subject, asked, text)
}
