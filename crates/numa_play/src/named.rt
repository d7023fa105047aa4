//! What lines name: tasks, by giving them a policy, and nodes with CPUs.
ghost use Rattle.std.specs.Prelude.{◌≡◌, None, Some};
ghost use Rattle.numa_play.specs.Named.{and_task, is_unnamed, task_asked, task_in};

use numa_mask::NodeMask;
use numa_requests::Command;
use numa_script::{Line, ScriptLine};

/// The tasks that lines name.
#[derive(Clone, Copy)]
pub enum TasksNamed {
    /// None.
    Nobody,
    /// This one alone.
    One(u32),
    /// These two first, and perhaps more.
    Several(u32, u32),
}

/// The task that a line names by giving it a policy.
fn task_in(line: &Line<'_>) -> Option<u32>
    ensures { result ≡ task_in line.now }
{
    match line {
        Line::Command(Ok(Command::SetTask { task, .. })) => Some(*task),
        Line::Command(Ok(Command::Inherit { task, .. })) => Some(*task),
        _ => None,
    }
}

/// The named tasks, and one more.
fn and_task(tasks: TasksNamed, task: u32) -> TasksNamed
    ensures { result ≡ and_task tasks task }
{
    match tasks {
        TasksNamed::Nobody => TasksNamed::One(task),
        TasksNamed::One(first) if first != task => TasksNamed::Several(first, task),
        other => other,
    }
}

/// The task that is asked for: the given one, or the one that lines name, or task 1 where they name
/// none.
///
/// # Errors
/// None is given, and lines name several: the first two.
fn task_asked(given: Option<u32>, tasks: TasksNamed) -> Result<u32, (u32, u32)>
    ensures { result ≡ task_asked given tasks }
{
    match (given, tasks) {
        (Some(task), _) => Ok(task),
        (None, TasksNamed::Nobody) => Ok(1),
        (None, TasksNamed::One(task)) => Ok(task),
        (None, TasksNamed::Several(first, second)) => Err((first, second)),
    }
}

/// Whether lines name tasks, but not the one that was given, which may be a slip.
fn is_unnamed(given: Option<u32>, has_given: bool, tasks: TasksNamed) -> bool
    ensures { result ≡ is_unnamed given has_given tasks }
{
    match (given, tasks) {
        (None, _) => false,
        (Some(_), TasksNamed::Nobody) => false,
        (Some(_), _) => !has_given,
    }
}

/// What lines name.
#[derive(Clone, Copy)]
pub(crate) struct Named {
    // The process of a host and the task that are asked for, if they are given.
    process: Option<u32>,
    task: Option<u32>,
    tasks: TasksNamed,
    // Whether a line names the task that is asked for.
    has_task: bool,
    cpus: Option<NodeMask>,
    // Whether a line chooses rules.
    has_rules: bool,
}

impl Named {
    /// Before the first line. If a process is given, the lines of others name nothing.
    pub(crate) fn new(process: Option<u32>, task: Option<u32>) -> Named {
        Named {
            process,
            task,
            tasks: TasksNamed::Nobody,
            has_task: false,
            cpus: None,
            has_rules: false,
        }
    }

    /// Notes the task that a line of a process names.
    fn note_task(&mut self, process: Option<u32>, line: &Line<'_>) {
        let Some(task) = task_in(line) else {
            return;
        };
        if process.is_some() && self.process.is_some() && process != self.process {
            return;
        }
        self.tasks = and_task(self.tasks, task);
        self.has_task = self.has_task || self.task == Some(task);
    }

    /// Notes what a line names. The nodes with CPUs and the rules are of the machine to come.
    pub(crate) fn note(&mut self, said: &ScriptLine<'_>, is_ready: bool) {
        match &said.line {
            Line::Cpus(Ok(cpus)) if !is_ready => self.cpus = Some(*cpus),
            Line::Rules(_) if !is_ready => self.has_rules = true,
            line => self.note_task(said.process, line),
        }
    }

    /// The nodes with CPUs that lines name, if they name some.
    pub(crate) fn cpus(&self) -> Option<NodeMask> {
        self.cpus
    }

    /// Whether a line chooses rules.
    pub(crate) fn has_rules(&self) -> bool {
        self.has_rules
    }

    /// The task that is asked for.
    ///
    /// # Errors
    /// None is given, and lines name several: the first two.
    pub(crate) fn task(&self) -> Result<u32, (u32, u32)> {
        task_asked(self.task, self.tasks)
    }

    /// The task that was given, and those that lines name, if it isn't among these.
    pub(crate) fn unnamed(&self) -> Option<(u32, TasksNamed)> {
        if is_unnamed(self.task, self.has_task, self.tasks) {
            return Some((self.task?, self.tasks));
        }
        None
    }
}
