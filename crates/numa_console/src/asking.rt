//! What is asked after scripts.
use numa_beside::Paint;
use numa_command_line::PageQuestion;
use numa_sheets::{AddressAsked, CpuAsked, DRAWN, Format, FreePages, TouchAsked};
use numa_subjects::Twin;

/// A question about pages.
#[derive(Clone, Copy)]
pub enum Question<'a> {
    /// Where pages would go, if nodes have so many free ones.
    Predict(&'a [FreePages]),
    /// Which pages would go elsewhere after these further lines.
    Diff(&'a [String]),
    /// Why the page of an address goes where it goes, or as many pages from it on.
    Explain(AddressAsked, Option<u32>),
    /// What becomes of pages that are there when these lines move them, and nodes take so many
    /// more.
    Moves(&'a [String], &'a [FreePages]),
    /// All of these on one page, before and after these further lines, if there are some.
    Report(&'a [String]),
}

/// What is asked after scripts.
#[derive(Clone, Copy)]
pub struct Asking<'a> {
    /// A file with further lines that state where pages lie, if there is one.
    pub at: &'a [String],
    /// How pages are touched; `None` if they lie where lines state it.
    pub touch: Option<TouchAsked>,
    pub question: Question<'a>,
    pub format: Format,
    /// Whether malformed and refused lines are no error.
    pub lenient: bool,
    /// Whether a text has the names of areas.
    pub names: bool,
    /// How a terminal shows bars beside a text, if it is written to one.
    pub paint: Option<Paint>,
    /// Whether standard error shows how far reading and counting are.
    pub tells: bool,
}

impl<'a> Asking<'a> {
    /// What a subcommand asks of a task.
    pub fn of_pages(
        touch: TouchAsked,
        question: &'a PageQuestion,
        lenient: bool,
        names: bool,
        paint: Option<Paint>,
        tells: bool,
    ) -> Asking<'a> {
        let (at, question, format): (&'a [String], Question<'a>, Format) = match question {
            PageQuestion::Predict { at, format, free } => {
                (at.as_slice(), Question::Predict(free.as_slice()), *format)
            }
            PageQuestion::Diff { at, lines, format } => {
                (at.as_slice(), Question::Diff(lines.as_slice()), *format)
            }
            PageQuestion::Explain {
                at,
                address,
                pages,
                format,
            } => (at.as_slice(), Question::Explain(*address, *pages), *format),
            PageQuestion::Report { lines } => {
                (&[], Question::Report(lines.as_slice()), Format::Svg(DRAWN))
            }
        };
        Asking {
            at,
            touch: Some(touch),
            question,
            format,
            lenient,
            names,
            paint,
            tells,
        }
    }

    /// The task that is given, if one is.
    pub fn task(&self) -> Option<u32> {
        self.touch?.task
    }

    /// Whether scripts are played by the other rules too: an explanation tells them, and other
    /// answers remark on them.
    pub fn twin(&self) -> Twin {
        match self.question {
            Question::Explain(..) => Twin::Always,
            _ => Twin::UnlessChosen,
        }
    }

    /// The node that is asked for; 0 if all are.
    pub fn node(&self) -> u32 {
        match self.touch {
            Some(
                TouchAsked {
                    cpu: CpuAsked::Node(node),
                    ..
                },
            ) => node,
            _ => 0,
        }
    }

    /// The added lines.
    pub fn lines(&self) -> &'a [String] {
        match self.question {
            Question::Diff(lines) | Question::Moves(lines, _) | Question::Report(lines) => lines,
            _ => &[],
        }
    }

    /// Whether answers are objects of a line each.
    pub fn is_lines(&self) -> bool {
        matches!(
            (self.question, self.format),
            (Question::Explain(..), Format::Json)
        )
    }

    /// How bars are shown beside the answer, if they are: one that counts pages by node as text.
    pub fn bars(&self) -> Option<Paint> {
        match (self.question, self.format) {
            (Question::Predict(_), Format::Text) => self.paint,
            (Question::Moves(..), Format::Text) => self.paint,
            _ => None,
        }
    }

    /// Whether it is asked of each node.
    pub fn is_each(&self) -> bool {
        matches!(
            self.touch,
            Some(TouchAsked {
                cpu: CpuAsked::Each,
                ..
            })
        )
    }
}
