//! Where pages lie after a replay, as JSON.
use crate::replay::Replay;
use numa_sheets::Written;
use std::alloc::{AllocError, Global};

/// Pages in a row that lie on one node.
#[derive(Clone, Copy)]
struct PlacedRun {
    first: u64,
    pages: u64,
    node: u8,
}

/// The runs so far, of which at most `number` are written.
#[derive(Drop)]
struct PlacedSheet {
    written: Written,
    number: u64,
    runs: u64,
    // The run that the next page may continue; without pages before the first.
    run: PlacedRun,
    // The pages of the runs that aren't written.
    others: u64,
}

impl PlacedSheet {
    /// Writes the latest run, or counts its pages.
    fn end_run(&mut self) {
        let run = self.run;
        if run.pages == 0 {
            return;
        }
        if self.runs >= self.number {
            self.others = self.others.saturating_add(run.pages);
            return;
        }
        if self.runs > 0 {
            self.written.put(b",");
        }
        let numbers = [run.first, run.pages, u64::from(run.node)];
        self.written.put_form(b"[$,$,$]", &numbers);
        self.runs = self.runs.saturating_add(1);
    }

    /// Adds a page, which lies above those before it.
    fn add(&mut self, page: u64, node: u8) {
        let run = self.run;
        if run.pages > 0 && run.node == node && page == run.first.saturating_add(run.pages) {
            self.run.pages = run.pages.saturating_add(1);
            return;
        }
        self.end_run();
        self.run = PlacedRun {
            first: page,
            pages: 1,
            node,
        };
    }
}

/// Where pages lie after a replay, as a JSON object: the lowest `number` runs of pages on one node,
/// each with the number of its first page, its pages and its node, and how many pages others have.
///
/// # Errors
/// `AllocError`: out of memory.
pub fn placed_text(alloc: Global, replay: &Replay, number: u64) -> Result<Vec<u8>, AllocError> {
    let mut sheet = PlacedSheet {
        written: Written::new(alloc),
        number,
        runs: 0,
        run: PlacedRun {
            first: 0,
            pages: 0,
            node: 0,
        },
        others: 0,
    };
    sheet.written.put(b"{\"runs\":[");
    for (page, node) in replay.memory().pages() {
        sheet.add(*page, *node);
    }
    sheet.end_run();
    sheet.written.put_form(b"],\"others\":$}", &[sheet.others]);
    sheet.written.take()
}
