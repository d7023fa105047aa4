//! Pages of 2 MiB, of which answers about first touches and moves say less than a script does.
use crate::question::subject_of;
use numa_host_script::HostScript;
use numa_sheets::FreePages;
use numa_subjects::maps_huge;

/// How an answer counts pages of 2 MiB.
#[derive(Clone, Copy, Debug, PartialEq, Eq)]
pub enum HugeCount {
    /// As pages of 4 KiB.
    Parts,
    /// In rows of ranges as such, whatever pools have.
    Rows,
    /// In rows of ranges as such, from their pools.
    Pooled,
    /// It leaves them out, since it is about pages that are there.
    LeftOut,
}

impl HugeCount {
    /// That of a prediction, in which nodes have these free pages, or pages are there.
    pub fn predicted(free: &[FreePages], are_there: bool) -> HugeCount {
        if free.is_empty() && !are_there {
            HugeCount::Rows
        } else {
            HugeCount::Pooled
        }
    }

    /// What an answer doesn't say of them.
    fn words(self) -> &'static str {
        match self {
            HugeCount::Parts => {
                "pages of 2 MiB: each counts as 512 pages of 4 KiB, and takes as many that are \
                 free; what pools have, and where such pages lie, doesn't\n"
            }
            HugeCount::Rows => {
                "pages of 2 MiB: each counts as 512 pages of 4 KiB, in a row of a text as one; \
                 what pools have, and where such pages lie, doesn't\n"
            }
            HugeCount::Pooled => {
                "pages of 2 MiB: each counts as 512 pages of 4 KiB, in a row of a text as one; \
                 they come from their pools, and take no free page\n"
            }
            HugeCount::LeftOut => {
                "pages of 2 MiB: none is in the answer; lines moved and pool tell of them\n"
            }
        }
    }
}

/// What an answer after a script doesn't say of pages of 2 MiB, which it counts so, if the script
/// maps some.
pub fn remark_on(script: &HostScript, counted: HugeCount) -> Option<&'static str> {
    let Ok(subject) = subject_of(script, None) else {
        return None;
    };
    if maps_huge(subject) {
        return Some(counted.words());
    }
    None
}
