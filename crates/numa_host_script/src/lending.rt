//! The pages of a process while a line changes them; it may have had none yet.
ghost use Rattle.std.specs.Prelude.{◌≡◌, ◌≢◌, ◌&&◌, Err, IfErr, IfOk, None, false, true};
ghost use Rattle.numa_host_pages.specs.Homes.{HostLying, given_back, pages_in, with_pages};
ghost use Rattle.numa_host_pages.specs.Standing.{HostLies};
ghost use Rattle.numa_host_script.specs.Standing.{IsOut};
ghost use Rattle.numa_page_state.specs.Lying.{Lying};
ghost use Rattle.numa_page_state.specs.Standing.{LiesAs};

use numa_host_pages::HostPages;
use numa_machine::NoMemory;
use numa_page_state::PageState;
use numa_requests::PlacedRefusal;
use std::alloc::Global;

/// The pages of a process while a line changes them.
#[derive(Drop)]
pub(crate) struct Lent {
    pub(crate) state: Box<PageState>,
    /// Whether the process had none before.
    pub(crate) first: bool,
}

/// Takes out the pages of a process, or begins some where it has none.
///
/// # Errors
/// `NoMemory`: there is no memory for its first ones.
pub(crate) fn lend(pages: &mut HostPages, alloc: Global, process: u32) -> Result<Lent, NoMemory>
    ensures lent { (at : HostLying) → HostLies pages.old at → IfOk result (λ lent.
        IsOut pages.new lent.state.value lent.first process at) }
    ensures lacks { (at : HostLying) → HostLies pages.old at → IfErr result (λ why.
        (pages_in process at.homes ≡ None) × HostLies pages.new at) }
{
    if let Some(state) = pages.lend(process) {
        return Ok(Lent {
            state,
            first: false,
        });
    }
    let Ok(state) = pages.begin(alloc) else {
        return Err(NoMemory);
    };
    Ok(Lent { state, first: true })
}

/// Gives back what was lent. The first pages of a process aren't kept where the line was refused
/// so that it is to have none.
pub(crate) fn give_back(pages: &mut HostPages, process: u32, lent: Lent, refused: bool)
    ensures kept { lent.first && refused ≡ false → (at : HostLying) (done : Lying)
        → HostLies pages.old (record at { homes = with_pages process None at.homes })
        → LiesAs lent.state.value done → HostLies pages.new (given_back process done at) }
    ensures gone { lent.first && refused ≡ true → pages.new ≡ pages.old }
{
    let Lent { state, first } = lent;
    if first && refused {
        drop(state);
        return;
    }
    pages.give_back(process, state);
}

/// Whether memory lacked.
pub(crate) fn lacks_memory<T>(done: &Result<T, PlacedRefusal>) -> bool
    ensures lack { result ≡ true → done.now ≡ Err PlacedRefusal.NoMemory }
    ensures other { result ≡ false → done.now ≢ Err PlacedRefusal.NoMemory }
{
    matches!(done, Err(PlacedRefusal::NoMemory))
}
