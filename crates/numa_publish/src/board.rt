//! Where a desk shows its versions, and its readers take them. Nobody waits for anybody here.
ghost use Rattle.std.specs.Prelude.{◌≡◌, ◌<◌, ◌≤◌, length, All, IfOk, IfSome, IsSomeAnd};
ghost use Rattle.numa_publish.specs.Boards.{desk_told};

use crate::issue::{Mark, Shown};
use crate::log::Front;
use counted_slot::{Claim, Counted, FREE, MOST_READERS, ONE_READER, PRESENT, TAKEN};
use std::alloc::{AllocError, Global};
use std::sync::Arc;
use std::sync::atomic::AtomicU64;
use std::sync::atomic::Ordering::SeqCst;

/// Stands for the newest number once the desk has ended.
const ENDED: u64 = u64::MAX;

/// So often a reader looks for the newest version where others are in its way.
const TRIES: usize = 64;

/// A place for a version.
type Place = Counted<Option<Shown>>;

/// Places for versions, two more than readers, and the number of the newest version. Each publish
/// makes that number greater; divided by the number of places it leaves the place of its version.
#[derive(Drop)]
pub struct Board {
    newest: AtomicU64,
    places: Vec<Place>,
    pub mark: Mark,
    ghost some: { 0 < length places.items },
    ghost marked: { All (λ at. at ≡ mark) places.items },
}

/// The desk has ended.
#[derive(Clone, Copy, Debug, PartialEq, Eq, Drop)]
pub struct Ended;

/// A place at which nothing is shown, for a version that will be.
pub struct Vacancy<'a> {
    place: usize,
    pub claim: Claim<'a, Option<Shown>>,
    ghost writes: { claim.right ≡ 2 },
}

/// A place at which a version is shown; and, without bytes, the prefix of the log for which that
/// stands.
pub struct Filled {
    place: usize,
    pub front: Front,
}

/// The number of the newest version; and, without bytes, the prefix of the log for which it stands.
#[derive(Drop)]
pub struct Turn {
    number: u64,
    pub front: Front,
}

impl Turn {
    /// The number.
    pub fn number(&self) -> u64 {
        self.number
    }
}

impl<'a> Vacancy<'a> {
    /// Shows a version there.
    pub fn fill(self, shown: Shown) -> Filled
        requires { desk_told shown ≡ self.claim.tag }
        ensures { result.front ≡ shown.front }
    {
        let Vacancy { place, claim } = self;
        let front = shown.front.again();
        drop(claim.put(Some(shown), PRESENT));
        Filled { place, front }
    }

    /// Leaves it as it is.
    pub fn leave(self) {
        let Vacancy { place: _, claim } = self;
        drop(claim.put(None, FREE));
    }
}

/// Empty places of a desk.
fn empty_places(alloc: Global, mark: &Mark, count: usize) -> Result<Vec<Place>, AllocError>
    ensures count { IfOk result (λ places. length places.items ≡ count) }
    ensures marked { IfOk result (λ places. All (λ at. at ≡ mark.now) places.items) }
{
    let mut places: Vec<Place> = Vec::with_capacity(alloc, count)?;
    for _made in 0..count {
        places.push(Counted::new(None, mark))?;
    }
    Ok(places)
}

/// A share of what a place shows.
fn shared(shown: &Option<Shown>) -> Option<Shown>
    ensures { IfSome result (λ s. IsSomeAnd shown.now (λ from. desk_told s ≡ desk_told from)) }
{
    match shown {
        Some(shown) => shown.again().ok(),
        None => None,
    }
}

/// A share of what is shown at a place now, if something is. It takes no memory.
fn taken_from(place: &Place) -> Option<Shown>
    ensures { IfSome result (λ s. desk_told s ≡ place.now) }
{
    let seen = place.load();
    if seen >= MOST_READERS * ONE_READER || seen % 4 != PRESENT {
        return None;
    }
    let (found, claim) = place.turn(seen, seen + ONE_READER);
    if found != seen {
        claim.done();
        return None;
    }
    let share = shared(claim.get());
    claim.leave();
    share
}

/// Takes away what a place shows, if no reader is there.
fn clear(place: &Place) {
    if place.load() != PRESENT {
        return;
    }
    let (found, claim) = place.turn(PRESENT, TAKEN);
    if found != PRESENT {
        claim.done();
        return;
    }
    drop(claim.put(None, FREE));
}

impl Board {
    /// A board of the desk with this mark, for so many readers, at which nothing is shown.
    pub fn new(alloc: Global, mark: Mark, readers: usize) -> Result<Board, AllocError>
        requires { readers ≤ 64 }
        ensures { IfOk result (λ board. board.mark ≡ mark) }
    {
        let places = empty_places(alloc, &mark, readers + 2)?;
        Ok(Board {
            newest: AtomicU64::new(0),
            places,
            mark,
        })
    }

    /// A place at which nothing is shown: a reader is at one place at most, so there is one, which
    /// no proof can see.
    pub fn vacancy(&self) -> Option<Vacancy<'_>>
        ensures { IfSome result (λ vacancy. vacancy.claim.tag ≡ self.now.mark) }
    {
        for place in 0..self.places.len() {
            let (found, claim) = self.places[place].turn(FREE, TAKEN);
            if found == FREE {
                return Some(Vacancy { place, claim });
            }
            claim.done();
        }
        None
    }

    /// Makes what is shown at a place the newest, by the number that follows this one, and takes
    /// away what is shown elsewhere.
    pub fn turn_to(&self, filled: Filled, last: u64) -> Turn
        ensures { result.front ≡ filled.front }
    {
        let Filled { place, front } = filled;
        let count = self.places.len() as u64;
        let round = (last / count).wrapping_add(1);
        let number = round.wrapping_mul(count).wrapping_add(place as u64);
        self.newest.store(number, SeqCst);
        for other in 0..self.places.len() {
            if other != place {
                clear(&self.places[other]);
            }
        }
        Turn { number, front }
    }

    /// The newest version with its number, if that isn't this one: `None` too where others were in
    /// the way at each try. It takes no memory.
    ///
    /// # Errors
    /// `Ended`: the desk has ended.
    pub fn newer(&self, number: u64) -> Result<Option<(u64, Shown)>, Ended>
        ensures { IfOk result (λ found. IfSome found (λ it. desk_told it.1 ≡ self.now.mark)) }
    {
        for _ in 0..TRIES {
            let newest = self.newest.load(SeqCst);
            if newest == ENDED {
                return Err(Ended);
            }
            if newest == number {
                return Ok(None);
            }
            let place = (newest % self.places.len() as u64) as usize;
            if let Some(shown) = taken_from(&self.places[place]) {
                return Ok(Some((newest, shown)));
            }
        }
        Ok(None)
    }

    /// From now on there is no newest version.
    fn end(&self) {
        self.newest.store(ENDED, SeqCst);
    }
}

/// The desk's side of its board, with the number of the newest version. Dropping it ends the desk.
pub struct Showing {
    pub board: Arc<Board>,
    pub turn: Turn,
}

impl Drop for Showing {
    fn drop(self) {
        let Self { board, turn: _ } = self;
        board.end();
    }
}

impl Showing {
    /// Whether there are as many readers as the board has room for. Each has a share of it.
    pub fn is_full(&self) -> bool {
        Arc::strong_count(&self.board) >= self.board.places.len() - 1
    }
}
