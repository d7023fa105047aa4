//! A reader's share of the version that it took last.
ghost use Rattle.std.specs.Prelude.{◌≡◌, ◌≤◌, length, IfOk, OnOk, OnErr};
ghost use Rattle.std.specs.Arc.{arc_value};
ghost use Rattle.numa_publish.specs.Boards.{desk_told};

use crate::board::{Board, Ended, Showing};
use crate::issue::{Issue, Shown};
use std::alloc::AllocError;
use std::sync::Arc;

/// Why a reader keeps the version that it has.
#[derive(Clone, Copy, Debug, PartialEq, Eq, Drop)]
pub enum LookRefusal {
    /// The desk has ended.
    Ended,
    /// The newest version that could be taken is older than the one that was asked for: ask again.
    NotYet,
}

/// Whether a version is this one, or a later one.
fn judge(shown: &Shown, least: u64) -> Result<(), LookRefusal>
    ensures { OnOk result (least ≤ length (arc_value shown.now.issue).history) }
{
    let issue: &Issue = &shown.issue;
    if issue.plan.version() < least {
        return Err(LookRefusal::NotYet);
    }
    Ok(())
}

/// A place among a desk's readers, with a share of the version that it took last, and its number.
#[derive(Drop)]
pub struct Taker {
    board: Arc<Board>,
    number: u64,
    pub shown: Shown,
    ghost of: { desk_told shown ≡ (arc_value board).mark },
}

impl Taker {
    /// A place that has taken this version, the newest.
    ///
    /// # Errors
    /// `AllocError`: the version or the board has as many owners as it can.
    pub fn new(showing: &Showing, shown: &Shown) -> Result<Taker, AllocError>
        requires { desk_told shown.now ≡ (arc_value showing.now.board).mark }
        ensures { IfOk result (λ t. desk_told t.shown ≡ desk_told shown.now) }
    {
        let Ok(shown) = shown.again() else {
            return Err(AllocError);
        };
        let Ok(board) = Arc::try_clone(&showing.board) else {
            return Err(AllocError);
        };
        Ok(Taker {
            board,
            number: showing.turn.number(),
            shown,
        })
    }

    /// Takes the newest version, if it isn't taken yet and isn't older than `least`. It takes no
    /// memory and waits for nobody.
    ///
    /// # Errors
    /// `Ended`: the desk has ended; else `NotYet`: the newest version that could be taken is older.
    /// The version stays the one that was taken last.
    pub fn renew(&mut self, least: u64) -> Result<(), LookRefusal>
        ensures desk { desk_told self.new.shown ≡ desk_told self.old.shown }
        ensures least { OnOk result (least ≤ length (arc_value self.new.shown.issue).history) }
        ensures unchanged { OnErr result (self.new ≡ self.old) }
    {
        match self.board.newer(self.number) {
            Err(Ended) => Err(LookRefusal::Ended),
            Ok(None) => judge(&self.shown, least),
            Ok(Some((number, shown))) => {
                // What was shown first may be older than what is here: then it stays.
                if judge(&shown, least).is_err() {
                    return judge(&self.shown, least);
                }
                self.number = number;
                self.shown = shown;
                Ok(())
            }
        }
    }
}
