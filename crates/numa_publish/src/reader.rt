//! Readers that aren't looking.
ghost use Rattle.std.specs.Prelude.{◌≡◌, ◌+◌, ◌≤◌, [], length, slice_get};
ghost use Rattle.std.specs.Prelude.{Some, IfOk, OnOk, OnErr, MatchResult, IsTrue, ◌↔◌};
ghost use Rattle.std.specs.Arc.{arc_value};
ghost use Rattle.numa_publish.specs.Batches.{Extends, history_of, versions_of};
ghost use Rattle.numa_publish.specs.Boards.{desk_told};
ghost use Rattle.numa_publish.specs.Kept.{IsReaderKept, reader_shown};
ghost use Rattle.numa_publish.specs.Shown.{IsOneOf, new_reader};

use crate::log::Front;
use crate::past::Past;
use crate::receipt::Receipt;
use crate::taker::{LookRefusal, Taker};
use crate::view::PlanView;
use std::marker::Model;

/// A reader of one desk, with its own place among the desk's readers until it is dropped. It can be
/// sent to another thread. It has seen a published version, initially 0, and never looks at an
/// earlier one.
///
/// Contracts see its desk, the history that it has seen or learnt, the versions published up to it,
/// and the number of its enters and of refused ones. Apart from the version none of these takes a
/// byte.
#[derive(Drop)]
pub struct PlanReader {
    taker: Taker,
    past: Past,
}

impl Model for PlanReader {
    ghost use Rattle.numa_publish.specs.Kept.{IsReaderKept, reader_shown};
    ghost use Rattle.numa_publish.specs.Shown.{ReaderState};

    ghost Value = { ReaderState };

    ghost view = { λ r. reader_shown r.past r.taker.shown };

    ghost invariant = { λ r. IsReaderKept r.past r.taker.shown };
}

/// A reader takes the newest version, which isn't older than `least` or than what it has seen or
/// learnt.
///
/// # Errors
/// As `Taker::renew`: it keeps what it has.
pub(crate) fn look(taker: &mut Taker, past: &mut Past, least: u64) -> Result<(), LookRefusal>
    requires { IsReaderKept past.old taker.old.shown }
    ensures kept { IsReaderKept past.new taker.new.shown }
    ensures desk { (past.new.front.book ≡ past.old.front.book)
        × (desk_told taker.new.shown ≡ desk_told taker.old.shown) }
    ensures seen { Extends (history_of past.old.front.log) (history_of past.new.front.log) }
    ensures versions { Extends (versions_of past.old.front.log) (versions_of past.new.front.log) }
    ensures shown { OnOk result
        (history_of past.new.front.log ≡ (arc_value taker.new.shown.issue).history) }
    ensures least { OnOk result (least ≤ length (history_of past.new.front.log)) }
    ensures unchanged { OnErr result
        ((taker.new ≡ taker.old) × (past.new.front ≡ past.old.front)) }
    ensures enters { past.new.enters ≡ past.old.enters + 1 }
    ensures refused { MatchResult result (λ _. past.new.refused ≡ past.old.refused)
        (λ _. past.new.refused ≡ past.old.refused + 1) }
{
    past.enters = past.enters.next();
    if let Err(refusal) = taker.renew(past.version.max(least)) {
        past.refused = past.refused.next();
        return Err(refusal);
    }
    past.see(&taker.shown);
    Ok(())
}

impl PlanReader {
    /// A reader at a place, which has seen only version 0.
    pub(crate) fn new(taker: Taker, front: Front) -> PlanReader
        requires book { taker.shown.front.book ≡ front.book }
        requires empty { front.log ≡ [] }
        ensures { result ≡ new_reader (desk_told taker.shown) }
    {
        PlanReader {
            taker,
            past: Past::none(front),
        }
    }

    /// A reader at a place, with this past.
    pub(crate) fn back(taker: Taker, past: Past) -> PlanReader
        requires { IsReaderKept past taker.shown }
        ensures { result ≡ reader_shown past taker.shown }
    {
        PlanReader { taker, past }
    }

    /// Returns the reader, which has now seen the longer of the receipt's history and its own. It
    /// doesn't block or allocate.
    pub fn learn(self, receipt: &Receipt) -> PlanReader
        requires { receipt.now.desk ≡ self.desk }
        ensures desk { result.desk ≡ self.desk }
        ensures one { IsOneOf self.history receipt.now.history result.history }
        ensures own { Extends self.history result.history }
        ensures told { Extends receipt.now.history result.history }
        ensures versions { Extends self.versions result.versions
            × Extends receipt.now.versions result.versions }
        ensures counts { (result.enters ≡ self.enters) × (result.refused ≡ self.refused) }
    {
        let PlanReader { taker, mut past } = self;
        let told = receipt.version();
        let mut both = past.front.again();
        both.learn(&receipt.front);
        if past.version < told {
            past.front = receipt.front.again();
            past.version = told;
            return PlanReader::back(taker, past);
        }
        PlanReader::back(taker, past)
    }

    /// What the reader has seen or learnt and what the receipt shows are of one log: of the two,
    /// the one with the higher version has the other's commands and versions behind its newer ones.
    /// It does nothing at run time.
    pub fn compare(&self, receipt: &Receipt)
        requires { receipt.now.desk ≡ self.now.desk }
        ensures begins { length self.now.history ≤ length receipt.now.history
            → Extends self.now.history receipt.now.history
            × Extends self.now.versions receipt.now.versions }
        ensures newest { slice_get self.now.versions 0 ≡ Some (length self.now.history) }
    {
        let mut both = self.past.front.again();
        both.learn(&receipt.front);
    }

    /// Whether the receipt shows all that the reader has seen or learnt: whether its version isn't
    /// below the reader's.
    pub fn is_within(&self, receipt: &Receipt) -> bool
        ensures { IsTrue result ↔ length self.now.history ≤ length receipt.now.history }
    {
        self.past.version <= receipt.version()
    }

    /// Returns a view of the version that is published now, which isn't older than what the reader
    /// has seen. It doesn't block or allocate.
    ///
    /// # Errors
    /// The reader, unchanged: always once the desk has ended. May fail spuriously.
    ///
    /// # Examples
    /// ```
    /// match reader.enter() {
    ///     Ok(view) => {
    ///         let version = view.version();
    ///         let row = match view.fallback_list(1, 0x10, 0) {
    ///             Ok(row) => Ok((row[0], row[row.len() - 1])),
    ///             Err(refusal) => Err(refusal),
    ///         };
    ///         (view.leave(), Some((version, row)))
    ///     }
    ///     Err(reader) => (reader, None),
    /// }
    /// ```
    pub fn enter(self) -> Result<PlanView, PlanReader>
        ensures desk { MatchResult result (λ v. v.desk ≡ self.desk) (λ r. r.desk ≡ self.desk) }
        ensures seen { MatchResult result
            (λ v. Extends self.history v.history) (λ r. r.history ≡ self.history) }
        ensures versions { MatchResult result
            (λ v. Extends self.versions v.versions) (λ r. r.versions ≡ self.versions) }
        ensures published { IfOk result (λ v. slice_get v.versions 0 ≡ Some (length v.history)) }
        ensures enters { MatchResult result
            (λ v. v.enters ≡ self.enters + 1) (λ r. r.enters ≡ self.enters + 1) }
        ensures refused { MatchResult result
            (λ v. v.refused ≡ self.refused) (λ r. r.refused ≡ self.refused + 1) }
    {
        let PlanReader {
            mut taker,
            mut past,
        } = self;
        if look(&mut taker, &mut past, 0).is_err() {
            return Err(PlanReader::back(taker, past));
        }
        Ok(PlanView::new(taker, past))
    }
}
