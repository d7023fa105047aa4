//! A map by page that splits and joins.
//!
//! A [`RangeMap`] is a finite map from page numbers to an index and a value. It keeps its mapped
//! pages as ranges: maximal runs of pages with consecutive indexes and equal values. Mapping,
//! unmapping or changing the value of a span splits the ranges at its ends and joins adjacent ones,
//! so that the ranges are maximal after each call, and each page keeps its index until it is
//! unmapped.
//!
//! What a call does to the map, page by page, is defined in `specs/Maps.antt`, what a range is in
//! `specs/Counts.antt`, and what a list of runs says of a page in `specs/Runs.antt`.
//! `specs/Edits.antt`, `specs/Gathered.antt` and `specs/Numbered.antt` are for the private
//! functions; crates above also use `joined` of the first, which says how runs of pages become
//! ranges.
#![tactic(auto)]

mod edit;
mod edited_row;
mod edited_rows;
mod even;
mod exact;
mod fault;
mod join;
mod list;
mod pieces;
mod range_iter;
mod range_map;
mod row;
mod run;
mod runs;
mod values;
mod walk;

pub use exact::Exact;
pub use fault::RangeError;
pub use range_iter::RangeIter;
pub use range_map::RangeMap;
pub use row::Row;
pub use run::Run;
