//! The C library: the functions that `c/numaplan.h` declares, each one call of a library below.
//!
//! The header says what a C caller has to ensure: pointers that aren't null and are valid during
//! the call, and handles that begin as zero bytes and are passed to one call at a time, but for
//! those that are only lent to a call, which threads may share.
#![tactic(auto)]

mod asking;
mod binding;
mod codes;
mod core_texts;
mod desks;
mod differences;
mod events;
mod explanations;
mod host_codes;
mod host_commands;
mod host_places;
mod host_pools;
mod host_questions;
mod keeping;
mod listings;
mod machines;
mod mbind;
mod migrations;
mod moves;
mod names;
mod nodes;
mod opening;
mod options;
mod placed_codes;
mod placed_commands;
mod placed_questions;
mod plans;
mod policies;
mod pools;
mod predictions;
mod ranges;
mod readers;
mod replays;
mod reports;
mod scripts;
mod standing;
mod texts;
mod version;
mod words;
