//! What the program is asked for.
use std::env::Env;
use std::{env, io};

/// What its words ask for.
#[derive(Drop)]
pub enum Wanted {
    /// Its checksums: there are no words.
    Checksums,
    /// The figures of a part, or of all where the name is empty.
    Figures(String),
    /// Nothing: the words ask for neither, and how to ask is printed.
    Nothing,
}

/// What is asked for by no words, by `measure`, or by `measure PART`.
pub fn read_wanted<R: Env + AllocGlobal + Print>(rt: &R, usage: &str) -> io::Result<Wanted> {
    let mut words = env::args(rt)?.skip(1);
    let Some(word) = words.next() else {
        return Ok(Wanted::Checksums);
    };
    if word.as_str() != "measure" {
        println!(rt; "usage: {usage}")?;
        return Ok(Wanted::Nothing);
    }
    match words.next() {
        Some(part) => Ok(Wanted::Figures(part)),
        None => Ok(Wanted::Figures(String::new(rt.alloc()))),
    }
}
