//! Threads refine the core: a crate of laws, each the clause of a function without a body. `walks`:
//! a seat's walk through the pools is a frame search of the core's world, a load is a Look, a try
//! is a Try and a return is a Give, if each frame's owner is the seat that holds it. `laws`: a desk
//! is the world's commands and versions, and a fault is a frame search. `desk` has the calls of a
//! desk, with clauses that say what they are to the core.
#![tactic(auto)]

pub mod crews;
pub mod desk;
pub mod laws;
pub mod walks;
