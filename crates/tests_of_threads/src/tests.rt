//! The tests, a module for each part that threads share.
mod beside;
mod crew_setting;
mod crews;
mod crews_refused;
mod migrating;
mod one_frame;
mod places;
mod placing;
mod refused;
mod refused_desk;
mod refused_span;
mod setting;
mod versions;
mod waiting;
mod workers;
