//! Where pages of a space, or of each process of a host, would go, and why.
//!
//! [`prediction_of`] and [`reasons_of`] answer about what scripts led to, and so do
//! [`prediction_beside`] and [`reasons_beside`], with what pools have for pages of 2 MiB;
//! [`predict_space`] and [`explain_space`] answer about a space.
#![tactic(auto)]

mod each;
mod explaining;
mod predicting;

pub use each::EachAsked;
pub use explaining::{
    AskedPages, ReasonsAsked, explain_space, place_of, reasons_beside, reasons_of,
};
pub use predicting::{predict_space, prediction_beside, prediction_of};
