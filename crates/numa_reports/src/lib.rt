//! Reports on a space and its plan as a whole: where all mapped pages would go, and which pages go
//! elsewhere after more commands.
//!
//! Each report is a value that is defined by the history of accepted commands. `sheet` formats them
//! as text.
#![tactic(auto)]

mod absent;
mod account;
mod coming;
mod differences;
mod fault;
mod filling;
pub mod laws;
mod lying;
mod moves;
mod outlook;
mod prediction;
mod request;
pub mod sheet;
mod tally;
mod touch;
mod turns;

pub use account::Account;
pub use coming::{Coming, comings};
pub use differences::{SpanMove, all_moves};
pub use fault::ReportError;
pub use filling::fill_all;
pub use outlook::{Outlook, PageSpan, common_spans, outlook_of};
pub use prediction::{RangePrediction, TakeRange, predict_all, predict_range};
pub use request::{DifferenceRequest, PredictionRequest};
pub use sheet::{
    ByProcess, Largest, MoveSum, cycles_text, difference_more, difference_text, lying_text,
    prediction_text, scale_of, shared_text,
};
