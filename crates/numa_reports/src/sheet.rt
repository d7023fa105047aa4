//! Reports as text, JSON, CSV and SVG.

mod bars;
mod by_process;
mod cells;
mod changes;
mod cycles;
mod drawing;
mod fields;
mod largest;
mod lines;
mod moved_objects;
mod moved_parts;
mod moved_pictures;
mod node_moves;
mod nodes;
mod objects;
mod parts;
mod pictures;
mod policies;
mod prediction_texts;
mod records;
mod scale;
mod sections;

pub use by_process::{ByProcess, MoveSum};
pub use changes::{difference_more, difference_text};
pub use cycles::cycles_text;
pub use largest::Largest;
pub use prediction_texts::{lying_text, prediction_text, shared_text};
pub use scale::scale_of;
