//! What answers are asked with and written with: touches, free pages and formats, texts that are
//! written part by part, JSON objects and lists, records of tables, the parts of pictures, and a
//! watch on work that takes long.
#![tactic(auto)]

mod asked;
mod boxes;
mod bytes_text;
mod colours;
mod format;
mod items;
mod object;
mod pictures;
mod records;
mod scale;
mod version;
mod watch;
mod written;

pub use asked::{AddressAsked, CpuAsked, FreePages, Touch, TouchAsked};
pub use boxes::{CELL, MARK, Rectangle, mark_at, put_frame, put_hatched, put_node, put_rectangle};
pub use colours::{fill_of, ink_of, put_colours};
pub use format::{DRAWN, Format, LISTED};
pub use items::Items;
pub use object::Object;
pub use pictures::height_of;
pub use records::Records;
pub use scale::{Scale, share};
pub use version::VERSION;
pub use watch::Watch;
pub use written::Written;
