//! Handles for C callers: of a core, a plan, a seat at pools of frames, a script, a host with the
//! pages of its processes, a core with its pages, a desk, or a reader of a desk. A handle is 16
//! bytes, initially 0: a flag that says whether it is open, and a pointer to a value on the heap,
//! which the handle owns. The calls that ask whether it is open and that close it are the same for
//! all kinds: those of its `handle`. A plan and a reader are asked by a view of the handle, which
//! threads share.
#![tactic(auto)]

mod core_handle;
mod core_questions;
mod desk_handle;
mod dialog;
mod flows;
mod handle;
mod held;
mod host_handle;
mod host_pages;
mod host_places;
mod host_pools;
mod host_questions;
mod kept;
mod nodes_there;
mod pages_handle;
mod pages_moves;
mod pages_questions;
mod place;
mod plan_handle;
mod plan_view;
mod reader_handle;
mod reader_view;
mod room;
mod script_handle;
mod search;
mod seat_handle;
mod view;

pub use core_handle::{CoreHandle, compile_kept};
pub use core_questions::core_kept;
pub use desk_handle::DeskHandle;
pub use dialog::{Dialog, LineRefusal};
pub use flows::{Flow, LastFlows};
pub use handle::Handle;
pub use held::HeapSlot;
pub use host_handle::HostHandle;
pub use kept::Kept;
pub use pages_handle::PagesHandle;
pub use plan_handle::PlanHandle;
pub use plan_view::{ChoiceRefusal, PageSpan, PlanView};
pub use reader_handle::{ReaderHandle, ReaderLack};
pub use reader_view::ReaderView;
pub use room::copy_items;
pub use script_handle::ScriptHandle;
pub use seat_handle::SeatHandle;
pub use view::{LentSlot, View};
