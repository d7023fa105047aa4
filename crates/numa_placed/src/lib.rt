//! Pages that are there: on which node each lies, and where they go when nodes are taken away or
//! people move them.
//!
//! A space says where a page would be put when it is first touched. [`Placed`] keeps where pages
//! lie that were put somewhere: each page below 2^35 lies nowhere or on a node ([`Spot`]). Pages
//! that keep frames are kept beside it ([`Resident`](numa_maps::Resident)), and lie nowhere here.
//!
//! **Moves.** Pages that leave one set of nodes for another go as Linux moves them when the nodes
//! of a control group change, or by migrate_pages(2): if both sets have as many nodes, the pages of
//! the k-th go to the k-th; if not, a page on a node that both have stays, and the k-th node's
//! pages go to the node with ordinal k modulo the new weight. Each page moves at most once in a
//! call. ([`moved_node`])
//!
//! **Policies.** A page lies astray if its node isn't in the list of its range's policy. mbind(2)
//! refuses a policy for a range with such pages, or moves each to the first node of its node list,
//! if it is asked to. (`judge_strict_by`, `bind_astray`)
//!
//! **First touches.** A task that touches the pages of a span puts each that is nowhere on the
//! first node of its node list that has room, the lowest page first. (`populate`)
//!
//! **Runs.** Pages in a row that lie alike are kept as one run, and so are pages in a row that one
//! policy placed on its nodes in turn, however many they are. Of pages that lie somewhere there may
//! be 1,048,576 runs: one counts where its first page doesn't lie as the page before it. Moves,
//! statements and unmapping of a part split a run. `follow` and `migrate` never make more runs, and
//! take no memory.
//!
//! **Rooms.** A node never fills unless [`Rooms`] says how many more pages it takes. Moves by rooms
//! (`follow_within`, `migrate_within`, `move_page_within`) go node by node, as Linux does: each
//! time the lowest node whose target isn't still to go, else the highest. Within a node the lowest
//! pages go first, and a page that leaves gives its room back. A node that fills ends the move: the
//! pages that found no room stay, and so do those of all nodes that were still to go. A page that
//! is stated or touched takes a room too, and one of which nothing is stated any more gives it back
//! (`state_within`, `populate`, [`Rooms::between`]).
#![tactic(auto)]

pub mod areas;
mod astray;
pub mod bind;
pub mod bound;
mod change;
mod course;
mod cut;
mod cycle;
mod edit;
mod filling;
mod fitting;
mod in_turn;
pub mod judge;
pub mod laws;
pub mod leaving;
pub mod moved;
mod once;
pub mod period;
pub mod placed;
mod places;
pub mod rooms;
mod shift;
mod spans;
pub mod spot;
pub mod stay;
mod stretch;
mod tally;
mod targets;
mod tidy;
mod touched;
mod turn;
mod wants;

pub use areas::judged_pages;
pub use astray::other_node;
pub use bind::node_with_room;
pub use bound::Bound;
pub use course::{next_source, waiting};
pub use judge::{judge_move, lacks_node};
pub use leaving::{Leaving, all_departures, departures};
pub use moved::Moved;
pub use period::period_in;
pub use placed::Placed;
pub use rooms::Rooms;
pub use spans::span_below;
pub use spot::Spot;
pub use stay::Stay;
pub use targets::moved_node;
