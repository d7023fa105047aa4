//! Numbers and lists that only contracts see.
//!
//! A promise about work, such as the number of pages that a search compares, needs a number, and a
//! program that stored it would pay for it at each step. A [`Count`] stores nothing: it has no
//! bytes, and code can start one and increment it, but never read it. Contracts see a natural
//! number. So a call that counts takes the count by `&mut`, and its contract says how much greater
//! it is afterwards.
#![tactic(auto)]

ghost use Rattle.std.specs.Prelude.{◌≡◌, ◌+◌};

mod rule;

use logbook::{Opening, Seen, Start};
pub use rule::{BareRule, Holding};
use std::marker::Model;

/// Holds between any words and any list.
pub struct Anything;

impl<E> Holding<E> for Anything {
    ghost holds = { λ cells log. Unit {0} };
}

/// A list that only contracts see, with no condition on it.
pub type GhostList<E> = Seen<E, u64, BareRule<Anything>>;

/// A list with one more entry than that of another book.
struct Longer;

impl Opening<GhostList<()>, ()> for Longer {
    ghost use Rattle.std.specs.Prelude.{◌∷◌};

    ghost log = { λ n s. tt ∷ s.log };
}

/// A natural number without bytes that only contracts can read: the length of a list that only
/// contracts see. It has no upper bound, since nothing stores it, and it can be sent to another
/// thread.
#[derive(Drop)]
pub struct Count {
    list: GhostList<()>,
}

impl Model for Count {
    ghost use Rattle.std.specs.Prelude.{ℕ, length};

    ghost Value = { ℕ };

    ghost view = { λ c. length c.list.log };
}

impl Count {
    /// The number 0.
    pub fn zero() -> Count
        ensures { result ≡ 0 }
    {
        let (list, _, _) = Seen::open(Start::alone(), 0, 0);
        Count { list }
    }

    /// The number plus 1.
    pub fn next(&self) -> Count
        ensures { result ≡ self.now + 1 }
    {
        let (list, _) = Seen::open_row::<GhostList<()>, Longer>(&self.list, Start::alone(), 0);
        Count { list }
    }
}
