//! Rules of logbooks that keep nothing.
ghost use Rattle.std.specs.Prelude.{ℕ, List};
ghost use Rattle.logbook.specs.Pages.{Cell};

use logbook::Rule;
use std::marker::PhantomData;

/// A relation that holds between the words of a book and its list at each step.
pub trait Holding<E> {
    ghost holds: { List Cell → List E → Type 0 };
}

/// The rule of a book that this relation holds, and nothing else.
pub struct BareRule<H> {
    of: PhantomData<H>,
}

impl<E, H: Holding<E>> Rule<E, u64> for BareRule<H> {
    ghost use Rattle.std.specs.Prelude.{[]};
    ghost use base.Fml.{ftrue};

    ghost holds = { H.holds };

    ghost first = { [] };

    ghost hinted = { λ n log. Unit {0} };

    ghost shows = { λ log. [] };

    ghost keeps = { λ names log. ftrue };

    ghost moves = { λ ask before after answer. Unit {0} };
}
