//! The texts of policies.
ghost use Rattle.std.specs.Prelude.{◌<◌};

use indexmap::IndexMap;
use numa_mode::Record;
use std::alloc::{AllocError, Global};

/// The number of guesses at places of texts.
const GUESSES: usize = 64;

/// 2^64 divided by the golden ratio: the middle bits of a product with it depend on every bit of
/// the other factor.
const SPREAD: u64 = 0x9E37_79B9_7F4A_7C15;

/// The guess of a policy: policies with different modes or nodes mostly have different ones.
fn guess_of(policy: &Record) -> usize
    ensures { result < 64 }
{
    let [a, b, c, d] = policy.effective().words();
    let nodes = a ^ b.rotate_left(16) ^ c.rotate_left(32) ^ d.rotate_left(48);
    let spec = policy.spec();
    let word = u64::from(spec.mode().word(spec.flags()));
    let mixed = (nodes ^ word.rotate_left(40)).wrapping_mul(SPREAD);
    (mixed >> 32) as usize % GUESSES
}

/// The texts of policies. Each is made once, since that takes longer than the rest of a range's
/// row.
#[derive(Drop)]
pub(crate) struct PolicyTexts {
    alloc: Global,
    texts: IndexMap<Record, String>,
    // Where policies were found last. A guess is checked before it is used; a right one saves a
    // hash.
    guesses: [usize; GUESSES],
}

impl PolicyTexts {
    /// No texts.
    pub(crate) fn new(alloc: Global) -> PolicyTexts {
        PolicyTexts {
            alloc,
            texts: IndexMap::new(alloc),
            guesses: [0; GUESSES],
        }
    }

    /// Makes a policy's text, and returns its place.
    fn add(&mut self, policy: Record) -> Result<usize, AllocError> {
        let text = String::from_str(self.alloc, policy.policy_text().as_str())?;
        let place = self.texts.len();
        self.texts.insert(policy, text)?;
        Ok(place)
    }

    /// Whether a place has a policy's text.
    fn is_at(&self, place: usize, policy: &Record) -> bool {
        match self.texts.get_index(place) {
            Some((other, _)) => *other == *policy,
            None => false,
        }
    }

    /// The place of a policy's text, by a guess if that is right. The text is made if there is
    /// none.
    fn place(&mut self, policy: Record) -> Result<usize, AllocError> {
        let guess = guess_of(&policy);
        let place = self.guesses[guess];
        if self.is_at(place, &policy) {
            return Ok(place);
        }
        let place = match self.texts.get_index_of(&policy) {
            Some(place) => place,
            None => self.add(policy)?,
        };
        self.guesses[guess] = place;
        Ok(place)
    }

    /// The policy as numa_maps shows it; `default` without one.
    pub(crate) fn text(&mut self, policy: Option<Record>) -> Result<&str, AllocError> {
        let Some(policy) = policy else {
            return Ok("default");
        };
        let place = self.place(policy)?;
        match self.texts.get_index(place) {
            Some((_, text)) => Ok(text.as_str()),
            None => Err(AllocError),
        }
    }
}
