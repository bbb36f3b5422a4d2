// The challenges with the shift: what a CH or CS gives.
#![tactic(auto)]

ghost use Rattle.std.specs.Prelude.{◌≡◌};
ghost use Rattle.lists.specs.Stores.{stored};
ghost use Rattle.field.specs.Definitions.{scalar};
ghost use Rattle.records.specs.Bytes.{word};
ghost use Rattle.challenge.specs.Definitions.{challenges_from, with_challenges, with_shifted};

use field::Scalar;
use parameters::CELLS;

// The challenges of the accepted CH or CS, u outer, and the shift δ: that of the CS, and 0 with a CH or before either.
#[derive(Clone, Copy)]
pub struct Challenges {
    pub shift: Scalar,
    pub numbers: [Scalar; CELLS],
}

// The list with a record's challenges, which stand from a place on.
fn load_challenges(list: [Scalar; CELLS], bytes: &[u8], from: u16, count: u16) -> [Scalar; CELLS]
    ensures { result ≡ stored list 0 count (λ x. scalar (word bytes.now from x)) }
{
    arrays::with_numbers(list, 0, bytes, from, count)
}

impl Challenges {
    // The challenges of a record, which stand from a place on.
    fn loaded(self, a: u8, b: u8, bytes: &[u8], from: u16) -> [Scalar; CELLS]
        ensures { result ≡ challenges_from a b self from bytes.now }
    {
        let list = self.numbers;
        let count = a as u16 * b as u16;
        load_challenges(list, bytes, from, count)
    }

    // Those of a CH: the shift is 0. What it has in common with a CS is `loaded`.
    pub fn with(self, a: u8, b: u8, bytes: &[u8]) -> Challenges
        ensures { result ≡ with_challenges a b self bytes.now }
    {
        Challenges {
            shift: Scalar::ZERO,
            numbers: self.loaded(a, b, bytes, 4),
        }
    }

    // Those of a CS: the shift stands before the challenges.
    pub fn with_shifted(self, a: u8, b: u8, bytes: &[u8]) -> Challenges
        ensures { result ≡ with_shifted a b self bytes.now }
    {
        Challenges {
            shift: Scalar(records::word(bytes, 4, 0)),
            numbers: self.loaded(a, b, bytes, 8),
        }
    }
}
