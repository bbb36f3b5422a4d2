// The accepted response rows: when one is taken, what one more adds, and φ from what is kept.
#![tactic(auto)]

ghost use Rattle.std.specs.Prelude.{◌≡◌, ◌≤◌};
ghost use Rattle.rows.specs.Definitions.{basis_of};
ghost use Rattle.arrays.specs.Arrays.{member_points};
ghost use Rattle.refusals.specs.Numbers.{number_of};
ghost use Rattle.response.specs.Definitions.{untested, response_number, with_response, phi_of, signatures_of};

use field::Scalar;
use parameters::{CELLS, PLACES, STRIDE};
use refusals::Refusal;
use rows::Basis;
use verification::Kept;

// The accepted response rows: a flat array beside its count, as of the dealings. Holder j's numbers stand from (j - 1) × STRIDE.
#[derive(Clone, Copy)]
pub struct Responses {
    pub count: u8,
    pub responders: u64,
    pub numbers: [Scalar; PLACES],
}

// The refusal of a response row that needs no test of its numbers.
#[tactic(auto, unfolding(lists::specs::Tests::require, lists::specs::Tests::or_next))]
pub fn untested(n: u8, b: u8, sent: u64, holders: u64, bytes: &[u8]) -> Result<(), Refusal>
    ensures { number_of result ≡ untested n b sent holders bytes.now 0 }
{
    refusals::response_refusal(n, b, bytes)?;
    let j = records::byte(bytes, 2);
    if sets::has(sent, j) {
        return Err(Refusal::AlreadySent);
    }
    if !sets::has(holders, j) {
        return Err(Refusal::NotInHold);
    }
    Ok(())
}

impl Responses {
    // The refusal of a response row.
    #[tactic(auto, unfolding(crate::specs::Definitions::response_number, lists::specs::Tests::require, lists::specs::Tests::or_next))]
    pub fn refusal(&self, b: u8, kept: &Kept<'_>, bytes: &[u8]) -> Result<(), Refusal>
        requires { b ≤ kept.now.setup.now.n }
        ensures { number_of result ≡ response_number b kept.now.setup.now kept.now.dealings.now kept.now.complaints.now kept.now.challenges.now self.now bytes.now }
    {
        let holders = kept.complaints.holders;
        untested(kept.setup.n, b, self.responders, holders, bytes)?;
        if !kept.row_passes(b, bytes) {
            return Err(Refusal::FailedResponse);
        }
        Ok(())
    }

    // With one more response row, of b numbers.
    #[tactic(auto, unfolding(crate::specs::Definitions::with_response, arrays::specs::Arrays::base))]
    pub fn with(&self, b: u8, bytes: &[u8]) -> Responses
        requires { self.now.count ≤ 64 }
        ensures { result ≡ with_response b self.now bytes.now }
    {
        let j = records::byte(bytes, 2);
        let before = arrays::predecessor(j);
        let list = self.numbers;
        let numbers = arrays::with_numbers(list, before as u16 * STRIDE as u16, bytes, 4, b as u16);
        let answers = self.count + 1;
        Responses {
            count: answers,
            responders: sets::insert(self.responders, j),
            numbers: numbers,
        }
    }

    // φ(u,k) before the shift from the accepted response rows, by the basis of their senders.
    fn interpolated(&self, n: u8, basis: Basis, u: u8, k: u8) -> Scalar
        requires { basis ≡ basis_of (member_points n self.now.responders) }
        ensures { result ≡ phi_of n self.now u k }
    {
        let set = self.responders;
        let numbers = self.numbers;
        basis
            .weights(points::point(1, k))
            .sum(arrays::member_numbers(n, set, numbers, u))
    }

    // The list with every shifted φ, u outer.
    pub fn signatures(&self, b: u8, kept: &Kept<'_>, list: [Scalar; CELLS]) -> [Scalar; CELLS]
        requires { b ≤ kept.now.setup.now.n }
        ensures { result ≡ signatures_of b kept.now.setup.now kept.now.challenges.now.shift self.now list }
    {
        let n = kept.setup.n;
        let a = kept.setup.a as usize;
        let shift = kept.challenges.shift;
        let basis = arrays::member_points(n, self.responders).basis();
        let mut signatures = list;
        let count = a * b as usize;
        for (x, signature) in signatures[..count].iter_mut().enumerate() {
            let u = (x / a + 1) as u8;
            let k = (x % a + 1) as u8;
            let phi = self.interpolated(n, basis, u, k);
            *signature = phi.add(shift);
        }
        signatures
    }
}
