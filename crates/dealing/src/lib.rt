// The accepted setup and the accepted dealings: what a run keeps of them, and what one more dealing adds.
#![tactic(auto)]

ghost use Rattle.std.specs.Prelude.{◌≡◌, true, ◌+◌, ◌≤◌};
ghost use Rattle.lists.specs.Stores.{stored, filled};
ghost use Rattle.field.specs.Definitions.{element, identity};
ghost use Rattle.parameters.specs.Definitions.{most_parties, in_bounds};
ghost use Rattle.records.specs.Bytes.{word, sender};
ghost use Rattle.protocol.specs.Transcript.{key_at};
ghost use Rattle.arrays.specs.Arrays.{elements};
ghost use Rattle.refusals.specs.Numbers.{number_of};
ghost use Rattle.dealing.specs.Definitions.{setup_of, key_in, dealing_number, wrong_shares, with_dealing, may_blame};

use field::{Element, Scalar};
use parameters::{MOST_PARTIES, PARTIES, PLACES, STRIDE};
use refusals::Refusal;
use rows::ROW;

// The accepted setup: the parameters, and S, S_1 to S_t. A run is answered whatever it holds, so that no invariant keeps the parameters within the bounds.
#[derive(Clone, Copy)]
pub struct Setup {
    pub n: u8,
    pub t: u8,
    pub a: u8,
    pub key: [Element; PARTIES],
}

// The accepted dealings: flat arrays beside their count, the form that document 01 names. Dealer i's committed values stand from (i - 1) × STRIDE, and the holders whose share from i is not valid at
// i - 1.
#[derive(Clone, Copy)]
pub struct Dealings {
    pub count: u8,
    pub dealers: u64,
    pub commitments: [Element; PLACES],
    pub wrong: [u64; PARTIES],
}

// S and S_1 on from a setup.
#[tactic(auto, unfolding(lists::specs::Stores::filled))]
fn load_key(bytes: &[u8], count: u16) -> [Element; PARTIES]
    ensures { result ≡ stored (filled most_parties identity) 0 count (λ j. element (word bytes.now 6 j)) }
{
    arrays::with_numbers([Element::ONE; PARTIES], 0, bytes, 6, count)
}

// A dealing's committed values by themselves.
#[tactic(auto, unfolding(lists::specs::Stores::filled, arrays::specs::Arrays::elements))]
fn load_values(bytes: &[u8], count: u16) -> [Element; ROW]
    ensures { result ≡ elements count (λ v. element (word bytes.now 4 v)) }
{
    arrays::with_numbers([Element::ONE; ROW], 0, bytes, 4, count)
}

// The holders for whom a dealing's share is not valid.
fn wrong_shares(setup: Setup, bytes: &[u8]) -> u64
    requires { in_bounds setup.n setup.t setup.a ≡ true }
    ensures { result ≡ wrong_shares setup bytes.now }
{
    let quorum = parameters::quorum(setup.t, setup.a);
    let values = load_values(bytes, quorum);
    let basis = points::committed_points(setup.a, quorum as u8).basis();
    let from = records::shares_from(setup.t, setup.a);
    let mut wrong: u64 = 0;
    for i in 0..setup.n {
        let j = i + 1;
        let weights = basis.weights(points::point(j, 0));
        let share = Scalar(records::word(bytes, from, i as u16));
        if !arrays::share_fits(weights, values, share) {
            wrong = sets::insert(wrong, j);
        }
    }
    wrong
}

impl Setup {
    // The setup of a record.
    pub fn read(bytes: &[u8]) -> Setup
        ensures { result ≡ setup_of bytes.now }
    {
        let t = records::byte(bytes, 3);
        let key = load_key(bytes, t as u16 + 1);
        Setup {
            n: records::byte(bytes, 2),
            t: t,
            a: records::byte(bytes, 4),
            key: key,
        }
    }

    // S at the point x, and S_j at a holder's.
    pub fn key_at(self, x: Scalar) -> Element
        requires { in_bounds self.n self.t self.a ≡ true }
        ensures { result ≡ key_at self.t self.a (key_in self) x }
    {
        let key = self.key;
        let values = arrays::key_values(key, self.t, self.a);
        points::committed_points(self.a, self.t + self.a)
            .weights(x)
            .product(values)
    }
}

impl Dealings {
    // Whether holder j may blame dealer i: i has a dealing, whose share for j is not valid.
    pub fn may_blame(&self, j: u8, i: u8) -> bool
        ensures { result ≡ may_blame self.now j i }
    {
        if i < 1 {
            return false;
        }
        if MOST_PARTIES < i {
            return false;
        }
        if !sets::has(self.dealers, i) {
            return false;
        }
        let at = (i - 1) as usize;
        let wrong = self.wrong[at];
        sets::has(wrong, j)
    }

    // With one more dealing.
    pub fn with(self, setup: Setup, bytes: &[u8]) -> Dealings
        requires { (in_bounds setup.n setup.t setup.a ≡ true) × (self.count ≤ 64) × (sender bytes.now ≤ setup.n) }
        ensures { result ≡ with_dealing setup self bytes.now }
    {
        let count = self.count + 1;
        let i = records::byte(bytes, 2);
        let before = arrays::predecessor(i);
        let list = self.commitments;
        let commitments = arrays::with_numbers(
            list,
            before as u16 * STRIDE as u16,
            bytes,
            4,
            parameters::quorum(setup.t, setup.a),
        );
        let mut wrong = self.wrong;
        let at = before as usize;
        if at < PARTIES {
            wrong[at] = wrong_shares(setup, bytes);
        }
        Dealings {
            count: count,
            dealers: sets::insert(self.dealers, i),
            commitments: commitments,
            wrong: wrong,
        }
    }

    // The refusal of a dealing.
    #[tactic(auto, unfolding(crate::specs::Definitions::dealing_number, lists::specs::Tests::require, lists::specs::Tests::or_next))]
    pub fn refusal(&self, setup: Setup, bytes: &[u8]) -> Result<(), Refusal>
        ensures { number_of result ≡ dealing_number setup self.now bytes.now }
    {
        refusals::dealing_refusal(setup.n, setup.t, setup.a, bytes)?;
        let sent = sets::has(self.dealers, records::byte(bytes, 2));
        if sent {
            return Err(Refusal::AlreadySent);
        }
        Ok(())
    }
}
