// The accepted complaint rows: what a run keeps of them, what one more adds, and the sets that follow from them.
#![tactic(auto)]

ghost use Rattle.std.specs.Prelude.{◌≡◌, not, ◌||◌, ◌+◌, ◌≤◌};
ghost use Rattle.lists.specs.Tests.{all_to};
ghost use Rattle.sets.specs.Masks.{has};
ghost use Rattle.dealing.specs.Definitions.{may_blame};
ghost use Rattle.refusals.specs.Numbers.{number_of};
ghost use Rattle.complaint.specs.Definitions.{mask_by, blamed_by, unblamed, complaint_number, with_complaint, complaint_stage};

use dealing::{Dealings, Setup};
use parameters::{MOST_PARTIES, PARTIES};
use refusals::Refusal;

// The accepted complaint rows (verdicts, in document 01): a flat array beside its count, as of the dealings. Holder j's mask stands at j - 1.
#[derive(Clone, Copy)]
pub struct Complaints {
    pub count: u8,
    pub holders: u64,
    pub masks: [u64; PARTIES],
}

// Whether each dealer that a mask blames has a dealing whose share for j is not valid.
pub fn blames_rightly(dealings: &Dealings, n: u8, j: u8, mask: u64) -> bool
    ensures { result ≡ all_to n (λ i. not (has mask (i + 1)) || may_blame dealings.now j (i + 1)) }
{
    for i in 0..n {
        if sets::has(mask, i + 1) {
            if !dealings.may_blame(j, i + 1) {
                return false;
            }
        }
    }
    true
}

impl Complaints {
    // The kept mask of holder j, and an empty one for a party that has none.
    pub fn mask_of(self, j: u8) -> u64
        ensures { result ≡ mask_by self j }
    {
        if j < 1 {
            return 0;
        }
        if MOST_PARTIES < j {
            return 0;
        }
        if !sets::has(self.holders, j) {
            return 0;
        }
        let at = (j - 1) as usize;
        self.masks[at]
    }

    // BAD: the dealers whom any kept mask of HOLD blames.
    pub fn blamed(self, n: u8) -> u64
        ensures { result ≡ blamed_by n self }
    {
        let mut blamed: u64 = 0;
        for i in 0..n {
            blamed = sets::union(blamed, self.mask_of(i + 1));
        }
        blamed
    }

    // The dealers of a set whom no kept mask of HOLD blames: QUAL, of all the accepted dealers.
    #[tactic(auto, unfolding(crate::specs::Definitions::unblamed))]
    pub fn unblamed(self, n: u8, dealers: u64) -> u64
        ensures { result ≡ unblamed n self dealers }
    {
        sets::minus(dealers, self.blamed(n))
    }

    // The refusal of a complaint row.
    #[tactic(auto, unfolding(crate::specs::Definitions::complaint_number, lists::specs::Tests::require, lists::specs::Tests::or_next))]
    pub fn refusal(&self, setup: Setup, dealings: &Dealings, bytes: &[u8]) -> Result<(), Refusal>
        ensures { number_of result ≡ complaint_number setup dealings.now self.now bytes.now }
    {
        refusals::complaint_refusal(setup.n, bytes)?;
        let j = records::byte(bytes, 2);
        if sets::has(self.holders, j) {
            return Err(Refusal::AlreadySent);
        }
        if !blames_rightly(dealings, setup.n, j, records::mask(setup.n, bytes)) {
            return Err(Refusal::FalseBlame);
        }
        Ok(())
    }

    // With one more complaint row of a committee of n.
    #[tactic(auto, unfolding(crate::specs::Definitions::with_complaint))]
    pub fn with(self, n: u8, bytes: &[u8]) -> Complaints
        requires { self.count ≤ 64 }
        ensures { result ≡ with_complaint n self bytes.now }
    {
        let rows = self.count + 1;
        let j = records::byte(bytes, 2);
        let at = arrays::predecessor(j) as usize;
        let mut masks = self.masks;
        if at < PARTIES {
            masks[at] = records::mask(n, bytes);
        }
        Complaints {
            count: rows,
            holders: sets::insert(self.holders, j),
            masks: masks,
        }
    }

    // The stage that these rows bring.
    pub fn stage(self, setup: Setup) -> u8
        requires { setup.t ≤ setup.n }
        ensures { result ≡ complaint_stage setup self }
    {
        if self.count != setup.n - setup.t {
            return 2;
        }
        if setup.t < sets::size(self.blamed(setup.n), setup.n) {
            return 6;
        }
        3
    }
}
