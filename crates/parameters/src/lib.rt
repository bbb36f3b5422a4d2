// The parameters of a committee: their bounds, and what follows from them.
#![tactic(auto)]

ghost use Rattle.std.specs.Prelude.{◌≡◌};
ghost use Rattle.parameters.specs.Definitions.{in_bounds, quorum, batch, is_party};

// The most parties that a committee has.
pub const MOST_PARTIES: u8 = 64;

// As many places as parties.
pub const PARTIES: usize = MOST_PARTIES as usize;

// The places of one party's values in a flat array, and of all parties' values.
pub const STRIDE: usize = PARTIES;

pub const PLACES: usize = PARTIES * STRIDE;

// The places of the challenges, and of the numbers φ(u,k): a is at most half of n.
pub const CELLS: usize = PLACES / 2;

// Whether n parties, threshold t and packing a are within the bounds.
#[tactic(auto, unfolding(crate::specs::Definitions::in_bounds))]
pub fn in_bounds(n: u8, t: u8, a: u8) -> bool
    ensures { result ≡ in_bounds n t a }
{
    let none = t < 1;
    if none {
        return false;
    }
    let unpacked = a < 1;
    if unpacked {
        return false;
    }
    let many = MOST_PARTIES < n;
    if many {
        return false;
    }
    3 * t as u32 + 2 * a as u32 <= n as u32 + 1
}

// The quorum (need, in document 01): the committed values of a dealing, and the responses that a signature takes.
#[tactic(auto, unfolding(crate::specs::Definitions::quorum))]
pub fn quorum(t: u8, a: u8) -> u16
    ensures { result ≡ quorum t a }
{
    let sum = t as u16 + 2 * a as u16;
    if 0 < sum { sum - 1 } else { 0 }
}

// b, the signatures of a packed slot, with m dealings.
#[tactic(auto, unfolding(crate::specs::Definitions::batch))]
pub fn batch(m: u8, t: u8) -> u8
    ensures { result ≡ batch m t }
{
    if t < m { m - t } else { 0 }
}

pub fn is_party(n: u8, i: u8) -> bool
    ensures { result ≡ is_party n i }
{
    let none = i < 1;
    if none {
        return false;
    }
    i <= n
}
