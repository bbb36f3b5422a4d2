// The committed values of a set of dealers, combined for each u: one product over the set, raised step by step.
#![tactic(auto)]

ghost use Rattle.std.specs.Prelude.{◌≡◌, ◌+◌, ◌*◌, ◌-◌, ◌≤◌, ◌<◌, get_or};
ghost use Rattle.lists.specs.Stores.{stored};
ghost use Rattle.sets.specs.Masks.{has};
ghost use Rattle.field.specs.Definitions.{identity};
ghost use Rattle.protocol.specs.Transcript.{coefficient};
ghost use Rattle.arrays.specs.Arrays.{commitment_in, elements};
ghost use Rattle.parameters.specs.Definitions.{most_parties, stride};
ghost use Rattle.combination.specs.Combination.{combined_value, raised, powers_at};
ghost use Rattle.combination.specs.Tables.{values_at, table_to};

use field::{Element, Scalar};
use parameters::{MOST_PARTIES, PLACES, STRIDE};
use rows::{ROW, Row};

// i^(u-1) as a scalar, i being the dealer's number.
#[tactic(auto, unfolding(protocol::specs::Transcript::coefficient))]
pub fn coefficient(i: u8, u: u8) -> Scalar
    ensures { result ≡ coefficient i u }
{
    Scalar(i as u32).power(arrays::predecessor(u) as u32)
}

// The committed values of n dealers, each to the power of its dealer's number: from V^(i^(u-1)) to V^(i^u).
pub fn raised(list: [Element; PLACES], n: u8) -> [Element; PLACES]
    ensures { result ≡ raised n list }
{
    let count = n.min(MOST_PARTIES) as usize * STRIDE;
    let mut next = list;
    for (at, value) in next[..count].iter_mut().enumerate() {
        // a power of 1 is 1, and most places have no value
        if !value.same(Element::ONE) {
            *value = value.power((at / STRIDE + 1) as u32);
        }
    }
    next
}

// The committed values to the power of i^(u-1), i being the dealer's number.
pub fn powers_at(list: [Element; PLACES], n: u8, u: u8) -> [Element; PLACES]
    ensures { result ≡ powers_at n list (u - 1) }
{
    let mut powers = list;
    for _ in 1..u {
        let next = raised(powers, n);
        powers = next;
    }
    powers
}

// The product over the dealers of a set of their values at v.
fn combined_value(powers: &[Element; PLACES], qual: u64, n: u8, v: usize) -> Element
    requires { v < stride }
    ensures { result ≡ combined_value n (has qual) (commitment_in powers.now) 1 v }
{
    let mut product = Element::ONE;
    for (i, values) in (0..n).zip(powers.chunks_exact(STRIDE)) {
        if sets::has(qual, i + 1) {
            product = product.mul(values[v]);
        }
    }
    product
}

// The values of the dealers of a set, combined for the u whose powers these are: one product over the set for each v.
pub fn combined_values(powers: [Element; PLACES], qual: u64, n: u8, quorum: u8) -> [Element; ROW]
    ensures { result ≡ elements quorum (combined_value n (has qual) (commitment_in powers) 1) }
{
    let m = arrays::capped(quorum as usize);
    let mut values = [Element::ONE; ROW];
    for (v, value) in values[..m].iter_mut().enumerate() {
        *value = combined_value(&powers, qual, n, v);
    }
    values
}

// The values with those of a set of dealers for one u more, from the powers for it. They stand from u × STRIDE on, u counted from 0.
pub fn with_values(
    values: [Element; PLACES],
    powers: [Element; PLACES],
    n: u8,
    qual: u64,
    quorum: u8,
    u: u8,
) -> [Element; PLACES]
    requires { u < most_parties }
    ensures { result ≡ stored values (u * stride) stride (λ v. get_or (values_at n qual quorum powers 1) v identity) }
{
    let row = combined_values(powers, qual, n, quorum);
    let first = u as usize * STRIDE;
    let mut next = values;
    next[first..first + STRIDE].copy_from_slice(&row);
    next
}

// The values of a set of dealers, combined for u from 1 to count: those for u from (u - 1) × STRIDE on.
pub fn table(list: [Element; PLACES], n: u8, qual: u64, quorum: u8, count: u8) -> [Element; PLACES]
    requires { (count ≤ most_parties) × (quorum ≤ most_parties) }
    ensures { result ≡ table_to n qual quorum list count }
{
    let mut powers = list;
    let mut values = [Element::ONE; PLACES];
    for u in 0..count {
        let later = 0 < u;
        if later {
            let more = raised(powers, n);
            powers = more;
        }
        let next = with_values(values, powers, n, qual, quorum, u);
        values = next;
    }
    values
}
