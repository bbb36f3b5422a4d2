// The public values of a committee on flat arrays: the key, the challenges, the values of a set of parties, and the test of a share.
#![tactic(auto)]

ghost use Rattle.std.specs.Prelude.{◌≡◌, ℕ, ◌+◌, ◌-◌, ◌<◌, min, get_or};
ghost use Rattle.lists.specs.Stores.{stored};
ghost use Rattle.sets.specs.Masks.{has, members, count};
ghost use Rattle.field.specs.declared.Scalar.{Scalar};
ghost use Rattle.field.specs.Definitions.{scalar, element, identity, generator, same_element, raise};
ghost use Rattle.records.specs.Bytes.{word};
ghost use Rattle.rows.specs.Definitions.{most_scalars, listed, product_of};
ghost use Rattle.arrays.specs.Arrays.{challenge_in, member_points, member_numbers, elements, scalars};

use field::{Element, Scalar};
use parameters::{CELLS, PARTIES, PLACES, STRIDE};
use rows::{ROW, Row};

// One less, and 0 for 0.
pub fn predecessor(u: u8) -> u8
    ensures { result ≡ u - 1 }
{
    u.saturating_sub(1)
}

// How many of `count` values a row takes.
pub fn capped(count: usize) -> usize
    ensures { result ≡ min count most_scalars }
{
    count.min(ROW)
}

// What a list has at a place, and `other` past its end.
pub fn item_or<T: Copy>(list: &[T], at: usize, other: T) -> T
    ensures { result ≡ get_or list.now at other }
{
    list.get(at).copied().unwrap_or(other)
}

// What a record's numbers are read as: scalars or elements.
pub trait Kind: Copy {
    // What a number is.
    ghost of_number: { ℕ → Self };

    fn of(x: u32) -> Self
        ensures { result ≡ of_number x };
}

impl Kind for Scalar {
    ghost of_number = { scalar };

    fn of(x: u32) -> Scalar {
        Scalar(x)
    }
}

impl Kind for Element {
    ghost of_number = { element };

    fn of(x: u32) -> Element {
        Element(x)
    }
}

// The list with numbers of a record, count of them from a place of it on, stored from `base` on; none past the list's end.
pub fn with_numbers<T: Kind, const N: usize>(
    list: [T; N],
    base: u16,
    bytes: &[u8],
    from: u16,
    count: u16,
) -> [T; N]
    ensures { result ≡ stored list base count (λ v. T.of_number (word bytes.now from v)) }
{
    let mut next = list;
    // by number: places of the record and of the list are counted at once, and none past the list's end is stored
    for v in 0..count {
        let at = base as usize + v as usize;
        let kept = at < N;
        if kept {
            next[at] = T::of(records::word(bytes, from, v));
        }
    }
    next
}

// Whether a share for j is valid (right, in document 01) under committed values: the weights are those of the committed points at j.
pub fn share_fits(weights: Row, values: [Element; ROW], share: Scalar) -> bool
    ensures { result ≡ same_element (raise generator share) (product_of weights values) }
{
    let image = weights.product(values);
    let sent = Element::GENERATOR.pow(share);
    sent.same(image)
}

// S at the points 1-a to 0, and S_1 to S_t.
pub fn key_values(key: [Element; PARTIES], t: u8, a: u8) -> [Element; ROW]
    ensures { result ≡ elements (t + a) (λ v. get_or key (v + 1 - a) identity) }
{
    let packed = a as usize;
    let m = capped(t as usize + packed);
    let mut values = [Element::ONE; ROW];
    for (v, value) in values[..m].iter_mut().enumerate() {
        let j = (v + 1).saturating_sub(packed);
        *value = item_or(&key, j, Element::ONE);
    }
    values
}

// e(u,1) to e(u,a).
pub fn challenge_values(list: [Scalar; CELLS], a: u8, u: u8) -> [Scalar; ROW]
    ensures { result ≡ scalars a (λ v. challenge_in a list u (v + 1)) }
{
    let m = capped(a as usize);
    let start = predecessor(u) as usize * a as usize;
    let mut values = [Scalar::ZERO; ROW];
    for (v, value) in values[..m].iter_mut().enumerate() {
        let at = start + v;
        *value = item_or(&list, at, Scalar::ZERO);
    }
    values
}

// What a rule gives for each member of a set, members rising.
fn of_members<F: Fn(u8) -> Scalar>(n: u8, set: u64, rule: F) -> Row
    requires { F.IsAlwaysCallable rule }
    ensures { (f : ℕ → Scalar) → ((j : ℕ) → j < 256 → (x : Scalar) → F.post rule j x → x ≡ f j) → result ≡ listed (count n (has set)) (λ i. f (get_or (members n (has set)) i 0)) }
{
    let mut at = [Scalar::ZERO; ROW];
    let mut count: u8 = 0;
    for i in 0..n {
        let j = i + 1;
        if sets::has(set, j) {
            at[count as usize] = rule(j);
            count += 1;
        }
    }
    Row { at, count }
}

// The points of the members of a set.
pub fn member_points(n: u8, set: u64) -> Row
    ensures { result ≡ member_points n set }
{
    of_members(n, set, |j| points::point(j, 0))
}

// Their numbers for u.
pub fn member_numbers(n: u8, set: u64, numbers: [Scalar; PLACES], u: u8) -> [Scalar; ROW]
    ensures { result ≡ member_numbers n set numbers u }
{
    let before = predecessor(u) as usize;
    let row = of_members(n, set, |j| {
        let at = predecessor(j) as usize * STRIDE + before;
        item_or(&numbers, at, Scalar::ZERO)
    });
    row.at
}
