// The writers of SU and DE, which know no run: each record is written whole into a buffer that the caller lends, or refused with the buffer as it was.
#![tactic(auto)]

ghost use Rattle.std.specs.Prelude.{◌≡◌, true, ◌+◌, ◌*◌, ◌≤◌, length, get_or, eqb};
ghost use Rattle.lists.specs.Tests.{pick, all_to};
ghost use Rattle.field.specs.Definitions.{scalar, is_scalar};
ghost use Rattle.rows.specs.Definitions.{most_scalars};
ghost use Rattle.parameters.specs.Definitions.{in_bounds, quorum};
ghost use Rattle.refusals.specs.Numbers.{number_of};
ghost use Rattle.encoding.specs.Bytes.{fours};
ghost use Rattle.arrays.specs.Arrays.{scalars};
ghost use Rattle.dealer.specs.Dealt.{setup_refused, setup_bytes, dealing_refused, share_for, dealing_bytes};

use field::{Element, Scalar};
use refusals::Refusal;
use rows::ROW;

// Whether every number of a list is a scalar.
fn all_scalars(list: &[u32]) -> bool
    ensures { result ≡ all_to (length list.now) (λ i. is_scalar (get_or list.now i 0)) }
{
    list.iter().all(|&x| Scalar::accepts(x))
}

// The numbers of a list as scalars.
fn load_scalars(list: &[u32]) -> [Scalar; ROW]
    requires { length list.now ≤ most_scalars }
    ensures { result ≡ scalars (length list.now) (λ i. scalar (get_or list.now i 0)) }
{
    let mut values = [Scalar::ZERO; ROW];
    for (i, &x) in list.iter().enumerate() {
        values[i] = Scalar(x);
    }
    values
}

#[tactic(auto, unfolding(crate::specs::Dealt::setup_refused, lists::specs::Tests::require))]
fn setup_refused(n: u8, t: u8, a: u8, s: u32, shares: &[u32], room: usize) -> Result<(), Refusal>
    ensures { number_of result ≡ setup_refused n t a s shares.now room }
{
    if !parameters::in_bounds(n, t, a) {
        return Err(Refusal::OutOfBounds);
    }
    if shares.len() != t as usize {
        return Err(Refusal::WrongCount);
    }
    if !Scalar::accepts(s) {
        return Err(Refusal::NotScalar);
    }
    if !all_scalars(shares) {
        return Err(Refusal::NotScalar);
    }
    let none = s == 0;
    if none {
        return Err(Refusal::IdentityKey);
    }
    if room != records::setup_length(t) {
        return Err(Refusal::WrongRoom);
    }
    Ok(())
}

// SU, from n, t, a, s and F(1) to F(t). For s = 0 the key would be the identity.
pub fn write_setup(
    n: u8,
    t: u8,
    a: u8,
    s: u32,
    shares: &[u32],
    out: &mut [u8],
) -> Result<(), Refusal>
    ensures number { number_of result ≡ setup_refused n t a s shares.now (length out.old) }
    ensures bytes { out.new ≡ pick (eqb (number_of result) 0) (setup_bytes n t a s shares.now) out.old }
{
    setup_refused(n, t, a, s, shares, out.len())?;
    let (head, keys) = out.split_at_mut(6);
    let (first, others) = keys.split_at_mut(4);
    head.copy_from_slice(&[b'S', b'U', n, t, a, 0]);
    let key = Element::GENERATOR.pow(Scalar(s));
    encoding::put(first, key.0);
    encoding::put_powers(others, shares);
    Ok(())
}

#[tactic(auto, unfolding(crate::specs::Dealt::dealing_refused, lists::specs::Tests::require))]
fn dealing_refused(n: u8, t: u8, a: u8, i: u8, values: &[u32], room: usize) -> Result<(), Refusal>
    ensures { number_of result ≡ dealing_refused n t a i values.now room }
{
    if !parameters::in_bounds(n, t, a) {
        return Err(Refusal::OutOfBounds);
    }
    if !parameters::is_party(n, i) {
        return Err(Refusal::NoParty);
    }
    if values.len() != parameters::quorum(t, a) as usize {
        return Err(Refusal::WrongCount);
    }
    if !all_scalars(values) {
        return Err(Refusal::NotScalar);
    }
    if room != records::dealing_length(n, t, a) {
        return Err(Refusal::WrongRoom);
    }
    Ok(())
}

// The shares of a dealing for 1 to n.
fn put_shares(out: &mut [u8], n: u8, t: u8, a: u8, values: &[u32])
    requires { (in_bounds n t a ≡ true) × (length values.now ≡ quorum t a) × (length out.old ≡ 4 * n) }
    ensures { out.new ≡ fours n (λ j. (share_for t a values.now (j + 1)).0) }
{
    let list = load_scalars(values);
    let points = points::committed_points(a, parameters::quorum(t, a) as u8);
    encoding::put_each(out, n, |j| {
        let weights = points.weights(points::point(j, 0));
        weights.sum(list).0
    });
}

// DE, from n, t, a, i and the values of H_i at its committed points.
pub fn write_dealing(
    n: u8,
    t: u8,
    a: u8,
    i: u8,
    values: &[u32],
    out: &mut [u8],
) -> Result<(), Refusal>
    ensures number { number_of result ≡ dealing_refused n t a i values.now (length out.old) }
    ensures bytes { out.new ≡ pick (eqb (number_of result) 0) (dealing_bytes n t a i values.now) out.old }
{
    dealing_refused(n, t, a, i, values, out.len())?;
    let (head, rest) = out.split_at_mut(4);
    let (committed, shares) = rest.split_at_mut(4 * values.len());
    head.copy_from_slice(&[b'D', b'E', i, 0]);
    encoding::put_powers(committed, values);
    put_shares(shares, n, t, a, values);
    Ok(())
}
