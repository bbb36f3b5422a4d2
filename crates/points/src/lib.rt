// The points of the scheme: those of parties, of packed slots, and where values are committed to.
#![tactic(auto)]

ghost use Rattle.std.specs.Prelude.{◌≡◌, ℕ, ◌+◌, ◌<◌};
ghost use Rattle.interpolation.specs.Definitions.{point, slot, committed_point};
ghost use Rattle.field.specs.declared.Scalar.{Scalar};
ghost use Rattle.rows.specs.Definitions.{most_scalars, listed};

use field::Scalar;
use rows::{MOST_SCALARS, ROW, Row};

// The integer x - y as a point.
#[tactic(auto, using(interpolation::proofs::PointLaws::point_is))]
pub fn point(x: u8, y: u8) -> Scalar
    ensures { result ≡ point x y }
{
    Scalar::new(x as u32).sub(Scalar::new(y as u32))
}

// What a rule gives for 1 to count, at most 64.
fn listed<F: Fn(u8) -> Scalar>(count: u8, rule: F) -> Row
    requires { F.IsAlwaysCallable rule }
    ensures { (f : ℕ → Scalar) → ((v : ℕ) → v < most_scalars → (x : Scalar) → F.post rule (v + 1) x → x ≡ f v) → result ≡ listed count f }
{
    let m = count.min(MOST_SCALARS);
    let mut at = [Scalar::ZERO; ROW];
    for (v, place) in at[..m as usize].iter_mut().enumerate() {
        *place = rule(v as u8 + 1);
    }
    Row { at, count: m }
}

// The points 1 - a, 2 - a, .., count of them: where a dealing or the key is committed to.
pub fn committed_points(a: u8, count: u8) -> Row
    ensures { result ≡ listed count (committed_point a) }
{
    listed(count, |v| point(v, a))
}

// The slots (packed places) 1 to count: the points 0, -1, ...
pub fn slot_points(count: u8) -> Row
    ensures { result ≡ listed count (λ v. slot (v + 1)) }
{
    listed(count, |k| point(1, k))
}
