// Numbers as bytes, high byte first, into the slice that they fill.
#![tactic(auto)]

ghost use Rattle.std.specs.Prelude.{◌≡◌, ℕ, ◌+◌, ◌*◌, ◌<◌, ◌≤◌, length, get_or};
ghost use Rattle.encoding.specs.Bytes.{bytes_of, four, fours, power_of_four};

use field::{Element, Scalar};

// The bytes of the widest number.
const WIDE: usize = 8;

// The bytes of a number of four.
const NUMBER: usize = 4;

// A number of as many bytes as the slice has.
pub fn put_bytes(out: &mut [u8], x: u64)
    requires { length out.old ≤ 8 }
    ensures { out.new ≡ bytes_of (length out.old) x }
{
    let bytes = x.to_be_bytes();
    let from = WIDE - out.len();
    out.copy_from_slice(&bytes[from..]);
}

// A number of four bytes.
pub fn put(out: &mut [u8], x: u32)
    requires { length out.old ≡ 4 }
    ensures { out.new ≡ four x }
{
    put_bytes(out, x as u64);
}

// 4^x for each x of a list.
pub fn put_powers(out: &mut [u8], list: &[u32])
    requires { length out.old ≡ 4 * length list.now }
    ensures { out.new ≡ fours (length list.now) (λ i. power_of_four (get_or list.now i 0)) }
{
    for (i, &x) in list.iter().enumerate() {
        let power = Element::GENERATOR.pow(Scalar(x));
        let at = NUMBER * i;
        put(&mut out[at..at + NUMBER], power.0);
    }
}

// What a rule gives for 1 to count.
pub fn put_each<F: Fn(u8) -> u32>(out: &mut [u8], count: u8, rule: F)
    requires long { length out.old ≡ 4 * count }
    requires callable { F.IsAlwaysCallable rule }
    ensures { (f : ℕ → ℕ) → ((v : ℕ) → v < count → (x : ℕ) → F.post rule (v + 1) x → x ≡ f v) → out.new ≡ fours count f }
{
    // by number: of the parts of `chunks_exact_mut` beside a range the proof knows no more than how many there are
    for i in 0..count {
        let number = rule(i + 1);
        let at = NUMBER * i as usize;
        put(&mut out[at..at + NUMBER], number);
    }
}
