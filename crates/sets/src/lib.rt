// Sets of parties 1 to 64 as masks of 64 bits: party i is bit i - 1.
#![tactic(auto)]

ghost use Rattle.std.specs.Prelude.{◌≡◌, ◌^◌, ◌<◌};
ghost use Rattle.std.specs.Int.Bits.{bit_or};
ghost use Rattle.sets.specs.Masks.{has, mask_bits, insert, minus, count};
ghost use Rattle.sets.specs.Lanes.{folded};

// The bits of a mask, and so the most parties of a set.
const MASK_BITS: u8 = 64;

// Whether party `i` is in the set.
pub fn has(mask: u64, i: u8) -> bool
    ensures { result ≡ has mask i }
{
    if i == 0 {
        return false;
    }
    if MASK_BITS < i {
        return false;
    }
    (mask >> (i - 1)) & 1 == 1
}

// The set with party `i`, if there is such a party.
#[tactic(auto, unfolding(crate::specs::Masks::insert))]
pub fn insert(mask: u64, i: u8) -> u64
    ensures { result ≡ insert mask i }
{
    if i == 0 {
        return mask;
    }
    if MASK_BITS < i {
        return mask;
    }
    mask | (1 << (i - 1))
}

// The parties of either set.
pub fn union(a: u64, b: u64) -> u64
    ensures { result ≡ bit_or a b }
{
    a | b
}

// The parties of `a` that are not in `b`.
#[tactic(auto, unfolding(crate::specs::Masks::minus))]
pub fn minus(a: u64, b: u64) -> u64
    ensures { result ≡ minus a b }
{
    a - (a & b)
}

// The lower halves of a word's lanes, for lanes of 2, 4, 8, 16, 32 and 64 bits.
const IN_TWO: u64 = 0x5555_5555_5555_5555;

const IN_FOUR: u64 = 0x3333_3333_3333_3333;

const IN_EIGHT: u64 = 0x0f0f_0f0f_0f0f_0f0f;

const IN_SIXTEEN: u64 = 0x00ff_00ff_00ff_00ff;

const IN_THIRTY_TWO: u64 = 0x0000_ffff_0000_ffff;

const IN_ALL: u64 = 0x0000_0000_ffff_ffff;

// Each two neighbouring lanes of `width` bits added into one; `halves` has the lower of each two.
fn folded(word: u64, width: u8, halves: u64) -> u64
    requires { (width < 64) × (halves < 2 ^ 63) }
    ensures { result ≡ folded word width halves }
{
    let lower = word & halves;
    let upper = (word >> width) & halves;
    lower + upper
}

// How many parties are in the set: the bits of the mask, a lane each, are added two and two until one lane is left.
pub fn bits_set(mask: u64) -> u8
    ensures { result ≡ count mask_bits (has mask) }
{
    let twos = folded(mask, 1, IN_TWO);
    let fours = folded(twos, 2, IN_FOUR);
    let eights = folded(fours, 4, IN_EIGHT);
    let sixteens = folded(eights, 8, IN_SIXTEEN);
    let halves = folded(sixteens, 16, IN_THIRTY_TWO);
    folded(halves, 32, IN_ALL) as u8
}

// How many of the parties from 1 to `n` are in the set.
pub fn size(mask: u64, n: u8) -> u8
    ensures { result ≡ count n (has mask) }
{
    let all = MASK_BITS <= n;
    if all {
        return bits_set(mask);
    }
    bits_set(mask & ((1 << n) - 1))
}
