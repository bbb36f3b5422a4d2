// Records: bytes, numbers, tags and lengths.
#![tactic(auto)]

ghost use Rattle.std.specs.Prelude.{◌≡◌};
ghost use Rattle.records.specs.Bytes.{byte_at, number_at, word};
ghost use Rattle.records.specs.Tags.{code, tag_of, setup_length, dealing_length, complaint_length, challenges_length, shifted_length, response_length, shares_from, mask_width, mask_at};

// The eight tags, two letters each.
const SU: u16 = b'S' as u16 * 256 + b'U' as u16;

const SX: u16 = b'S' as u16 * 256 + b'X' as u16;

const DE: u16 = b'D' as u16 * 256 + b'E' as u16;

const GO: u16 = b'G' as u16 * 256 + b'O' as u16;

const VE: u16 = b'V' as u16 * 256 + b'E' as u16;

const CH: u16 = b'C' as u16 * 256 + b'H' as u16;

const CS: u16 = b'C' as u16 * 256 + b'S' as u16;

const RE: u16 = b'R' as u16 * 256 + b'E' as u16;

// The most parties whose mask has four bytes.
const MOST_NARROW: u8 = 32;

// The bytes of a GO: its tag alone.
pub const GO_LENGTH: usize = 2;

// The byte at a place, and 0 past the end.
#[tactic(auto, unfolding(crate::specs::Bytes::byte_at))]
pub fn byte(s: &[u8], at: usize) -> u8
    ensures { result ≡ byte_at s.now at }
{
    if at < s.len() { s[at] } else { 0 }
}

// The number of four bytes at a place, high byte first. Places are those of records, far below the largest.
pub fn number(s: &[u8], at: u32) -> u32
    ensures { result ≡ number_at s.now at }
{
    let from = at as usize;
    let b0 = byte(s, from);
    let b1 = byte(s, from + 1);
    let b2 = byte(s, from + 2);
    let b3 = byte(s, from + 3);
    u32::from_be_bytes([b0, b1, b2, b3])
}

// Number i of those that stand from a place on.
#[tactic(auto, unfolding(crate::specs::Bytes::word))]
pub fn word(s: &[u8], at: u16, i: u16) -> u32
    ensures { result ≡ word s.now at i }
{
    number(s, at as u32 + 4 * i as u32)
}

// The tag (mark, in document 01) of a record: 1 SU, 2 DE, 3 VE, 4 CH, 5 RE, 6 CS, 7 SX, 8 GO, and 0 for none of these. Codes and no enum: document 01 names the
// form, a match over mark codes and stage numbers.
pub fn tag(s: &[u8]) -> u8
    ensures { result ≡ code (tag_of s.now) }
{
    if s.len() < 2 {
        return 0;
    }
    let mark = byte(s, 0) as u16 * 256 + byte(s, 1) as u16;
    match mark {
        SU => 1,
        DE => 2,
        VE => 3,
        CH => 4,
        RE => 5,
        CS => 6,
        SX => 7,
        GO => 8,
        _ => 0,
    }
}

#[tactic(auto, unfolding(crate::specs::Tags::setup_length))]
pub fn setup_length(t: u8) -> usize
    ensures { result ≡ setup_length t }
{
    4 * t as usize + 10
}

#[tactic(auto, unfolding(crate::specs::Tags::dealing_length))]
pub fn dealing_length(n: u8, t: u8, a: u8) -> usize
    ensures { result ≡ dealing_length n t a }
{
    4 + 4 * parameters::quorum(t, a) as usize + 4 * n as usize
}

// The bytes of the mask of a complaint row: four for up to 32 parties, eight for more.
#[tactic(auto, unfolding(crate::specs::Tags::mask_width))]
pub fn mask_width(n: u8) -> u8
    ensures { result ≡ mask_width n }
{
    let narrow = n <= MOST_NARROW;
    if narrow { 4 } else { 8 }
}

#[tactic(auto, unfolding(crate::specs::Tags::complaint_length))]
pub fn complaint_length(n: u8) -> usize
    ensures { result ≡ complaint_length n }
{
    4 + mask_width(n) as usize
}

#[tactic(auto, unfolding(crate::specs::Tags::challenges_length))]
pub fn challenges_length(a: u8, b: u8) -> usize
    ensures { result ≡ challenges_length a b }
{
    4 + 4 * (a as usize * b as usize)
}

pub fn shifted_length(a: u8, b: u8) -> usize
    ensures { result ≡ shifted_length a b }
{
    4 + challenges_length(a, b)
}

#[tactic(auto, unfolding(crate::specs::Tags::response_length))]
pub fn response_length(b: u8) -> usize
    ensures { result ≡ response_length b }
{
    4 + 4 * b as usize
}

// Where the shares of a dealing begin.
pub fn shares_from(t: u8, a: u8) -> u16
    ensures { result ≡ shares_from t a }
{
    4 + 4 * parameters::quorum(t, a)
}

// The mask of a complaint row of a committee of n, high byte first.
pub fn mask(n: u8, s: &[u8]) -> u64
    ensures { result ≡ mask_at n s.now }
{
    let width = mask_width(n);
    let mut number: u64 = 0;
    for i in 0..width {
        number = number * 256 + byte(s, 4 + i as usize) as u64;
    }
    number
}
