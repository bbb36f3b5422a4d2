// The refusals with their numbers, and what is refused of a record from the input alone: 2 to 8, and 16.
#![tactic(auto)]

ghost use Rattle.std.specs.Prelude.{◌≡◌, ℕ, Bool};
ghost use Rattle.lists.specs.Tests.{all_to};
ghost use Rattle.field.specs.Definitions.{is_scalar, is_element};
ghost use Rattle.records.specs.Bytes.{word};
ghost use Rattle.refusals.specs.Numbers.{number, number_of};
ghost use Rattle.refusals.specs.Refusals.{mask_fits, setup_refusal, head_refusal, dealing_refusal, complaint_refusal, scalars_refusal, challenges_refusal, shifted_refusal, response_refusal};

use field::{Element, Reading, Scalar};

// Why something is refused, in the order of the numbers, which begin at 1.
#[derive(Clone, Copy, Debug, PartialEq, Eq)]
pub enum Refusal {
    UnknownTag,
    WrongLength,
    ReservedByte,
    OutOfBounds,
    NoParty,
    NotScalar,
    NotElement,
    WideMask,
    WrongRoom,
    WrongCount,
    WrongStage,
    AlreadySent,
    FalseBlame,
    NotInHold,
    FailedResponse,
    IdentityKey,
    FewDealings,
}

impl Refusal {
    // The number that document 01 has for it, and document 02 from 16 on.
    pub fn number(self) -> u8
        ensures { result ≡ number self }
    {
        match self {
            Refusal::UnknownTag => 1,
            Refusal::WrongLength => 2,
            Refusal::ReservedByte => 3,
            Refusal::OutOfBounds => 4,
            Refusal::NoParty => 5,
            Refusal::NotScalar => 6,
            Refusal::NotElement => 7,
            Refusal::WideMask => 8,
            Refusal::WrongRoom => 9,
            Refusal::WrongCount => 10,
            Refusal::WrongStage => 11,
            Refusal::AlreadySent => 12,
            Refusal::FalseBlame => 13,
            Refusal::NotInHold => 14,
            Refusal::FailedResponse => 15,
            Refusal::IdentityKey => 16,
            Refusal::FewDealings => 17,
        }
    }
}

// The number of an answer, 0 where nothing is refused.
pub fn number_of<T>(answer: &Result<T, Refusal>) -> u8
    ensures { result ≡ number_of answer.now }
{
    match answer {
        Ok(_) => 0,
        Err(refusal) => refusal.number(),
    }
}

// The highest bit of a mask.
const LAST_BIT: u8 = 63;

// A kind of number that records hold: scalars or elements.
pub trait Admits {
    ghost is_one: { ℕ → Bool };

    // Whether a number is of the kind as it stands.
    fn admits(x: u32) -> bool
        ensures { result ≡ is_one x };
}

impl Admits for Scalar {
    ghost is_one = { is_scalar };

    fn admits(x: u32) -> bool {
        Scalar::accepts(x)
    }
}

impl Admits for Element {
    ghost is_one = { is_element };

    #[tactic(auto, using(field::proofs::Readings::element_read))]
    fn admits(x: u32) -> bool {
        Element::read(x).is_element()
    }
}

// Whether the count numbers from a place on are all of a kind.
pub fn all_of<K: Admits>(s: &[u8], at: u16, count: u16) -> bool
    ensures { result ≡ all_to count (λ i. K.is_one (word s.now at i)) }
{
    for i in 0..count {
        if !K::admits(records::word(s, at, i)) {
            return false;
        }
    }
    true
}

// Whether a mask has no bit above bit n - 1.
pub fn mask_fits(n: u8, mask: u64) -> bool
    ensures { result ≡ mask_fits n mask }
{
    let all = LAST_BIT < n;
    if all {
        return true;
    }
    mask < (1u64 << n)
}

// The refusal of a setup.
pub fn setup_refusal(s: &[u8]) -> Result<(), Refusal>
    ensures { number_of result ≡ setup_refusal s.now }
{
    if s.len() < 6 {
        return Err(Refusal::WrongLength);
    }
    let t = records::byte(s, 3);
    if s.len() != records::setup_length(t) {
        return Err(Refusal::WrongLength);
    }
    if records::byte(s, 5) != 0 {
        return Err(Refusal::ReservedByte);
    }
    if !parameters::in_bounds(records::byte(s, 2), t, records::byte(s, 4)) {
        return Err(Refusal::OutOfBounds);
    }
    if !all_of::<Element>(s, 6, t as u16 + 1) {
        return Err(Refusal::NotElement);
    }
    // 7 has been asked of S with the others, so that it is the identity or another element
    let key = Element::read(records::word(s, 6, 0));
    match key {
        Reading::NoElement => Err(Refusal::NotElement),
        Reading::Identity => Err(Refusal::IdentityKey),
        Reading::Other => Ok(()),
    }
}

// The refusal of what a dealing, a complaint row and a response row begin with: the length, the reserved (spare) byte, the sender.
fn head_refusal(n: u8, s: &[u8], size: usize) -> Result<(), Refusal>
    ensures { number_of result ≡ head_refusal n size s.now }
{
    if s.len() != size {
        return Err(Refusal::WrongLength);
    }
    if records::byte(s, 3) != 0 {
        return Err(Refusal::ReservedByte);
    }
    if !parameters::is_party(n, records::byte(s, 2)) {
        return Err(Refusal::NoParty);
    }
    Ok(())
}

// The refusal of a dealing from its bytes and the parameters.
#[tactic(auto, unfolding(crate::specs::Refusals::dealing_refusal, lists::specs::Tests::require, lists::specs::Tests::or_next))]
pub fn dealing_refusal(n: u8, t: u8, a: u8, s: &[u8]) -> Result<(), Refusal>
    ensures { number_of result ≡ dealing_refusal n t a s.now }
{
    head_refusal(n, s, records::dealing_length(n, t, a))?;
    if !all_of::<Element>(s, 4, parameters::quorum(t, a)) {
        return Err(Refusal::NotElement);
    }
    if !all_of::<Scalar>(s, records::shares_from(t, a), n as u16) {
        return Err(Refusal::NotScalar);
    }
    Ok(())
}

// The refusal of a complaint row (verdict).
#[tactic(auto, unfolding(crate::specs::Refusals::complaint_refusal, lists::specs::Tests::require, lists::specs::Tests::or_next))]
pub fn complaint_refusal(n: u8, s: &[u8]) -> Result<(), Refusal>
    ensures { number_of result ≡ complaint_refusal n s.now }
{
    head_refusal(n, s, records::complaint_length(n))?;
    if !mask_fits(n, records::mask(n, s)) {
        return Err(Refusal::WideMask);
    }
    Ok(())
}

// The refusal of a record that holds scalars behind two reserved bytes: its length, these bytes, so many scalars.
fn scalars_refusal(s: &[u8], size: usize, count: u16) -> Result<(), Refusal>
    ensures { number_of result ≡ scalars_refusal size count s.now }
{
    if s.len() != size {
        return Err(Refusal::WrongLength);
    }
    if records::byte(s, 2) != 0 {
        return Err(Refusal::ReservedByte);
    }
    if records::byte(s, 3) != 0 {
        return Err(Refusal::ReservedByte);
    }
    if !all_of::<Scalar>(s, 4, count) {
        return Err(Refusal::NotScalar);
    }
    Ok(())
}

// The refusal of challenges, and that of a shift with challenges: one function for both would be handed what `scalars_refusal` is.
#[tactic(auto, unfolding(crate::specs::Refusals::challenges_refusal))]
pub fn challenges_refusal(a: u8, b: u8, s: &[u8]) -> Result<(), Refusal>
    ensures { number_of result ≡ challenges_refusal a b s.now }
{
    let size = records::challenges_length(a, b);
    let count = a as u16 * b as u16;
    scalars_refusal(s, size, count)
}

// The refusal of a shift with challenges.
#[tactic(auto, unfolding(crate::specs::Refusals::shifted_refusal))]
pub fn shifted_refusal(a: u8, b: u8, s: &[u8]) -> Result<(), Refusal>
    ensures { number_of result ≡ shifted_refusal a b s.now }
{
    let size = records::shifted_length(a, b);
    let count = a as u16 * b as u16 + 1;
    scalars_refusal(s, size, count)
}

// The refusal of a response row.
#[tactic(auto, unfolding(crate::specs::Refusals::response_refusal, lists::specs::Tests::require, lists::specs::Tests::or_next))]
pub fn response_refusal(n: u8, b: u8, s: &[u8]) -> Result<(), Refusal>
    ensures { number_of result ≡ response_refusal n b s.now }
{
    head_refusal(n, s, records::response_length(b))?;
    if !all_of::<Scalar>(s, 4, b as u16) {
        return Err(Refusal::NotScalar);
    }
    Ok(())
}
