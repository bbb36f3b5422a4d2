// The writers of VE and RE, which a holder makes from a run: each record is written whole into a buffer that the caller lends, or refused with the buffer as it was.
#![tactic(auto)]

ghost use Rattle.std.specs.Prelude.{◌≡◌, true, not, ◌||◌, ◌+◌, ◌*◌, ◌≤◌, length, get_or, eqb};
ghost use Rattle.lists.specs.Tests.{pick, all_to};
ghost use Rattle.sets.specs.Masks.{has, mask_of};
ghost use Rattle.field.specs.Definitions.{is_scalar};
ghost use Rattle.parameters.specs.Definitions.{most_parties};
ghost use Rattle.refusals.specs.Numbers.{number_of};
ghost use Rattle.encoding.specs.Bytes.{fours};
ghost use Rattle.run.specs.Runs.{well_formed};
ghost use Rattle.dealing.specs.Definitions.{may_blame};
ghost use Rattle.writers.specs.Writers.{complaint_refused, complaint_bytes, shares_refused, response_refused, combined_share, response_for, response_bytes};

use field::Scalar;
use refusals::Refusal;
use run::Run;

// The accepted dealers whose share for j is not valid.
fn wrong_dealers(run: Run, j: u8) -> u64
    requires { run.setup.n ≤ most_parties }
    ensures { result ≡ mask_of run.setup.n (may_blame run.dealings j) }
{
    let mut mask: u64 = 0;
    for i in 0..run.setup.n {
        let dealer = i + 1;
        if run.dealings.may_blame(j, dealer) {
            mask = sets::insert(mask, dealer);
        }
    }
    mask
}

#[tactic(auto, unfolding(crate::specs::Writers::complaint_refused, lists::specs::Tests::require))]
fn complaint_refused(run: Run, j: u8, room: usize) -> Result<(), Refusal>
    ensures { number_of result ≡ complaint_refused run j room }
{
    let other = run.stage_of() != 2;
    if other {
        return Err(Refusal::WrongStage);
    }
    if !parameters::is_party(run.setup.n, j) {
        return Err(Refusal::NoParty);
    }
    if room != records::complaint_length(run.setup.n) {
        return Err(Refusal::WrongRoom);
    }
    Ok(())
}

// VE, from a run and j: it blames exactly the accepted dealers whose share for j is not valid.
pub fn write_complaint(run: Run, j: u8, out: &mut [u8]) -> Result<(), Refusal>
    ensures number { number_of result ≡ complaint_refused run j (length out.old) }
    ensures bytes { out.new ≡ pick (eqb (number_of result) 0) (complaint_bytes run j) out.old }
{
    complaint_refused(run, j, out.len())?;
    let mask = wrong_dealers(run, j);
    let (head, blamed) = out.split_at_mut(4);
    head.copy_from_slice(&[b'V', b'E', j, 0]);
    encoding::put_bytes(blamed, mask);
    Ok(())
}

// Whether dealer i's share is a scalar, or is not read: i is not in QUAL.
fn share_in_range(qual: u64, i: u8, share: u32) -> bool
    ensures { result ≡ (not (has qual i) || is_scalar share) }
{
    !sets::has(qual, i) || Scalar::accepts(share)
}

// Whether the shares of QUAL are scalars.
fn shares_in_range(qual: u64, n: u8, shares: &[u32]) -> bool
    requires { length shares.now ≡ n }
    ensures { result ≡ all_to n (λ i. not (has qual (i + 1)) || is_scalar (get_or shares.now i 0)) }
{
    shares
        .iter()
        .enumerate()
        .all(|(i, &share)| share_in_range(qual, i as u8 + 1, share))
}

// The refusal of F(j) and the shares.
#[tactic(auto, unfolding(crate::specs::Writers::shares_refused, lists::specs::Tests::require))]
fn shares_refused(run: Run, key: u32, shares: &[u32], room: usize) -> Result<(), Refusal>
    ensures { number_of result ≡ shares_refused run key shares.now room }
{
    let n = run.setup.n;
    if shares.len() != n as usize {
        return Err(Refusal::WrongCount);
    }
    if !Scalar::accepts(key) {
        return Err(Refusal::NotScalar);
    }
    if !shares_in_range(answers::unblamed(run), n, shares) {
        return Err(Refusal::NotScalar);
    }
    if room != records::response_length(run.b) {
        return Err(Refusal::WrongRoom);
    }
    Ok(())
}

#[tactic(auto, unfolding(crate::specs::Writers::response_refused, lists::specs::Tests::require))]
fn response_refused(run: Run, j: u8, key: u32, shares: &[u32], room: usize) -> Result<(), Refusal>
    ensures { number_of result ≡ response_refused run j key shares.now room }
{
    let other = run.stage_of() != 4;
    if other {
        return Err(Refusal::WrongStage);
    }
    if !parameters::is_party(run.setup.n, j) {
        return Err(Refusal::NoParty);
    }
    if !sets::has(run.complaints.holders, j) {
        return Err(Refusal::NotInHold);
    }
    shares_refused(run, key, shares, room)
}

// H_u(j): the sum over QUAL of i^(u-1) × share.
fn combined_share(qual: u64, n: u8, shares: &[u32], u: u8) -> Scalar
    requires { length shares.now ≡ n }
    ensures { result ≡ combined_share n (has qual) shares.now u }
{
    let mut sum = Scalar::ZERO;
    for (i, &share) in shares.iter().enumerate() {
        let dealer = i as u8 + 1;
        if sets::has(qual, dealer) {
            sum = sum.add(combination::coefficient(dealer, u).mul(Scalar(share)));
        }
    }
    sum
}

// The response numbers of j for 1 to b.
fn put_responses(out: &mut [u8], run: Run, j: u8, key: u32, shares: &[u32])
    requires { (well_formed run ≡ true) × (length shares.now ≡ run.setup.n) × (length out.old ≡ 4 * run.b) }
    ensures { out.new ≡ fours run.b (λ u. (response_for run j key shares.now (u + 1)).0) }
{
    let n = run.setup.n;
    let a = run.setup.a;
    let qual = answers::unblamed(run);
    let challenges = run.challenges.numbers;
    let weights = points::slot_points(a).weights(points::point(j, 0));
    encoding::put_each(out, run.b, |u| {
        let share = combined_share(qual, n, shares, u);
        let challenge = weights.sum(arrays::challenge_values(challenges, a, u));
        share.add(challenge.mul(Scalar(key))).0
    });
}

// RE, from a run, j, F(j) and n shares by dealer number.
pub fn write_response(
    run: Run,
    j: u8,
    key: u32,
    shares: &[u32],
    out: &mut [u8],
) -> Result<(), Refusal>
    ensures number { number_of result ≡ response_refused run j key shares.now (length out.old) }
    ensures bytes { out.new ≡ pick (eqb (number_of result) 0) (response_bytes run j key shares.now) out.old }
{
    response_refused(run, j, key, shares, out.len())?;
    let (head, numbers) = out.split_at_mut(4);
    head.copy_from_slice(&[b'R', b'E', j, 0]);
    put_responses(numbers, run, j, key, shares);
    Ok(())
}
