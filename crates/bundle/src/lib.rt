// A bundle of response rows (a sheaf, in document 02), given to a run in one call.
#![tactic(auto)]

ghost use Rattle.std.specs.Prelude.{◌≡◌, ◌≤◌, length};
ghost use Rattle.verification.specs.Definitions.{row_passes};
ghost use Rattle.verification.specs.Tests.{qual_values};
ghost use Rattle.run.specs.Runs.{stage_of};
ghost use Rattle.run.specs.Steps.{reply_of};
ghost use Rattle.bundle.specs.Bundles.{outcome, rows_of, given, bundled};

use field::Element;
use parameters::PLACES;
use refusals::Refusal;
use run::Run;
use verification::Kept;

// Whether each of the b numbers of a row passes. QUAL's committed values are combined for u from 1 to `ready`: for every u, once a row passes for those.
fn passes(
    kept: &Kept<'_>,
    b: u8,
    ready: &mut u8,
    values: &mut [Element; PLACES],
    row: &[u8],
) -> bool
    requires within { (ready.old ≤ b) × (b ≤ kept.now.setup.now.n) }
    requires combined { values.old ≡ qual_values kept.now.setup.now kept.now.dealings.now kept.now.complaints.now ready.old }
    ensures passed { result ≡ row_passes b kept.now.setup.now kept.now.dealings.now kept.now.complaints.now kept.now.challenges.now row.now }
    ensures within { ready.new ≤ b }
    ensures combined { values.new ≡ qual_values kept.now.setup.now kept.now.dealings.now kept.now.complaints.now ready.new }
{
    let holder = kept.holder_of(row);
    if *ready < b {
        if !kept.test_row(0, *ready, &holder, values, row) {
            return false;
        }
        *values = kept.qual_values(b);
        *ready = b;
    }
    kept.test_row(0, *ready, &holder, values, row)
}

// The run after the rows of a bundle, given one by one, and their numbers in a list that has a place for each.
fn give_rows(run: Run, bytes: &[u8], numbers: &mut [u8]) -> Run
    requires { (stage_of run ≡ 4) × (length numbers.old ≡ length (rows_of run.b bytes.now)) }
    ensures { outcome result 0 numbers.new ≡ given run bytes.now }
{
    let b = run.b;
    let length = records::response_length(b);
    let count = numbers.len();
    let kept = run.kept();
    let mut ready: u8 = 1;
    let mut values = kept.qual_values(1);
    let mut next = run;
    let mut from: usize = 0;
    // by number: a row is cut from the rest by its length, the last perhaps short, and its number has a place in the list beside
    for x in 0..count {
        let rest = &bytes[from..];
        let size = if rest.len() < length {
            rest.len()
        } else {
            length
        };
        let row = &rest[..size];
        let mut number = refusals::number_of(&next.untaken(row));
        let open = number == 0;
        if open {
            if passes(&kept, b, &mut ready, &mut values, row) {
                let taken = next.with_response(row);
                next = taken;
            } else {
                number = Refusal::FailedResponse.number();
            }
        }
        numbers[x] = number;
        from += size;
    }
    next
}

// Response rows end to end, cut every 4+4b bytes whatever tags they bear, the last perhaps short. The list has a place a row and receives the number
// that each is answered with. Refused at another stage than 4 with 11, then with a list of another length with 10.
pub fn take_rows(run: Run, bytes: &[u8], numbers: &mut [u8]) -> Result<Run, Refusal>
    ensures { outcome (reply_of run result).run (reply_of run result).number numbers.new ≡ bundled run bytes.now numbers.old }
{
    let other = run.stage_of() != 4;
    if other {
        return Err(Refusal::WrongStage);
    }
    let length = records::response_length(run.b);
    let count = numbers.len();
    let rows = (bytes.len() + (length - 1)) / length;
    if count != rows {
        return Err(Refusal::WrongCount);
    }
    Ok(give_rows(run, bytes, numbers))
}
