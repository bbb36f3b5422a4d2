// Logs: cut into records and given to a run, and the printed page.
#![tactic(auto)]

ghost use Rattle.std.specs.Prelude.{◌≡◌, ℕ, List, [], ◌∷◌, ◌++◌, ◌+◌, ◌*◌, ◌≤◌, ◌<◌, min, length};
ghost use Rattle.std.proofs.lemmas.List.Edits.{sets};
ghost use Rattle.records.specs.Tags.{response_length};
ghost use Rattle.text.specs.Lines.{line};
ghost use Rattle.text.specs.Texts.{Room, Added};
ghost use Rattle.run.specs.Runs.{fresh};
ghost use Rattle.run.specs.Steps.{step_of};
ghost use Rattle.bundle.specs.Bundles.{bundled};
ghost use Rattle.closing.specs.Closing.{closing};
ghost use Rattle.reader.specs.Cutting.{some_length, own_length, by_batch, length_of, records_of, run_of};
ghost use Rattle.reader.specs.Report.{refuse_word, long_word, longest, most_refusal, refusal_lines};
ghost use Rattle.reader.specs.Turns.{next_length};
ghost use Rattle.reader.specs.Stretches.{most_rows, most_position, stretch_of, rows_ahead, number_lines, Given};
ghost use Rattle.reader.specs.Printed.{most_report, printed, long_size, Handed};

use run::Run;
use text::Page;

// Room for every page.
pub const REPORT: usize = 625000;

// The bytes of the longest log that is read.
pub const LONGEST: usize = 65536;

// The length of an SU or SX by its own t; none where it is cut before that.
fn own_length(rest: &[u8]) -> Option<usize>
    ensures { result ≡ some_length (own_length rest.now) }
{
    let long = 6 <= rest.len();
    long.then_some(records::setup_length(records::byte(rest, 3)))
}

// A length that takes b; none until b is fixed.
fn by_batch(b: u8, length: usize) -> Option<usize>
    requires { 0 < length }
    ensures { result ≡ some_length (by_batch b length) }
{
    let fixed = b != 0;
    fixed.then_some(length)
}

// The length that a log's next record has by its tag, where it has one: a match, as each length rests on other numbers.
#[tactic(auto, unfolding(records::specs::Tags::challenges_length, records::specs::Tags::shifted_length, records::specs::Tags::response_length))]
pub fn record_length(run: &Run, rest: &[u8]) -> Option<usize>
    ensures { result ≡ some_length (length_of run.now rest.now) }
{
    let a = run.setup.a;
    let b = run.b;
    let fresh = run.stage == 0;
    match records::tag(rest) {
        1 | 7 => own_length(rest),
        _ if fresh => None,
        2 => Some(records::dealing_length(run.setup.n, run.setup.t, a)),
        3 => Some(records::complaint_length(run.setup.n)),
        4 => by_batch(b, records::challenges_length(a, b)),
        5 => by_batch(b, records::response_length(b)),
        6 => by_batch(b, records::shifted_length(a, b)),
        8 => Some(records::GO_LENGTH),
        _ => None,
    }
}

// The length of the next record: by its tag where it is whole, else all that is left.
pub fn next_length(run: &Run, rest: &[u8]) -> usize
    ensures { result ≡ next_length run.now rest.now }
{
    let left = rest.len();
    record_length(run, rest).unwrap_or(left).min(left)
}

// The line of a refused record: its position (place, in document 01) and its number.
fn put_refusal(page: &mut Page, position: u32, number: u8)
    requires { Room page.old most_refusal }
    ensures { Added page.old page.new (line refuse_word (position ∷ number ∷ [])) }
{
    page.put_line(b"refuse", &[position, number as u32]);
}

// The lines of records with these numbers, those that are refused, from a position on.
fn put_refusals(page: &mut Page, position: u32, numbers: &[u8])
    requires { (position + length numbers.now ≤ most_position) × Room page.old (most_refusal * length numbers.now) }
    ensures { Added page.old page.new (number_lines position numbers.now) }
{
    for (x, &number) in numbers.iter().enumerate() {
        if number != 0 {
            put_refusal(page, position + x as u32, number);
        }
    }
}

// The most rows that are given to a run in one call.
const ROWS: usize = 256;

// How many rows of a length, each an RE, what is left begins with, at most ROWS. The last may be cut.
fn stretch(rest: &[u8], length: usize) -> usize
    requires { length ≤ longest }
    ensures { result ≡ stretch_of most_rows length rest.now }
{
    let mut from: usize = 0;
    for count in 0..ROWS {
        if rest.len() <= from {
            return count;
        }
        let row = &rest[from..];
        let other = records::tag(row) != 5;
        if other {
            return count;
        }
        from += length;
    }
    ROWS
}

// How many rows what is left begins with that a run at stage 4 is given in one call; none at another stage, and none where they are no more than half of
// b: a call combines QUAL's values for every u, which costs no more than for two u a row from there on.
fn rows_ahead(run: &Run, rest: &[u8]) -> usize
    ensures { result ≡ rows_ahead run.now rest.now }
{
    if run.stage != 4 {
        return 0;
    }
    let other = run.stage_of() != 4;
    if other {
        return 0;
    }
    let length = records::response_length(run.b);
    let rows = stretch(rest, length);
    let few = (run.b / 2) as usize;
    let single = rows <= few;
    if single {
        return 0;
    }
    rows
}

// The bytes of so many rows, or all that are left.
fn rows_length(b: u8, rows: usize, left: usize) -> usize
    requires { rows ≤ most_rows }
    ensures { result ≡ min (rows * response_length b) left }
{
    let whole = rows * records::response_length(b);
    whole.min(left)
}

// Gives a record to the run. The number is the one that it is answered with.
pub fn give_record(run: &mut Run, bytes: &[u8]) -> u8
    ensures run { run.new ≡ (step_of run.old bytes.now).run }
    ensures number { result ≡ (step_of run.old bytes.now).number }
{
    let reply = run.step(bytes);
    if let Ok(next) = &reply {
        *run = *next;
    }
    refusals::number_of(&reply)
}

// Gives rows to the run in one call. The list receives the numbers that they are answered with.
fn give_rows(run: &mut Run, bytes: &[u8], numbers: &mut [u8])
    ensures run { run.new ≡ (bundled run.old bytes.now numbers.old).run }
    ensures numbers { numbers.new ≡ (bundled run.old bytes.now numbers.old).list }
{
    let taken = bundle::take_rows(*run, bytes, numbers);
    *run = taken.unwrap_or(*run);
}

// What a turn takes of a log.
#[derive(Clone, Copy)]
struct Turn {
    records: usize,
    bytes: usize,
}

// A turn: the next record is given to the run or, from one on that is to be tested, many rows in one call. The first places of the list receive the numbers
// that they are answered with.
fn take_turn(run: &mut Run, rest: &[u8], numbers: &mut [u8]) -> Turn
    requires { (0 < length rest.now) × (length numbers.old ≡ most_rows) }
    ensures { Given run.old rest.now run.new numbers.new result.records result.bytes }
{
    let size = next_length(run, rest);
    let record = &rest[..size];
    // by tag and stage first, which does not copy the run
    let mut number = refusals::number_of(&run.untaken(record));
    let open = number == 0;
    if open {
        let rows = rows_ahead(run, rest);
        if 1 < rows {
            let bytes = rows_length(run.b, rows, rest.len());
            give_rows(run, &rest[..bytes], &mut numbers[..rows]);
            return Turn {
                records: rows,
                bytes: bytes,
            };
        }
        number = give_record(run, record);
    }
    numbers[0] = number;
    Turn {
        records: 1,
        bytes: size,
    }
}

// The page of a log that is not too long, onto one with room for every page.
fn put_page(log: &[u8], page: &mut Page)
    requires { (length log.now ≤ longest) × Room page.old most_report }
    ensures { Added page.old page.new (refusal_lines 1 fresh (records_of log.now) ++ closing (run_of log.now)) }
{
    let mut run = Run::fresh();
    let mut numbers = [0u8; ROWS];
    let mut from: usize = 0;
    let mut position: u32 = 1;
    // how much a turn takes is known only from what is left
    while from < log.len() {
        let turn = take_turn(&mut run, &log[from..], &mut numbers);
        put_refusals(page, position, &numbers[..turn.records]);
        from += turn.bytes;
        position += turn.records as u32;
    }
    closing::put_closing(page, run);
}

// The page that a rule makes of a log, into a buffer with so much room, and how many bytes it has; `long` alone for a log that is too long. Into a smaller
// buffer none.
pub fn page_of<F: FnOnce(&[u8], &mut Page)>(
    log: &[u8],
    out: &mut [u8],
    room: usize,
    put: F,
) -> Option<usize>
    requires long { long_size ≤ room }
    requires each { (l : _) → (p : _) → length l.now ≤ longest → Room p.now room → F.pre put l p }
    ensures { (f : List ℕ → List ℕ) → ((l : _) → (p : _) → (q : _) → F.post put l p tt q → Added p.now q.now (f l.now)) → Handed f room log.now out.old result out.new }
{
    let small = out.len() < room;
    if small {
        return None;
    }
    let mut page = Page::of(out);
    let long = LONGEST < log.len();
    if long {
        page.put_text(b"long\n");
        return Some(page.len);
    }
    put(log, &mut page);
    Some(page.len)
}

// The report (page, in document 01) of a log into a buffer that has room for every page, and how many bytes it has; into any other none.
pub fn report(log: &[u8], out: &mut [u8]) -> Option<usize>
    ensures size { result ≡ some_length (length (printed (length out.old) log.now)) }
    ensures bytes { out.new ≡ sets out.old 0 (printed (length out.old) log.now) }
{
    page_of(log, out, REPORT, put_page)
}
