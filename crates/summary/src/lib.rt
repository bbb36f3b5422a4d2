// The sets alone: a log read up to the record that fixes them, how many bytes that takes, and the short page.
#![tactic(auto)]

ghost use Rattle.std.specs.Prelude.{◌≡◌, ℕ, ◌≤◌, length};
ghost use Rattle.std.proofs.lemmas.List.Edits.{sets};
ghost use Rattle.text.specs.Texts.{Room, Added};
ghost use Rattle.run.specs.Steps.{step_of, after};
ghost use Rattle.answers.specs.Answers.{sets_of};
ghost use Rattle.reader.specs.Cutting.{some_length, run_of};
ghost use Rattle.reader.specs.Report.{longest};
ghost use Rattle.reader.specs.Turns.{next_length, next_record};
ghost use Rattle.summary.specs.Consumed.{settled, read_of, fixed_length, counted_by, counted_length, consumed};
ghost use Rattle.summary.specs.Short.{most_short, short_lines, short_printed};

use answers::Sets;
use run::Run;
use text::Page;

// Room for every short page.
pub const SHORT: usize = 2150;

// HOLD, QUAL and BAD of a log, once they are fixed, and the bytes that were read for them.
#[derive(Clone, Copy)]
pub struct Summary {
    pub sets: Option<Sets>,
    pub bytes: usize,
}

// The run after the records that were read, and the bytes that they count.
#[derive(Clone, Copy)]
struct Passage {
    run: Run,
    bytes: usize,
}

// The length that a record's tag fixes, from the one by which it is passed over.
fn fixed_length(passed: Option<usize>, bytes: &[u8]) -> Option<usize>
    ensures { (k : ℕ) → passed ≡ some_length k → result ≡ some_length (fixed_length k bytes.now) }
{
    let go = records::tag(bytes) == 8;
    if go { Some(records::GO_LENGTH) } else { passed }
}

// The bytes that a record counts: its fixed length where it is complete, else 0, which is a count as well.
fn counted_length(passed: Option<usize>, bytes: &[u8]) -> usize
    ensures { (k : ℕ) → passed ≡ some_length k → result ≡ counted_by k bytes.now }
{
    fixed_length(passed, bytes)
        .filter(|length| *length <= bytes.len())
        .unwrap_or(0)
}

// Whether the sets are fixed.
fn settled(run: &Run) -> bool
    ensures { result ≡ settled run.now }
{
    3 <= run.stage_of()
}

// What the next record takes of a log, and the bytes that it counts.
#[derive(Clone, Copy)]
struct Turn {
    length: usize,
    counted: usize,
}

// Gives the next record to the run.
fn take_record(run: &mut Run, rest: &[u8]) -> Turn
    ensures run { run.new ≡ (step_of run.old (next_record run.old rest.now)).run }
    ensures length { result.length ≡ next_length run.old rest.now }
    ensures counted { result.counted ≡ counted_length run.old (next_record run.old rest.now) }
{
    let length = reader::next_length(run, rest);
    let record = &rest[..length];
    let passed = reader::record_length(run, record);
    let counted = counted_length(passed, record);
    // a refused record does not copy the run
    let taken = run.untaken(record).is_ok();
    if taken {
        reader::give_record(run, record);
    }
    Turn {
        length: length,
        counted: counted,
    }
}

// Reads a log up to the record that fixes the sets, or to its end.
fn read_on(log: &[u8]) -> Passage
    ensures run { result.run ≡ after (read_of log.now) }
    ensures bytes { result.bytes ≡ consumed log.now }
{
    let mut run = Run::fresh();
    let mut from: usize = 0;
    let mut bytes: usize = 0;
    // how long a record is, is known only from what is left
    while from < log.len() && !settled(&run) {
        let turn = take_record(&mut run, &log[from..]);
        bytes += turn.counted;
        from += turn.length;
    }
    Passage {
        run: run,
        bytes: bytes,
    }
}

// The sets of a log of any length, as after all its records, and the bytes that were read for them.
pub fn summary_of(log: &[u8]) -> Summary
    ensures sets { result.sets ≡ sets_of (run_of log.now) }
    ensures bytes { result.bytes ≡ consumed log.now }
{
    let read = read_on(log);
    Summary {
        sets: answers::sets_of(read.run),
        bytes: read.bytes,
    }
}

// The short page of a log that is not too long, onto one with room for it.
fn put_short(log: &[u8], page: &mut Page)
    requires { (length log.now ≤ longest) × Room page.old most_short }
    ensures { Added page.old page.new (short_lines log.now) }
{
    let read = read_on(log);
    closing::put_sets(page, read.run);
    page.put_line(b"bytes", &[read.bytes as u32]);
}

// The short page of a log into a buffer that has room for every one, and how many bytes it has; into any other none.
pub fn report(log: &[u8], out: &mut [u8]) -> Option<usize>
    ensures size { result ≡ some_length (length (short_printed (length out.old) log.now)) }
    ensures bytes { out.new ≡ sets out.old 0 (short_printed (length out.old) log.now) }
{
    reader::page_of(log, out, SHORT, put_short)
}
