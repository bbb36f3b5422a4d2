// Standard input, output and error, as the programs use them. What a write could not write is let go, but where a function says otherwise. Pieces of a line are
// printed by functions with the runtime, and a line by one format where it is one.
#![tactic(auto)]

ghost use Rattle.std.specs.Prelude.{◌≡◌, Some, ◌<◌, ◌≤◌, length, take, codes, if◌then◌else◌, IfOk, IfSome};
ghost use Rattle.std.specs.Bool.{OnTrue};
ghost use Rattle.std.specs.Io.KnownBytes.{Consumes, IsAtEnd, Keeps};

use std::fmt;
use std::io::{Eprint, Print, Read};

// Reads until the buffer is full, the input ends or a read fails, and returns how many bytes it put at the start of the buffer.
pub fn read_full<R: Read>(input: &mut R, buf: &mut [u8]) -> usize
    ensures in_bounds { result ≤ length buf.new }
    ensures bytes { Consumes (R.remaining input.old) (R.remaining input.new) (take result buf.new) }
{
    let mut done: usize = 0;
    // a read gives as much as it likes
    while done < buf.len() {
        match input.read(&mut buf[done..]) {
            Ok(n) if 0 < n => done += n,
            _ => return done,
        }
    }
    done
}

// Whether the input has ended: one more read gives nothing, and does not fail.
pub fn input_ended<R: Read>(input: &mut R) -> bool
    ensures kept { OnTrue result (Keeps (R.remaining input.old) (R.remaining input.new)) }
    ensures end { OnTrue result (IsAtEnd (R.remaining input.new)) }
{
    let mut more = [0u8; 1];
    matches!(input.read(&mut more), Ok(0))
}

// Reads the whole input, or as much of it as fills the buffer, and returns how many bytes that is; none where a read failed.
pub fn read_input<R: Read>(input: &mut R, buf: &mut [u8]) -> Option<usize>
    ensures in_bounds { IfSome result (λ n. n ≤ length buf.new) }
    ensures bytes { IfSome result (λ n. Consumes (R.remaining input.old) (R.remaining input.new) (take n buf.new)) }
    ensures whole { IfSome result (λ n. n < length buf.new → IsAtEnd (R.remaining input.new)) }
{
    let got = read_full(input, buf);
    if got < buf.len() && !input_ended(input) {
        return None;
    }
    Some(got)
}

// The same, with the bytes that were read in the place of their number. Whoever asks for the buffer itself afterwards takes `read_input`.
pub fn read_slice<'a, R: Read>(input: &mut R, buf: &'a mut [u8]) -> Option<&'a [u8]>
    ensures in_bounds { IfSome result (λ s. length s.now ≤ length buf.old) }
    ensures bytes { IfSome result (λ s. Consumes (R.remaining input.old) (R.remaining input.new) s.now) }
    ensures whole { IfSome result (λ s. length s.now < length buf.old → IsAtEnd (R.remaining input.new)) }
{
    let got = read_input(input, buf)?;
    Some(&buf[..got])
}

// Why a program has no input to take.
#[derive(Clone, Copy, Debug, PartialEq, Eq)]
enum Untaken {
    Unread,
    Long,
}

// Reads an input that leaves at least a byte of the buffer free.
fn read_shorter<'a, R: Read>(input: &mut R, buf: &'a mut [u8]) -> Result<&'a [u8], Untaken>
    ensures in_bounds { IfOk result (λ s. length s.now < length buf.old) }
    ensures bytes { IfOk result (λ s. Consumes (R.remaining input.old) (R.remaining input.new) s.now) }
    ensures whole { IfOk result (λ s. IsAtEnd (R.remaining input.new)) }
{
    let room = buf.len();
    let read = read_slice(input, buf).ok_or(Untaken::Unread)?;
    let long = read.len() == room;
    if long {
        return Err(Untaken::Long);
    }
    Ok(read)
}

// Gives a program its whole input to serve, where that is shorter than the buffer; where it is not, prints `long`. Where it could not be read, standard error
// says so.
pub fn serve_input<R: Read, F: FnOnce(&[u8])>(
    rt: &(impl Print + Eprint),
    input: &mut R,
    program: &str,
    what: &str,
    buf: &mut [u8],
    serve: F,
)
    requires { (s : _) → length s.now < length buf.old → F.pre serve s }
{
    match read_shorter(input, buf) {
        Ok(read) => serve(read),
        Err(Untaken::Long) => print_bytes(rt, b"long\n"),
        Err(Untaken::Unread) => {
            print_error(rt, program, format_args!("the {what} could not be read"))
        }
    }
}

// Why a log has no page, or none that is printed whole.
#[derive(Clone, Copy, Debug, PartialEq, Eq)]
enum Unmade {
    Unread,
    Empty,
    Cut,
}

impl fmt::Display for Unmade {
    fn fmt<W: fmt::Write>(&self, f: &mut fmt::Formatter<W>) -> fmt::Result {
        f.write_str(match self {
            Unmade::Unread => "the log could not be read",
            Unmade::Empty => "the page could not be made",
            Unmade::Cut => "the page could not be written whole",
        })
    }
}

// Reads a log and makes its page in a buffer. The report answers how many bytes the page has, where it has made one; there is no page of 0 bytes.
fn make_page<'a, R: Read, F: FnOnce(&[u8], &mut [u8]) -> Option<usize>>(
    input: &mut R,
    log: &mut [u8],
    page: &'a mut [u8],
    report: F,
) -> Result<&'a [u8], Unmade>
    requires { F.IsAlwaysCallable report }
    ensures some { IfOk result (λ s. 0 < length s.now) }
    ensures made { IfOk result (λ s. (l : _) × (p : _) × (n : _) × (q : _) × F.post report l p (Some n) q × Consumes (R.remaining input.old) (R.remaining input.new) l.now × (p.now ≡ page.old) × (s.now ≡ take n q.now)) }
{
    let log = read_slice(input, log).ok_or(Unmade::Unread)?;
    let size = report(log, page).ok_or(Unmade::Empty)?;
    page.get(..size)
        .filter(|made| !made.is_empty())
        .ok_or(Unmade::Empty)
}

// Prints the page that a report makes of the log on the input. On standard error it says where that could not be done.
pub fn print_page<R: Read, F: FnOnce(&[u8], &mut [u8]) -> Option<usize>>(
    rt: &(impl Print + Eprint),
    input: &mut R,
    program: &str,
    log: &mut [u8],
    page: &mut [u8],
    report: F,
)
    requires { F.IsAlwaysCallable report }
{
    let printed = make_page(input, log, page, report).and_then(|made| rt
        .write_all(made)
        .or(Err(Unmade::Cut)));
    if let Err(unmade) = printed {
        print_error(rt, program, unmade);
    }
}

// Bytes as they are.
pub fn print_bytes(rt: &impl Print, bytes: &[u8]) {
    let _ = rt.write_all(bytes);
}

// A number and a space.
pub fn print_number(rt: &impl Print, x: u64) {
    let _ = print!(rt; "{x} ");
}

// A byte as two digits of base sixteen.
pub fn print_hex(rt: &impl Print, byte: u8) {
    let _ = print!(rt; "{byte:02x}");
}

// A word for whether a test is passed, and a space.
pub fn print_test(rt: &impl Print, passed: bool) {
    let _ = print!(rt; "{} ", word(passed));
}

// The word for it: yes or no.
pub fn word(passed: bool) -> &'static str
    ensures { result.now ≡ (if passed then codes "yes" else codes "no") }
{
    if passed { "yes" } else { "no" }
}

pub fn end_line(rt: &impl Print) {
    print_bytes(rt, b"\n");
}

// What a program could not do, after its name, onto any output.
pub fn say(error: &impl Print, program: &[u8], what: &[u8]) {
    print_bytes(error, program);
    print_bytes(error, b": ");
    print_bytes(error, what);
    print_bytes(error, b"\n");
}

// The same in one format, on standard error.
pub fn print_error<D: fmt::Display + Drop>(rt: &impl Eprint, program: &str, what: D) {
    let _ = eprintln!(rt; "{program}: {what}");
}
