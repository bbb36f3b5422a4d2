// Streams that programs read on standard input, the run of a log in one, and answers with a buffer in hex.
#![tactic(auto)]

ghost use Rattle.std.specs.Prelude.{◌≡◌, ◌↔◌, ◌+◌, ◌<◌, ◌≤◌, ◌++◌, length, take, replicate, IfSome, IsSome};
ghost use Rattle.records.specs.Bytes.{number_at};
ghost use Rattle.reader.specs.Cutting.{run_of};

use reader::LONGEST;
use run::Run;
use std::io::Print;

// The bytes of a number, and of a count or a buffer's length.
pub const NUMBER: usize = 4;

pub const COUNT: usize = 2;

// A number of two bytes.
pub fn two(s: &[u8], at: usize) -> usize
    requires { at ≤ 16777216 }
    ensures { result ≤ 65535 }
{
    (records::byte(s, at) as u16 * 256 + records::byte(s, at + 1) as u16) as usize
}

// A number of four bytes.
pub fn four(s: &[u8], at: usize) -> u32
    requires { at ≤ 16777216 }
    ensures { result ≡ number_at s.now at }
{
    records::number(s, at as u32)
}

// What a buffer is filled with before it is lent.
const FILLER: u8 = 165;

pub fn fill(out: &mut [u8])
    ensures { out.new ≡ replicate (length out.old) 165 }
{
    out.fill(FILLER);
}

// The line of an answer: its number, and the buffer.
pub fn answer(rt: &impl Print, number: u8, out: &[u8]) {
    console::print_number(rt, number as u64);
    for &byte in out {
        console::print_hex(rt, byte);
    }
    console::end_line(rt);
}

// The line of a broken request.
pub fn answer_broken(rt: &impl Print) {
    console::print_bytes(rt, b"broken\n");
}

// The run after a log. Not compiled into its callers, whose other inputs need none of its variables.
#[inline(never)]
pub fn run_of(log: &[u8]) -> Run
    ensures { result ≡ run_of log.now }
{
    let mut run = Run::fresh();
    let mut rest = log;
    // how long a record is, is known only from what is left
    while 0 < rest.len() {
        let (record, next) = rest.split_at(reader::next_length(&run, rest));
        reader::give_record(&mut run, record);
        rest = next;
    }
    run
}

// What stands behind its length in four bytes, and what follows it; none where it is cut.
pub fn split_part(s: &[u8]) -> Option<(&[u8], &[u8])>
    ensures whole { IsSome result ↔ (4 + number_at s.now 0 ≤ length s.now) }
    ensures size { IfSome result (λ p. length p.0.now ≡ number_at s.now 0) }
    ensures parts { IfSome result (λ p. s.now ≡ take 4 s.now ++ (p.0.now ++ p.1.now)) }
    ensures shorter { IfSome result (λ p. length p.1.now < length s.now) }
{
    let (_, behind) = s.split_at_checked(NUMBER)?;
    behind.split_at_checked(four(s, 0) as usize)
}

// A log that stands behind its length, and what follows it; none where it is cut or too long.
pub fn split_log(s: &[u8]) -> Option<(&[u8], &[u8])>
    ensures whole { IsSome result ↔ (4 + number_at s.now 0 ≤ length s.now) × (number_at s.now 0 ≤ 65536) }
    ensures size { IfSome result (λ p. length p.0.now ≡ number_at s.now 0) }
    ensures parts { IfSome result (λ p. s.now ≡ take 4 s.now ++ (p.0.now ++ p.1.now)) }
    ensures log { IfSome result (λ p. length p.0.now ≤ 65536) }
{
    let (log, rest) = split_part(s)?;
    if LONGEST < log.len() {
        return None;
    }
    Some((log, rest))
}
