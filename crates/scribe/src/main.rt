// Reads a stream of requests to the writers on standard input and prints for each the number that the writer answers and the buffer in hex, or that
// the request is broken. docs/FORMATS.md says what a request is.
#![tactic(auto)]

ghost use Rattle.std.specs.Prelude.{◌≤◌};

use refusals::Refusal;
use run::Run;
use std::io::Print;
use streams::{COUNT, NUMBER};

// The kinds of request.
#[derive(Clone, Copy, Debug, PartialEq, Eq)]
enum Kind {
    Setup,
    Dealing,
    Complaint,
    Response,
}

// A byte that names no kind.
#[derive(Clone, Copy, Debug, PartialEq, Eq)]
struct UnknownKind(u8);

impl TryFrom<u8> for Kind {
    type Error = UnknownKind;

    fn try_from(code: u8) -> Result<Self, UnknownKind> {
        match code {
            1 => Ok(Kind::Setup),
            2 => Ok(Kind::Dealing),
            3 => Ok(Kind::Complaint),
            4 => Ok(Kind::Response),
            _ => Err(UnknownKind(code)),
        }
    }
}

impl Kind {
    // Whether a request begins with a log, whose run its writer is given.
    fn has_log(self) -> bool {
        match self {
            Kind::Setup | Kind::Dealing => false,
            Kind::Complaint | Kind::Response => true,
        }
    }

    // The bytes of the fields before the values: n, t, a, s; n, t, a, i; j; j, F(j).
    fn fields(self) -> usize
        ensures { result ≤ 7 }
    {
        match self {
            Kind::Setup => 7,
            Kind::Dealing => 4,
            Kind::Complaint => 1,
            Kind::Response => 5,
        }
    }

    // Where the values stand: after the fields, and but for a complaint after their count.
    fn values_from(self) -> usize
        ensures { result ≤ 9 }
    {
        match self {
            Kind::Complaint => self.fields(),
            _ => self.fields() + COUNT,
        }
    }

    // How many values a request says that it has; a complaint has none.
    fn values_count(self, s: &[u8]) -> usize
        ensures { result ≤ 65535 }
    {
        match self {
            Kind::Complaint => 0,
            _ => streams::two(s, self.fields()),
        }
    }
}

// The writer's answer to a request of this kind, from its fields and its values. The four writers take other arguments.
fn write(kind: Kind, run: Run, s: &[u8], values: &[u32], out: &mut [u8]) -> Result<(), Refusal> {
    let first = records::byte(s, 0);
    let second = records::byte(s, 1);
    let third = records::byte(s, 2);
    match kind {
        Kind::Setup => dealer::write_setup(first, second, third, streams::four(s, 3), values, out),
        Kind::Dealing => {
            let i = records::byte(s, 3);
            dealer::write_dealing(first, second, third, i, values, out)
        }
        Kind::Complaint => writers::write_complaint(run, first, out),
        Kind::Response => writers::write_response(run, first, streams::four(s, 1), values, out),
    }
}

// As many values, and as long a buffer, as two bytes can say.
const MOST: usize = 65535;

// The numbers that stand end to end.
fn load(s: &[u8], values: &mut [u32]) {
    for (value, bytes) in values.iter_mut().zip(s.chunks_exact(NUMBER)) {
        *value = records::number(bytes, 0);
    }
}

// Answers a request of a known kind from what follows the kind, or the log: fields, values, the buffer's length. None where it has not just as many bytes as it says.
fn answer_fields(
    rt: &impl Print,
    kind: Kind,
    run: Run,
    s: &[u8],
    list: &mut [u32; MOST],
    buffer: &mut [u8; MOST],
) -> Option<()> {
    let count = kind.values_count(s);
    let from = kind.values_from();
    let end = from + NUMBER * count;
    if s.len() != end + COUNT {
        return None;
    }
    let room = streams::two(s, end);
    let values = &mut list[..count];
    let out = &mut buffer[..room];
    load(&s[from..end], values);
    streams::fill(out);
    let written = write(kind, run, s, values, out);
    streams::answer(rt, refusals::number_of(&written), out);
    Some(())
}

// Answers a request of a kind without a log. The run is a variable of this function alone, which sets it to 0 where it begins: a request of no kind does not
// pay for it.
#[inline(never)]
fn answer_fresh(
    rt: &impl Print,
    kind: Kind,
    fields: &[u8],
    list: &mut [u32; MOST],
    buffer: &mut [u8; MOST],
) -> Option<()> {
    answer_fields(rt, kind, Run::fresh(), fields, list, buffer)
}

// Answers a request of a kind with a log, likewise.
#[inline(never)]
fn answer_logged(
    rt: &impl Print,
    kind: Kind,
    rest: &[u8],
    list: &mut [u32; MOST],
    buffer: &mut [u8; MOST],
) -> Option<()> {
    let (log, fields) = streams::split_log(rest)?;
    answer_fields(rt, kind, streams::run_of(log), fields, list, buffer)
}

// Answers a request, or none that is broken.
fn answer(
    rt: &impl Print,
    request: &[u8],
    list: &mut [u32; MOST],
    buffer: &mut [u8; MOST],
) -> Option<()> {
    let (code, rest) = request.split_first()?;
    let kind = Kind::try_from(*code).ok()?;
    if kind.has_log() {
        answer_logged(rt, kind, rest, list, buffer)
    } else {
        answer_fresh(rt, kind, rest, list, buffer)
    }
}

// Answers every request of a stream, up to one that is cut.
fn answer_all(rt: &impl Print, s: &[u8], list: &mut [u32; MOST], buffer: &mut [u8; MOST]) {
    let mut rest = s;
    // a request says itself how long it is
    while !rest.is_empty() {
        let Some((request, next)) = streams::split_part(rest) else {
            streams::answer_broken(rt);
            return;
        };
        if answer(rt, request, list, buffer).is_none() {
            streams::answer_broken(rt);
        }
        rest = next;
    }
}

// The most bytes of a stream.
const STREAM: usize = 262144;

fn main(rt: HostRuntime) {
    // One byte more than a stream may have, so that one which is too long is seen.
    let mut stream = [0u8; STREAM + 1];
    let mut list = [0u32; MOST];
    let mut buffer = [0u8; MOST];
    console::serve_input(
        &rt,
        &mut rt.stdin(),
        "scribe",
        "requests",
        &mut stream,
        |s| answer_all(&rt, s, &mut list, &mut buffer),
    );
}
