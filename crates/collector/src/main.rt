// Reads a log and bundles of response rows on standard input. Gives each bundle to the run that the log leaves, in one call, and prints the call's number
// and the lent list in hex; last what the run has come to. docs/FORMATS.md says what the input is.
#![tactic(auto)]

ghost use Rattle.std.specs.Prelude.{◌≡◌, ◌<◌, ◌≤◌, length, replicate, IfSome};
ghost use Rattle.bundle.specs.Bundles.{bundled};

use run::Run;
use std::io::Print;
use streams::COUNT;

// Gives a bundle to the run and prints the answer: a list filled with the byte a5 is lent. A refusal leaves the run as it was.
fn serve(rt: &impl Print, run: &mut Run, rows: &[u8], list: &mut [u8])
    ensures run { run.new ≡ (bundled run.old rows.now (replicate (length list.old) 165)).run }
    ensures list { list.new ≡ (bundled run.old rows.now (replicate (length list.old) 165)).list }
{
    streams::fill(list);
    let number = match bundle::take_rows(*run, rows, list) {
        Ok(next) => {
            *run = next;
            0
        }
        Err(refusal) => refusal.number(),
    };
    streams::answer(rt, number, list);
}

// Every φ(u,k) for a u, where the run has it.
fn print_signatures(rt: &impl Print, run: Run, u: u8) {
    for k in 1..=run.setup.a {
        if let Some(phi) = answers::signature_at(run, u, k) {
            console::print_number(rt, phi.0 as u64);
        }
    }
}

// The stage, and every φ(u,k), u outer.
fn print_run(rt: &impl Print, run: Run) {
    replies::print_stage(rt, run);
    for u in 1..=run.b {
        print_signatures(rt, run, u);
    }
    console::end_line(rt);
}

// As many places as two bytes can say.
const LIST: usize = 65535;

// The places of a bundle's list, the bundle's rows, and what follows it; none where it is cut.
fn split_bundle(s: &[u8]) -> Option<(usize, &[u8], &[u8])>
    ensures places { IfSome result (λ p. p.0 ≤ 65535) }
    ensures shorter { IfSome result (λ p. length p.2.now < length s.now) }
{
    let (places, behind) = s.split_at_checked(COUNT)?;
    let (rows, rest) = streams::split_part(behind)?;
    Some((streams::two(places, 0), rows, rest))
}

// Gives the bundles of an input to a run, one after the other.
fn serve_all(rt: &impl Print, start: Run, s: &[u8], list: &mut [u8; LIST]) {
    let mut run = start;
    let mut rest = s;
    // a bundle says itself how long it is
    while !rest.is_empty() {
        let Some((places, rows, next)) = split_bundle(rest) else {
            streams::answer_broken(rt);
            return;
        };
        serve(rt, &mut run, rows, &mut list[..places]);
        rest = next;
    }
    print_run(rt, run);
}

// Answers an input: the length of the log, the log, and the bundles.
fn serve_input(rt: &impl Print, s: &[u8]) {
    let Some((log, bundles)) = streams::split_log(s) else {
        streams::answer_broken(rt);
        return;
    };
    let mut list = [0u8; LIST];
    serve_all(rt, streams::run_of(log), bundles, &mut list);
}

// The most bytes of an input.
const INPUT: usize = 262144;

fn main(rt: HostRuntime) {
    // One byte more than an input may have, so that one which is too long is seen.
    let mut input = [0u8; INPUT + 1];
    console::serve_input(
        &rt,
        &mut rt.stdin(),
        "collector",
        "bundles",
        &mut input,
        |s| serve_input(&rt, s),
    );
}
