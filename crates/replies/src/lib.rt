// Records given to a run, and what the run answers, printed.
#![tactic(auto)]

ghost use Rattle.std.specs.Prelude.{◌≡◌};
ghost use Rattle.run.specs.Steps.{step_of};

use run::Run;
use std::fmt;
use std::io::Print;

// Gives a record to a run and prints the number of the reply. A refusal leaves the run as it was.
pub fn give(rt: &impl Print, run: Run, bytes: &[u8]) -> Run
    ensures { result ≡ (step_of run bytes.now).run }
{
    let reply = run.step(bytes);
    console::print_number(rt, refusals::number_of(&reply) as u64);
    reply.unwrap_or(run)
}

// HOLD, QUAL and BAD as masks, 0 before they are fixed.
pub fn print_sets(rt: &impl Print, run: Run) {
    let sets = answers::shown_sets(run);
    let _ = print!(rt; "{} {} {} ", sets.hold, sets.qual, sets.bad);
}

// A number that a run may not have: it is printed as `none` then.
#[derive(Clone, Copy)]
struct OrNone(Option<u32>);

impl fmt::Display for OrNone {
    fn fmt<W: fmt::Write>(&self, f: &mut fmt::Formatter<W>) -> fmt::Result {
        match self.0 {
            Some(number) => number.fmt(f),
            None => f.write_str("none"),
        }
    }
}

// R(u,k) and φ(u,k), each `none` where the run has none.
pub fn print_signature(rt: &impl Print, run: Run, u: u8, k: u8) {
    let nonce = OrNone(answers::nonce_at(run, u, k).map(|r| r.0));
    let phi = OrNone(answers::signature_at(run, u, k).map(|phi| phi.0));
    let _ = print!(rt; "{nonce} {phi} ");
}

pub fn print_stage(rt: &impl Print, run: Run) {
    console::print_number(rt, run.stage_of() as u64);
}
