// What a page says of the run after its log: the sets, the signatures and the stage.
#![tactic(auto)]

ghost use Rattle.std.specs.Prelude.{◌≡◌, true, ◌*◌, ◌-◌, ◌≤◌, ◌<◌};
ghost use Rattle.parameters.specs.Definitions.{most_parties};
ghost use Rattle.text.specs.Texts.{Room, Added};
ghost use Rattle.combination.specs.Combination.{powers_at};
ghost use Rattle.run.specs.Runs.{well_formed};
ghost use Rattle.closing.specs.Closing.{most_sets, most_line, most_lines, most_closing, sig_line, signature_lines, set_lines, closing};
ghost use Rattle.closing.specs.SignatureLaws.{row_lines};

use field::{Element, Scalar};
use parameters::PLACES;
use run::Run;
use text::Page;

// The line of a signature.
fn put_signature(page: &mut Page, u: u8, k: u8, nonce: Element, phi: Scalar)
    requires { Room page.old most_line }
    ensures { Added page.old page.new (sig_line u k nonce phi) }
{
    page.put_line(b"sig", &[u as u32, k as u32, nonce.0, phi.0]);
}

// The signature lines of one u, from the powers of the committed values for it: they are combined, and give R(u,k) at each slot k, which is shifted.
fn put_row(page: &mut Page, run: Run, powers: [Element; PLACES], u: u8)
    requires { (well_formed run ≡ true) × (0 < u) × (u ≤ run.b) × (powers ≡ powers_at run.setup.n run.dealings.commitments (u - 1)) × Room page.old (most_line * run.setup.a) }
    ensures { Added page.old page.new (row_lines run u run.setup.a) }
{
    let shift = run.challenges.shift;
    let moved = Element::GENERATOR.pow(shift);
    let a = run.setup.a;
    let quorum = parameters::quorum(run.setup.t, a) as u8;
    let values = combination::combined_values(powers, answers::unblamed(run), run.setup.n, quorum);
    let basis = points::committed_points(a, quorum).basis();
    let first = (u - 1) as usize * a as usize;
    let phis = &run.signatures[first..first + a as usize];
    for (i, &phi) in phis.iter().enumerate() {
        let k = i as u8 + 1;
        let nonce = basis
            .weights(points::point(1, k))
            .product(values)
            .mul(moved);
        put_signature(page, u, k, nonce, phi);
    }
}

// Every signature line.
fn put_signatures(page: &mut Page, run: Run)
    requires { (well_formed run ≡ true) × Room page.old most_lines }
    ensures { Added page.old page.new (signature_lines run (run.setup.a * run.b)) }
{
    let count = run.b;
    let mut powers = run.dealings.commitments;
    for u in 0..count {
        put_row(page, run, powers, u + 1);
        let raised = combination::raised(powers, run.setup.n);
        powers = raised;
    }
}

// The lines hold, qual and bad: the members, or `-` for a set that is empty or not fixed.
pub fn put_sets(page: &mut Page, run: Run)
    requires { (run.setup.n ≤ most_parties) × Room page.old most_sets }
    ensures { Added page.old page.new (set_lines run) }
{
    let n = run.setup.n;
    let sets = answers::shown_sets(run);
    page.put_set(b"hold", n, sets.hold);
    page.put_set(b"qual", n, sets.qual);
    page.put_set(b"bad", n, sets.bad);
}

// The sets, at stage 5 every signature, and the stage.
pub fn put_closing(page: &mut Page, run: Run)
    requires { (run.setup.n ≤ most_parties) × Room page.old most_closing }
    ensures { Added page.old page.new (closing run) }
{
    let stage = run.stage_of();
    put_sets(page, run);
    let done = stage == 5;
    if done {
        put_signatures(page, run);
    }
    page.put_line(b"end", &[stage as u32]);
}
