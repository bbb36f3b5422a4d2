// What a run answers when it is asked: the sets HOLD, QUAL and BAD, and R(u,k) and φ(u,k), both shifted.
#![tactic(auto)]

ghost use Rattle.std.specs.Prelude.{◌≡◌};
ghost use Rattle.answers.specs.Answers.{unblamed_of, sets_of, shown_sets, in_batch, nonce_of, phi_answer};

use field::{Element, Scalar};
use run::Run;

// HOLD, QUAL and BAD as masks.
#[derive(Clone, Copy)]
pub struct Sets {
    pub hold: u64,
    pub qual: u64,
    pub bad: u64,
}

// No set has a member.
const EMPTY: Sets = Sets {
    hold: 0,
    qual: 0,
    bad: 0,
};

// The accepted dealers that no accepted complaint row blames, at any stage; from stage 3 on they are QUAL.
#[tactic(auto, unfolding(crate::specs::Answers::unblamed_of))]
pub fn unblamed(run: Run) -> u64
    ensures { result ≡ unblamed_of run }
{
    run.complaints.unblamed(run.setup.n, run.dealings.dealers)
}

// HOLD, QUAL and BAD, once they are fixed: from stage 3 on.
#[tactic(auto, unfolding(crate::specs::Answers::sets_of, crate::specs::Answers::kept_sets, crate::specs::Answers::bad_of))]
pub fn sets_of(run: Run) -> Option<Sets>
    ensures { result ≡ sets_of run }
{
    if run.stage_of() < 3 {
        return None;
    }
    Some(Sets {
        hold: run.complaints.holders,
        qual: unblamed(run),
        bad: run.complaints.blamed(run.setup.n),
    })
}

// HOLD, QUAL and BAD as they are shown: empty before they are fixed.
#[tactic(auto, unfolding(crate::specs::Answers::shown_sets, crate::specs::Answers::no_sets))]
pub fn shown_sets(run: Run) -> Sets
    ensures { result ≡ shown_sets run }
{
    sets_of(run).unwrap_or(EMPTY)
}

// Whether u is from 1 to b and k from 1 to a.
#[tactic(auto, using(crate::proofs::RangeLaws::ranged), unfolding(crate::specs::Answers::in_batch))]
fn in_batch(run: Run, u: u8, k: u8) -> bool
    ensures { result ≡ in_batch run u k }
{
    (1..=run.b).contains(&u) && (1..=run.setup.a).contains(&k)
}

// R(u,k) × 4^δ, at stages 3, 4 and 5.
#[tactic(auto, using(crate::proofs::RangeLaws::ranged), unfolding(crate::specs::Answers::nonce_of))]
pub fn nonce_at(run: Run, u: u8, k: u8) -> Option<Element>
    ensures { result ≡ nonce_of run u k }
{
    let stage = run.stage_of();
    if !(3..=5).contains(&stage) || !in_batch(run, u, k) {
        return None;
    }
    let x = points::point(1, k);
    let nonce = run.kept().combined_at(u, x);
    let shift = run.challenges.shift;
    Some(nonce.mul(Element::GENERATOR.pow(shift)))
}

// φ(u,k) + δ, at stage 5.
#[tactic(auto, unfolding(crate::specs::Answers::phi_answer, run::specs::Runs::kept, arrays::specs::Arrays::cell))]
pub fn signature_at(run: Run, u: u8, k: u8) -> Option<Scalar>
    ensures { result ≡ phi_answer run u k }
{
    let early = run.stage_of() != 5;
    if early || !in_batch(run, u, k) {
        return None;
    }
    let at = (u - 1) as usize * run.setup.a as usize + (k - 1) as usize;
    Some(run.signatures[at])
}
