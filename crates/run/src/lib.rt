// The run: what it keeps, and what a record does to it.
#![tactic(auto)]

ghost use Rattle.std.specs.Prelude.{◌≡◌, true, ◌+◌, ◌≤◌};
ghost use Rattle.parameters.specs.Definitions.{in_bounds};
ghost use Rattle.refusals.specs.Numbers.{number_of};
ghost use Rattle.refusals.specs.Refusals.{setup_refusal, challenges_refusal, shifted_refusal};
ghost use Rattle.stages.specs.Definitions.{go_number};
ghost use Rattle.dealing.specs.Definitions.{dealing_number};
ghost use Rattle.complaint.specs.Definitions.{complaint_number};
ghost use Rattle.response.specs.Definitions.{response_number};
ghost use Rattle.run.specs.Runs.{set_challenges, set_responses, fresh, begun, well_formed, stage_of};
ghost use Rattle.run.specs.Steps.{reply_of, answered, after_setup, after_dealing, after_go, after_complaint, after_challenges, after_shifted, finished, after_response, step_of, untaken};

use challenge::Challenges;
use complaint::Complaints;
use dealing::{Dealings, Setup};
use field::{Element, Scalar};
use parameters::{CELLS, PARTIES, PLACES};
use refusals::Refusal;
use response::Responses;
use stages::Handler;
use verification::Kept;

// The run. b is the signatures of a packed slot, and 0 while a run that was begun by SX waits for GO; m, the number of dealings, is their count.
// At stage 5 the signatures, each a shifted φ, stand u outer, k inner. Anyone may make a run, and each is answered (`stage_of`), so that no ghost field says
// that it is well formed; the stage is a number, as document 01 has it.
#[derive(Clone, Copy)]
pub struct Run {
    pub stage: u8,
    pub b: u8,
    pub setup: Setup,
    pub dealings: Dealings,
    pub complaints: Complaints,
    pub challenges: Challenges,
    pub responses: Responses,
    pub signatures: [Scalar; CELLS],
}

impl Run {
    // A run at a stage with b and a setup, and every list empty.
    fn begun(stage: u8, b: u8, setup: Setup) -> Run
        ensures { result ≡ begun stage b setup }
    {
        Run {
            stage: stage,
            b: b,
            setup: setup,
            dealings: Dealings {
                count: 0,
                dealers: 0,
                commitments: [Element::ONE; PLACES],
                wrong: [0; PARTIES],
            },
            complaints: Complaints {
                count: 0,
                holders: 0,
                masks: [0; PARTIES],
            },
            challenges: Challenges {
                shift: Scalar::ZERO,
                numbers: [Scalar::ZERO; CELLS],
            },
            responses: Responses {
                count: 0,
                responders: 0,
                numbers: [Scalar::ZERO; PLACES],
            },
            signatures: [Scalar::ZERO; CELLS],
        }
    }

    // A fresh run.
    #[tactic(auto, unfolding(crate::specs::Runs::fresh, lists::specs::Stores::filled, dealing::specs::Definitions::no_setup))]
    pub fn fresh() -> Run
        ensures { result ≡ fresh }
    {
        Run::begun(
            0,
            0,
            Setup {
                n: 0,
                t: 0,
                a: 0,
                key: [Element::ONE; PARTIES],
            },
        )
    }

    #[tactic(auto, unfolding(crate::specs::Runs::well_formed))]
    fn well_formed(&self) -> bool
        ensures { result ≡ well_formed self.now }
    {
        let n = self.setup.n;
        if 6 < self.stage {
            return false;
        }
        if !parameters::in_bounds(n, self.setup.t, self.setup.a) {
            return false;
        }
        if n < self.dealings.count {
            return false;
        }
        if n < self.complaints.count {
            return false;
        }
        if n < self.responses.count {
            return false;
        }
        stages::batch_fits(self.stage, n, self.setup.t, self.dealings.count, self.b)
    }

    // The stage; past 0, 6 for a run that is not well formed.
    #[tactic(auto, unfolding(crate::specs::Runs::stage_of))]
    pub fn stage_of(&self) -> u8
        ensures { result ≡ stage_of self.now }
    {
        if self.stage == 0 {
            return 0;
        }
        if self.well_formed() { self.stage } else { 6 }
    }

    // SU, or SX, whose run waits.
    #[tactic(auto, using(refusals::proofs::NumberLaws::number_some), unfolding(crate::specs::Steps::after_setup, dealing::specs::Definitions::begun_batch, dealing::specs::Definitions::setup_of))]
    fn take_setup(self, waits: bool, bytes: &[u8]) -> Result<Run, Refusal>
        ensures { reply_of self result ≡ answered self (setup_refusal bytes.now) (after_setup waits bytes.now) }
    {
        refusals::setup_refusal(bytes)?;
        let setup = Setup::read(bytes);
        if waits {
            return Ok(Run::begun(1, 0, setup));
        }
        let b = parameters::batch(setup.n - setup.t, setup.t);
        Ok(Run::begun(1, b, setup))
    }

    #[tactic(auto, using(refusals::proofs::NumberLaws::number_some), unfolding(crate::specs::Steps::after_dealing, dealing::specs::Definitions::with_dealing))]
    fn take_dealing(self, bytes: &[u8]) -> Result<Run, Refusal>
        requires { well_formed self ≡ true }
        ensures { reply_of self result ≡ answered self (dealing_number self.setup self.dealings bytes.now) (after_dealing self bytes.now) }
    {
        let setup = self.setup;
        self.dealings.refusal(setup, bytes)?;
        let dealings = self.dealings.with(setup, bytes);
        let mut next = self;
        next.stage = stages::dealing_stage(setup.n, setup.t, dealings.count, self.b);
        next.dealings = dealings;
        Ok(next)
    }

    #[tactic(auto, using(refusals::proofs::NumberLaws::number_some), unfolding(crate::specs::Steps::after_go))]
    fn take_go(self, bytes: &[u8]) -> Result<Run, Refusal>
        ensures { reply_of self result ≡ answered self (go_number self.setup.n self.setup.t self.dealings.count self.b bytes.now) (after_go self) }
    {
        let t = self.setup.t;
        let m = self.dealings.count;
        stages::go_refusal(self.setup.n, t, m, self.b, bytes)?;
        let mut gone = self;
        gone.stage = 2;
        gone.b = parameters::batch(m, t);
        Ok(gone)
    }

    // With one more complaint row.
    #[tactic(auto, unfolding(crate::specs::Steps::after_complaint))]
    fn with_complaint(self, bytes: &[u8]) -> Run
        requires { well_formed self ≡ true }
        ensures { result ≡ after_complaint self bytes.now }
    {
        let complaints = self.complaints.with(self.setup.n, bytes);
        let mut next = self;
        next.stage = complaints.stage(self.setup);
        next.complaints = complaints;
        next
    }

    #[tactic(auto, using(refusals::proofs::NumberLaws::number_some))]
    fn take_complaint(self, bytes: &[u8]) -> Result<Run, Refusal>
        requires { well_formed self ≡ true }
        ensures { reply_of self result ≡ answered self (complaint_number self.setup self.dealings self.complaints bytes.now) (after_complaint self bytes.now) }
    {
        self.complaints.refusal(self.setup, &self.dealings, bytes)?;
        Ok(self.with_complaint(bytes))
    }

    // At stage 4, with the challenges of a CH or CS: what `take_challenges` and `take_shifted` have in common.
    fn challenged(self, challenges: Challenges) -> Run
        ensures { result ≡ set_challenges self 4 challenges }
    {
        let mut next = self;
        next.stage = 4;
        next.challenges = challenges;
        next
    }

    #[tactic(auto, using(refusals::proofs::NumberLaws::number_some), unfolding(crate::specs::Steps::after_challenges))]
    fn take_challenges(self, bytes: &[u8]) -> Result<Run, Refusal>
        ensures { reply_of self result ≡ answered self (challenges_refusal self.setup.a self.b bytes.now) (after_challenges self bytes.now) }
    {
        let (a, b) = (self.setup.a, self.b);
        refusals::challenges_refusal(a, b, bytes)?;
        let challenges = self.challenges.with(a, b, bytes);
        Ok(self.challenged(challenges))
    }

    #[tactic(auto, using(refusals::proofs::NumberLaws::number_some), unfolding(crate::specs::Steps::after_shifted))]
    fn take_shifted(self, bytes: &[u8]) -> Result<Run, Refusal>
        ensures { reply_of self result ≡ answered self (shifted_refusal self.setup.a self.b bytes.now) (after_shifted self bytes.now) }
    {
        let (a, b) = (self.setup.a, self.b);
        refusals::shifted_refusal(a, b, bytes)?;
        let shifted = self.challenges.with_shifted(a, b, bytes);
        Ok(self.challenged(shifted))
    }

    // What response rows are tested against.
    pub fn kept(&self) -> Kept<'_>
        requires { well_formed self.now ≡ true }
        ensures setup { result.setup.now ≡ self.now.setup }
        ensures dealings { result.dealings.now ≡ self.now.dealings }
        ensures complaints { result.complaints.now ≡ self.now.complaints }
        ensures challenges { result.challenges.now ≡ self.now.challenges }
        ensures few { self.now.b ≤ self.now.setup.n }
    {
        Kept {
            setup: &self.setup,
            dealings: &self.dealings,
            complaints: &self.complaints,
            challenges: &self.challenges,
        }
    }

    // Done, with all the response rows that are needed: every φ is worked out, and shifted.
    #[tactic(auto, unfolding(crate::specs::Steps::finished))]
    fn finish(self, responses: Responses) -> Run
        requires { well_formed self ≡ true }
        ensures { result ≡ finished (set_responses self 4 responses) }
    {
        let signatures = responses.signatures(self.b, &self.kept(), self.signatures);
        Run {
            stage: 5,
            responses: responses,
            signatures: signatures,
            ..self
        }
    }

    // With one more response row, and done with the last that is needed.
    #[tactic(auto, unfolding(crate::specs::Steps::after_response, crate::specs::Steps::with_row))]
    pub fn with_response(self, bytes: &[u8]) -> Run
        requires { well_formed self ≡ true }
        ensures { result ≡ after_response self bytes.now }
    {
        let responses = self.responses.with(self.b, bytes);
        let rows = self.responses.count as u16 + 1;
        if rows == parameters::quorum(self.setup.t, self.setup.a) {
            return self.finish(responses);
        }
        let mut next = self;
        next.stage = 4;
        next.responses = responses;
        next
    }

    #[tactic(auto, using(refusals::proofs::NumberLaws::number_some))]
    fn take_response(self, bytes: &[u8]) -> Result<Run, Refusal>
        requires { well_formed self ≡ true }
        ensures { reply_of self result ≡ answered self (response_number self.b self.setup self.dealings self.complaints self.challenges self.responses bytes.now) (after_response self bytes.now) }
    {
        self.responses.refusal(self.b, &self.kept(), bytes)?;
        Ok(self.with_response(bytes))
    }

    // The refusals that need no response row to be tested, so that the run is not copied: every number but 15, by the match of `step`.
    #[tactic(auto, using(crate::proofs::Stages::handler_is), unfolding(crate::specs::Steps::untaken, crate::specs::Steps::untaken_by))]
    pub fn untaken(&self, bytes: &[u8]) -> Result<(), Refusal>
        ensures { number_of result ≡ untaken self.now bytes.now }
    {
        let n = self.setup.n;
        let a = self.setup.a;
        let b = self.b;
        let handler = stages::taken_by(records::tag(bytes), self.stage_of());
        match handler {
            Handler::TakeSetup => refusals::setup_refusal(bytes),
            Handler::TakeWaiting => refusals::setup_refusal(bytes),
            Handler::TakeDealing => self.dealings.refusal(self.setup, bytes),
            Handler::TakeGo => {
                stages::go_refusal(n, self.setup.t, self.dealings.count, b, bytes)
            }
            Handler::TakeComplaint => { self.complaints.refusal(self.setup, &self.dealings, bytes) }
            Handler::TakeChallenges => refusals::challenges_refusal(a, b, bytes),
            Handler::TakeShifted => refusals::shifted_refusal(a, b, bytes),
            Handler::TakeResponse => {
                let holders = self.complaints.holders;
                response::untested(n, b, self.responses.responders, holders, bytes)
            }
            Handler::Refuse(refusal) => Err(refusal),
        }
    }

    // What a record, any bytes, does to the run: a match on what its tag and the stage pick, the form that document 01 names.
    #[tactic(auto, using(crate::proofs::Stages::handler_is), unfolding(crate::specs::Steps::step_of, crate::specs::Steps::handled))]
    pub fn step(self, bytes: &[u8]) -> Result<Run, Refusal>
        ensures { reply_of self result ≡ step_of self bytes.now }
    {
        let handler = stages::taken_by(records::tag(bytes), self.stage_of());
        match handler {
            Handler::TakeSetup => self.take_setup(false, bytes),
            Handler::TakeWaiting => self.take_setup(true, bytes),
            Handler::TakeDealing => self.take_dealing(bytes),
            Handler::TakeGo => self.take_go(bytes),
            Handler::TakeComplaint => self.take_complaint(bytes),
            Handler::TakeChallenges => self.take_challenges(bytes),
            Handler::TakeShifted => self.take_shifted(bytes),
            Handler::TakeResponse => self.take_response(bytes),
            Handler::Refuse(refusal) => Err(refusal),
        }
    }
}
