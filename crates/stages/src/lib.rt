// Each tag is taken at one stage only: which handler takes a record by its tag and the run's stage. When the dealings bring stage 2, when a GO is taken,
// and which b goes with a stage.
#![tactic(auto)]

ghost use Rattle.std.specs.Prelude.{◌≡◌, ◌≤◌};
ghost use Rattle.records.specs.Tags.{decoded};
ghost use Rattle.refusals.specs.Numbers.{number_of};
ghost use Rattle.stages.specs.Definitions.{handler_at, dealing_stage, go_number, batch_fits};

use refusals::Refusal;

// What a record meets by its tag and the run's stage: the handler that takes it, or refusal 1 or 11. TakeGo refuses with 11 in a run that does not wait.
#[derive(Clone, Copy, Debug, PartialEq, Eq)]
pub enum Handler {
    TakeSetup,
    TakeWaiting,
    TakeDealing,
    TakeGo,
    TakeComplaint,
    TakeChallenges,
    TakeShifted,
    TakeResponse,
    Refuse(Refusal),
}

// Each tag is taken at one stage only: a match over tag codes and stage numbers, the form that document 01 names.
#[tactic(auto, unfolding(crate::specs::Definitions::handler_at, crate::specs::Definitions::at_stage, crate::specs::Definitions::taken_at, records::specs::Tags::decoded))]
pub fn taken_by(tag: u8, stage: u8) -> Handler
    ensures { result ≡ handler_at (decoded tag) stage }
{
    match tag {
        1 => match stage {
            0 => Handler::TakeSetup,
            _ => Handler::Refuse(Refusal::WrongStage),
        },
        2 => match stage {
            1 => Handler::TakeDealing,
            _ => Handler::Refuse(Refusal::WrongStage),
        },
        3 => match stage {
            2 => Handler::TakeComplaint,
            _ => Handler::Refuse(Refusal::WrongStage),
        },
        4 => match stage {
            3 => Handler::TakeChallenges,
            _ => Handler::Refuse(Refusal::WrongStage),
        },
        5 => match stage {
            4 => Handler::TakeResponse,
            _ => Handler::Refuse(Refusal::WrongStage),
        },
        6 => match stage {
            3 => Handler::TakeShifted,
            _ => Handler::Refuse(Refusal::WrongStage),
        },
        7 => match stage {
            0 => Handler::TakeWaiting,
            _ => Handler::Refuse(Refusal::WrongStage),
        },
        8 => match stage {
            1 => Handler::TakeGo,
            _ => Handler::Refuse(Refusal::WrongStage),
        },
        _ => Handler::Refuse(Refusal::UnknownTag),
    }
}

// The refusal of a GO at stage 1 with m dealings: 11 in a run that does not wait, whose b is fixed; the length; 17 before n-t dealings.
#[tactic(auto, unfolding(crate::specs::Definitions::go_number, lists::specs::Tests::require))]
pub fn go_refusal(n: u8, t: u8, m: u8, b: u8, bytes: &[u8]) -> Result<(), Refusal>
    ensures { number_of result ≡ go_number n t m b bytes.now }
{
    let fixed = b != 0;
    if fixed {
        return Err(Refusal::WrongStage);
    }
    let other = bytes.len() != records::GO_LENGTH;
    if other {
        return Err(Refusal::WrongLength);
    }
    if n as u16 > m as u16 + t as u16 {
        return Err(Refusal::FewDealings);
    }
    Ok(())
}

// The stage that m dealings bring: 1 in a run that waits, whose b is not fixed yet; else 2 after n-t of them.
#[tactic(auto, unfolding(crate::specs::Definitions::dealing_stage))]
pub fn dealing_stage(n: u8, t: u8, m: u8, b: u8) -> u8
    requires { t ≤ n }
    ensures { result ≡ dealing_stage n t m b }
{
    if b == 0 {
        return 1;
    }
    if m == n - t { 2 } else { 1 }
}

// Whether b is what the stage and the m dealings say: past stage 1 m-t, with at least n-t of them; before that the b of n-t, or 0 in a run that waits.
pub fn batch_fits(stage: u8, n: u8, t: u8, m: u8, b: u8) -> bool
    requires { t ≤ n }
    ensures { result ≡ batch_fits stage n t m b }
{
    if 1 < stage {
        let few = m < n - t;
        if few {
            return false;
        }
        return b == parameters::batch(m, t);
    }
    if b == 0 {
        return true;
    }
    b == parameters::batch(n - t, t)
}
