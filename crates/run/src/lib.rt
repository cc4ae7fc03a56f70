// A run of frames (docs/RULES.md, 'A run of frames'): it holds the prior that the next inter frame is
// written and read with, and the flag and the form given at its start; a switch between two frames changes
// these. It is handed in by value and comes back with each answer, as it was where the call is refused.
#![tactic(auto)]

ghost use Rattle.std.specs.Prelude.{◌≡◌};
ghost use Rattle.refusal.specs.Number.{refusal_number};
ghost use Rattle.run.specs.Run.{run_of, codes_wrong, run_refusal, no_run, started, switch_refusal, switched_to, switched};

use forms::FORM2;
use refusal::Refusal;

// The switch codes: 0 and 1 are flags, 2 goes over to form 2.
const TO_FORM2: u8 = 2;

const LAST_FLAG: u8 = 1;

#[repr(C)]
#[derive(Clone, Copy, Debug, PartialEq, Eq)]
pub struct Run {
    pub prior: [i32; 42],
    pub flag: u8,
    pub form: u32,
}

// What `start` and `switch` answer: the refusal, 0 for none, and the run.
#[repr(C)]
#[derive(Clone, Copy, Debug, PartialEq, Eq)]
pub struct Moved {
    pub refusal: u32,
    pub run: Run,
}

pub fn codes_wrong(flag: u8, form: u32) -> bool
    ensures { result ≡ codes_wrong flag form }
{
    LAST_FLAG < flag || forms::no_form(form)
}

// Of a run handed in.
pub fn refusal_of(run: Run) -> Result<(), Refusal>
    ensures { refusal_number result ≡ run_refusal run }
{
    if codes_wrong(run.flag, run.form) {
        return Err(Refusal::NoSuchCode);
    }
    let prior = run.prior;
    if models::priors_out(&prior) {
        return Err(Refusal::PriorOut);
    }
    Ok(())
}

// What a refused start gives: form 0 is refused ever after.
fn no_run() -> Run
    ensures { result ≡ no_run }
{
    let prior = [0i32; 42];
    Run {
        prior,
        flag: 0,
        form: 0,
    }
}

// A run whose first prior is identity.
pub fn start(flag: u8, form: u32) -> Moved
    ensures { result ≡ started flag form }
{
    if codes_wrong(flag, form) {
        let run = no_run();
        return Moved {
            refusal: Refusal::NoSuchCode.number(),
            run,
        };
    }
    let prior = key_frame::seven_identities();
    let run = Run { prior, flag, form };
    Moved { refusal: 0, run }
}

#[tactic(auto, unfolding(crate::specs::Run::switch_refusal))]
fn switch_refusal(run: Run, code: u8) -> Result<(), Refusal>
    ensures { refusal_number result ≡ switch_refusal run code }
{
    if TO_FORM2 < code {
        return Err(Refusal::NoSuchCode);
    }
    refusal_of(run)
}

fn switched_to(run: Run, code: u8) -> Run
    ensures { result ≡ switched_to run code }
{
    let kept = run.prior;
    if code == TO_FORM2 {
        return Run {
            prior: kept,
            flag: run.flag,
            form: FORM2,
        };
    }
    Run {
        prior: kept,
        flag: code,
        form: run.form,
    }
}

// Between two frames: codes 0 and 1 set the flag, 2 goes over to form 2; the prior stays.
pub fn switch(run: Run, code: u8) -> Moved
    ensures { result ≡ switched run code }
{
    match switch_refusal(run, code) {
        Ok(()) => {
            let next = switched_to(run, code);
            Moved {
                refusal: 0,
                run: next,
            }
        }
        Err(refusal) => Moved {
            refusal: refusal.number(),
            run,
        },
    }
}

// The run with this prior.
pub fn step_to(run: Run, prior: [i32; 42]) -> Run
    ensures { result ≡ run_of prior run.flag run.form }
{
    Run {
        prior,
        flag: run.flag,
        form: run.form,
    }
}
