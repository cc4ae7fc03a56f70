// The frames of a run (docs/RULES.md, 'A run of frames'): an inter frame is written and read with the
// models of the frame before it as its prior, identities after a key frame. The run is handed in by value
// and comes back with each answer, as it was where the call is refused.
#![tactic(auto)]

ghost use Rattle.std.specs.Prelude.{◌≡◌, length};
ghost use Rattle.laws.specs.Refusal.{judge};
ghost use Rattle.refusal.specs.Number.{refusal_number};
ghost use Rattle.run_frame.specs.Inner.{reader_rows};
ghost use Rattle.run_frame.specs.Frame.{first_rows, not_framed, framed, framed_left, read_in};

use header::Written;
use header_read::Models;
use refusal::Refusal;
use run::Run;

#[repr(C)]
#[derive(Clone, Copy, Debug, PartialEq, Eq)]
pub struct Framed {
    pub written: Written,
    pub run: Run,
}

#[repr(C)]
#[derive(Clone, Copy, Debug, PartialEq, Eq)]
pub struct FrameModels {
    pub models: Models,
    pub run: Run,
}

// Lengths, and the run's flag and form.
fn first_refusal(run: Run, types: usize, params: usize) -> Result<(), Refusal>
    ensures { refusal_number result ≡ judge (first_rows run types params) }
{
    if key_frame::key_lengths_wrong(types, params) {
        return Err(Refusal::WrongLength);
    }
    if run::codes_wrong(run.flag, run.form) {
        return Err(Refusal::NoSuchCode);
    }
    Ok(())
}

fn not_framed(run: Run, refusal: u32) -> Framed
    ensures { result ≡ not_framed run refusal }
{
    let written = Written { refusal, bits: 0 };
    Framed { written, run }
}

// The models of a frame, to be a prior.
fn prior_from(params: &[i32]) -> [i32; 42]
    requires { length params.now ≡ 42 }
    ensures { result ≡ params.now }
{
    let mut out = [0i32; 42];
    out.copy_from_slice(params);
    out
}

// A frame of either kind with the run's flag and prior, as `frame_header::encode_global_motion` writes
// it. Its models are the next prior: an accepted key frame's are identities.
pub fn frame(
    run: Run,
    intra: bool,
    types: &[u8],
    params: &[i32],
    start: usize,
    header: &mut [u8],
) -> Framed
    ensures value { result ≡ framed run intra types.now params.now start (length header.old) }
    ensures header_after { header.new ≡ framed_left run intra types.now params.now start header.old }
{
    if let Err(refusal) = first_refusal(run, types.len(), params.len()) {
        return not_framed(run, refusal.number());
    }
    let prior = run.prior;
    let written = frame_header::encode_global_motion(
        intra, types, params, run.flag, &prior, start, header,
    );
    if written.refusal != 0 {
        return not_framed(run, written.refusal);
    }
    if models::priors_out(&prior) {
        return not_framed(run, Refusal::PriorOut.number());
    }
    let next = run::step_to(run, prior_from(params));
    Framed { written, run: next }
}

// Of a run handed to a reader: its flag and form, and the prior where the plain call won't judge it, at a
// key frame.
fn read_refusal(run: Run, intra: bool) -> Result<(), Refusal>
    ensures { refusal_number result ≡ judge (reader_rows run intra) }
{
    if run::codes_wrong(run.flag, run.form) {
        return Err(Refusal::NoSuchCode);
    }
    if intra {
        return run::refusal_of(run);
    }
    Ok(())
}

// The models of a frame that was written in a run, read with a run begun alike: they are its next prior.
pub fn read(run: Run, intra: bool, header: &[u8], at: usize) -> FrameModels
    ensures { result ≡ read_in run intra header.now at }
{
    if let Err(refusal) = read_refusal(run, intra) {
        let models = header_read::no_models(refusal.number());
        return FrameModels { models, run };
    }
    let prior = run.prior;
    let models = frame_header::read_global_motion(intra, header, at, run.flag, &prior);
    if models.refusal != 0 {
        return FrameModels { models, run };
    }
    let params = models.params;
    let next = run::step_to(run, params);
    FrameModels { models, run: next }
}
