// The global motion parameters of a frame of either kind, written and read. In go what `header` and
// `header_read` take, and whether the frame is a key frame; out comes what they give. An inter frame has
// their bits; a key frame has none, needs no byte and no prior, and is read as seven identities.
// Answers to docs/RULES.md, 'Key frames'; clause 5.9.24, where FrameIsIntra holds;
// `read_global_motion_params` of uncompressed_header_tail.rs.
#![tactic(auto)]

ghost use Rattle.std.specs.Prelude.{◌≡◌, length};
ghost use Rattle.frame_header.specs.Frame.{frame_written, frame_after, frame_models};
ghost use Rattle.frame_header.specs.Inner.{key_models};

use grid::IDENTITY;
use header::Written;
use header_read::Models;
use refusal::Refusal;

// The bits of a key frame.
const KEY_BITS: usize = 0;

// Seven types and models in rising order of reference, as `header::encode_inter_global_motion` takes
// them; of a key frame all are identities, and nothing is written.
pub fn encode_global_motion(
    intra: bool,
    types: &[u8],
    params: &[i32],
    flag: u8,
    prior: &[i32],
    start: usize,
    header: &mut [u8],
) -> Written
    ensures value { result ≡ frame_written intra start types.now params.now flag prior.now (length header.old) }
    ensures header_after { header.new ≡ frame_after intra start types.now params.now flag prior.now header.old }
{
    if intra {
        let refusal = refusal::refusal_number(key_frame::key_refusal(start, types, params, flag));
        return Written {
            refusal,
            bits: KEY_BITS,
        };
    }
    header::encode_inter_global_motion(types, params, flag, prior, start, header)
}

// Whatever the bytes, the position and the prior.
fn key_models(flag: u8) -> Models
    ensures { result ≡ key_models flag }
{
    let types = [IDENTITY; 7];
    if 1 < flag {
        let params = [0i32; 42];
        return Models {
            refusal: Refusal::NoSuchCode.number(),
            types,
            params,
            bits: 0,
        };
    }
    let params = key_frame::seven_identities();
    Models {
        refusal: 0,
        types,
        params,
        bits: KEY_BITS,
    }
}

// The seven models from bit `at` of the bytes on, as `header_read::read_global_motion_params` gives
// them; of a key frame identities, and no bit is read.
pub fn read_global_motion(intra: bool, header: &[u8], at: usize, flag: u8, prior: &[i32]) -> Models
    ensures { result ≡ frame_models intra header.now at flag prior.now }
{
    if intra {
        return key_models(flag);
    }
    header_read::read_global_motion_params(header, at, flag, prior)
}
