// Replays the list of key frames: each is written into guarded bytes, of which none may change, with
// the list's answer, and read, whatever the bytes, the position and the prior.
#![tactic(auto)]

use header::Written;
use header_read::Models;
use replay::{List, UNTOUCHED_BYTE};
use std::io;

// The row of a start over 7, which a price has not.
const START_OVER: u32 = 14;

// Seven types of which the first is listed, seven identities of which slot 0 of the first is listed, a
// prior of equal numbers; how many of each are lent, and bytes; then the answers of writing and reading.
fn frame_holds(list: &mut List) -> bool {
    let flag = list.next_code();
    let types = [list.next_code(), 0, 0, 0, 0, 0, 0, 0];
    let types = replay::first(&types, list.next_size());
    let mut params = replay::identity::<43>();
    params[0] = list.next_number();
    let params = replay::first(&params, list.next_size());
    let prior = [list.next_number(); 43];
    let prior = replay::first(&prior, list.next_size());
    let start = list.next_size();
    let room = list.next_size();
    let at = list.next_size();
    let refusal = list.next_word();
    let read_refusal = list.next_word();
    let mut out = [UNTOUCHED_BYTE; 8];
    let written = frame_header::encode_global_motion(
        true,
        types,
        params,
        flag,
        prior,
        start,
        replay::first_mut(&mut out, room),
    );
    // Identities where the call accepts, else zeros.
    let models = Models {
        refusal: read_refusal,
        types: [0; 7],
        params: if read_refusal == 0 {
            replay::identity()
        } else {
            [0; 42]
        },
        bits: 0,
    };
    let read = frame_header::read_global_motion(true, replay::first(&out, room), at, flag, prior);
    // A price of 0, refused as the writer refuses but for its start.
    let price = price::frame_price(true, types, params, flag, prior);
    written == Written { refusal, bits: 0 }
        && out == [UNTOUCHED_BYTE; 8]
        && read == models
        && price.bits == 0
        && (refusal == START_OVER || price.refusal == refusal)
}

fn main(rt: HostRuntime) -> io::Result<()> {
    replay::replay_list(&rt, "frame.bin", "key frame", |list, _| {
        Ok(frame_holds(list))
    })
}
