// Replays the oracle's list of quantizations, then tries the worked values of docs/RULES.md that
// aren't proved and the refusals.
#![tactic(auto)]

use grid::Quantized;
use replay::List;
use std::io;

// One case of the list: type, flag, slot, value, answer.
fn value_holds(list: &mut List) -> bool {
    let gm_type = list.next_code();
    let flag = list.next_code();
    let slot = list.next_code();
    let value = list.next_number();
    let wanted = Quantized {
        refusal: 0,
        value: list.next_number(),
    };
    grid::quantize_global_param(gm_type, flag, slot, value) == wanted
}

// Type, flag, slot and value, the refusal and the answer, and what the case is.
const WORKED: [(u8, u8, u8, i32, u32, i32, &str); 7] = [
    (1, 1, 0, 4198400, 0, 4194304, "4198400"),
    (1, 0, 0, 8191, 0, 0, "8191"),
    (1, 0, 0, 8192, 0, 16384, "8192"),
    (4, 0, 0, 4096, 4, 0, "type 4"),
    (4, 2, 6, 4096, 4, 0, "type 4, flag 2, slot 6"),
    (0, 2, 6, 4096, 4, 0, "flag 2, slot 6"),
    (0, 1, 6, 4096, 5, 0, "slot 6"),
];

fn main(rt: HostRuntime) -> io::Result<()> {
    let Some(mut list) = replay::open_list(&rt, "grid.bin")? else {
        return Ok(());
    };
    let count = u64::from(list.next_word());
    replay::try_cases(
        &rt,
        &mut list,
        "grid",
        count,
        |list, _| Ok(value_holds(list)),
    )?;
    for (gm_type, flag, slot, number, refusal, value, what) in WORKED {
        if grid::quantize_global_param(gm_type, flag, slot, number)
            != (Quantized { refusal, value })
        {
            println!(rt; "worked: wrong at {what}")?;
        }
    }
    println!(rt; "worked: 7 tried")
}
