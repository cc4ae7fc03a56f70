// The two planes of a practice belt (docs/RULES.md, 'Practice belt'): a reference plane of noise, and an
// input plane, whose pels are the reference pels that lie so far away, clamped as the search clamps.
#![tactic(auto)]

ghost use Rattle.std.specs.Prelude.{◌≡◌, ◌*◌, ◌≤◌, length};
ghost use Rattle.laws.specs.Buffer.{onto};
ghost use Rattle.laws.specs.Placed.{placed};
ghost use Rattle.laws.specs.Parts.{listing};
ghost use Rattle.practice_planes.specs.Belt.{reference_plane};
ghost use Rattle.practice_planes.specs.Inner.{Ready};
ghost use Rattle.practice_planes.specs.Inner.{PlaneRoom, MovedRow, Moving, moved, moved_plane};

use plane::{Offset, Place, Sides};

// The largest component of a motion, either way, in pels.
pub const LARGEST_SHIFT: usize = 24;

// The reference plane from the front of the buffer: each pel is the upper half of the next state.
fn fill_reference(seed: u32, sides: Sides, reference: &mut [u16])
    requires { PlaneRoom sides (length reference.old) }
    ensures { reference.new ≡ onto (reference_plane seed sides.width sides.height) reference.old }
{
    let pels = sides.height * sides.width;
    let mut state = seed;
    for i in 0..pels {
        let next = generator::next_state(state);
        reference[i] = generator::upper_half(next);
        state = next;
    }
}

// The pels of one row of the input plane.
fn move_row(reference: &[u16], row: Place, by: Offset, out: &mut [u16])
    requires moved_row { MovedRow reference.now row by }
    requires width_value { row.width ≡ length out.old }
    ensures { out.new ≡ listing (moved reference.now row by) (length out.old) }
{
    for (c, pel) in out.iter_mut().enumerate() {
        let place = Place { c, ..row };
        *pel = plane::displaced(reference, place, by, LARGEST_SHIFT);
    }
}

// One row of the input plane, written where it lies in the buffer.
fn place_row(reference: &[u16], row: Place, by: Offset, input: &mut [u16])
    requires moved_row { MovedRow reference.now row by }
    requires width_in_bounds { row.height * row.width ≤ length input.old }
    ensures { input.new ≡ placed (row.r * row.width) (listing (moved reference.now row by) row.width) input.old }
{
    let from = row.r * row.width;
    move_row(reference, row, by, &mut input[from..from + row.width]);
}

// The input plane from the front of the buffer, row by row.
fn fill_input(reference: &[u16], sides: Sides, by: Offset, input: &mut [u16])
    requires { Moving reference.now sides by (length input.old) }
    ensures { input.new ≡ onto (moved_plane reference.now sides by) input.old }
{
    for r in 0..sides.height {
        let row = Place {
            width: sides.width,
            height: sides.height,
            r,
            c: 0,
        };
        place_row(reference, row, by, &mut *input);
    }
}

// Both planes: the input reads the reference already made.
pub fn fill_planes(seed: u32, sides: Sides, by: Offset, input: &mut [u16], reference: &mut [u16])
    requires { Ready sides by (length input.old) (length reference.old) }
    ensures input_after { input.new ≡ onto (moved_plane (reference_plane seed sides.width sides.height) sides by) input.old }
    ensures reference_after { reference.new ≡ onto (reference_plane seed sides.width sides.height) reference.old }
{
    fill_reference(seed, sides, &mut *reference);
    let pels = sides.height * sides.width;
    fill_input(&reference[..pels], sides, by, &mut *input);
}
