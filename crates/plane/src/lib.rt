// Planes of the search (docs/RULES.md, 'Records' and 'Search'; `downsample` and the clamped reads in the
// Rust's `collect_motion_samples`). In go a plane of u16 values row by row and its sides; out comes its
// half plane, written from the front of a lent buffer, or a window: a square of pels about a place, the
// coordinates of each clamped to the plane. An offset is a natural number, the signed one plus a bias,
// so that a coordinate clamps at 0 by one test.
#![tactic(auto)]

ghost use Rattle.std.specs.Prelude.{◌≡◌, ◌+◌, ◌*◌, ◌-◌, ◌/◌, ◌<◌, min, length};
ghost use Rattle.laws.specs.Buffer.{onto};
ghost use Rattle.laws.specs.Placed.{placed};
ghost use Rattle.laws.specs.Parts.{listing};
ghost use Rattle.plane.specs.Plane.{mean_of_four, half_pel, half_plane, down, right};
ghost use Rattle.plane.specs.Clamp as clamped;
ghost use Rattle.plane.specs.Clamp.{offset};
ghost use Rattle.plane.specs.Difference.{difference};
ghost use Rattle.plane.specs.Inner.{half_of_rows, RowPair, RowRoom, Halvable, landing, Is, Near, RowIn, Lands, Starts, row_pel, window_pel, window_of, WindowRow};

// The search goes by blocks of 16 × 16 pels, on half planes 8 × 8.
pub const BLOCK: usize = 16;

pub const HALF_BLOCK: usize = 8;

// The sides of a plane.
#[derive(Clone, Copy)]
pub struct Sides {
    pub width: usize,
    pub height: usize,
}

// A place in a plane of these sides: a pel, or the first pel of a row or of a block.
#[derive(Clone, Copy)]
pub struct Place {
    pub width: usize,
    pub height: usize,
    pub r: usize,
    pub c: usize,
}

// An offset as the code holds it: each number is the signed one plus a bias.
#[derive(Clone, Copy)]
pub struct Offset {
    pub y: usize,
    pub x: usize,
}

fn half_pel(a: u16, b: u16, c: u16, d: u16) -> u16
    ensures { result ≡ mean_of_four a b c d }
{
    ((a as u32 + b as u32 + c as u32 + d as u32 + 2) / 4) as u16
}

fn half_row(top: &[u16], bottom: &[u16], out: &mut [u16])
    requires { RowPair top.now bottom.now (length out.old) }
    ensures { out.new ≡ listing (half_of_rows top.now bottom.now) (length out.old) }
{
    for (c, pel) in out.iter_mut().enumerate() {
        let left = 2 * c;
        let right = left + 1;
        *pel = half_pel(top[left], top[right], bottom[left], bottom[right]);
    }
}

// Row r of the half plane, written where it lies in the buffer.
fn halve_row(p: &[u16], width: usize, r: usize, out: &mut [u16])
    requires { RowRoom p.now out.old width r }
    ensures { out.new ≡ placed (r * (width / 2)) (listing (half_pel p.now width r) (width / 2)) out.old }
{
    let half_width = width / 2;
    let top = 2 * r * width;
    let bottom = top + width;
    let from = r * half_width;
    half_row(
        &p[top..bottom],
        &p[bottom..bottom + width],
        &mut out[from..from + half_width],
    );
}

pub fn downsample(p: &[u16], width: usize, height: usize, out: &mut [u16])
    requires { Halvable p.now out.old width height }
    ensures { out.new ≡ onto (half_plane p.now width height) out.old }
{
    for r in 0..height / 2 {
        halve_row(p, width, r, &mut *out);
    }
}

pub fn absolute_difference(a: u16, b: u16) -> u32
    ensures { Is (difference a b) 65535 result }
{
    u32::from(a.abs_diff(b))
}

// The coordinate `place` less `bias`, held to 0 .. side - 1.
fn clamp(place: usize, bias: usize, side: usize) -> usize
    requires { 0 < side }
    ensures { result ≡ min (place - bias) (side - 1) }
{
    place.saturating_sub(bias).min(side - 1)
}

// Where the n pels from a place on begin.
fn row_start(n: usize, place: Place) -> usize
    requires { RowIn n place }
    ensures { Starts n place result }
{
    place.r * place.width + place.c
}

// Where the n pels begin that lie so much less the bias from a place, their columns being inside.
fn displaced_start(n: usize, place: Place, by: Offset, bias: usize) -> usize
    requires { Lands n place by bias }
    ensures { Starts n (landing place by bias) result }
{
    let row = clamp(place.r + by.y, bias, place.height);
    let column = place.c + by.x - bias;
    row_start(
        n,
        Place {
            r: row,
            c: column,
            ..place
        },
    )
}

// The pel that lies so much less the bias from a place.
pub fn displaced(plane: &[u16], place: Place, by: Offset, bias: usize) -> u16
    requires { Near plane.now place by }
    ensures { result ≡ clamped.displaced plane.now place (offset bias by.y) (offset bias by.x) }
{
    let row = clamp(place.r + by.y, bias, place.height);
    let column = clamp(place.c + by.x, bias, place.width);
    let at = row_start(
        1,
        Place {
            r: row,
            c: column,
            ..place
        },
    );
    plane[at]
}

// Pel by pel.
fn clamped_row(plane: &[u16], place: Place, by: Offset, bias: usize, out: &mut [u16])
    requires { Near plane.now (right place (length out.old)) by }
    ensures { out.new ≡ listing (row_pel plane.now place by bias) (length out.old) }
{
    for (b, pel) in out.iter_mut().enumerate() {
        let next = Place {
            c: place.c + b,
            ..place
        };
        *pel = displaced(plane, next, by, bias);
    }
}

// Pels from a place on, displaced: a part of the plane where their columns lie inside.
fn window_row(plane: &[u16], place: Place, by: Offset, bias: usize, out: &mut [u16])
    requires { Near plane.now (right place (length out.old)) by }
    ensures { out.new ≡ listing (row_pel plane.now place by bias) (length out.old) }
{
    let n = out.len();
    if bias <= place.c + by.x && place.c + by.x + n <= place.width + bias {
        let at = displaced_start(n, place, by, bias);
        let row = &plane[at..at + n];
        for (b, pel) in out.iter_mut().enumerate() {
            *pel = row[b];
        }
    } else {
        clamped_row(plane, place, by, bias, out);
    }
}

// Row a of a window, written where it lies in the buffer.
fn place_row(
    plane: &[u16],
    place: Place,
    by: Offset,
    bias: usize,
    side: usize,
    a: usize,
    out: &mut [u16],
)
    requires near { Near plane.now (right (down place a) side) by }
    requires window_row { WindowRow side a (length out.old) }
    ensures { out.new ≡ placed (a * side) (listing (window_pel plane.now place by bias a) side) out.old }
{
    let row = Place {
        r: place.r + a,
        ..place
    };
    let from = a * side;
    window_row(plane, row, by, bias, &mut out[from..from + side]);
}

// The square of pels whose first lies so much less the bias from a place.
pub fn window(plane: &[u16], place: Place, by: Offset, bias: usize, side: usize, out: &mut [u16])
    requires near { Near plane.now (right (down place side) side) by }
    requires out_len { length out.old ≡ side * side }
    ensures { out.new ≡ window_of plane.now place by bias side }
{
    for a in 0..side {
        place_row(plane, place, by, bias, side, a, &mut *out);
    }
}
