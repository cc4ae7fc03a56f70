// Gaussian elimination with partial pivoting, in binary64: a system of three or four equations goes
// in, its solution or a refusal comes out. Each operation rounds once, in the written order of
// `solve_linear` (encoder/global_motion.rs); docs/RULES.md, 'Fits and score' and 'Rust forms to recast'.
// Matrix and right side are lent and change in place.
#![tactic(auto)]

ghost use Rattle.std.specs.Prelude.{◌≡◌, ◌<◌, ◌≤◌};
ghost use Rattle.solve.specs.Elimination.{abs_of, too_small, system, pivot_step, pivot_of};
ghost use Rattle.solve.specs.Elimination.{exchanged_rows, exchanged, factor_of};
ghost use Rattle.solve.specs.Elimination.{reduced_row, reduced};
ghost use Rattle.solve.specs.Elimination.{eliminating, column, eliminated};
ghost use Rattle.solve.specs.Solution.{residue_of, unknown_step, unknowns, solution_of, outcome_of, solved};

// docs/RULES.md, 'Fits and score': the binary64 nearest 1e-9, below which a pivot is refused.
const LEAST_PIVOT: f64 = 1e-9;

// Why a system has no solution: a pivot is too small.
#[derive(Clone, Copy, Debug, PartialEq, Eq)]
pub struct Singular;

fn magnitude(x: f64) -> f64
    ensures { result ≡ abs_of x }
{
    x.abs()
}

// A not-a-number pivot is below nothing, so it passes.
fn too_small(pivot: f64) -> bool
    ensures { result ≡ too_small pivot }
{
    magnitude(pivot) < LEAST_PIVOT
}

fn pivot_step(a: &[f64; 16], col: usize, row: usize, pivot: usize) -> usize
    requires { (col < 4) × (row < 4) × (pivot < 4) }
    ensures { (result ≡ pivot_step a.now col row pivot) × (result < 4) }
{
    if magnitude(a[row * 4 + col]) > magnitude(a[pivot * 4 + col]) {
        row
    } else {
        pivot
    }
}

// The row of a column's largest magnitude, from the diagonal down; the first of equals.
fn pivot_of(size: usize, a: &[f64; 16], col: usize) -> usize
    requires { (size ≤ 4) × (col < size) }
    ensures { (result ≡ pivot_of size a.now col) × (result < 4) }
{
    let mut pivot = col;
    for row in col + 1..size {
        pivot = pivot_step(a, col, row, pivot);
    }
    pivot
}

// Two rows change places.
fn exchange_rows(size: usize, first: usize, second: usize, a: &mut [f64; 16])
    requires { (size ≤ 4) × (first < 4) × (second < 4) }
    ensures { a.new ≡ exchanged_rows size first second a.old }
{
    for k in 0..size {
        a.swap(first * 4 + k, second * 4 + k);
    }
}

// A pivot that stands on the diagonal already stays there.
fn exchange(size: usize, col: usize, pivot: usize, a: &mut [f64; 16], b: &mut [f64; 4])
    requires { (size ≤ 4) × (col < 4) × (pivot < 4) }
    ensures { system a.new b.new ≡ exchanged size col pivot (system a.old b.old) }
{
    if pivot == col {
        return;
    }
    exchange_rows(size, col, pivot, a);
    b.swap(col, pivot);
}

// A row less its multiple of the pivot row, from the pivot's column on; the answer is the factor.
fn reduce_row(size: usize, col: usize, row: usize, a: &mut [f64; 16]) -> f64
    requires { (size ≤ 4) × (col < 4) × (row < 4) }
    ensures value { result ≡ factor_of col row a.old }
    ensures a_after { a.new ≡ reduced_row size col row a.old }
{
    let factor = a[row * 4 + col] / a[col * 4 + col];
    for k in col..size {
        a[row * 4 + k] = a[row * 4 + k] - factor * a[col * 4 + k];
    }
    factor
}

// Every row below the diagonal, reduced by the pivot row.
fn reduce_below(size: usize, col: usize, a: &mut [f64; 16], b: &mut [f64; 4])
    requires { (size ≤ 4) × (col < size) }
    ensures { system a.new b.new ≡ reduced size col (system a.old b.old) }
{
    for row in col + 1..size {
        let factor = reduce_row(size, col, row, a);
        b[row] = b[row] - factor * b[col];
    }
}

// Brings the pivot to the diagonal and reduces the rows below it.
fn eliminate_column(
    size: usize,
    col: usize,
    a: &mut [f64; 16],
    b: &mut [f64; 4],
) -> Result<(), Singular>
    requires { (size ≤ 4) × (col < size) }
    ensures { eliminating (system a.new b.new) result ≡ column size col (system a.old b.old) }
{
    let pivot = pivot_of(size, a, col);
    if too_small(a[pivot * 4 + col]) {
        return Err(Singular);
    }
    exchange(size, col, pivot, a, b);
    reduce_below(size, col, a, b);
    Ok(())
}

// A refused column ends the elimination.
fn eliminate(size: usize, a: &mut [f64; 16], b: &mut [f64; 4]) -> Result<(), Singular>
    requires { size ≤ 4 }
    ensures { eliminating (system a.new b.new) result ≡ eliminated size (system a.old b.old) }
{
    for col in 0..size {
        eliminate_column(size, col, a, b)?;
    }
    Ok(())
}

// The right side of a row less the unknowns already found.
fn residue_of(size: usize, a: &[f64; 16], b: &[f64; 4], x: &[f64; 4], row: usize) -> f64
    requires { (size ≤ 4) × (row < size) }
    ensures { result ≡ residue_of size (system a.now b.now) x.now row }
{
    let mut acc = b[row];
    for k in row + 1..size {
        acc = acc - a[row * 4 + k] * x[k];
    }
    acc
}

// The unknown of the i-th row from below.
fn unknown_step(size: usize, a: &[f64; 16], b: &[f64; 4], i: usize, x: &mut [f64; 4])
    requires { (size ≤ 4) × (i < size) }
    ensures { x.new ≡ unknown_step size (system a.now b.now) i x.old }
{
    let row = size - 1 - i;
    x[row] = residue_of(size, a, b, x, row) / a[row * 4 + row];
}

// The unknowns, from the last row up.
fn back_substitute(size: usize, a: &[f64; 16], b: &[f64; 4]) -> [f64; 4]
    requires { size ≤ 4 }
    ensures { result ≡ unknowns size (system a.now b.now) }
{
    let mut x = [0.0f64; 4];
    for i in 0..size {
        unknown_step(size, a, b, i, &mut x);
    }
    x
}

// A matrix of three or four rows, four entries to a row, and its right side: the answer has the unknowns,
// zeros after them.
pub fn solve_linear(size: usize, a: &mut [f64; 16], b: &mut [f64; 4]) -> Result<[f64; 4], Singular>
    requires { size ≤ 4 }
    ensures answer { solution_of result ≡ solved size (system a.old b.old) }
    ensures system_after { eliminating (system a.new b.new) (outcome_of result) ≡ eliminated size (system a.old b.old) }
{
    eliminate(size, a, b)?;
    Ok(back_substitute(size, a, b))
}
