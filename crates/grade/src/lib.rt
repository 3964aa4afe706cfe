// Grading a site's choice (document 02, F-8): u are the prices of cars, v those of columns.
#![tactic(auto)]

ghost use Rattle.std.specs.Prelude.{◌≡◌, ◌≤◌, length, Ok};
ghost use Rattle.layout.specs.Verdict.{verdict};
ghost use Rattle.grade.specs.Graded.{sent, done, short_matrix, graded, done_of, grade_of};

use layout::{Counts, Refusal, SHORT_BUFFER};

// "19 when there isn't one column for each idle car, or a column repeats or lies outside the matrix"
const WRONG_COLUMNS: Refusal = Refusal {
    number: 19,
    offset: 0,
};

// "20 when there isn't one price for each car and column, or a price is beyond 18,014,398,509,481,984 either way"
const WRONG_PRICES: Refusal = Refusal {
    number: 20,
    offset: 0,
};

// What the grader answers of a choice.
#[derive(Clone, Copy, Debug, PartialEq, Eq)]
pub enum Graded {
    Least,
    NotShown,
}

// "The grader answers "least" when all this holds and "not shown" otherwise."
fn answer(least: bool) -> Graded
    ensures { Ok result ≡ graded least }
{
    if least {
        Graded::Least
    } else {
        Graded::NotShown
    }
}

// The grade of a choice on an accepted sheet, with a matrix that is long enough.
fn judge<'a>(
    s: &'a [u8],
    c: Counts,
    columns: &'a [u32],
    u: &'a [i64],
    v: &'a [i64],
    matrix: &mut [u64],
) -> Result<Graded, Refusal>
    requires { (verdict s.now ≡ Ok c) × (2048 ≤ length matrix.old) }
    ensures done { done result matrix.new ≡ done_of (Ok c) s.now
        (sent columns.now u.now v.now) matrix.old }
    ensures length { length matrix.new ≡ length matrix.old }
{
    let mut ids = [0u32; 64];
    let mut xs = [0.0f64; 128];
    let masks = cells::see_stops(s, c, &mut ids, &mut xs);
    let stops = mask::list_ones(masks.pending);
    let idle = cells::list_cars(s, c);
    let n = idle.count;
    let w = bench::columns(n, stops.count);
    if shown::wrong_columns(n, w, columns) {
        return Err(WRONG_COLUMNS);
    }
    if shown::wrong_prices(n, w, u, v) {
        return Err(WRONG_PRICES);
    }
    let most = sheet::limit(s) as u32;
    cells::fill_matrix(s, c, most, &ids, &xs, masks, stops, idle, w, matrix);
    let least = shown::shows(n, w, matrix, columns, u, v);
    Ok(answer(least))
}

// Whether the matrix is too short: refusal 1.
fn short_matrix(cells: usize) -> bool
    ensures { result ≡ short_matrix cells }
{
    cells < 2048
}

// The grade of what a site sent. A refusal leaves the matrix as it is; otherwise it is filled as by a pass, and what stands past its cells is left.
pub fn grade<'a>(
    s: &'a [u8],
    columns: &'a [u32],
    u: &'a [i64],
    v: &'a [i64],
    matrix: &mut [u64],
) -> Result<Graded, Refusal>
    ensures { done result matrix.new ≡ grade_of s.now (sent columns.now u.now v.now)
        matrix.old }
{
    if short_matrix(matrix.len()) {
        return Err(SHORT_BUFFER);
    }
    let c = sheet::read(s)?;
    judge(s, c, columns, u, v, matrix)
}
