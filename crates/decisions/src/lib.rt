// From a filled matrix to the decisions and their total.
#![tactic(auto)]

ghost use Rattle.std.specs.Prelude.{◌≡◌, ◌++◌, ℕ, ◌+◌, ◌*◌, ◌<◌, ◌≤◌, length, get_or, drop};
ghost use Rattle.laws.specs.Tables.{tab};
ghost use Rattle.assignment_problem.specs.Choice.{cell_at};
ghost use Rattle.assignment_problem.specs.Recursion.{least_total};
ghost use Rattle.decisions.specs.Decisions.{Filled, told, told_at, decision_by};

use assignment_problem::Matrix;
use mask::Ones;

// What a car is told: the stop of its column, or 0 where the column is spare or its cell is the sentinel.
fn decision(place: usize, cell: u64, stops: Ones, ids: &[u32]) -> u32
    requires { (length ids.now ≡ 64) × (stops.count ≤ 64) × ((k : ℕ) → k < stops.count → get_or stops.at k 0 < 64) }
    ensures { result ≡ told stops ids.now place cell }
{
    if stops.count <= place {
        return 0;
    }
    if scale::SENTINEL <= cell {
        return 0;
    }
    let j = stops.at[place];
    ids[j]
}

// The decisions of the cars, whose columns are placed.
fn write(m: Matrix<'_>, places: &[u32; 32], stops: Ones, ids: &[u32], decisions: &mut [u32])
    requires { Filled m.cells.now m.rows m.columns stops ids.now (length decisions.old)
        × ((r : ℕ) → r < m.rows → get_or places.now r 0 < m.columns) }
    ensures { (length decisions.new ≡ length decisions.old)
        × (decisions.new ≡ tab (told_at m.entry.cells.now m.entry.columns places.now stops ids.now) m.entry.rows ++
        drop m.entry.rows decisions.old) }
{
    for r in 0..m.rows {
        let place = places[r] as usize;
        let cell = m.at(r, place);
        decisions[r] = decision(place, cell, stops, ids);
    }
}

// The decisions of n cars and their total.
pub fn decide<'a>(
    cells: &'a [u64],
    n: usize,
    columns: usize,
    stops: Ones,
    ids: &'a [u32],
    decisions: &mut [u32],
) -> u64
    requires { Filled cells.now n columns stops ids.now (length decisions.old) }
    ensures { let by = decision_by cells.now n columns stops ids.now in
        (result ≡ least_total (cell_at cells.now columns) n columns)
        × (length decisions.new ≡ length decisions.old)
        × (decisions.new ≡ tab by n ++ drop n decisions.old) }
{
    let mut places = [0u32; 32];
    let answer = matcher::assign(n, columns, cells, &mut places);
    let m = Matrix {
        cells,
        rows: n,
        columns,
    };
    write(m, &places, stops, ids, decisions);
    answer.unwrap_or(0)
}
