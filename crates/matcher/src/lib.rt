// The matcher: one distinct column a car, the least total, among these most cars sent, and among these the lowest columns, first car first.
#![tactic(auto)]

ghost use Rattle.std.specs.Prelude.{◌≡◌, ◌++◌, ◌<◌, ◌≤◌, length, drop};
ghost use Rattle.laws.specs.Folds.{any};
ghost use Rattle.assignment_problem.specs.Choice.{cell_at, sentinel};
ghost use Rattle.assignment_problem.specs.Recursion.{chosen, least_total};
ghost use Rattle.matcher.specs.Promise.{too_large, matching, written};
ghost use Rattle.matcher.specs.Fits.{Fitting};

// Of a cell: 0 where it is at most the sentinel, and more above it. A quotient of 1 is taken off first, for the sentinel's own.
fn excess(cell: u64) -> u64
    ensures at_most { cell ≤ sentinel → result ≡ 0 }
    ensures above { sentinel < cell → 0 < result }
{
    (cell - cell / 281474976710656) / 281474976710656
}

// Whether some cell is above the sentinel. Nearly always none is, so every cell is looked at, without a branch for each.
pub fn too_large(cells: &[u64]) -> bool
    ensures { result ≡ any (too_large cells.now) (length cells.now) }
{
    let mut over = 0;
    for &cell in cells {
        over |= excess(cell);
    }
    over != 0
}

// The choice of cells that fit, by the method on marked cells, which stand in a buffer: its columns stand first in places, and the answer is its total.
fn choose_in(
    cars: usize,
    columns: usize,
    cells: &[u64],
    marked: &mut [u64],
    places: &mut [u32],
) -> u64
    requires { Fitting cars columns cells.now × (cars ≤ length places.old) × (length cells.now ≤ length marked.old) }
    ensures total { result ≡ least_total (cell_at cells.now columns) cars columns }
    ensures columns { places.new ≡ chosen (cell_at cells.now columns) cars columns ++
        drop cars places.old }
{
    marks::mark_cells(cells, marked);
    let least = hungarian::choose(&marked[..cells.len()], cars, columns, places);
    least / 64
}

// The same of any cells that fit. Few cells have a small buffer: to clear a large one would take longer than the choice.
fn choose(cars: usize, columns: usize, cells: &[u64], places: &mut [u32]) -> u64
    requires { Fitting cars columns cells.now × (cars ≤ length places.old) }
    ensures total { result ≡ least_total (cell_at cells.now columns) cars columns }
    ensures columns { places.new ≡ chosen (cell_at cells.now columns) cars columns ++
        drop cars places.old }
{
    if cells.len() <= 128 {
        let mut few = [0u64; 128];
        return choose_in(cars, columns, cells, &mut few, places);
    }
    let mut marked = [0u64; 2048];
    choose_in(cars, columns, cells, &mut marked, places)
}

// The columns of the choice stand first in places, and the answer is its total; where the arguments do not fit it is None, and places are left.
pub fn assign(cars: usize, columns: usize, cells: &[u64], places: &mut [u32]) -> Option<u64>
    ensures { (result ≡ matching cars columns cells.now (length places.old))
        × (places.new ≡ written cars columns cells.now places.old) }
{
    if 32 < cars {
        return None;
    }
    if 64 < columns {
        return None;
    }
    if columns < cars {
        return None;
    }
    if cells.len() != cars * columns {
        return None;
    }
    if places.len() < cars {
        return None;
    }
    if too_large(cells) {
        return None;
    }
    Some(choose(cars, columns, cells, places))
}
