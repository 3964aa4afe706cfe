// The plain matcher: the choice of a matrix of up to 4 cars and 5 columns, by trying all of them (request F-13).
#![tactic(auto)]

ghost use Rattle.std.specs.Prelude.{◌≡◌, ◌++◌, ◌+◌, ◌*◌, ◌≤◌, ◌<◌, length, drop};
ghost use Rattle.laws.specs.Tables.{tab};
ghost use Rattle.assignment_problem.specs.Choice.{sentinel};
ghost use Rattle.assignment_problem.specs.Recursion.{before};
ghost use Rattle.plain_matcher.specs.Promise.{column_at, Small, chosen_of, plain_of, lent_plain, refusal_number, places_left};
ghost use Rattle.plain_matcher.specs.Held.{better_of, front_of, standing_of, Room, Rest, HoldsBest};

use assignment_problem::Matrix;

// The columns of up to 4 cars, 0 where there is no such car: four fields, of which `four_of` and the theorem `same_columns` speak.
#[derive(Clone, Copy, Debug, PartialEq, Eq)]
pub struct Columns {
    pub first: u32,
    pub second: u32,
    pub third: u32,
    pub fourth: u32,
}

// The choice: the columns of its cars, and their total.
#[derive(Clone, Copy, Debug, PartialEq, Eq)]
pub struct Chosen {
    pub columns: Columns,
    pub total: u64,
}

// Why there is no choice: fewer than 4 places are lent, or the matrix is not a small one.
#[derive(Clone, Copy, Debug, PartialEq, Eq)]
pub enum Refusal {
    FewPlaces,
    NotSmall,
}

impl Refusal {
    // The number that the hosts are told.
    pub fn number(self) -> u32
        ensures { result ≡ refusal_number self }
    {
        match self {
            Refusal::FewPlaces => 1,
            Refusal::NotSmall => 22,
        }
    }
}

// Columns of the cars from some car on, the total of their cells, and how many of these cars are left standing.
#[derive(Clone, Copy)]
struct Choice {
    columns: Columns,
    total: u64,
    standing: u64,
}

// 1 for a cell at which a car is left standing, and 0 where it is sent.
fn standing(cell: u64) -> u64
    ensures { result ≡ standing_of cell }
{
    if cell == 281474976710656 {
        return 1;
    }
    0
}

// Whether a total t with x cars standing comes before a total s with y.
fn is_before(t: u64, x: u64, s: u64, y: u64) -> bool
    ensures { result ≡ before t x s y }
{
    if t == s {
        return x < y;
    }
    t < s
}

// The second where it comes before the first, else the first.
fn better(first: Option<Choice>, second: Option<Choice>) -> Option<Choice>
    ensures { result ≡ better_of first second }
{
    let Some(a) = first else { return second };
    let Some(b) = second else { return first };
    if is_before(b.total, b.standing, a.total, a.standing) {
        second
    } else {
        first
    }
}

// A car at column j, where its cell is x, in front of the remaining cars.
fn front(x: u64, j: u32, rest: Option<Choice>) -> Option<Choice>
    requires { (x ≤ sentinel) × Room rest }
    ensures { result ≡ front_of x j rest }
{
    let b = rest?;
    let total = x + b.total;
    let left = standing(x) + b.standing;
    Some(Choice {
        columns: Columns {
            first: j,
            second: b.columns.first,
            third: b.columns.second,
            fourth: b.columns.third,
        },
        total,
        standing: left,
    })
}

// The best for the cars from car i on, of which so many are left, over the columns that are not taken: the first of these cars is given each free
// column, and the remaining ones are passed on.
fn best(m: &Matrix<'_>, i: usize, left: usize, taken: [bool; 5]) -> Option<Choice>
    requires { Rest m.now.cells.now m.now.columns i left taken }
    ensures { HoldsBest m.now.cells.now m.now.columns i left taken result }
{
    if left == 0 {
        return Some(Choice {
            columns: Columns {
                first: 0,
                second: 0,
                third: 0,
                fourth: 0,
            },
            total: 0,
            standing: 0,
        });
    }
    let mut found = None;
    for j in 0..m.columns {
        if !taken[j] {
            let mut more = taken;
            more[j] = true;
            let rest = best(m, i + 1, left - 1, more);
            let first = front(m.at(i, j), j as u32, rest);
            found = better(found, first);
        }
    }
    found
}

// The choice of a matrix that is small enough.
fn choose(m: Matrix<'_>) -> Result<Chosen, Refusal>
    requires { Small m.rows m.columns m.cells.now }
    ensures { result ≡ chosen_of m.entry.rows m.entry.columns m.entry.cells.now }
{
    let best = best(&m, 0, m.rows, [false; 5]).ok_or(Refusal::NotSmall)?;
    Ok(Chosen {
        columns: best.columns,
        total: best.total,
    })
}

// The choice of any matrix, or a refusal of one that is not small.
pub fn assign(cars: usize, columns: usize, cells: &[u64]) -> Result<Chosen, Refusal>
    ensures { result ≡ plain_of cars columns cells.now }
{
    if 4 < cars {
        return Err(Refusal::NotSmall);
    }
    if 5 < columns {
        return Err(Refusal::NotSmall);
    }
    if columns < cars {
        return Err(Refusal::NotSmall);
    }
    if cells.len() != cars * columns {
        return Err(Refusal::NotSmall);
    }
    if matcher::too_large(cells) {
        return Err(Refusal::NotSmall);
    }
    choose(Matrix {
        cells,
        rows: cars,
        columns,
    })
}

// The column of car k.
fn column_at(columns: Columns, k: usize) -> u32
    ensures { result ≡ column_at columns k }
{
    match k {
        0 => columns.first,
        1 => columns.second,
        2 => columns.third,
        _ => columns.fourth,
    }
}

// The columns of so many cars stand first in places.
fn put_columns(columns: Columns, cars: usize, places: &mut [u32])
    requires { cars ≤ length places.old }
    ensures { places.new ≡ tab (column_at columns) cars ++ drop cars places.old }
{
    for k in 0..cars {
        places[k] = column_at(columns, k);
    }
}

// The same for a host, who lends places: the columns of the choice stand first in them; fewer than 4 places are refused. A refusal leaves them.
pub fn fill_columns(
    cars: usize,
    columns: usize,
    cells: &[u64],
    places: &mut [u32],
) -> Result<Chosen, Refusal>
    ensures { let p = lent_plain cars columns cells.now (length places.old) in
        (result ≡ p) × (places.new ≡ places_left cars p places.old) }
{
    if places.len() < 4 {
        return Err(Refusal::FewPlaces);
    }
    let chosen = assign(cars, columns, cells)?;
    put_columns(chosen.columns, cars, places);
    Ok(chosen)
}
