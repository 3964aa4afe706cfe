// Whether prices show that a choice is least (document 02, F-8): u are the prices of cars, v those of columns.
#![tactic(auto)]

ghost use Rattle.std.specs.Prelude.{◌≡◌, true, ℕ, ◌<◌, ◌≤◌, eqb, length, get_or};
ghost use Rattle.laws.specs.Folds.{any, every};
ghost use Rattle.prices.specs.Price.{in_range, within};
ghost use Rattle.assignment_problem.specs.Choice.{cell_at};
ghost use Rattle.shown.specs.Shown.{never_above, equal_where_chosen, columns_priced, shown};
ghost use Rattle.shown.specs.Fits.{price_at, column_of, Priced, Inside};
ghost use Rattle.shown.specs.Refusals.{refusal19, mispriced, refusal20};

// Whether the price of car i and no column's exceed their cell.
fn row_within(n: usize, w: usize, cells: &[u64], u: &[i64], v: &[i64], i: usize) -> bool
    requires { Priced n w cells.now u.now v.now × (i < n) }
    ensures { result ≡ every (λ j. within (price_at u.now i) (price_at v.now j) (cell_at cells.now w i j)) w }
{
    let mut ok = true;
    for j in 0..w {
        let cell = cells[i * w + j];
        ok = ok & prices::within(u[i], v[j], cell);
    }
    ok
}

// Whether no car's price and column's exceed their cell.
fn never_above(n: usize, w: usize, cells: &[u64], u: &[i64], v: &[i64]) -> bool
    requires { Priced n w cells.now u.now v.now }
    ensures { result ≡ never_above n w (cell_at cells.now w) (price_at u.now) (price_at v.now) }
{
    let mut ok = true;
    for i in 0..n {
        ok = ok & row_within(n, w, cells, u, v, i);
    }
    ok
}

// Whether a car has this column.
fn taken(n: usize, columns: &[u32], j: usize) -> bool
    requires { n ≤ length columns.now }
    ensures { result ≡ any (λ i. eqb (column_of columns.now i) j) n }
{
    let mut found = false;
    for column in &columns[..n] {
        found |= *column as usize == j;
    }
    found
}

// Whether each car's price and its column's are their cell.
fn equal_where_chosen(
    n: usize,
    w: usize,
    cells: &[u64],
    columns: &[u32],
    u: &[i64],
    v: &[i64],
) -> bool
    requires { Priced n w cells.now u.now v.now × Inside n w columns.now }
    ensures { result ≡ equal_where_chosen n (cell_at cells.now w) (column_of columns.now) (price_at u.now)
        (price_at v.now) }
{
    let mut ok = true;
    for i in 0..n {
        let j = columns[i] as usize;
        let cell = cells[i * w + j];
        ok = ok & prices::equals(u[i], v[j], cell);
    }
    ok
}

// Whether each column's price is zero or less, and zero where no car has it.
fn columns_priced(n: usize, w: usize, columns: &[u32], v: &[i64]) -> bool
    requires { (n ≤ length columns.now) × (w ≤ length v.now) × (w ≤ 64) × ((j : ℕ) → j < w → in_range (price_at v.now j) ≡ true) }
    ensures { result ≡ columns_priced n w (column_of columns.now) (price_at v.now) }
{
    let mut ok = true;
    for j in 0..w {
        let y = v[j];
        let some = taken(n, columns, j);
        ok = ok & (prices::zero_or_less(y) & (some | prices::is_zero(y)));
    }
    ok
}

// Whether the prices show that the choice is least.
pub fn shows(n: usize, w: usize, cells: &[u64], columns: &[u32], u: &[i64], v: &[i64]) -> bool
    requires { Priced n w cells.now u.now v.now × Inside n w columns.now }
    ensures { result ≡ shown n w (cell_at cells.now w) (column_of columns.now) (price_at u.now)
        (price_at v.now) }
{
    let under = never_above(n, w, cells, u, v);
    let equal = equal_where_chosen(n, w, cells, columns, u, v);
    let priced = columns_priced(n, w, columns, v);
    under & (equal & priced)
}

// Whether there isn't one column for each of n cars, or a column repeats or lies outside a matrix of w columns: refusal 19.
pub fn wrong_columns(n: usize, w: usize, columns: &[u32]) -> bool
    ensures { result ≡ refusal19 n w columns.now }
{
    if columns.len() != n {
        return true;
    }
    let mut wrong = false;
    for i in 0..n {
        let j = columns[i] as usize;
        wrong = wrong | ((w <= j) | taken(i, columns, j));
    }
    wrong
}

// Whether there isn't one price for each of k, or one is out of its range.
fn mispriced(k: usize, sent: &[i64]) -> bool
    ensures { result ≡ mispriced k sent.now }
{
    if sent.len() != k {
        return true;
    }
    let mut wrong = false;
    for price in sent {
        wrong |= !prices::in_range(*price);
    }
    wrong
}

// Whether there isn't one price for each of n cars and w columns, or a price is out of its range: refusal 20.
pub fn wrong_prices(n: usize, w: usize, u: &[i64], v: &[i64]) -> bool
    ensures { result ≡ refusal20 n w u.now v.now }
{
    mispriced(n, u) | mispriced(w, v)
}
