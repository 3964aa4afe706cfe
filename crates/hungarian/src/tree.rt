// The parts of the method: the alternating tree of a row that has no column yet, its prices, and the augmenting path.
//
// There are at most 32 rows and at most 64 columns; the column past the last one is the stand, for the row that has no column yet.
// No heap is used: each array has room for the largest matrix, and rows and columns are named by their indices.
ghost use Rattle.std.specs.Prelude.{◌≡◌, ℕ, ◌+◌, ◌*◌, ◌<◌, ◌≤◌, length};
ghost use Rattle.alternating_tree.specs.Lists.{at, big, gain, Rooted, Nearest, RaisedRows, RaisedColumns, DistancesRelaxed, Stationed};
ghost use Rattle.alternating_tree.specs.Lists.{Going, Gone};
ghost use Rattle.alternating_tree.specs.State.{Cleared, Joined};

use assignment_problem::Matrix;

// The price u of each row and the discount w of each column: u[r] is at most its cell and w[j] together.
#[derive(Drop)]
pub(crate) struct Prices {
    pub(crate) u: [u64; 32],
    pub(crate) w: [u64; 65],
}

// The row of each column, the number of rows where it is free, and the column of each row.
#[derive(Drop)]
pub(crate) struct Pairing {
    pub(crate) row_of: [usize; 65],
    pub(crate) col_of: [usize; 32],
}

// A search for columns.
//   seen         the turn at which a column joined the alternating tree, 0 outside it; the stand is the root, with turn 1
//   dist, from   the distance of each column from the root, and the tree column whose row it is reached from
//   queue, len   the columns seen, in order, and how many they are
// The prices of the tree are raised once, when it reaches a free column.
#[derive(Drop)]
pub(crate) struct Search {
    pub(crate) dist: [u64; 65],
    pub(crate) from: [usize; 65],
    pub(crate) seen: [usize; 65],
    pub(crate) queue: [usize; 65],
    pub(crate) len: usize,
}

// What columns are compared by: twice the distance k, and 1 more where a row r below n has the column. So of equal distances a free column's is
// less, and no branch asks for it.
fn rank(k: u64, r: usize, n: usize) -> u64
    requires { k < 9223372036854775808 }
    ensures free { n ≤ r → result ≡ 2 * k }
    ensures taken { r < n → result ≡ 2 * k + 1 }
{
    if r < n {
        return 2 * k + 1;
    }
    2 * k
}

// Row i alone in the tree: the distance of each column is its slack, and the stand is where it is seen from. Answers the nearest column, a free one
// where it can; the first is less than the rank that is started from.
pub(crate) fn begin(
    m: Matrix<'_>,
    i: usize,
    prices: &Prices,
    pairs: &Pairing,
    search: &mut Search,
) -> usize
    requires cols_bound { (m.columns ≤ 64) × (i * m.columns + m.columns ≤ length m.cells.now) }
    requires by_index { (k : ℕ) → at m.cells.now k ≤ big }
    requires by_index_2 { (j : ℕ) → j < m.columns → at prices.now.w j ≤ big }
    ensures seen { search.new.seen ≡ search.old.seen }
    ensures rooted { Rooted m.entry.cells.now m.entry.columns i prices.now.w search.new.dist search.new.from }
    ensures nearest { (0 < m.entry.columns → result < m.entry.columns)
        × ((j : ℕ) → j < m.entry.columns → at search.new.dist result ≤ at search.new.dist j) }
    ensures free_first { (j : ℕ) → j < m.entry.columns → at search.new.dist j ≡ at search.new.dist result
        → m.entry.rows ≤ at pairs.now.row_of j → m.entry.rows ≤ at pairs.now.row_of result }
{
    let mut best = 0;
    let mut least = 18446744073709551615;
    for j in 0..m.columns {
        let s = m.at(i, j) + prices.w[j];
        search.dist[j] = s;
        search.from[j] = m.columns;
        let a = rank(s, pairs.row_of[j], m.rows);
        if a < least {
            best = j;
            least = a;
        }
    }
    search.dist[m.columns] = 0;
    best
}

// What a price gains until the tree comes to the distance d, where its column joined at the distance k, with the turn s; 0: it did not.
fn gained(s: usize, d: u64, k: u64) -> u64
    requires { 0 < s → k ≤ d }
    ensures { result ≡ gain s d k }
{
    if s == 0 {
        return 0;
    }
    d - k
}

// The prices of the tree's rows, at the distance d.
fn raise_rows(search: &Search, pairs: &Pairing, u: &mut [u64; 32], rows: usize, d: u64)
    requires rows_bound { (rows ≤ 32) × (d ≤ big) }
    requires by_index { (r : ℕ) → r < rows → (at pairs.now.col_of r ≤ 64) × (at u.old r ≤ big) }
    requires by_index_2 { (r : ℕ) → r < rows → 0 < at search.now.seen (at pairs.now.col_of r)
        → at search.now.dist (at pairs.now.col_of r) ≤ d }
    ensures { RaisedRows search.now.seen pairs.now.col_of search.now.dist rows d u.old u.new }
{
    for r in 0..rows {
        let x = pairs.col_of[r];
        u[r] += gained(search.seen[x], d, search.dist[x]);
    }
}

// The discounts of the tree's columns, at the distance d.
fn raise_columns(search: &Search, w: &mut [u64; 65], cols: usize, d: u64)
    requires cols_bound { (cols ≤ 64) × (d ≤ big) }
    requires by_index { (j : ℕ) → j < cols → (at w.old j ≤ big) × (0 < at search.now.seen j → at search.now.dist j ≤ d) }
    ensures { RaisedColumns search.now.seen search.now.dist cols d w.old w.new }
{
    for j in 0..cols {
        w[j] += gained(search.seen[j], d, search.dist[j]);
    }
}

// The prices of the tree's rows and the discounts of its columns, where it comes to a free column at the distance d, as its turn t. As turn 2 that
// column is alone in the tree with row i, whose price is the only one that gains.
pub(crate) fn raise(
    search: &Search,
    pairs: &Pairing,
    prices: &mut Prices,
    i: usize,
    cols: usize,
    t: usize,
    d: u64,
)
    requires i_bound { (i < 32) × (cols ≤ 64) × (d ≤ big) }
    requires by_index { (r : ℕ) → r < i + 1 → (at pairs.now.col_of r ≤ 64) × (at prices.old.u r ≤ big) }
    requires by_index_2 { (r : ℕ) → r < i + 1 → 0 < at search.now.seen (at pairs.now.col_of r)
        → at search.now.dist (at pairs.now.col_of r) ≤ d }
    requires by_index_3 { (j : ℕ) → j < cols → (at prices.old.w j ≤ big) × (0 < at search.now.seen j → at search.now.dist j ≤ d) }
    requires i_value { t ≡ 2 → gain (at search.now.seen (at pairs.now.col_of i)) d (at search.now.dist (at pairs.now.col_of i)) ≡ d }
    requires r_value { t ≡ 2 → (r : ℕ) → r < i
        → gain (at search.now.seen (at pairs.now.col_of r)) d (at search.now.dist (at pairs.now.col_of r)) ≡ 0 }
    requires j_value { t ≡ 2 → (j : ℕ) → j < cols → gain (at search.now.seen j) d (at search.now.dist j) ≡ 0 }
    ensures rows { RaisedRows search.now.seen pairs.now.col_of search.now.dist (i + 1) d prices.old.u prices.new.u }
    ensures columns { RaisedColumns search.now.seen search.now.dist cols d prices.old.w prices.new.w }
{
    if t == 2 {
        prices.u[i] += d;
        return;
    }
    raise_rows(search, pairs, &mut prices.u, i + 1, d);
    raise_columns(search, &mut prices.w, cols, d);
}

// The distances outside the tree are lowered to those by row r, whose column is col, at the distance d. Answers the column outside the tree with the
// least distance, a free one where it can.
fn relax(
    m: Matrix<'_>,
    r: usize,
    col: usize,
    d: u64,
    prices: &Prices,
    pairs: &Pairing,
    search: &mut Search,
) -> usize
    requires cols_bound { (m.columns ≤ 64) × (r * m.columns + m.columns ≤ length m.cells.now) × (d ≤ big) × (r < 32) }
    requires by_index { (f : ℕ) × (f < m.columns) × (at search.old.seen f ≡ 0) }
    requires by_index_2 { (k : ℕ) → at m.cells.now k ≤ big }
    requires by_index_3 { (j : ℕ) → j < m.columns → (at prices.now.w j ≤ big) × (at search.old.seen j ≡ 0
        → at prices.now.u r ≤ at m.cells.now (r * m.columns + j) + at prices.now.w j) }
    ensures seen { search.new.seen ≡ search.old.seen }
    ensures relaxed { DistancesRelaxed m.entry.cells.now m.entry.columns r (at prices.now.u r) col d prices.now.w search.new.seen search.old.dist
        search.old.from search.new.dist search.new.from }
    ensures nearest { Nearest search.new.seen search.new.dist m.entry.columns result }
    ensures free_first { (j : ℕ) → j < m.entry.columns → at search.new.seen j ≡ 0 → at search.new.dist j ≡ at search.new.dist result
        → m.entry.rows ≤ at pairs.now.row_of j → m.entry.rows ≤ at pairs.now.row_of result }
{
    let ur = prices.u[r];
    let mut best = 0;
    let mut least = 18446744073709551615;
    for j in 0..m.columns {
        if search.seen[j] == 0 {
            let s = m.at(r, j) + prices.w[j] - ur + d;
            if s < search.dist[j] {
                search.dist[j] = s;
                search.from[j] = col;
            }
            let k = rank(search.dist[j], pairs.row_of[j], m.rows);
            if k < least {
                best = j;
                least = k;
            }
        }
    }
    best
}

// The row r, or nothing, is put at column x.
fn put(pairs: &mut Pairing, n: usize, r: usize, x: usize)
    requires { (n ≤ 32) × (x ≤ 64) }
    ensures stationed { Stationed n r x pairs.old.row_of pairs.old.col_of pairs.new.row_of pairs.new.col_of }
    ensures sizes { (length pairs.new.row_of ≡ 65) × (length pairs.new.col_of ≡ 32) }
{
    pairs.row_of[x] = r;
    if r < n {
        pairs.col_of[r] = x;
    }
}

// Along the augmenting path from the hole j to the stand, the column of turn 1, what each column holds moves on to the one before it.
pub(crate) fn augment(m: Matrix<'_>, search: &Search, j: usize, pairs: &mut Pairing)
    requires n_bound { (m.rows ≤ 32) × (m.columns ≤ 64)
        × Going m.rows m.columns search.now.seen search.now.from pairs.old.row_of pairs.old.col_of j }
    ensures { Gone m.entry.rows m.entry.columns search.now.seen search.now.from pairs.old.row_of pairs.old.col_of j
        pairs.new.row_of pairs.new.col_of m.entry.columns }
{
    let mut hole = j;
    // A path is followed to the stand, and nothing is counted.
    while 1 < search.seen[hole] {
        let next = search.from[hole];
        let r = pairs.row_of[next];
        put(pairs, m.rows, r, hole);
        pairs.row_of[next] = m.rows;
        hole = next;
    }
}

// No column is in the tree but the stand.
pub(crate) fn clear(seen: &mut [usize; 65], cols: usize)
    requires { cols ≤ 64 }
    ensures size { length seen.new ≡ 65 }
    ensures cleared { Cleared cols seen.new }
{
    for j in 0..cols {
        seen[j] = 0;
    }
    seen[cols] = 1;
}

// Column j joins the tree, as its turn t at the distance d, and its row r lowers the distances outside. Answers the column outside with the least
// distance.
pub(crate) fn join(
    m: Matrix<'_>,
    r: usize,
    j: usize,
    t: usize,
    d: u64,
    prices: &Prices,
    pairs: &Pairing,
    search: &mut Search,
) -> usize
    requires cols_bound { (m.columns ≤ 64) × (r * m.columns + m.columns ≤ length m.cells.now) × (j < m.columns) × (0 < t) × (d ≤ big)
        × (r < 32) }
    requires by_index { (f : ℕ) × (f < m.columns) × (at search.old.seen f ≡ 0) × (f ≡ j → ⊥) }
    requires by_index_2 { (k : ℕ) → at m.cells.now k ≤ big }
    requires by_index_3 { (x : ℕ) → x < m.columns → (at prices.now.w x ≤ big) × (at search.old.seen x ≡ 0
        → at prices.now.u r ≤ at m.cells.now (r * m.columns + x) + at prices.now.w x) }
    ensures size { length search.new.seen ≡ 65 }
    ensures joined { Joined m.entry.cells.now m.entry.columns r (at prices.now.u r) j t d prices.now.w search.old.seen search.old.dist
        search.old.from search.new.seen search.new.dist search.new.from }
    ensures nearest { Nearest search.new.seen search.new.dist m.entry.columns result }
{
    search.seen[j] = t;
    relax(m, r, j, d, prices, pairs, search)
}
