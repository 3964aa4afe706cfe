// The least total: rows are put in one by one, each by an augmenting path in the equality graph, with prices. Prices, pairs and the search are
// those of the module tree.
ghost use Rattle.std.specs.Prelude.{◌≡◌, ℕ, ◌+◌, ◌<◌, length};
ghost use Rattle.assignment_problem.specs.Choice.{cell_at, total};
ghost use Rattle.assignment_problem.specs.Recursion.{least_total};
ghost use Rattle.alternating_tree.specs.Lists.{at, Nearest};
ghost use Rattle.alternating_tree.specs.State.{Matrix as Fitting, State, Growing, Cleared};

use super::tree;
use super::tree::{Pairing, Prices, Search};
use assignment_problem::Matrix;

// Row i stands alone in the tree; answers the nearest column.
fn prepare(
    m: Matrix<'_>,
    i: usize,
    prices: &mut Prices,
    pairs: &mut Pairing,
    search: &mut Search,
) -> usize
    requires matrix { Fitting m.cells.now m.rows m.columns × (i < m.rows)
        × State m.cells.now m.rows m.columns i prices.old.u prices.old.w pairs.old.row_of pairs.old.col_of }
    ensures size { length search.new.seen ≡ 65 }
    ensures growing { (f : ℕ) × Growing m.entry.cells.now m.entry.rows m.entry.columns i 1 f 0 prices.new.u prices.new.w pairs.new.row_of
        pairs.new.col_of search.new.dist search.new.from search.new.seen }
    ensures nearest { Nearest search.new.seen search.new.dist m.entry.columns result }
    ensures alone { Cleared m.entry.columns search.new.seen × (at pairs.new.col_of i ≡ m.entry.columns) }
{
    prices.u[i] = 0;
    pairs.row_of[m.columns] = i;
    pairs.col_of[i] = m.columns;
    tree::clear(&mut search.seen, m.columns);
    tree::begin(m, i, prices, pairs, search)
}

// Row i gets a column, and the rows before it keep one each.
fn insert(m: Matrix<'_>, i: usize, prices: &mut Prices, pairs: &mut Pairing, search: &mut Search)
    requires matrix { Fitting m.cells.now m.rows m.columns × (i < m.rows)
        × State m.cells.now m.rows m.columns i prices.old.u prices.old.w pairs.old.row_of pairs.old.col_of }
    ensures { State m.entry.cells.now m.entry.rows m.entry.columns (i + 1) prices.new.u prices.new.w pairs.new.row_of pairs.new.col_of }
{
    let mut j = prepare(m, i, prices, pairs, search);
    let mut t = 1;
    // Columns join the tree until one is free.
    loop {
        let d = search.dist[j];
        t += 1;
        let r = pairs.row_of[j];
        if m.rows <= r {
            search.seen[j] = t;
            tree::raise(search, pairs, prices, i, m.columns, t, d);
            tree::augment(m, search, j, pairs);
            return;
        }
        j = tree::join(m, r, j, t, d, prices, pairs, search);
    }
}

// Every row gets a column, and their total is the least. Of least choices it may be any; the prices with which it is tight are named in State,
// and none is larger than the largest cell.
pub(crate) fn solve(m: Matrix<'_>, prices: &mut Prices, pairs: &mut Pairing, search: &mut Search)
    requires matrix { Fitting m.cells.now m.rows m.columns
        × ((j : ℕ) → j < m.columns → (at pairs.old.row_of j ≡ m.rows) × (at prices.old.w j ≡ 0)) }
    ensures prices { State m.entry.cells.now m.entry.rows m.entry.columns m.entry.rows prices.new.u prices.new.w pairs.new.row_of pairs.new.col_of }
    ensures least { total m.entry.rows (cell_at m.entry.cells.now m.entry.columns) (at pairs.new.col_of) ≡ least_total
        (cell_at m.entry.cells.now m.entry.columns) m.entry.rows m.entry.columns }
{
    for i in 0..m.rows {
        insert(m, i, prices, pairs, search);
    }
}
