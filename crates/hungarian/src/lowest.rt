// Lowest columns among the least choices: for each row in turn, searches of the equality graph for the lowest column that it can have.
//
// In that graph a row may go to a column where its price is tight, and a free column may be filled by leaving another without a discount free.
// Row i steps onto the stand; each lower column that it may go to is tried, lowest first, and the search follows what the columns hold until it
// comes to row i's own column. Then the rows move along the path, and row i has the lower column. What one search has seen in vain, the next
// ones pass over. Prices, pairs and the search are those of the module tree; its queue has the columns seen, in order.
ghost use Rattle.std.specs.Prelude.{◌≡◌, ℕ, suc, ◌+◌, ◌<◌, ◌≤◌};
ghost use Rattle.laws.specs.Tables.{tab};
ghost use Rattle.assignment_problem.specs.Choice.{cell_at};
ghost use Rattle.assignment_problem.specs.Recursion.{lowest};
ghost use Rattle.alternating_tree.specs.Lists.{at, big};
ghost use Rattle.alternating_tree.specs.State.{Matrix as Fitting, State, unseen};
ghost use Rattle.equality_graph.specs.Settled.{MayIs, SearchReady, Search as Searched, VisitedAll, ExpandedAll, SearchEnded, Settled};

use super::tree;
use super::tree::{Pairing, Prices, Search};
use assignment_problem::Matrix;

// Whether what a column holds, the row r or nothing, may go to column y in the equality graph.
fn may(m: Matrix<'_>, prices: &Prices, r: usize, y: usize) -> bool
    requires { Fitting m.cells.now m.rows m.columns × (y < m.columns) × (at prices.now.w y ≤ big) }
    ensures { MayIs m.entry.cells.now m.entry.rows m.entry.columns prices.now.u prices.now.w r y result }
{
    if m.rows <= r {
        return prices.w[y] == 0;
    }
    prices.u[r] == m.at(r, y) + prices.w[y]
}

// Column y is seen from column x, which holds r, if that may go there and y has no row before i. Few pairs are tight, so that is asked first.
fn visit(
    m: Matrix<'_>,
    i: usize,
    prices: &Prices,
    pairs: &Pairing,
    x: usize,
    r: usize,
    y: usize,
    search: &mut Search,
)
    requires search_ready { SearchReady m.cells.now m.rows m.columns i prices.now.u prices.now.w pairs.now.row_of search.old.seen
        search.old.from search.old.queue }
    requires y_lt_cols { (y < m.columns) × (search.old.len + unseen m.columns search.old.seen ≤ m.columns) }
    ensures ready { SearchReady m.entry.cells.now m.entry.rows m.entry.columns i prices.now.u prices.now.w pairs.now.row_of search.new.seen
        search.new.from search.new.queue }
    ensures visited { VisitedAll m.entry.cells.now m.entry.rows m.entry.columns i search.old.len x r y prices.now.u prices.now.w pairs.now.row_of
        search.old.seen search.old.from search.old.queue search.new.seen search.new.from search.new.queue search.new.len }
{
    if !may(m, prices, r, y) {
        return;
    }
    if search.seen[y] != 0 {
        return;
    }
    if pairs.row_of[y] < i {
        return;
    }
    search.queue[search.len] = y;
    search.len += 1;
    search.seen[y] = search.len + 1;
    search.from[y] = x;
}

// Every column that what the h-th column of the queue holds may go to is seen.
fn expand(m: Matrix<'_>, i: usize, prices: &Prices, pairs: &Pairing, h: usize, search: &mut Search)
    requires search_ready { SearchReady m.cells.now m.rows m.columns i prices.now.u prices.now.w pairs.now.row_of search.old.seen
        search.old.from search.old.queue }
    requires h_lt_len { (h < search.old.len) × (at search.old.queue h < m.columns)
        × (search.old.len + unseen m.columns search.old.seen ≤ m.columns) }
    ensures ready { SearchReady m.entry.cells.now m.entry.rows m.entry.columns i prices.now.u prices.now.w pairs.now.row_of search.new.seen
        search.new.from search.new.queue }
    ensures expanded { ExpandedAll m.entry.cells.now m.entry.rows m.entry.columns i h search.old.len prices.now.u prices.now.w pairs.now.row_of
        search.old.seen search.old.from search.old.queue search.new.seen search.new.from search.new.queue search.new.len }
{
    let x = search.queue[h];
    let r = pairs.row_of[x];
    for y in 0..m.columns {
        visit(m, i, prices, pairs, x, r, y, search);
    }
}

// The search goes on from column j, seen from the stand if row i may go there, until column k is seen or every column seen has been looked from.
fn reach(
    m: Matrix<'_>,
    i: usize,
    prices: &Prices,
    pairs: &Pairing,
    j: usize,
    k: usize,
    search: &mut Search,
)
    requires search_ready { SearchReady m.cells.now m.rows m.columns i prices.now.u prices.now.w pairs.now.row_of search.old.seen
        search.old.from search.old.queue × (j < m.columns) × (k < m.columns) }
    requires search { Searched m.cells.now m.rows m.columns i search.old.len search.old.len j prices.now.u prices.now.w pairs.now.row_of
        search.old.seen search.old.from search.old.queue }
    ensures ready { SearchReady m.entry.cells.now m.entry.rows m.entry.columns i prices.now.u prices.now.w pairs.now.row_of search.new.seen
        search.new.from search.new.queue }
    ensures ended { SearchEnded m.entry.cells.now m.entry.rows m.entry.columns i j k prices.now.u prices.now.w pairs.now.row_of
        search.old.seen search.new.seen search.new.from search.new.queue search.new.len }
{
    let mut h = search.len;
    visit(m, i, prices, pairs, m.columns, i, j, search);
    // The queue grows while it is read.
    while h < search.len {
        expand(m, i, prices, pairs, h, search);
        h += 1;
        if search.seen[k] != 0 {
            return;
        }
    }
}

// Row i goes to the lowest column that leaves the total least and the rows before it where they are.
fn lower(m: Matrix<'_>, i: usize, prices: &Prices, pairs: &mut Pairing, search: &mut Search)
    requires matrix { Fitting m.cells.now m.rows m.columns × (i < m.rows) × ((j : ℕ) → j < m.columns → at prices.now.w j ≤ big)
        × Settled m.cells.now m.rows m.columns i prices.now.u prices.now.w pairs.old.row_of pairs.old.col_of }
    ensures { Settled m.entry.cells.now m.entry.rows m.entry.columns (i + 1) prices.now.u prices.now.w pairs.new.row_of pairs.new.col_of }
{
    let k = pairs.col_of[i];
    pairs.row_of[m.columns] = i;
    tree::clear(&mut search.seen, m.columns);
    search.len = 0;
    for j in 0..k {
        reach(m, i, prices, pairs, j, k, search);
        if search.seen[k] != 0 {
            pairs.row_of[k] = m.rows;
            pairs.col_of[i] = m.columns;
            tree::augment(m, search, k, pairs);
            return;
        }
    }
}

// Each row in turn goes to the lowest column that leaves the total least.
pub(crate) fn settle(m: Matrix<'_>, prices: &Prices, pairs: &mut Pairing, search: &mut Search)
    requires matrix { Fitting m.cells.now m.rows m.columns
        × State m.cells.now m.rows m.columns m.rows prices.now.u prices.now.w pairs.old.row_of pairs.old.col_of }
    ensures { tab (at pairs.new.col_of) m.entry.rows ≡ lowest (cell_at m.entry.cells.now m.entry.columns) m.entry.rows m.entry.columns }
{
    for i in 0..m.rows {
        lower(m, i, prices, pairs, search);
    }
}
