// The choice of an n × cols matrix by the Hungarian method: first a choice with the least total and its prices (least), then among the least
// choices the one with the lowest columns (lowest), both over alternating trees (tree). Prices and trees are the method's own: `choose` makes
// them, and no answer depends on them.
#![tactic(auto)]

mod least;
mod lowest;
mod tree;

ghost use Rattle.std.specs.Prelude.{◌≡◌, ◌++◌, ℕ, ◌<◌, ◌≤◌, length, drop};
ghost use Rattle.laws.specs.Tables.{tab};
ghost use Rattle.assignment_problem.specs.Choice.{cell_at, total};
ghost use Rattle.assignment_problem.specs.Recursion.{lowest, least_total};
ghost use Rattle.alternating_tree.specs.Lists.{at};
ghost use Rattle.alternating_tree.specs.State.{Matrix as Fitting};

use assignment_problem::Matrix;
use tree::{Pairing, Prices, Search};

// The columns of the rows are written, and their cells added.
fn write(m: Matrix<'_>, col_of: &[usize; 32], places: &mut [u32]) -> u64
    requires matrix { Fitting m.cells.now m.rows m.columns × (m.rows ≤ length places.old) }
    requires by_index { (k : ℕ) → k < m.rows → at col_of.now k < m.columns }
    ensures total { result ≡ total m.entry.rows (cell_at m.entry.cells.now m.entry.columns) (at col_of.now) }
    ensures columns { places.new ≡ tab (at col_of.now) m.entry.rows ++ drop m.entry.rows places.old }
{
    let mut total = 0;
    for i in 0..m.rows {
        let j = col_of[i];
        total += m.at(i, j);
        places[i] = j as u32;
    }
    total
}

// The lowest columns among the least choices of a matrix with cells up to 2^55: they stand first in places, and the answer is the total.
pub fn choose(cells: &[u64], n: usize, cols: usize, places: &mut [u32]) -> u64
    requires { Fitting cells.now n cols × (n ≤ length places.old) }
    ensures total { result ≡ least_total (cell_at cells.now cols) n cols }
    ensures columns { places.new ≡ lowest (cell_at cells.now cols) n cols ++ drop n places.old }
{
    let m = Matrix {
        cells,
        rows: n,
        columns: cols,
    };
    let mut prices = Prices {
        u: [0; 32],
        w: [0; 65],
    };
    let mut pairs = Pairing {
        row_of: [n; 65],
        col_of: [0; 32],
    };
    let mut search = Search {
        dist: [0; 65],
        from: [0; 65],
        seen: [0; 65],
        queue: [0; 65],
        len: 0,
    };
    least::solve(m, &mut prices, &mut pairs, &mut search);
    lowest::settle(m, &prices, &mut pairs, &mut search);
    write(m, &pairs.col_of, places)
}
