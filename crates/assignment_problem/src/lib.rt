// The assignment problem: its definitions and theorems stand in specs/ and proofs/. The code is the matrix alone, whose cells are read in one place.
#![tactic(auto)]

ghost use Rattle.std.specs.Prelude.{◌≡◌, ◌+◌, ◌*◌, ◌<◌, length};
ghost use Rattle.assignment_problem.specs.Choice.{cell_at};

// Rows of so many columns each: the cells, row by row.
#[derive(Clone, Copy)]
pub struct Matrix<'a> {
    pub cells: &'a [u64],
    pub rows: usize,
    pub columns: usize,
}

impl<'a> Matrix<'a> {
    // The cell of row i and column j.
    #[inline]
    pub fn at(self, i: usize, j: usize) -> u64
        requires { i * self.columns + j < length self.cells.now }
        ensures { result ≡ cell_at self.entry.cells.now self.entry.columns i j }
    {
        self.cells[i * self.columns + j]
    }
}
