// Cells with their marks, for the matcher: 64 for each unit of a cell, and 1 more for a car that is left standing.
#![tactic(auto)]

ghost use Rattle.std.specs.Prelude.{◌≡◌, ◌++◌, ℕ, ◌≤◌, length, get_or, drop};
ghost use Rattle.laws.specs.Tables.{tab};
ghost use Rattle.assignment_problem.specs.Choice.{sentinel};
ghost use Rattle.assignment_problem.specs.Marked.{mark};
ghost use Rattle.marks.specs.Marks.{mark_at};

// A cell with its mark: the quotient is 1 for the sentinel and 0 below it.
fn mark(cell: u64) -> u64
    requires { cell ≤ sentinel }
    ensures { result ≡ mark cell }
{
    64 * cell + cell / 281474976710656
}

// The cells stand first in marks, each with its mark.
pub fn mark_cells(cells: &[u64], marks: &mut [u64])
    requires { (length cells.now ≤ length marks.old) × ((k : ℕ) → get_or cells.now k 0 ≤ sentinel) }
    ensures { let k = length cells.now in (length marks.new ≡ length marks.old)
        × (marks.new ≡ tab (mark_at cells.now) k ++ drop k marks.old) }
{
    for k in 0..cells.len() {
        marks[k] = mark(cells[k]);
    }
}
